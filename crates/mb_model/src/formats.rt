//! Laws of the formats: that each is clear, and how long its spellings can be.

ghost use Rattle.std.specs.Prelude.{◌≡◌, ℕ};
ghost use Rattle.mb_format.specs.Format.{IsClear, IsClearWhole, IsShort};
ghost use Rattle.mb_format.specs.Reading.{IsLocal};
ghost use Rattle.mb_model.specs.declared.key.PublicKey.{PublicKey};
ghost use Rattle.mb_model.specs.signatures.Key.{key_bytes};
ghost use Rattle.mb_model.specs.records.KeyFormat.{public_key_format, key_seed_format, keyfile_format};
ghost use Rattle.mb_model.specs.records.LayerFormat.{trust_format, layer_format, layers_format};
ghost use Rattle.mb_model.specs.records.EntryFormat.{entry_format, signed_entry_format};
ghost use Rattle.mb_model.specs.records.OrderFormat.{target_format, body_format, order_format};
ghost use Rattle.mb_model.specs.records.ChainFormat.{statement_format, chain_format};
ghost use Rattle.mb_model.specs.records.RootFormat.{region_key_format, root_format};
ghost use Rattle.mb_model.specs.records.RegionFormat.{secret_format, region_format};
ghost use Rattle.mb_model.specs.memories.PublicRecord.{public_entry_format, public_format};
ghost use Rattle.mb_model.specs.records.HeaderFormat.{slot_format, header_format, log_format};
ghost use Rattle.mb_model.specs.declared.limits.TheConstants.{STATEMENT_LIMIT, REGION_LIMIT};

/// At each offset of arbitrary bytes either one value of the format is spelled, or one offset fails.
pub fn formats_are_clear()
    ensures public_key { IsClear public_key_format }
    ensures key_seed { IsClear key_seed_format }
    ensures keyfile { IsClear keyfile_format }
    ensures trust { IsClear trust_format }
    ensures layer { (version : ℕ) → IsClear (layer_format version) }
    ensures layers { (version : ℕ) → IsClear (layers_format version) }
    ensures entry { IsClear entry_format }
    ensures signed_entry { IsClear signed_entry_format }
    ensures target { IsClear target_format }
    ensures body { IsClear body_format }
    ensures order { IsClear order_format }
    ensures statement { IsClear statement_format }
    ensures chain { IsClear chain_format }
    ensures region_key { IsClear region_key_format }
    ensures root { IsClear root_format }
    ensures secret { IsClear secret_format }
    ensures region { IsClear region_format }
    ensures public_entry { IsClear public_entry_format }
    ensures public_record { IsClear public_format }
    ensures slot { IsClear slot_format }
    ensures header { IsClear header_format }
    ensures log_sector { IsClear log_format }
{}

/// Arbitrary bytes as a whole either spell one value of the format or fail at one offset: the one after the last field,
/// if bytes are left there.
pub fn whole_formats_are_clear()
    ensures public_key { IsClearWhole public_key_format }
    ensures keyfile { IsClearWhole keyfile_format }
    ensures order { IsClearWhole order_format }
    ensures statement { IsClearWhole statement_format }
    ensures chain { IsClearWhole chain_format }
    ensures root { IsClearWhole root_format }
    ensures region { IsClearWhole region_format }
    ensures public_record { IsClearWhole public_format }
{}

/// How many bytes a spelling has at most.
pub fn formats_are_short()
    ensures public_key { IsShort public_key_format 56 }
    ensures keyfile { IsShort keyfile_format 56 }
    ensures entry { IsShort entry_format 358 }
    ensures order { IsShort order_format 61034 }
    ensures statement { IsShort statement_format STATEMENT_LIMIT }
    ensures chain { IsShort chain_format 348889 }
    ensures root { IsShort root_format 229 }
    ensures region { IsShort region_format REGION_LIMIT }
    ensures public_record { IsShort public_format 444818 }
    ensures header { IsShort header_format 826 }
    ensures log_sector { IsShort log_format 2750 }
{}

/// Reading an order looks at no more bytes than the longest order has.
pub fn orders_are_local()
    ensures { IsLocal order_format 61034 }
{}

/// A public key is spelled as the bytes that are hashed and signed.
pub fn keys_are_spelled()
    ensures { (key : PublicKey) → public_key_format.spelling key ≡ key_bytes key }
{}
