//! Layers as bytes.

ghost use Rattle.std.specs.Prelude.{◌≡◌, ◌⊎◌};
ghost use Rattle.mb_model.specs.records.LayerFormat.{has_nothing, has_owner, has_code, has_reliable_code, layer_by, trust_by, trust_format, one_trust, two_trusts, trusts_of, code_name_format, layer_format, layers_format};
ghost use Rattle.mb_bytes.specs.Reads.{bad_at, Reads, ReadsExactly};
ghost use Rattle.mb_bytes.specs.Puts.{Puts, Writes};
ghost use Rattle.mb_layout.specs.Parts.{loaded_byte};

use mb_bytes::{
    Cursor, one_trust_at, public_key_at, put_public_key, put_slice, put_trust, put_u8, put_u32,
    trust_at,
};
use mb_model::{BadRecord, CodeName, Layer, Layers, NoMemory, Trust, Trusts};

#[tactic(auto, unfolding(mb_model::specs::records::LayerFormat::code_name_format))]
fn code_name_at(cursor: &mut Cursor<'_>) -> Result<CodeName, BadRecord>
    ensures { Reads bad_at code_name_format cursor.old result cursor.new }
{
    let hash = cursor.take_array()?;
    let version = cursor.take_u32()?;
    Ok(CodeName { hash, version })
}

fn never_at(cursor: &mut Cursor<'_>) -> Result<Trust, BadRecord>
    ensures { Reads bad_at (trust_by has_nothing) cursor.old result cursor.new }
{
    let at = cursor.offset();
    match cursor.take_u8()? {
        1 => Ok(Trust::Never),
        _ => Err(BadRecord { at }),
    }
}

fn one_never_at(cursor: &mut Cursor<'_>) -> Result<Trusts, BadRecord>
    ensures { Reads bad_at (one_trust (trust_by has_nothing)) cursor.old result cursor.new }
{
    Ok(Trusts::equal(never_at(cursor)?))
}

fn two_nevers_at(cursor: &mut Cursor<'_>) -> Result<Trusts, BadRecord>
    ensures { Reads bad_at (two_trusts (trust_by has_nothing)) cursor.old result cursor.new }
{
    let one = never_at(cursor)?;
    let two = never_at(cursor)?;
    Ok(Trusts { one, two })
}

/// Reads the trusts of a layer without an owner, in an entry of this version.
fn nevers_at(cursor: &mut Cursor<'_>, version: u8) -> Result<Trusts, BadRecord>
    ensures { Reads bad_at (trusts_of version (trust_by has_nothing)) cursor.old result cursor.new }
{
    if version == 1 {
        one_never_at(cursor)
    } else {
        two_nevers_at(cursor)
    }
}

fn two_trusts_at(cursor: &mut Cursor<'_>) -> Result<Trusts, BadRecord>
    ensures { Reads bad_at (two_trusts trust_format) cursor.old result cursor.new }
{
    let one = trust_at(cursor)?;
    let two = trust_at(cursor)?;
    Ok(Trusts { one, two })
}

/// Reads the trusts of a layer with an owner, in an entry of this version.
fn trusts_at(cursor: &mut Cursor<'_>, version: u8) -> Result<Trusts, BadRecord>
    ensures { Reads bad_at (trusts_of version trust_format) cursor.old result cursor.new }
{
    if version == 1 {
        one_trust_at(cursor)
    } else {
        two_trusts_at(cursor)
    }
}

fn unowned_at(cursor: &mut Cursor<'_>, version: u8) -> Result<Layer, BadRecord>
    ensures { Reads bad_at (layer_by version has_nothing) cursor.old result cursor.new }
{
    let trust = nevers_at(cursor, version)?;
    Ok(Layer {
        owner: None,
        code: None,
        reliable: false,
        trust,
    })
}

fn owned_at(cursor: &mut Cursor<'_>, version: u8) -> Result<Layer, BadRecord>
    ensures { Reads bad_at (layer_by version has_owner) cursor.old result cursor.new }
{
    let trust = trusts_at(cursor, version)?;
    let owner = public_key_at(cursor)?;
    Ok(Layer {
        owner: Some(owner),
        code: None,
        reliable: false,
        trust,
    })
}

fn loaded_at(cursor: &mut Cursor<'_>, version: u8) -> Result<Layer, BadRecord>
    ensures { Reads bad_at (layer_by version has_code) cursor.old result cursor.new }
{
    let trust = trusts_at(cursor, version)?;
    let owner = public_key_at(cursor)?;
    let code = code_name_at(cursor)?;
    Ok(Layer {
        owner: Some(owner),
        code: Some(code),
        reliable: false,
        trust,
    })
}

fn reliable_at(cursor: &mut Cursor<'_>, version: u8) -> Result<Layer, BadRecord>
    ensures { Reads bad_at (layer_by version has_reliable_code) cursor.old result cursor.new }
{
    let trust = trusts_at(cursor, version)?;
    let owner = public_key_at(cursor)?;
    let code = code_name_at(cursor)?;
    Ok(Layer {
        owner: Some(owner),
        code: Some(code),
        reliable: true,
        trust,
    })
}

/// Reads a layer in an entry of this version: a byte that says what it has, its trusts, its owner and its code name.
#[tactic(auto, unfolding(mb_model::specs::records::LayerFormat::layer_format))]
pub fn layer_at(cursor: &mut Cursor<'_>, version: u8) -> Result<Layer, BadRecord>
    ensures { Reads bad_at (layer_format version) cursor.old result cursor.new }
{
    let at = cursor.offset();
    match cursor.take_u8()? {
        0 => unowned_at(cursor, version),
        1 => owned_at(cursor, version),
        3 => loaded_at(cursor, version),
        7 => reliable_at(cursor, version),
        _ => Err(BadRecord { at }),
    }
}

/// Reads three layers in an entry of this version, from the first on.
#[tactic(auto, unfolding(mb_model::specs::records::LayerFormat::layers_format))]
pub fn layers_at(cursor: &mut Cursor<'_>, version: u8) -> Result<Layers, BadRecord>
    ensures { Reads bad_at (layers_format version) cursor.old result cursor.new }
{
    let one = layer_at(cursor, version)?;
    let two = layer_at(cursor, version)?;
    let three = layer_at(cursor, version)?;
    Ok(Layers { one, two, three })
}

#[tactic(auto, unfolding(mb_model::specs::records::LayerFormat::code_name_format))]
fn put_code_name(out: &mut Vec<u8>, name: &CodeName) -> Result<(), NoMemory>
    ensures { Puts (code_name_format.spelling name.now) out.old result out.new }
{
    put_slice(out, &name.hash)?;
    put_u32(out, name.version)
}

fn loaded_number(reliable: bool) -> u8
    ensures { result ≡ loaded_byte reliable }
{
    if reliable { 7 } else { 3 }
}

/// Appends the trusts of a layer for an entry of this version. Version 1 spells the first, for both.
fn put_trusts(out: &mut Vec<u8>, trusts: Trusts, version: u8) -> Result<(), NoMemory>
    ensures { Puts ((trusts_of version trust_format).spelling trusts) out.old result out.new }
{
    put_trust(out, trusts.one)?;
    if version == 1 {
        return Ok(());
    }
    put_trust(out, trusts.two)
}

/// Appends a layer for an entry of this version: what it has, its trusts, its owner and its code name.
#[tactic(auto, unfolding(mb_model::specs::records::LayerFormat::layer_format))]
pub fn put_layer(out: &mut Vec<u8>, layer: &Layer, version: u8) -> Result<(), NoMemory>
    ensures { Puts ((layer_format version).spelling layer.now) out.old result out.new }
{
    match (&layer.owner, &layer.code) {
        (None, _) => {
            put_u8(out, 0)?;
            put_trusts(out, layer.trust, version)
        }
        (Some(owner), None) => {
            put_u8(out, 1)?;
            put_trusts(out, layer.trust, version)?;
            put_public_key(out, owner)
        }
        (Some(owner), Some(name)) => {
            put_u8(out, loaded_number(layer.reliable))?;
            put_trusts(out, layer.trust, version)?;
            put_public_key(out, owner)?;
            put_code_name(out, name)
        }
    }
}

/// Appends three layers for an entry of this version, from the first on.
#[tactic(auto, unfolding(mb_model::specs::records::LayerFormat::layers_format))]
pub fn put_layers(out: &mut Vec<u8>, layers: &Layers, version: u8) -> Result<(), NoMemory>
    ensures { Puts ((layers_format version).spelling layers.now) out.old result out.new }
{
    put_layer(out, &layers.one, version)?;
    put_layer(out, &layers.two, version)?;
    put_layer(out, &layers.three, version)
}

/// The layer spelled at the cursor's offset in the form of entries of this version, 1 or 2. The cursor then stands
/// after it. Else the offset of the first field that lacks bytes or is not allowed, and the cursor is unchanged.
pub fn read_layer(c: &mut Cursor<'_>, version: u8) -> Result<Layer, BadRecord>
    requires { (version ≡ 1) ⊎ (version ≡ 2) }
    ensures { ReadsExactly bad_at (layer_format version) c.old result c.new }
{
    let mut ahead = *c;
    let layer = layer_at(&mut ahead, version)?;
    *c = ahead;
    Ok(layer)
}

/// Appends the layer's spelling in the form of entries of this version, 1 or 2, or leaves `out` as it was. The layer
/// has to have a spelling: version 1 spells a layer only if its trusts are equal. `Ok` if the capacity of `out` holds
/// the bytes.
pub fn write_layer(layer: &Layer, out: &mut Vec<u8>, version: u8) -> Result<(), NoMemory>
    requires version { (version ≡ 1) ⊎ (version ≡ 2) }
    requires spelled { (layer_format version).Allowed layer.now }
    ensures { Writes ((layer_format version).spelling layer.now) out.old result out.new }
{
    let length = out.len();
    match put_layer(out, layer, version) {
        Ok(()) => Ok(()),
        Err(error) => {
            out.truncate(length);
            Err(error)
        }
    }
}
