//! Entries of the log as bytes.

ghost use Rattle.std.specs.Prelude.{◌≡◌, IfOk};
ghost use Rattle.std.specs.Int.{w8};
ghost use Rattle.mb_format.specs.Combinators.{table};
ghost use Rattle.mb_model.specs.records.EntryFormat.{change_rows, change_byte, birth_tag, change_tag, entry_byte, pair_byte, pair_format, birth_format, change_format, new_key_format, succession_format, entry_format};
ghost use Rattle.mb_bytes.specs.Reads.{bad_at, Reads, ReadsExactly};
ghost use Rattle.mb_bytes.specs.Puts.{Puts, Writes};
ghost use Rattle.mb_layout.specs.Parts.{kept_bytes, changed_bytes, made_key_bytes};

use crate::layer::{layers_at, put_layers};
use mb_bytes::{
    Cursor, Field, WriteField, key_kind_at, optional_at, public_key_at, put_key_kind, put_optional,
    put_public_key, put_slice, put_u8, put_u32, read_field, u8_between, write_field,
};
use mb_model::{BadRecord, Bytes, ChangeKind, Entry, KeyKind, Layers, NoMemory, Pair, PublicKey};
use std::alloc::Global;

fn change_kind_at(cursor: &mut Cursor<'_>) -> Result<ChangeKind, BadRecord>
    ensures { Reads bad_at (table w8 change_rows change_byte) cursor.old result cursor.new }
{
    let at = cursor.offset();
    match cursor.take_u8()? {
        1 => Ok(ChangeKind::Establish),
        2 => Ok(ChangeKind::Surrender),
        3 => Ok(ChangeKind::Load),
        4 => Ok(ChangeKind::Emergency),
        _ => Err(BadRecord { at }),
    }
}

#[tactic(auto, unfolding(mb_model::specs::records::EntryFormat::pair_format))]
fn pair_at(cursor: &mut Cursor<'_>) -> Result<Pair, BadRecord>
    ensures { Reads bad_at pair_format cursor.old result cursor.new }
{
    let at = cursor.offset();
    match cursor.take_u8()? {
        0 => Ok(Pair {
            two: false,
            three: false,
        }),
        1 => Ok(Pair {
            two: true,
            three: false,
        }),
        2 => Ok(Pair {
            two: false,
            three: true,
        }),
        3 => Ok(Pair {
            two: true,
            three: true,
        }),
        _ => Err(BadRecord { at }),
    }
}

#[tactic(auto, unfolding(mb_model::specs::records::EntryFormat::birth_format))]
fn birth_at(cursor: &mut Cursor<'_>, version: u8) -> Result<Entry, BadRecord>
    ensures { Reads bad_at (birth_format version) cursor.old result cursor.new }
{
    let serial = cursor.take_array()?;
    let key = public_key_at(cursor)?;
    let layers = layers_at(cursor, version)?;
    Ok(Entry::Birth {
        version,
        serial,
        key,
        layers,
    })
}

#[tactic(auto, unfolding(mb_model::specs::records::EntryFormat::change_format))]
fn change_at(cursor: &mut Cursor<'_>, version: u8) -> Result<Entry, BadRecord>
    ensures { Reads bad_at (change_format version) cursor.old result cursor.new }
{
    let position = cursor.take_u32()?;
    let number = cursor.take_u32()?;
    let kind = change_kind_at(cursor)?;
    let layer = u8_between(cursor, 1, 3)?;
    let cosigned = pair_at(cursor)?;
    let kept = pair_at(cursor)?;
    let layers = layers_at(cursor, version)?;
    let next = optional_at::<PublicKey>((), cursor)?;
    Ok(Entry::Change {
        version,
        position,
        number,
        kind,
        layer,
        cosigned,
        layers,
        kept,
        next,
    })
}

#[tactic(auto, unfolding(mb_model::specs::records::EntryFormat::new_key_format))]
fn new_key_at(cursor: &mut Cursor<'_>) -> Result<Entry, BadRecord>
    ensures { Reads bad_at new_key_format cursor.old result cursor.new }
{
    let position = cursor.take_u32()?;
    let number = cursor.take_u32()?;
    let key_number = cursor.take_u32()?;
    let layer = u8_between(cursor, 2, 3)?;
    let kind = key_kind_at(cursor)?;
    let key = public_key_at(cursor)?;
    Ok(Entry::NewKey {
        position,
        number,
        key_number,
        layer,
        kind,
        key,
    })
}

#[tactic(auto, unfolding(mb_model::specs::records::EntryFormat::succession_format))]
fn succession_at(cursor: &mut Cursor<'_>) -> Result<Entry, BadRecord>
    ensures { Reads bad_at succession_format cursor.old result cursor.new }
{
    let position = cursor.take_u32()?;
    let key = public_key_at(cursor)?;
    Ok(Entry::Succession { position, key })
}

/// Reads an entry: its first byte says which of the four it is, and which version a birth or change has.
#[tactic(auto, unfolding(mb_model::specs::records::EntryFormat::entry_format))]
pub fn entry_at(cursor: &mut Cursor<'_>) -> Result<Entry, BadRecord>
    ensures { Reads bad_at entry_format cursor.old result cursor.new }
{
    let at = cursor.offset();
    match cursor.take_u8()? {
        0 => birth_at(cursor, 1),
        1 => change_at(cursor, 1),
        2 => new_key_at(cursor),
        3 => succession_at(cursor),
        16 => birth_at(cursor, 2),
        17 => change_at(cursor, 2),
        _ => Err(BadRecord { at }),
    }
}

/// The first byte of a birth of this version.
fn birth_number(version: u8) -> u8
    ensures { result ≡ entry_byte (birth_tag version) }
{
    if version == 1 { 0 } else { 16 }
}

/// The first byte of a change of this version.
fn change_number(version: u8) -> u8
    ensures { result ≡ entry_byte (change_tag version) }
{
    if version == 1 { 1 } else { 17 }
}

fn kind_number(kind: ChangeKind) -> u8
    ensures { result ≡ change_byte kind }
{
    match kind {
        ChangeKind::Establish => 1,
        ChangeKind::Surrender => 2,
        ChangeKind::Load => 3,
        ChangeKind::Emergency => 4,
    }
}

fn pair_number(pair: Pair) -> u8
    ensures { result ≡ pair_byte pair }
{
    match (pair.two, pair.three) {
        (false, false) => 0,
        (true, false) => 1,
        (false, true) => 2,
        (true, true) => 3,
    }
}

#[tactic(auto, unfolding(mb_model::specs::records::EntryFormat::pair_format))]
fn put_pair(out: &mut Vec<u8>, pair: Pair) -> Result<(), NoMemory>
    ensures { Puts (pair_format.spelling pair) out.old result out.new }
{
    put_u8(out, pair_number(pair))
}

fn put_kept(
    out: &mut Vec<u8>,
    version: u8,
    kept: Pair,
    layers: &Layers,
    next: &Option<PublicKey>,
) -> Result<(), NoMemory>
    ensures { Puts (kept_bytes version kept layers.now next.now) out.old result out.new }
{
    put_pair(out, kept)?;
    put_layers(out, layers, version)?;
    put_optional::<PublicKey>(out, next)
}

fn put_changed(
    out: &mut Vec<u8>,
    version: u8,
    kind: ChangeKind,
    layer: u8,
    cosigned: Pair,
    kept: Pair,
    layers: &Layers,
    next: &Option<PublicKey>,
) -> Result<(), NoMemory>
    ensures { Puts (changed_bytes version kind layer cosigned kept layers.now next.now)
        out.old result out.new }
{
    put_u8(out, kind_number(kind))?;
    put_u8(out, layer)?;
    put_pair(out, cosigned)?;
    put_kept(out, version, kept, layers, next)
}

fn put_made_key(
    out: &mut Vec<u8>,
    key_number: u32,
    layer: u8,
    kind: KeyKind,
    key: &PublicKey,
) -> Result<(), NoMemory>
    ensures { Puts (made_key_bytes key_number layer kind key.now) out.old result out.new }
{
    put_u32(out, key_number)?;
    put_u8(out, layer)?;
    put_key_kind(out, kind)?;
    put_public_key(out, key)
}

/// Appends an entry: its first byte says which of the four it is, and which version a birth or change has.
#[tactic(auto, unfolding(mb_model::specs::records::EntryFormat::birth_format, mb_model::specs::records::EntryFormat::change_format, mb_model::specs::records::EntryFormat::new_key_format, mb_model::specs::records::EntryFormat::succession_format, mb_model::specs::records::EntryFormat::entry_format))]
pub fn put_entry(out: &mut Vec<u8>, entry: &Entry) -> Result<(), NoMemory>
    ensures { Puts (entry_format.spelling entry.now) out.old result out.new }
{
    match entry {
        Entry::Birth {
            version,
            serial,
            key,
            layers,
        } => {
            put_u8(out, birth_number(*version))?;
            put_slice(out, serial)?;
            put_public_key(out, key)?;
            put_layers(out, layers, *version)
        }
        Entry::Change {
            version,
            position,
            number,
            kind,
            layer,
            cosigned,
            layers,
            kept,
            next,
        } => {
            put_u8(out, change_number(*version))?;
            put_u32(out, *position)?;
            put_u32(out, *number)?;
            put_changed(out, *version, *kind, *layer, *cosigned, *kept, layers, next)
        }
        Entry::NewKey {
            position,
            number,
            key_number,
            layer,
            kind,
            key,
        } => {
            put_u8(out, 2)?;
            put_u32(out, *position)?;
            put_u32(out, *number)?;
            put_made_key(out, *key_number, *layer, *kind, key)
        }
        Entry::Succession { position, key } => {
            put_u8(out, 3)?;
            put_u32(out, *position)?;
            put_public_key(out, key)
        }
    }
}

/// An entry of the log.
pub struct EntryField;

impl Field for EntryField {
    ghost use Rattle.mb_model.specs.records.EntryFormat.{entry_format};
    ghost use Rattle.mb_model.proofs.EntryFormatLaws.{entry_exact};

    type Value = Entry;

    type Needs = ();

    type End = BadRecord;

    ghost format = { entry_format };

    fn read_at(_needs: (), cursor: &mut Cursor<'_>) -> Result<Entry, BadRecord> {
        entry_at(cursor)
    }

    ghost exact = { entry_exact };
}

impl WriteField for EntryField {
    ghost Fits = { λ _. Unit {0} };

    fn put(entry: &Entry, out: &mut Vec<u8>) -> Result<(), NoMemory> {
        put_entry(out, entry)
    }
}

/// The entry spelled at the cursor's offset; the cursor then stands after it. Else the offset of the first field that
/// lacks bytes or is not allowed, and the cursor is unchanged.
pub fn read_entry(c: &mut Cursor<'_>) -> Result<Entry, BadRecord>
    ensures { ReadsExactly bad_at entry_format c.old result c.new }
{
    read_field::<EntryField>((), c)
}

/// Appends the spelling of the entry, or leaves `out` as it was. `Ok` if the capacity of `out` holds it. An entry of
/// version 1 that names a layer whose trusts differ has no spelling.
pub fn write_entry(entry: &Entry, out: &mut Vec<u8>) -> Result<(), NoMemory>
    requires { entry_format.Allowed entry.now }
    ensures { Writes (entry_format.spelling entry.now) out.old result out.new }
{
    write_field::<EntryField>(entry, out)
}

/// The spelling of the entry, as bytes of its own.
pub fn entry_bytes(alloc: Global, entry: &Entry) -> Result<Bytes, NoMemory>
    requires { entry_format.Allowed entry.now }
    ensures { IfOk result (λ spelling. spelling ≡ entry_format.spelling entry.now) }
{
    let mut spelling = Vec::new(alloc);
    write_entry(entry, &mut spelling)?;
    Ok(Bytes::from_vec(spelling))
}
