//! Public records as bytes, both ways.

ghost use Rattle.std.specs.Prelude.{◌<◌, ◌≤◌, [], ◌∷◌, length};
ghost use Rattle.mb_format.specs.Combinators.{mark};
ghost use Rattle.mb_model.specs.declared.limits.TheConstants.{FILE_LIMIT};
ghost use Rattle.mb_model.specs.memories.PublicRecord.{codes_format, public_format};
ghost use Rattle.mb_bytes.specs.Reads.{bad_at, Reads, ReadsExactly, ReadsWhole};
ghost use Rattle.mb_bytes.specs.Puts.{Puts, Writes};
ghost use Rattle.mb_bytes.specs.Ends.{end_at};
ghost use Rattle.mb_migrate.specs.Bounds.{CodesFit};
ghost use Rattle.mb_migrate.specs.Parts.{entries_format};

use mb_bytes::{
    Cursor, Field, ReadEnd, WriteField, bytes_after_u32, items_at, optional_at, put_after_u32,
    put_items, put_optional, put_slice, put_u16, read_field, read_whole, u16_between, write_field,
};
use mb_layout::EntryField;
use mb_model::{
    BadRecord, Bytes, CODE_LIMIT, Codes, ENTRY_LIMIT, NoMemory, Public, PublicEntries, PublicEntry,
    SIGNATURE_LENGTH,
};
use std::alloc::Global;

/// The version of a public record.
const VERSION: [u8; 1] = [1];

/// The public record spelled at the cursor's offset; the cursor then stands after it. After an error the cursor is
/// unchanged: `Bad` with the offset of the first field that lacks bytes or is not allowed, or `NoMemory`.
pub fn read_public(alloc: Global, c: &mut Cursor<'_>) -> Result<Public, ReadEnd>
    ensures { ReadsExactly end_at public_format c.old result c.new }
{
    read_field::<PublicField>(alloc, c)
}

/// The public record that these bytes spell, at most 4,194,304 of them. Else `Bad` with the offset of the first field
/// that lacks bytes or is not allowed, or of the first byte after the last field; or `NoMemory`.
pub fn public_of_bytes(alloc: Global, bytes: &[u8]) -> Result<Public, ReadEnd>
    requires { length bytes.now ≤ FILE_LIMIT }
    ensures { ReadsWhole end_at public_format bytes.now result }
{
    read_whole::<PublicField>(alloc, bytes)
}

/// Appends the spelling of the public record, or leaves `out` as it was. `Ok` if the capacity of `out` holds it.
#[tactic(auto, using(crate::proofs::Sizes::public_fits))]
pub fn write_public_record(public: &Public, out: &mut Vec<u8>) -> Result<(), NoMemory>
    requires { public_format.Allowed public.now }
    ensures { Writes (public_format.spelling public.now) out.old result out.new }
{
    write_field::<PublicField>(public, out)
}

/// A public record: its version, the codes, and the entries.
struct PublicField;

#[tactic(auto, unfolding(mb_model::specs::memories::PublicRecord::public_format, crate::specs::Parts::entries_format))]
impl Field for PublicField {
    ghost use Rattle.mb_model.specs.memories.PublicRecord.{public_format};
    ghost use Rattle.mb_model.proofs.RecordFormatLaws.{public_exact};

    type Value = Public;

    type Needs = Global;

    type End = ReadEnd;

    ghost format = { public_format };

    fn read_at(alloc: Global, cursor: &mut Cursor<'_>) -> Result<Public, ReadEnd> {
        version_at(cursor)?;
        let codes = codes_at(alloc, cursor)?;
        let entries = entries_at(alloc, cursor)?;
        Ok(Public { codes, entries })
    }

    ghost exact = { public_exact };
}

#[tactic(auto, unfolding(mb_model::specs::memories::PublicRecord::public_format, crate::specs::Parts::entries_format))]
impl WriteField for PublicField {
    ghost use Rattle.mb_migrate.specs.Bounds.{PublicFits};

    ghost Fits = { PublicFits };

    fn put(public: &Public, out: &mut Vec<u8>) -> Result<(), NoMemory> {
        put_slice(out, &VERSION)?;
        put_codes(out, &public.codes)?;
        put_entries(out, public.entries.as_slice())
    }
}

/// Reads the version.
fn version_at(cursor: &mut Cursor<'_>) -> Result<(), BadRecord>
    ensures { Reads bad_at (mark (1 ∷ [])) cursor.old result cursor.new }
{
    let at = cursor.offset();
    let version = cursor.take_array::<1>()?;
    if version != VERSION {
        return Err(BadRecord { at });
    }
    Ok(())
}

/// Reads the codes of the layers.
#[tactic(auto, unfolding(mb_model::specs::memories::PublicRecord::code_format, mb_model::specs::memories::PublicRecord::codes_format))]
fn codes_at(alloc: Global, cursor: &mut Cursor<'_>) -> Result<Codes, ReadEnd>
    ensures { Reads end_at codes_format cursor.old result cursor.new }
{
    let one = optional_at::<CodeField>(alloc, cursor)?;
    let two = optional_at::<CodeField>(alloc, cursor)?;
    let three = optional_at::<CodeField>(alloc, cursor)?;
    Ok(Codes { one, two, three })
}

/// The code of a layer after its length, copied.
struct CodeField;

impl Field for CodeField {
    ghost use Rattle.std.specs.Int.{w32};
    ghost use Rattle.std.proofs.Common.{lit<};
    ghost use Rattle.mb_format.specs.Combinators.{between, sized};
    ghost use Rattle.mb_format.proofs.Fields.{wide32, between_exact};
    ghost use Rattle.mb_format.proofs.Compositions.{sized_exact};
    ghost use Rattle.mb_model.specs.declared.limits.TheConstants.{CODE_LIMIT};

    type Value = Bytes;

    type Needs = Global;

    type End = ReadEnd;

    ghost format = { sized (between w32 0 CODE_LIMIT) };

    fn read_at(alloc: Global, cursor: &mut Cursor<'_>) -> Result<Bytes, ReadEnd> {
        Ok(Bytes::copy(alloc, bytes_after_u32(cursor, 0, CODE_LIMIT)?)?)
    }

    ghost exact = { sized_exact (between_exact wide32 (lit< tt)) };
}

impl WriteField for CodeField {
    ghost use Rattle.mb_migrate.specs.Bounds.{CodeFits};

    ghost Fits = { CodeFits };

    fn put(code: &Bytes, out: &mut Vec<u8>) -> Result<(), NoMemory> {
        put_after_u32(out, code.as_slice())
    }
}

/// Reads the entries after their number.
#[tactic(auto, unfolding(crate::specs::Parts::entries_format))]
fn entries_at(alloc: Global, cursor: &mut Cursor<'_>) -> Result<PublicEntries, ReadEnd>
    ensures { Reads end_at entries_format cursor.old result cursor.new }
{
    let count = u16_between(cursor, 1, ENTRY_LIMIT)?;
    items_at::<PublicEntryField>(alloc, (), cursor, count as u32)
}

/// An entry, and its signature if it is signed.
struct PublicEntryField;

#[tactic(auto, unfolding(mb_model::specs::memories::PublicRecord::public_entry_format))]
impl Field for PublicEntryField {
    ghost use Rattle.mb_model.specs.memories.PublicRecord.{public_entry_format};
    ghost use Rattle.mb_model.proofs.RecordFormatLaws.{public_entry_exact};

    type Value = PublicEntry;

    type Needs = ();

    type End = BadRecord;

    ghost format = { public_entry_format };

    fn read_at(_needs: (), cursor: &mut Cursor<'_>) -> Result<PublicEntry, BadRecord> {
        let entry = EntryField::read_at((), cursor)?;
        let signature = optional_at::<[u8; SIGNATURE_LENGTH]>((), cursor)?;
        Ok(PublicEntry { entry, signature })
    }

    ghost exact = { public_entry_exact };
}

#[tactic(auto, unfolding(mb_model::specs::memories::PublicRecord::public_entry_format))]
impl WriteField for PublicEntryField {
    ghost Fits = { λ _. Unit {0} };

    fn put(stored: &PublicEntry, out: &mut Vec<u8>) -> Result<(), NoMemory> {
        EntryField::put(&stored.entry, out)?;
        put_optional::<[u8; SIGNATURE_LENGTH]>(out, &stored.signature)
    }
}

/// Appends the codes of the layers.
#[tactic(auto, unfolding(mb_model::specs::memories::PublicRecord::code_format, mb_model::specs::memories::PublicRecord::codes_format))]
fn put_codes(out: &mut Vec<u8>, codes: &Codes) -> Result<(), NoMemory>
    requires { CodesFit codes.now }
    ensures { Puts (codes_format.spelling codes.now) out.old result out.new }
{
    put_optional::<CodeField>(out, &codes.one)?;
    put_optional::<CodeField>(out, &codes.two)?;
    put_optional::<CodeField>(out, &codes.three)
}

/// Appends the number of the entries, and the entries.
#[tactic(auto, unfolding(crate::specs::Parts::entries_format))]
fn put_entries(out: &mut Vec<u8>, entries: &[PublicEntry]) -> Result<(), NoMemory>
    requires { length entries.now < 65536 }
    ensures { Puts (entries_format.spelling entries.now) out.old result out.new }
{
    put_u16(out, entries.len() as u16)?;
    put_items::<PublicEntryField>(out, entries)
}
