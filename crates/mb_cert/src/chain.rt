//! Whole chains of certificates.

ghost use Rattle.std.specs.Prelude.{◌<◌, ◌≤◌, length};
ghost use Rattle.mb_model.specs.declared.limits.TheConstants.{FILE_LIMIT};
ghost use Rattle.mb_model.specs.records.ChainFormat.{chain_format};
ghost use Rattle.mb_bytes.specs.Reads.{Reads, ReadsWhole};
ghost use Rattle.mb_bytes.specs.Puts.{Puts, Writes};
ghost use Rattle.mb_bytes.specs.Ends.{end_at};
ghost use Rattle.mb_cert.specs.Parts.{chain_entries_format};

use crate::end::ChainEnd;
use crate::statement::StatementField;
use mb_bytes::{
    Cursor, Field, WriteField, items_at, optional_at, put_items, put_optional, put_slice, put_u16,
    read_whole, u16_between, word_at, write_field,
};
use mb_layout::EntryField;
use mb_model::{BadRecord, Chain, ENTRY_LIMIT, Log, NoMemory, SignedEntry};
use std::alloc::Global;

/// The word with which the bytes of a chain begin.
const WORD: [u8; 4] = *b"MBC1";

/// The chain that all of the bytes spell, at most 4,194,304 of them.
///
/// Errors: `Bad` with the offset of the first field that lacks bytes or is not allowed, or of the first byte after
/// the last field; and `NoMemory`.
pub fn read_chain(alloc: Global, bytes: &[u8]) -> Result<Chain, ChainEnd>
    requires { length bytes.now ≤ FILE_LIMIT }
    ensures { ReadsWhole end_at chain_format bytes.now result }
{
    read_whole::<ChainField>(alloc, bytes)
}

/// A chain.
struct ChainField;

#[tactic(auto, unfolding(mb_model::specs::records::ChainFormat::chain_format, crate::specs::Parts::chain_entries_format))]
impl Field for ChainField {
    ghost use Rattle.mb_model.specs.records.ChainFormat.{chain_format};
    ghost use Rattle.mb_model.proofs.EntryFormatLaws.{chain_exact};

    type Value = Chain;

    type Needs = Global;

    type End = ChainEnd;

    ghost format = { chain_format };

    fn read_at(alloc: Global, cursor: &mut Cursor<'_>) -> Result<Chain, ChainEnd> {
        word_at(cursor, &WORD)?;
        let entries = entries_at(alloc, cursor)?;
        let statement = optional_at::<StatementField>(alloc, cursor)?;
        Ok(Chain { entries, statement })
    }

    ghost exact = { chain_exact };
}

#[tactic(auto, unfolding(mb_model::specs::records::ChainFormat::chain_format, crate::specs::Parts::chain_entries_format))]
impl WriteField for ChainField {
    ghost use Rattle.mb_cert.specs.Bounds.{ChainFits};

    ghost Fits = { ChainFits };

    fn put(chain: &Chain, out: &mut Vec<u8>) -> Result<(), NoMemory> {
        put_slice(out, &WORD)?;
        put_entries(out, chain.entries.as_slice())?;
        put_optional::<StatementField>(out, &chain.statement)
    }
}

/// The entries of a chain, after their number.
#[tactic(auto, unfolding(crate::specs::Parts::chain_entries_format))]
fn entries_at(alloc: Global, cursor: &mut Cursor<'_>) -> Result<Log, ChainEnd>
    ensures { Reads end_at chain_entries_format cursor.old result cursor.new }
{
    let count = u16_between(cursor, 1, ENTRY_LIMIT)?;
    items_at::<SignedEntryField>(alloc, (), cursor, count as u32)
}

/// An entry and its signature.
struct SignedEntryField;

#[tactic(auto, unfolding(mb_model::specs::records::EntryFormat::signed_entry_format))]
impl Field for SignedEntryField {
    ghost use Rattle.mb_model.specs.records.EntryFormat.{signed_entry_format};
    ghost use Rattle.mb_model.proofs.EntryFormatLaws.{signed_entry_exact};

    type Value = SignedEntry;

    type Needs = ();

    type End = BadRecord;

    ghost format = { signed_entry_format };

    fn read_at(_needs: (), cursor: &mut Cursor<'_>) -> Result<SignedEntry, BadRecord> {
        let entry = EntryField::read_at((), cursor)?;
        let signature = cursor.take_array()?;
        Ok(SignedEntry { entry, signature })
    }

    ghost exact = { signed_entry_exact };
}

#[tactic(auto, unfolding(mb_model::specs::records::EntryFormat::signed_entry_format))]
impl WriteField for SignedEntryField {
    ghost Fits = { λ _. Unit {0} };

    fn put(signed: &SignedEntry, out: &mut Vec<u8>) -> Result<(), NoMemory> {
        EntryField::put(&signed.entry, out)?;
        put_slice(out, &signed.signature)
    }
}

/// Appends the spelling of the chain, which has 1 to 128 entries, or leaves `out` as it was. It does not fail if the
/// capacity of `out` holds the spelling.
#[tactic(auto, using(crate::proofs::Sizes::chain_fits))]
pub fn write_chain(chain: &Chain, out: &mut Vec<u8>) -> Result<(), NoMemory>
    requires { chain_format.Allowed chain.now }
    ensures { Writes (chain_format.spelling chain.now) out.old result out.new }
{
    write_field::<ChainField>(chain, out)
}

/// Appends the number of the entries, and the entries.
#[tactic(auto, unfolding(crate::specs::Parts::chain_entries_format))]
fn put_entries(out: &mut Vec<u8>, entries: &[SignedEntry]) -> Result<(), NoMemory>
    requires { length entries.now < 65536 }
    ensures { Puts (chain_entries_format.spelling entries.now) out.old result out.new }
{
    put_u16(out, entries.len() as u16)?;
    put_items::<SignedEntryField>(out, entries)
}
