//! Bytes that are spelled in hexadecimal.

ghost use Rattle.std.specs.Prelude.{◌≤◌, vec_len, IfOk};
ghost use Rattle.mb_model.specs.records.EntryFormat.{entry_format};

use mb_bytes::Cursor;
use mb_layout::read_entry;
use mb_model::Entry;
use std::alloc::Global;
use std::test::Fail;

/// Appends what the text spells, `times` times.
fn append(out: &mut Vec<u8>, alloc: Global, text: &str, times: usize) -> Result<(), Fail> {
    let piece = hex::decode(alloc, text)?;
    for _i in 0..times {
        out.extend_from_slice(piece.as_slice())?;
    }
    Ok(())
}

/// The bytes of a vector, at most 4,000 of them.
pub fn bytes_of(alloc: Global, text: &str) -> Result<Vec<u8>, Fail>
    ensures { IfOk result (λ bytes. vec_len bytes ≤ 4000) }
{
    let mut bytes = hex::decode(alloc, text)?;
    bytes.truncate(4_000);
    Ok(bytes)
}

/// What the pieces spell, each as often as its number says.
pub fn joined(alloc: Global, pieces: &[(&str, usize)]) -> Result<Vec<u8>, Fail>
    ensures { IfOk result (λ bytes. vec_len bytes ≤ 100000) }
{
    let mut bytes = Vec::new(alloc);
    for (text, times) in pieces {
        append(&mut bytes, alloc, text, *times)?;
    }
    bytes.truncate(100_000);
    Ok(bytes)
}

/// The entry that the text spells.
pub fn entry_of(alloc: Global, text: &str) -> Result<Entry, Fail>
    ensures { IfOk result (λ entry. entry_format.Allowed entry) }
{
    let bytes = bytes_of(alloc, text)?;
    Ok(read_entry(&mut Cursor::new(bytes.as_slice()))?)
}
