//! Bytes and texts of several pieces.

ghost use Rattle.std.specs.Prelude.{◌≤◌, vec_len, IfOk};

use std::alloc::Global;
use std::test::Fail;

/// The bytes that a word in hexadecimal spells, the first 4,000 of them.
pub fn bytes_of(alloc: Global, text: &str) -> Result<Vec<u8>, Fail>
    ensures { IfOk result (λ bytes. vec_len bytes ≤ 4000) }
{
    let mut bytes = hex::decode(alloc, text)?;
    bytes.truncate(4_000);
    Ok(bytes)
}

/// Appends what the word in hexadecimal spells this many times.
fn append(out: &mut Vec<u8>, alloc: Global, text: &str, times: usize) -> Result<(), Fail> {
    let piece = hex::decode(alloc, text)?;
    for _i in 0..times {
        out.extend_from_slice(piece.as_slice())?;
    }
    Ok(())
}

/// The bytes that the pieces spell in hexadecimal, each repeated its number of times.
pub fn joined(alloc: Global, pieces: &[(&str, usize)]) -> Result<Vec<u8>, Fail>
    ensures { IfOk result (λ bytes. vec_len bytes ≤ 4000) }
{
    let mut bytes = Vec::new(alloc);
    for (text, times) in pieces {
        append(&mut bytes, alloc, text, *times)?;
    }
    bytes.truncate(4_000);
    Ok(bytes)
}

/// Appends a text this many times.
fn append_text(out: &mut Vec<u8>, text: &str, times: usize) -> Result<(), Fail> {
    for _i in 0..times {
        out.extend_from_slice(text.as_bytes())?;
    }
    Ok(())
}

/// The text of the pieces, each repeated its number of times.
pub fn text_of(alloc: Global, pieces: &[(&str, usize)]) -> Result<Vec<u8>, Fail>
    ensures { IfOk result (λ text. vec_len text ≤ 1000000) }
{
    let mut text = Vec::new(alloc);
    for (piece, times) in pieces {
        append_text(&mut text, piece, *times)?;
    }
    text.truncate(1_000_000);
    Ok(text)
}
