//! Single fields of records: magic words, numbers within bounds, flags, names, and length-prefixed bytes.
//!
//! Each reader is part of a larger one. `BadRecord` has the offset of the field that lacks bytes or is not allowed; the
//! cursor may then stand anywhere.

ghost use Rattle.std.specs.Prelude.{◌≡◌, ◌<◌, ◌≤◌, ◌++◌, ◌^◌, length, IfOk};
ghost use Rattle.std.specs.Int.{w8, w16, w32};
ghost use Rattle.mb_format.specs.Combinators.{number, between, flag, mark, sized};
ghost use Rattle.mb_model.specs.records.RegionFormat.{is_name};
ghost use Rattle.mb_bytes.specs.Reads.{bad_at, Reads, ReadsAs};
ghost use Rattle.mb_bytes.specs.Puts.{Puts};

use crate::{Cursor, put_slice, put_u8, put_u16, put_u32};
use mb_model::{BadRecord, NoMemory};

/// The magic word of a kind of record: these four bytes and no others.
pub fn word_at(cursor: &mut Cursor, word: &[u8; 4]) -> Result<(), BadRecord>
    ensures { Reads bad_at (mark word.now) cursor.old result cursor.new }
{
    let at = cursor.offset();
    let found = cursor.take_array::<4>()?;
    if found != *word {
        return Err(BadRecord { at });
    }
    Ok(())
}

/// Whether every byte is printable ASCII and no space, as in the name of a secret.
pub fn is_name(bytes: &[u8]) -> bool
    ensures { result ≡ is_name bytes.now }
{
    bytes.iter().all(|byte| (0x21..=0x7E).contains(byte))
}

/// A number of one byte, from `least` to `most`.
pub fn u8_between(cursor: &mut Cursor, least: u8, most: u8) -> Result<u8, BadRecord>
    ensures reads { Reads bad_at (between w8 least most) cursor.old result cursor.new }
    ensures bounds { IfOk result (λ n. (least ≤ n) × (n ≤ most)) }
{
    let at = cursor.offset();
    let number = cursor.take_u8()?;
    if number < least || number > most {
        return Err(BadRecord { at });
    }
    Ok(number)
}

/// A number of two bytes, big-endian, from `least` to `most`.
pub fn u16_between(cursor: &mut Cursor, least: u16, most: u16) -> Result<u16, BadRecord>
    ensures reads { Reads bad_at (between w16 least most) cursor.old result cursor.new }
    ensures bounds { IfOk result (λ n. (least ≤ n) × (n ≤ most)) }
{
    let at = cursor.offset();
    let number = cursor.take_u16()?;
    if number < least || number > most {
        return Err(BadRecord { at });
    }
    Ok(number)
}

/// A number of four bytes, big-endian, from `least` to `most`.
pub fn u32_between(cursor: &mut Cursor, least: u32, most: u32) -> Result<u32, BadRecord>
    ensures reads { Reads bad_at (between w32 least most) cursor.old result cursor.new }
    ensures bounds { IfOk result (λ n. (least ≤ n) × (n ≤ most)) }
{
    let at = cursor.offset();
    let number = cursor.take_u32()?;
    if number < least || number > most {
        return Err(BadRecord { at });
    }
    Ok(number)
}

/// A byte that is 0 for false or 1 for true.
pub fn flag_at(cursor: &mut Cursor) -> Result<bool, BadRecord>
    ensures { Reads bad_at flag cursor.old result cursor.new }
{
    let at = cursor.offset();
    match cursor.take_u8()? {
        0 => Ok(false),
        1 => Ok(true),
        _ => Err(BadRecord { at }),
    }
}

/// The bytes after their length, a number of one byte, from `least` to `most`.
pub fn bytes_after_u8<'a>(
    cursor: &mut Cursor<'a>,
    least: u8,
    most: u8,
) -> Result<&'a [u8], BadRecord>
    ensures { ReadsAs (λ slice. slice.now) bad_at (sized (between w8 least most)) cursor.old result cursor.new }
{
    let length = u8_between(cursor, least, most)?;
    Ok(cursor.take_slice(length as u32)?)
}

/// The bytes after their length, a number of two bytes, from `least` to `most`.
pub fn bytes_after_u16<'a>(
    cursor: &mut Cursor<'a>,
    least: u16,
    most: u16,
) -> Result<&'a [u8], BadRecord>
    ensures { ReadsAs (λ slice. slice.now) bad_at (sized (between w16 least most)) cursor.old result cursor.new }
{
    let length = u16_between(cursor, least, most)?;
    Ok(cursor.take_slice(length as u32)?)
}

/// The bytes after their length, a number of four bytes, from `least` to `most`.
pub fn bytes_after_u32<'a>(
    cursor: &mut Cursor<'a>,
    least: u32,
    most: u32,
) -> Result<&'a [u8], BadRecord>
    ensures { ReadsAs (λ slice. slice.now) bad_at (sized (between w32 least most)) cursor.old result cursor.new }
{
    let length = u32_between(cursor, least, most)?;
    Ok(cursor.take_slice(length)?)
}

/// Appends a byte that is 0 for false or 1 for true.
pub fn put_flag(out: &mut Vec<u8>, value: bool) -> Result<(), NoMemory>
    ensures { Puts (flag.spelling value) out.old result out.new }
{
    put_u8(out, value as u8)
}

/// Appends the length of the bytes, in one byte, and the bytes.
pub fn put_after_u8(out: &mut Vec<u8>, bytes: &[u8]) -> Result<(), NoMemory>
    requires { length bytes.now < 256 }
    ensures { Puts ((number w8).spelling (length bytes.now) ++ bytes.now) out.old result out.new }
{
    put_u8(out, bytes.len() as u8)?;
    put_slice(out, bytes)
}

/// Appends the length of the bytes, in two bytes, and the bytes.
pub fn put_after_u16(out: &mut Vec<u8>, bytes: &[u8]) -> Result<(), NoMemory>
    requires { length bytes.now < 65536 }
    ensures { Puts ((number w16).spelling (length bytes.now) ++ bytes.now) out.old result out.new }
{
    put_u16(out, bytes.len() as u16)?;
    put_slice(out, bytes)
}

/// Appends the length of the bytes, in four bytes, and the bytes.
pub fn put_after_u32(out: &mut Vec<u8>, bytes: &[u8]) -> Result<(), NoMemory>
    requires { length bytes.now < 2 ^ 32 }
    ensures { Puts ((number w32).spelling (length bytes.now) ++ bytes.now) out.old result out.new }
{
    put_u32(out, bytes.len() as u32)?;
    put_slice(out, bytes)
}
