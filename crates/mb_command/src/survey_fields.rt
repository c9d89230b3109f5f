//! Surveys of single fields whose last bytes may be missing.
//!
//! A field of one byte is there or can follow. Of a number of several bytes the first ones may be there: they give the
//! least number that it can become, with zeros for the bytes that are missing.

ghost use Rattle.std.specs.Prelude.{ℕ, ◌≤◌, ◌<◌, ◌≡◌, ◌+◌, length, drop, get_or, IfOk};
ghost use Rattle.std.specs.Int.{w8, w16, w32, from_be_bytes};
ghost use Rattle.mb_model.specs.declared.limits.TheConstants.{CODE_LIMIT, SIGNATURE_LIMIT};
ghost use Rattle.mb_model.specs.signatures.Key.{tree_type, chains_type};
ghost use Rattle.mb_model.specs.records.KeyFormat.{tree_rows, chains_rows, public_key_format};
ghost use Rattle.mb_model.specs.records.OrderFormat.{sized_signature_format};
ghost use Rattle.mb_format.specs.Combinators.{raw, number, between, table, sized};
ghost use Rattle.mb_command.specs.Surveys.{IsStuck, Surveys, NothingTold, IsTold};

use crate::stuck::Stuck;
use mb_bytes::{Cursor, u8_between, u16_between, u32_between};
use mb_model::{CODE_LIMIT, SIGNATURE_LIMIT};

/// Surveys `count` bytes.
pub fn survey_raw(cursor: &mut Cursor, count: u32) -> Result<(), Stuck>
    ensures { Surveys NothingTold (raw count) cursor.old result cursor.new }
{
    match cursor.take_slice(count) {
        Ok(_) => Ok(()),
        Err(_) => Err(Stuck::Open),
    }
}

/// Surveys an arbitrary number of four bytes.
pub fn survey_number(cursor: &mut Cursor) -> Result<(), Stuck>
    ensures { Surveys NothingTold (number w32) cursor.old result cursor.new }
{
    match cursor.take_u32() {
        Ok(_) => Ok(()),
        Err(_) => Err(Stuck::Open),
    }
}

/// Surveys a number of one byte, from `least` to `most`.
pub fn survey_u8(cursor: &mut Cursor, least: u8, most: u8) -> Result<u8, Stuck>
    requires { least ≤ most }
    ensures surveys { Surveys IsTold (between w8 least most) cursor.old result cursor.new }
    ensures bounds { IfOk result (λ n. (least ≤ n) × (n ≤ most)) }
{
    if cursor.left() == 0 {
        return Err(Stuck::Open);
    }
    Ok(u8_between(cursor, least, most)?)
}

/// The byte at an offset, and zero past the end.
fn byte_at(bytes: &[u8], at: usize) -> u8
    ensures { result ≡ get_or bytes.now at 0 }
{
    match bytes.get(at) {
        Some(byte) => *byte,
        None => 0,
    }
}

/// The number of four bytes that these begin, at most three, with zeros for those that are missing.
fn number_of(bytes: &[u8]) -> u32
    requires { length bytes.now < 4 }
    ensures { result ≡ from_be_bytes w32 bytes.now }
{
    u32::from_be_bytes([byte_at(bytes, 0), byte_at(bytes, 1), byte_at(bytes, 2), 0])
}

/// The number of four bytes that the bytes left begin, at most three, with zeros for those that are missing.
fn begun_number(cursor: &Cursor) -> u32
    requires { length cursor.now.bytes.now < cursor.now.offset + 4 }
    ensures { result ≡ from_be_bytes w32 (drop cursor.now.offset cursor.now.bytes.now) }
{
    let mut rest = *cursor;
    let left = rest.left();
    match rest.take_slice(left) {
        Ok(bytes) => number_of(bytes),
        Err(_) => unreachable!(),
    }
}

/// Why a number of four bytes, from a number that fits into a byte to `most`, is not there: fewer bytes are left.
fn begun_u32(cursor: &Cursor, most: u32) -> Stuck
    requires { length cursor.now.bytes.now < cursor.now.offset + 4 }
    ensures { (least : ℕ) → least ≤ most → least < 256 → IsStuck (between w32 least most) cursor.now result cursor.now }
{
    if begun_number(cursor) > most {
        Stuck::Lost {
            at: cursor.offset(),
        }
    } else {
        Stuck::Open
    }
}

/// Surveys a number of four bytes, from `least`, which fits into a byte, to `most`.
fn survey_u32(cursor: &mut Cursor, least: u32, most: u32) -> Result<u32, Stuck>
    requires bounds { least ≤ most }
    requires small { least < 256 }
    ensures { Surveys IsTold (between w32 least most) cursor.old result cursor.new }
{
    if cursor.left() < 4 {
        return Err(begun_u32(cursor, most));
    }
    Ok(u32_between(cursor, least, most)?)
}

/// The number of two bytes that these begin, at most one, with zeros for those that are missing.
fn short_number_of(bytes: &[u8]) -> u16
    requires { length bytes.now < 2 }
    ensures { result ≡ from_be_bytes w16 bytes.now }
{
    u16::from_be_bytes([byte_at(bytes, 0), 0])
}

/// The number of two bytes that the bytes left begin, at most one, with zeros for those that are missing.
fn begun_short_number(cursor: &Cursor) -> u16
    requires { length cursor.now.bytes.now < cursor.now.offset + 2 }
    ensures { result ≡ from_be_bytes w16 (drop cursor.now.offset cursor.now.bytes.now) }
{
    let mut rest = *cursor;
    let left = rest.left();
    match rest.take_slice(left) {
        Ok(bytes) => short_number_of(bytes),
        Err(_) => unreachable!(),
    }
}

/// Why a number of two bytes up to `most` is not there: fewer bytes are left.
fn begun_u16(cursor: &Cursor, most: u16) -> Stuck
    requires { length cursor.now.bytes.now < cursor.now.offset + 2 }
    ensures { IsStuck (between w16 0 most) cursor.now result cursor.now }
{
    if begun_short_number(cursor) > most {
        Stuck::Lost {
            at: cursor.offset(),
        }
    } else {
        Stuck::Open
    }
}

/// Surveys a number of two bytes, up to `most`.
fn survey_u16(cursor: &mut Cursor, most: u16) -> Result<u16, Stuck>
    ensures { Surveys IsTold (between w16 0 most) cursor.old result cursor.new }
{
    if cursor.left() < 2 {
        return Err(begun_u16(cursor, most));
    }
    Ok(u16_between(cursor, 0, most)?)
}

/// Surveys the code of a load, after its length.
pub fn survey_code(cursor: &mut Cursor) -> Result<(), Stuck>
    ensures { Surveys NothingTold (sized (between w32 0 CODE_LIMIT)) cursor.old result cursor.new }
{
    let length = survey_u32(cursor, 0, CODE_LIMIT)?;
    survey_raw(cursor, length)
}

/// Surveys a signature, after its length.
pub fn survey_signature(cursor: &mut Cursor) -> Result<(), Stuck>
    ensures { Surveys NothingTold sized_signature_format cursor.old result cursor.new }
{
    let length = survey_u16(cursor, SIGNATURE_LIMIT)?;
    survey_raw(cursor, length as u32)
}

/// Surveys the number of an LMS type.
fn survey_tree(cursor: &mut Cursor) -> Result<(), Stuck>
    ensures { Surveys NothingTold (table w32 tree_rows tree_type) cursor.old result cursor.new }
{
    survey_u32(cursor, 5, 9)?;
    Ok(())
}

/// Surveys the number of an LM-OTS type.
fn survey_chains(cursor: &mut Cursor) -> Result<(), Stuck>
    ensures { Surveys NothingTold (table w32 chains_rows chains_type) cursor.old result cursor.new }
{
    survey_u32(cursor, 1, 4)?;
    Ok(())
}

/// Surveys a public key: its two type numbers, its identifier and the root of its tree.
pub fn survey_key(cursor: &mut Cursor) -> Result<(), Stuck>
    ensures { Surveys NothingTold public_key_format cursor.old result cursor.new }
{
    survey_tree(cursor)?;
    survey_chains(cursor)?;
    survey_raw(cursor, 16)?;
    survey_raw(cursor, 32)
}
