//! The rows of a register as bytes.

ghost use Rattle.std.specs.Prelude.{◌≡◌, ◌≤◌, length, None};
ghost use Rattle.std.specs.List.{All};
ghost use Rattle.mb_format.specs.Combinators.{raw_that};
ghost use Rattle.mb_model.specs.declared.limits.TheConstants.{ENTRY_LIMIT};
ghost use Rattle.mb_bytes.specs.Reads.{bad_at, Reads};
ghost use Rattle.mb_bytes.specs.Puts.{Puts};
ghost use Rattle.mb_fleet.specs.declared.limits.TheConstants.{DEVICE_LIMIT};
ghost use Rattle.mb_bytes.specs.Ends.{end_at};
ghost use Rattle.mb_fleet.specs.RegisterFormat.{may_follow, code_hashes_format, hashes_format, row_format, rows_format, register_format};

use crate::end::FleetReadEnd;
use crate::limits::DEVICE_LIMIT;
use crate::row::{CodeHashes, Row};
use mb_bytes::{
    Cursor, items_at, optional_at, put_items, put_optional, put_slice, put_u16, put_u32,
    u16_between, word_at,
};
use mb_model::{BadRecord, ENTRY_LIMIT, Items, NoMemory};
use std::alloc::Global;
use std::cmp::Ordering;

/// The first four bytes of a register.
const WORD: [u8; 4] = *b"MBF1";

/// The rows of the register at the cursor.
#[tactic(auto, unfolding(crate::specs::RegisterFormat::register_format))]
pub(crate) fn register_at(
    alloc: Global,
    cursor: &mut Cursor<'_>,
) -> Result<Items<Row>, FleetReadEnd>
    ensures { Reads end_at register_format cursor.old result cursor.new }
{
    word_at(cursor, &WORD)?;
    rows_at(alloc, cursor)
}

/// Rows in ascending serials, after their number. Rows are read and written by hand, since which serials a row may have
/// depends on the row before it, so that a row has no format of its own. Items are read to the end of the bytes, and
/// not by a count.
#[tactic(auto, unfolding(crate::specs::RegisterFormat::rows_format))]
fn rows_at(alloc: Global, cursor: &mut Cursor<'_>) -> Result<Items<Row>, FleetReadEnd>
    ensures { Reads end_at rows_format cursor.old result cursor.new }
{
    let count = u16_between(cursor, 0, DEVICE_LIMIT)?;
    let mut rows = Items::new(alloc);
    let mut last = None;
    for _i in 0..count {
        let row = row_at(alloc, cursor, &last)?;
        last = Some(row.serial);
        rows.push(row)?;
    }
    Ok(rows)
}

/// A row after one with this serial, or the first.
#[tactic(auto, unfolding(crate::specs::RegisterFormat::row_format))]
fn row_at(
    alloc: Global,
    cursor: &mut Cursor<'_>,
    last: &Option<[u8; 16]>,
) -> Result<Row, FleetReadEnd>
    ensures { Reads end_at (row_format last.now) cursor.old result cursor.new }
{
    let serial = serial_at(cursor, last)?;
    let number = cursor.take_u32()?;
    let code = code_hashes_at(cursor)?;
    let hashes = hashes_at(alloc, cursor)?;
    Ok(Row {
        serial,
        number,
        code,
        hashes,
    })
}

/// A serial after another, or the first.
fn serial_at(cursor: &mut Cursor<'_>, last: &Option<[u8; 16]>) -> Result<[u8; 16], BadRecord>
    ensures { Reads bad_at (raw_that (may_follow last.now) 16) cursor.old result cursor.new }
{
    let at = cursor.offset();
    let serial = cursor.take_array::<16>()?;
    if may_follow(last, &serial) {
        Ok(serial)
    } else {
        Err(BadRecord { at })
    }
}

/// Whether a serial may follow the one before it.
fn may_follow(last: &Option<[u8; 16]>, serial: &[u8; 16]) -> bool
    ensures { result ≡ may_follow last.now serial.now }
{
    match last {
        Some(last) => last.cmp(serial) == Ordering::Less,
        None => true,
    }
}

/// The hashes of the layers' code.
#[tactic(auto, unfolding(crate::specs::RegisterFormat::code_hashes_format))]
fn code_hashes_at(cursor: &mut Cursor<'_>) -> Result<CodeHashes, BadRecord>
    ensures { Reads bad_at code_hashes_format cursor.old result cursor.new }
{
    let one = optional_at::<[u8; 32]>((), cursor)?;
    let two = optional_at::<[u8; 32]>((), cursor)?;
    let three = optional_at::<[u8; 32]>((), cursor)?;
    Ok(CodeHashes { one, two, three })
}

/// The hashes of entries, after their number.
#[tactic(auto, unfolding(crate::specs::RegisterFormat::hashes_format))]
fn hashes_at(alloc: Global, cursor: &mut Cursor<'_>) -> Result<Items<[u8; 32]>, FleetReadEnd>
    ensures { Reads end_at hashes_format cursor.old result cursor.new }
{
    let count = u16_between(cursor, 1, ENTRY_LIMIT)?;
    items_at::<[u8; 32]>(alloc, (), cursor, count as u32)
}

/// Appends the register, or a prefix of it if an allocation fails.
#[tactic(auto, unfolding(crate::specs::RegisterFormat::register_format))]
pub(crate) fn put_register(out: &mut Vec<u8>, rows: &[Row]) -> Result<(), NoMemory>
    requires few { length rows.now ≤ DEVICE_LIMIT }
    requires each { All (λ row. length row.hashes ≤ ENTRY_LIMIT) rows.now }
    ensures { Puts (register_format.spelling rows.now) out.old result out.new }
{
    put_slice(out, &WORD)?;
    put_rows(out, rows)
}

/// Appends the number of the rows, and the rows.
#[tactic(auto, unfolding(crate::specs::RegisterFormat::rows_format))]
fn put_rows(out: &mut Vec<u8>, rows: &[Row]) -> Result<(), NoMemory>
    requires few { length rows.now ≤ DEVICE_LIMIT }
    requires each { All (λ row. length row.hashes ≤ ENTRY_LIMIT) rows.now }
    ensures { Puts (rows_format.spelling rows.now) out.old result out.new }
{
    put_u16(out, rows.len() as u16)?;
    for row in rows {
        put_row(out, row)?;
    }
    Ok(())
}

/// Appends a row, whose spelling does not depend on the row before it.
#[tactic(auto, unfolding(crate::specs::RegisterFormat::row_format))]
fn put_row(out: &mut Vec<u8>, row: &Row) -> Result<(), NoMemory>
    requires { length row.now.hashes ≤ ENTRY_LIMIT }
    ensures { Puts ((row_format None).spelling row.now) out.old result out.new }
{
    put_slice(out, &row.serial)?;
    put_u32(out, row.number)?;
    put_code_hashes(out, &row.code)?;
    put_hashes(out, row.hashes.as_slice())
}

/// Appends the hash of each layer's code after its flag.
#[tactic(auto, unfolding(crate::specs::RegisterFormat::code_hashes_format))]
fn put_code_hashes(out: &mut Vec<u8>, code: &CodeHashes) -> Result<(), NoMemory>
    ensures { Puts (code_hashes_format.spelling code.now) out.old result out.new }
{
    put_optional::<[u8; 32]>(out, &code.one)?;
    put_optional::<[u8; 32]>(out, &code.two)?;
    put_optional::<[u8; 32]>(out, &code.three)
}

/// Appends the number of the hashes, and the hashes.
#[tactic(auto, unfolding(crate::specs::RegisterFormat::hashes_format))]
fn put_hashes(out: &mut Vec<u8>, hashes: &[[u8; 32]]) -> Result<(), NoMemory>
    requires { length hashes.now ≤ ENTRY_LIMIT }
    ensures { Puts (hashes_format.spelling hashes.now) out.old result out.new }
{
    put_u16(out, hashes.len() as u16)?;
    put_items::<[u8; 32]>(out, hashes)
}
