//! Formats as types, and the readers and writers that all formats share.
//!
//! A crate declares a type for each of its records and implements `Field` for it: how one value is read at a cursor.
//! `WriteField` adds how one is appended. Everything else is written here once: reading the whole of some bytes,
//! reading without moving the cursor on failure, appending all or nothing, optional values, and lists.

ghost use Rattle.std.specs.Prelude.{◌≡◌, ℕ, ◌≤◌, All, length, Option, Some, None};
ghost use Rattle.mb_format.specs.Format.{Format};
ghost use Rattle.mb_format.specs.Combinators.{optional, times};
ghost use Rattle.mb_format.specs.Reading.{IsExact};
ghost use Rattle.mb_model.specs.declared.limits.TheConstants.{FILE_LIMIT};
ghost use Rattle.mb_bytes.specs.Ends.{end_at};
ghost use Rattle.mb_bytes.specs.Reads.{Reads, ReadsExactly, ReadsWhole};
ghost use Rattle.mb_bytes.specs.Puts.{Puts, Writes};

use crate::{Cursor, ReadEnd, flag_at, put_flag};
use mb_model::{BadRecord, Items, NoMemory};
use std::alloc::Global;

/// Why no value was read.
pub trait ReadError: Drop {
    ghost points: { Self → Option ℕ };

    /// The error that points at this offset.
    fn bad(at: u32) -> Self
        ensures { points result ≡ Some at };

    /// The offset at which the error points; `None` if an allocation failed.
    fn offset(&self) -> Option<u32>
        ensures { result ≡ points self.now };
}

impl ReadError for BadRecord {
    ghost use Rattle.mb_bytes.specs.Reads.{bad_at};

    ghost points = { bad_at };

    fn bad(at: u32) -> BadRecord {
        BadRecord { at }
    }

    fn offset(&self) -> Option<u32> {
        Some(self.at)
    }
}

/// A format of values in bytes, as a type: how its values are read.
pub trait Field {
    /// A value of the format.
    type Value: Drop;
    /// What reading needs: an allocator, or nothing.
    type Needs: Copy + Drop;
    /// Why no value was read.
    type End: ReadError;

    ghost format: { Format Self.Value };

    /// Reads the value at the cursor's offset; after an error the cursor may stand anywhere. If reading allocates
    /// memory, an allocation may fail.
    fn read_at(needs: Self::Needs, cursor: &mut Cursor<'_>) -> Result<Self::Value, Self::End>
        ensures { Reads Self.End.points format cursor.old result cursor.new };

    ghost exact: { IsExact format };
}

/// A format of values in bytes, as a type: how its values are written.
pub trait WriteField: Field {
    ghost Fits: { Self.Value → Type 0 };

    /// Appends the spelling of a value whose lengths and counts fit into their fields. If an allocation fails, `out`
    /// still begins with what it held.
    fn put(value: &Self::Value, out: &mut Vec<u8>) -> Result<(), NoMemory>
        requires { Fits value.now }
        ensures { Puts (Self.format.spelling value.now) out.old result out.new };
}

/// Reads the value at the cursor's offset. After an error the cursor is unchanged.
pub fn read_field<F: Field>(needs: F::Needs, cursor: &mut Cursor<'_>) -> Result<F::Value, F::End>
    ensures { ReadsExactly F.End.points F.format cursor.old result cursor.new }
{
    let mut ahead = *cursor;
    let value = F::read_at(needs, &mut ahead)?;
    *cursor = ahead;
    Ok(value)
}

/// The value that all of the bytes spell, at most 4,194,304 of them. A byte that is left over fails at its offset.
pub fn read_whole<F: Field>(needs: F::Needs, bytes: &[u8]) -> Result<F::Value, F::End>
    requires { length bytes.now ≤ FILE_LIMIT }
    ensures { ReadsWhole F.End.points F.format bytes.now result }
{
    let mut cursor = Cursor::new(bytes);
    let value = F::read_at(needs, &mut cursor)?;
    if cursor.left() > 0 {
        return Err(F::End::bad(cursor.offset()));
    }
    Ok(value)
}

/// Appends the spelling of the value, or leaves `out` as it was. It does not fail if the capacity of `out` holds it.
pub fn write_field<F: WriteField>(value: &F::Value, out: &mut Vec<u8>) -> Result<(), NoMemory>
    requires { F.Fits value.now }
    ensures { Writes (F.format.spelling value.now) out.old result out.new }
{
    let length = out.len();
    match F::put(value, out) {
        Ok(()) => Ok(()),
        Err(error) => {
            out.truncate(length);
            Err(error)
        }
    }
}

/// Reads a flag, and a value if the flag is set.
pub fn optional_at<F: Field>(
    needs: F::Needs,
    cursor: &mut Cursor<'_>,
) -> Result<Option<F::Value>, F::End>
    ensures { Reads F.End.points (optional F.format) cursor.old result cursor.new }
{
    match flag_at(cursor) {
        Ok(true) => Ok(Some(F::read_at(needs, cursor)?)),
        Ok(false) => Ok(None),
        Err(BadRecord { at }) => Err(F::End::bad(at)),
    }
}

/// Appends a flag that says whether there is a value, and the value if there is one.
pub fn put_optional<F: WriteField>(
    out: &mut Vec<u8>,
    value: &Option<F::Value>,
) -> Result<(), NoMemory>
    requires { (a : F.Value) → value.now ≡ Some a → F.Fits a }
    ensures { Puts ((optional F.format).spelling value.now) out.old result out.new }
{
    match value {
        Some(value) => {
            put_flag(out, true)?;
            F::put(value, out)
        }
        None => put_flag(out, false),
    }
}

/// The error of a list in which one item was not read for this reason.
fn end_of_list<E: ReadError>(error: E) -> ReadEnd
    ensures { end_at result ≡ E.points error }
{
    match error.offset() {
        Some(at) => ReadEnd::Bad { at },
        None => ReadEnd::NoMemory,
    }
}

fn item_at<F: Field>(needs: F::Needs, cursor: &mut Cursor<'_>) -> Result<F::Value, ReadEnd>
    ensures { Reads end_at F.format cursor.old result cursor.new }
{
    match F::read_at(needs, cursor) {
        Ok(item) => Ok(item),
        Err(error) => Err(end_of_list(error)),
    }
}

/// Reads `count` values, one after another. The list takes memory, which its items may not do.
pub fn items_at<F: Field>(
    alloc: Global,
    needs: F::Needs,
    cursor: &mut Cursor<'_>,
    count: u32,
) -> Result<Items<F::Value>, ReadEnd>
    ensures { Reads end_at (times count F.format) cursor.old result cursor.new }
{
    let mut items = Items::new(alloc);
    for _i in 0..count {
        let item = item_at::<F>(needs, cursor)?;
        items.push(item)?;
    }
    Ok(items)
}

/// Appends the values, one after another.
pub fn put_items<F: WriteField>(out: &mut Vec<u8>, items: &[F::Value]) -> Result<(), NoMemory>
    requires { All F.Fits items.now }
    ensures { Puts ((times (length items.now) F.format).spelling items.now) out.old result out.new }
{
    for item in items {
        F::put(item, out)?;
    }
    Ok(())
}
