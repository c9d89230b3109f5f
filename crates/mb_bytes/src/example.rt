//! A record of a number, raw bytes and a counted list, read and written.
//!
//! The example shows how a record is written with the contracts of this crate. It is checked with the crate, so that a
//! change to the contracts that would leave readers and writers above unproved is seen here first.

ghost use Rattle.std.specs.Prelude.{◌<◌, ◌≤◌, length};
ghost use Rattle.mb_model.specs.declared.limits.TheConstants.{FILE_LIMIT};
ghost use Rattle.mb_bytes.specs.Reads.{Reads, ReadsExactly, ReadsWhole};
ghost use Rattle.mb_bytes.specs.Puts.{Puts, Writes};
ghost use Rattle.mb_bytes.specs.Ends.{end_at};
ghost use Rattle.mb_bytes.specs.Example.{example, values};

use crate::{
    Cursor, Field, ReadEnd, WriteField, items_at, put_items, put_slice, put_u8, put_u32,
    read_field, read_whole, write_field,
};
use mb_model::{Items, NoMemory};
use std::alloc::Global;

/// A number, a name and some values.
#[derive(Drop)]
pub struct Example {
    /// Any number.
    pub number: u32,
    /// Four arbitrary bytes.
    pub name: [u8; 4],
    /// At most 255 values.
    pub values: Items<u16>,
}

#[tactic(auto, unfolding(crate::specs::Example::values))]
fn values_at(alloc: Global, cursor: &mut Cursor<'_>) -> Result<Items<u16>, ReadEnd>
    ensures { Reads end_at values cursor.old result cursor.new }
{
    let count = cursor.take_u8()?;
    items_at::<u16>(alloc, (), cursor, count as u32)
}

#[tactic(auto, unfolding(crate::specs::Example::values))]
fn put_values(out: &mut Vec<u8>, list: &Items<u16>) -> Result<(), NoMemory>
    requires { length list.now < 256 }
    ensures { Puts (values.spelling list.now) out.old result out.new }
{
    put_u8(out, list.as_slice().len() as u8)?;
    put_items::<u16>(out, list.as_slice())
}

#[tactic(auto, unfolding(crate::specs::Example::example))]
impl Field for Example {
    ghost use Rattle.mb_bytes.specs.Example.{example};
    ghost use Rattle.mb_bytes.specs.ExampleLaw.{example_exact};

    type Value = Example;

    type Needs = Global;

    type End = ReadEnd;

    ghost format = { example };

    fn read_at(alloc: Global, cursor: &mut Cursor<'_>) -> Result<Example, ReadEnd> {
        let number = cursor.take_u32()?;
        let name = cursor.take_array()?;
        let values = values_at(alloc, cursor)?;
        Ok(Example {
            number,
            name,
            values,
        })
    }

    ghost exact = { example_exact };
}

#[tactic(auto, unfolding(crate::specs::Example::example))]
impl WriteField for Example {
    ghost Fits = { λ e. length e.values < 256 };

    fn put(value: &Example, out: &mut Vec<u8>) -> Result<(), NoMemory> {
        put_u32(out, value.number)?;
        put_slice(out, &value.name)?;
        put_values(out, &value.values)
    }
}

/// The example that is spelled at the cursor's offset; the cursor is unchanged after an error.
pub fn read_example(alloc: Global, cursor: &mut Cursor) -> Result<Example, ReadEnd>
    ensures { ReadsExactly end_at example cursor.old result cursor.new }
{
    read_field::<Example>(alloc, cursor)
}

/// The example that all of the bytes spell.
pub fn read_whole_example(alloc: Global, bytes: &[u8]) -> Result<Example, ReadEnd>
    requires { length bytes.now ≤ FILE_LIMIT }
    ensures { ReadsWhole end_at example bytes.now result }
{
    read_whole::<Example>(alloc, bytes)
}

/// Appends the spelling of the example, or leaves `out` as it was.
pub fn write_example(out: &mut Vec<u8>, value: &Example) -> Result<(), NoMemory>
    requires { length value.now.values < 256 }
    ensures { Writes (example.spelling value.now) out.old result out.new }
{
    write_field::<Example>(value, out)
}
