//! What code asks for by its output, read in place.

ghost use Rattle.std.specs.Prelude.{◌≡◌, ◌≤◌, length, MatchOption};
ghost use Rattle.mb_format.specs.Format.{Spells};
ghost use Rattle.mb_bytes.specs.Reads.{bad_at, ReadsAs, ReadsWholeAs};
ghost use Rattle.mb_model.specs.declared.limits.TheConstants.{FILE_LIMIT};
ghost use Rattle.mb_model.specs.machine.Actions.{demand_format, action_format};
ghost use Rattle.mb_appvm.specs.Asking.{demand_of, action_of, TakesDemand, AsksNothing, PassesDemands};

use crate::fetching::name_at;
use mb_bytes::{Cursor, bytes_after_u8, flag_at};
use mb_model::{BadRecord, MESSAGE_LIMIT, VALUE_LIMIT};

/// What code asks to be done to its region.
#[derive(Clone, Copy)]
pub enum Demand<'a> {
    /// The value is kept under the name.
    Keep { name: &'a [u8], value: &'a [u8] },
    /// The name is dropped.
    Drop { name: &'a [u8] },
}

/// The demands of an action that are not taken yet, in their order.
#[derive(Clone, Copy)]
pub struct Demands<'a> {
    /// Where the first of them stands.
    pub(crate) cursor: Cursor<'a>,
    pub(crate) left: u8,
}

/// All that code asks for.
#[derive(Clone, Copy)]
pub struct Action<'a> {
    /// What is done to the region.
    pub demands: Demands<'a>,
    /// At most 128 bytes.
    pub answer: &'a [u8],
}

impl<'a> Demands<'a> {
    /// Takes the first of the demands; `None` if none is left.
    pub fn take(&mut self) -> Option<Demand<'a>>
        ensures { TakesDemand self.old result self.new }
    {
        if self.left == 0 {
            return None;
        }
        self.left -= 1;
        match demand_at(&mut self.cursor) {
            Ok(demand) => Some(demand),
            Err(_) => None,
        }
    }
}

/// The action that the whole of the output spells, at most 4,194,304 bytes; `None` if it spells none.
pub fn read_action(output: &[u8]) -> Option<Action<'_>>
    requires { length output.now ≤ FILE_LIMIT }
    ensures { MatchOption result (AsksNothing output.now) (λ action. Spells action_format output.now (action_of action)) }
{
    match action_in(output) {
        Ok(action) => Some(action),
        Err(_) => None,
    }
}

/// The action that the whole of the output spells, at most 4,194,304 bytes, or the offset at which it is none.
pub fn action_in(output: &[u8]) -> Result<Action<'_>, BadRecord>
    requires { length output.now ≤ FILE_LIMIT }
    ensures { ReadsWholeAs action_of bad_at action_format output.now result }
{
    let mut cursor = Cursor::new(output);
    let action = action_at(&mut cursor)?;
    if cursor.left() > 0 {
        return Err(BadRecord {
            at: cursor.offset(),
        });
    }
    Ok(action)
}

/// Reads an action.
fn action_at<'a>(cursor: &mut Cursor<'a>) -> Result<Action<'a>, BadRecord>
    ensures { ReadsAs action_of bad_at action_format cursor.old result cursor.new }
{
    let left = cursor.take_u8()?;
    let demands = Demands {
        cursor: *cursor,
        left,
    };
    pass_demands(cursor, left)?;
    let answer = bytes_after_u8(cursor, 0, MESSAGE_LIMIT)?;
    Ok(Action { demands, answer })
}

/// Reads this many demands, and keeps none of them.
fn pass_demands(cursor: &mut Cursor<'_>, count: u8) -> Result<(), BadRecord>
    ensures { PassesDemands count cursor.old result cursor.new }
{
    for _done in 0..count {
        demand_at(cursor)?;
    }
    Ok(())
}

/// Reads a demand.
#[tactic(auto, unfolding(mb_model::specs::machine::Actions::demand_format, mb_model::specs::machine::Actions::name_format, mb_model::specs::machine::Actions::value_format))]
fn demand_at<'a>(cursor: &mut Cursor<'a>) -> Result<Demand<'a>, BadRecord>
    ensures { ReadsAs demand_of bad_at demand_format cursor.old result cursor.new }
{
    if flag_at(cursor)? {
        let name = name_at(cursor)?;
        let value = bytes_after_u8(cursor, 0, VALUE_LIMIT)?;
        Ok(Demand::Keep {
            name: name.as_slice(),
            value,
        })
    } else {
        let name = name_at(cursor)?;
        Ok(Demand::Drop {
            name: name.as_slice(),
        })
    }
}
