//! The text of a script, read line by line.

ghost use Rattle.std.specs.Prelude.{◌≤◌, length};
ghost use Rattle.mb_model.specs.declared.limits.TheConstants.{FILE_LIMIT};
ghost use Rattle.mb_model.specs.chains.Script.{IsScript};
ghost use Rattle.mb_words.specs.Words.{ReadsTextOf};
ghost use Rattle.mb_script.specs.Reading.{IsLineOf};

use crate::events::read_event;
use mb_model::{EVENT_LIMIT, Events};
use mb_words::{NotSaid, TextEnd, is_skipped, split_line};
use std::alloc::Global;

/// Why a script was not read: a line is not in the grammar, or has an event too many; or an allocation failed.
pub type ScriptEnd = TextEnd;

/// Reads the events of a script of at most 4,194,304 bytes, in order. The draw of each command is all zeros. A line
/// ends with LF, which the last may lack; empty lines and lines that begin with `#` are skipped.
///
/// Errors: `BadLine` with the first line that is not in the grammar or has the 65,537th event, and `NoMemory`.
pub fn read_script(alloc: Global, text: &[u8]) -> Result<Events, ScriptEnd>
    requires { length text.now ≤ FILE_LIMIT }
    ensures { ReadsTextOf IsScript text.now result }
{
    let mut events = Events::new(alloc);
    let mut number: u32 = 0;
    let mut rest = text;
    while !rest.is_empty() {
        let (line, remaining) = split_line(rest);
        number += 1;
        rest = remaining;
        if is_skipped(line) {
            continue;
        }
        let is_full = events.as_slice().len() == EVENT_LIMIT;
        if is_full {
            return Err(ScriptEnd::BadLine { line: number });
        }
        match read_event(alloc, line) {
            Ok(event) => events.push(event)?,
            Err(NotSaid::Form) => return Err(ScriptEnd::BadLine { line: number }),
            Err(NotSaid::NoMemory) => return Err(ScriptEnd::NoMemory),
        }
    }
    Ok(events)
}

/// The number of the line, from 1, that says the event with this index, from 0, in a script of at most 4,194,304 bytes;
/// one more than the number of lines if there are no more events than that.
pub fn line_of(text: &[u8], index: usize) -> u32
    requires { length text.now ≤ FILE_LIMIT }
    ensures { IsLineOf text.now index result }
{
    let mut number: u32 = 0;
    let mut passed: usize = 0;
    let mut rest = text;
    while !rest.is_empty() {
        let (line, remaining) = split_line(rest);
        number += 1;
        rest = remaining;
        if is_skipped(line) {
            continue;
        }
        if passed == index {
            return number;
        }
        passed += 1;
    }
    number + 1
}
