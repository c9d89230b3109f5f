//! The test of whether a line of a text is right among the others.

ghost use Rattle.std.specs.Prelude.{◌≡◌, ◌↔◌, ◌<◌, ◌≤◌, ◌+◌, ◌^◌, length, IsTrue};
ghost use Rattle.mb_appvm.specs.Assembly.{size_of};
ghost use Rattle.mb_model.specs.application.Instructions.{instruction_format};
ghost use Rattle.mb_appvm.specs.Checking.{IsFirstLabel, IsTarget, CountsSound};

use crate::given::{Later, Lines};
use crate::lines::Said;
use mb_model::{CODE_LIMIT, Instruction};

/// The number of lines before the first that is not right. The text goes on with `later` after all of them.
pub(crate) fn count_sound(lines: &Lines<'_>, later: &Later<'_>) -> usize
    ensures { CountsSound lines.now later.now result }
{
    let said = lines.as_slice();
    let mut size = 0;
    for at in 0..said.len() {
        let line = &said[at];
        size += size_of(line);
        if size > CODE_LIMIT as usize {
            return at;
        }
        if !is_sound(at, line, lines, later) {
            return at;
        }
    }
    said.len()
}

/// Whether the line with this number, from 0, is right: it is the first that gives its label, and the label of a jump
/// is given somewhere.
fn is_sound(at: usize, line: &Said<'_>, lines: &Lines<'_>, later: &Later<'_>) -> bool
    ensures { IsTrue result ↔ (IsFirstLabel lines.now at line.now × IsTarget lines.now later.now line.now) }
{
    match line {
        Said::Label(name) => lines.is_first(name.as_slice(), at),
        Said::Whole(_) => true,
        Said::JumpTo(_, name) => lines.gives(name.as_slice()) || later.gives(name.as_slice()),
    }
}

/// The length of the code that a line makes, in bytes.
pub(crate) fn size_of(line: &Said<'_>) -> usize
    ensures value { result ≡ size_of line.now }
    ensures bounded { result < 2 ^ 63 + 2 ^ 32 }
{
    match line {
        Said::Label(_) => 0,
        Said::Whole(instruction) => size_of_instruction(instruction),
        Said::JumpTo(_, _) => 3,
    }
}

/// The length of an instruction, in bytes.
fn size_of_instruction(instruction: &Instruction<'_>) -> usize
    ensures value { result ≡ length (instruction_format.spelling instruction.now) }
    ensures bounded { result < 2 ^ 63 + 2 ^ 32 }
{
    match instruction {
        Instruction::Plain(_) => 1,
        Instruction::Push(_) => 5,
        Instruction::Jump(_) => 3,
        Instruction::JumpZero(_) => 3,
        Instruction::Call(_) => 3,
        Instruction::Get(name) => 2 + name.as_slice().len(),
    }
}
