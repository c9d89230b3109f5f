//! The lines of an assembler text.

ghost use Rattle.std.specs.Prelude.{◌≡◌, ◌↔◌, ◌++◌, ◌∷◌, IsTrue, Some, None};
ghost use Rattle.mb_model.specs.chains.Script.{IsName};
ghost use Rattle.mb_words.specs.Words.{FindsSome};
ghost use Rattle.mb_appvm.specs.Assembly.{jump_to, IsLabelName, SaysAssemblyLine};
ghost use Rattle.mb_appvm.specs.declared.keyword.Keyword.TheVariants as key;
ghost use Rattle.mb_appvm.specs.Reading.{SaysWords};

use crate::keyword::{Jump, Keyword, find_keyword};
use mb_model::{Instruction, NAME_LIMIT, Name};
use mb_words::{read_number, split_at_byte};

/// The largest offset of a jump.
const MOST_OF_PLACE: u32 = 65_535;

/// What a line says.
#[derive(Drop)]
pub enum Said<'a> {
    /// A label, for the place of the next instruction.
    Label(Name<'a>),
    /// An instruction with its operand.
    Whole(Instruction<'a>),
    /// A jump to a label.
    JumpTo(Jump, Name<'a>),
}

/// Reads a line; `None` if it is not in the grammar.
pub fn read_line(line: &[u8]) -> Option<Said<'_>>
    ensures { FindsSome (SaysAssemblyLine line.now) result }
{
    match split_at_byte(line, b' ') {
        Some((word, operand)) => match find_keyword(word) {
            Some(keyword) => read_operand(keyword, operand),
            None => None,
        },
        None => match find_keyword(line) {
            Some(keyword) => say_alone(keyword),
            None => None,
        },
    }
}

/// Reads a line that is a keyword alone.
fn say_alone<'a>(keyword: Keyword) -> Option<Said<'a>>
    ensures { FindsSome (SaysWords keyword None) result }
{
    match keyword {
        Keyword::Plain(plain) => Some(Said::Whole(Instruction::Plain(plain))),
        Keyword::Push | Keyword::Jump(_) | Keyword::Get | Keyword::Label => None,
    }
}

/// Reads a line that is a keyword and an operand.
fn read_operand(keyword: Keyword, operand: &[u8]) -> Option<Said<'_>>
    ensures { FindsSome (SaysWords keyword (Some operand.now)) result }
{
    match keyword {
        Keyword::Plain(_) => None,
        Keyword::Push => match read_number(operand, u32::MAX) {
            Some(number) => Some(Said::Whole(Instruction::Push(number))),
            None => None,
        },
        Keyword::Jump(kind) => read_jump(kind, operand),
        Keyword::Get => {
            if is_name(operand) {
                Some(Said::Whole(Instruction::Get(Name::new(operand))))
            } else {
                None
            }
        }
        Keyword::Label => {
            if is_label_name(operand) {
                Some(Said::Label(Name::new(operand)))
            } else {
                None
            }
        }
    }
}

/// Reads a jump with its operand: a label, or an offset if it begins with a digit.
fn read_jump(kind: Jump, operand: &[u8]) -> Option<Said<'_>>
    ensures { FindsSome (SaysWords (key.Jump kind) (Some operand.now)) result }
{
    if is_label_name(operand) {
        return Some(Said::JumpTo(kind, Name::new(operand)));
    }
    match read_number(operand, MOST_OF_PLACE) {
        Some(place) => Some(Said::Whole(jump_to(kind, place as u16))),
        None => None,
    }
}

/// The jump of a kind to an offset.
pub(crate) fn jump_to<'a>(kind: Jump, place: u16) -> Instruction<'a>
    ensures { result ≡ jump_to kind place }
{
    match kind {
        Jump::Always => Instruction::Jump(place),
        Jump::IfZero => Instruction::JumpZero(place),
        Jump::Calling => Instruction::Call(place),
    }
}

/// Whether the word is the name of a secret.
pub(crate) fn is_name(word: &[u8]) -> bool
    ensures { IsTrue result ↔ IsName word.now }
{
    !word.is_empty()
        && word.len() <= NAME_LIMIT as usize
        && word.iter().all(|byte| 0x21 <= *byte && *byte <= 0x7E)
}

/// Whether the word is the name of a label: the name of a secret whose first byte is no digit.
pub fn is_label_name(word: &[u8]) -> bool
    ensures { IsTrue result ↔ IsLabelName word.now }
{
    is_name(word) && !word.first().is_some_and(|byte| byte.is_ascii_digit())
}
