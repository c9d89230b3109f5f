//! The disassembler.

ghost use Rattle.std.specs.Prelude.{◌≡◌, ◌≤◌, ◌++◌, length, IfOk};
ghost use Rattle.std.specs.Fmt.{decimal};
ghost use Rattle.mb_model.specs.declared.limits.TheConstants.{CODE_LIMIT};
ghost use Rattle.mb_model.specs.outside.Texts.{line_with_lf};
ghost use Rattle.mb_bytes.specs.Puts.{Puts};
ghost use Rattle.mb_appvm.specs.Assembly.{plain_word, operation_word, Assembles};
ghost use Rattle.mb_appvm.specs.Listing.{instruction_line, DisassemblesTo};

use crate::fetching::fetch;
use mb_bytes::put_slice;
use mb_model::{Bytes, Instruction, NoMemory, Operation, Plain};
use std::alloc::Global;

/// Why a code was not disassembled.
#[derive(Clone, Copy, Debug, PartialEq, Eq)]
pub enum DisasmEnd {
    /// No whole instruction stands at a place.
    NoInstruction {
        /// The first such place, in bytes from 0.
        at: u32,
    },
    /// An allocation failed.
    NoMemory,
}

impl From<NoMemory> for DisasmEnd {
    ghost use Rattle.mb_appvm.specs.declared.disassembling.DisasmEnd.TheVariants as end;

    ghost from_gives = { λ _ e. e ≡ end.NoMemory };

    fn from(_error: NoMemory) -> DisasmEnd {
        DisasmEnd::NoMemory
    }
}

/// The text of a code: a line for each instruction, numbers in decimal, jumps with their place as a number. It
/// assembles to the same code. The code has at most 32,768 bytes.
///
/// Errors: `NoInstruction` with the first place at which no whole instruction stands, and `NoMemory`. No clause says
/// when the latter comes; the tests disassemble with ample memory.
pub fn disassemble(alloc: Global, code: &[u8]) -> Result<Bytes, DisasmEnd>
    requires { length code.now ≤ CODE_LIMIT }
    ensures written { DisassemblesTo code.now result }
    ensures again { IfOk result (λ text. Assembles text code.now) }
{
    let mut text = Vec::new(alloc);
    let mut place: u32 = 0;
    while (place as usize) < code.len() {
        match fetch(code, place) {
            Some((instruction, next)) => {
                put_line(&mut text, &instruction)?;
                place = next;
            }
            None => return Err(DisasmEnd::NoInstruction { at: place }),
        }
    }
    Ok(Bytes::from_vec(text))
}

/// Appends the line of an instruction and its LF.
pub fn put_line(out: &mut Vec<u8>, instruction: &Instruction<'_>) -> Result<(), NoMemory>
    ensures { Puts (line_with_lf (instruction_line instruction.now)) out.old result out.new }
{
    put_words(out, instruction)?;
    put_slice(out, b"\n")
}

/// Appends the words of an instruction.
pub fn put_words(out: &mut Vec<u8>, instruction: &Instruction<'_>) -> Result<(), NoMemory>
    ensures { Puts (instruction_line instruction.now) out.old result out.new }
{
    match instruction {
        Instruction::Plain(plain) => put_slice(out, plain_word(*plain)),
        Instruction::Push(number) => put_numbered(out, b"push ", *number),
        Instruction::Jump(place) => put_numbered(out, b"jump ", u32::from(*place)),
        Instruction::JumpZero(place) => put_numbered(out, b"jumpzero ", u32::from(*place)),
        Instruction::Call(place) => put_numbered(out, b"call ", u32::from(*place)),
        Instruction::Get(name) => {
            put_slice(out, b"get ")?;
            put_slice(out, name.as_slice())
        }
    }
}

/// Appends a word and a number in decimal.
pub fn put_numbered(out: &mut Vec<u8>, word: &[u8], number: u32) -> Result<(), NoMemory>
    ensures { Puts (word.now ++ decimal number) out.old result out.new }
{
    put_slice(out, word)?;
    put_number(out, number)
}

/// Appends a number in decimal.
fn put_number(out: &mut Vec<u8>, number: u32) -> Result<(), NoMemory>
    ensures { Puts (decimal number) out.old result out.new }
{
    let mut digits = itoa::Buffer::new();
    put_slice(out, digits.format(number).as_bytes())
}

/// The word of an instruction without an operand.
fn plain_word(plain: Plain) -> &'static [u8]
    ensures { result.now ≡ plain_word plain }
{
    match plain {
        Plain::Halt => b"halt",
        Plain::Pop => b"pop",
        Plain::Dup => b"dup",
        Plain::Swap => b"swap",
        Plain::Over => b"over",
        Plain::Compute(operation) => operation_word(operation),
        Plain::Return => b"return",
        Plain::Load => b"load",
        Plain::Store => b"store",
        Plain::Input => b"input",
        Plain::Length => b"length",
        Plain::Emit => b"emit",
    }
}

/// The word of an operation.
fn operation_word(operation: Operation) -> &'static [u8]
    ensures { result.now ≡ operation_word operation }
{
    match operation {
        Operation::Add => b"add",
        Operation::Sub => b"sub",
        Operation::Mul => b"mul",
        Operation::Div => b"div",
        Operation::Rem => b"rem",
        Operation::And => b"and",
        Operation::Or => b"or",
        Operation::Xor => b"xor",
        Operation::Equal => b"equal",
        Operation::Less => b"less",
    }
}
