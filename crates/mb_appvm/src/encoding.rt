//! Instructions as bytes.

ghost use Rattle.std.specs.Prelude.{◌≡◌, ◌≤◌, ◌++◌, sum_by, All, IfOk, true};
ghost use Rattle.std.specs.Int.{w8, w16};
ghost use Rattle.std.specs.List.{list_any};
ghost use Rattle.mb_model.specs.declared.limits.TheConstants.{CODE_LIMIT};
ghost use Rattle.mb_format.specs.Combinators.{number};
ghost use Rattle.mb_bytes.specs.Puts.{Puts};
ghost use Rattle.mb_model.specs.application.Instructions.{plain_byte, instruction_format};
ghost use Rattle.mb_appvm.specs.Assembly.{size_of, is_label, IsSayable, IsPlaced};
ghost use Rattle.mb_appvm.specs.Checking.{IsCode, IsGiven, AreMeasured, PutsLine};
ghost use Rattle.mb_model.specs.declared.instruction.Plain.TheVariants as plain;

use crate::checking::size_of;
use crate::given::Lines;
use crate::lines::{Said, jump_to};
use mb_bytes::{put_after_u8, put_u8, put_u16, put_u32};
use mb_model::{Instruction, NoMemory, Operation, Plain};
use std::alloc::Global;

/// The code of lines that are sayable, jump only to labels among them, and make at most 32,768 bytes.
pub(crate) fn write_code(alloc: Global, lines: &Lines<'_>) -> Result<Vec<u8>, NoMemory>
    requires sayable { All IsSayable lines.now }
    requires given { All (IsGiven lines.now) lines.now }
    requires short { sum_by size_of lines.now ≤ CODE_LIMIT }
    ensures { IfOk result (λ code. IsCode lines.now lines.now code.items) }
{
    let said = lines.as_slice();
    let places = measure(alloc, said)?;
    let mut code = Vec::new(alloc);
    for line in said {
        put_line(&mut code, line, lines, places.as_slice())?;
    }
    Ok(code)
}

/// For each line the length of the code before it.
fn measure(alloc: Global, said: &[Said<'_>]) -> Result<Vec<u16>, NoMemory>
    requires short { sum_by size_of said.now ≤ CODE_LIMIT }
    ensures { IfOk result (λ places. AreMeasured said.now places.items) }
{
    let mut places = Vec::new(alloc);
    let mut place = 0;
    for line in said {
        places.push(place as u16)?;
        place += size_of(line);
    }
    Ok(places)
}

/// Appends the bytes that a line makes among all lines.
fn put_line(
    out: &mut Vec<u8>,
    line: &Said<'_>,
    all: &Lines<'_>,
    places: &[u16],
) -> Result<(), NoMemory>
    requires sayable { IsSayable line.now }
    requires given { IsGiven all.now line.now }
    requires measured { AreMeasured all.now places.now }
    ensures { PutsLine all.now line.now out.old result out.new }
{
    match line {
        Said::Label(_) => Ok(()),
        Said::Whole(instruction) => put_instruction(out, instruction),
        Said::JumpTo(kind, name) => {
            let place = place_of(all, places, name.as_slice());
            put_instruction(out, &jump_to(*kind, place))
        }
    }
}

/// The value of a label, which one of the lines gives: the length of the code before that line.
fn place_of(all: &Lines<'_>, places: &[u16], name: &[u8]) -> u16
    requires given { list_any (is_label name.now) all.now ≡ true }
    requires measured { AreMeasured all.now places.now }
    ensures place { IsPlaced all.now name.now result }
    ensures short { result ≤ CODE_LIMIT }
{
    match all.line_of(name) {
        Some(line) => places[line],
        None => unreachable!(),
    }
}

/// Appends the bytes of an instruction.
#[tactic(auto, unfolding(mb_model::specs::application::Instructions::instruction_format))]
pub(crate) fn put_instruction(
    out: &mut Vec<u8>,
    instruction: &Instruction<'_>,
) -> Result<(), NoMemory>
    requires { instruction_format.Allowed instruction.now }
    ensures { Puts (instruction_format.spelling instruction.now) out.old result out.new }
{
    match instruction {
        Instruction::Plain(plain) => put_u8(out, plain_byte(*plain)),
        Instruction::Push(number) => {
            put_u8(out, 0x01)?;
            put_u32(out, *number)
        }
        Instruction::Jump(place) => put_jump(out, 0x20, *place),
        Instruction::JumpZero(place) => put_jump(out, 0x21, *place),
        Instruction::Call(place) => put_jump(out, 0x22, *place),
        Instruction::Get(name) => {
            put_u8(out, 0x43)?;
            put_after_u8(out, name.as_slice())
        }
    }
}

/// Appends the first byte and the place of a jump.
fn put_jump(out: &mut Vec<u8>, byte: u8, place: u16) -> Result<(), NoMemory>
    ensures { Puts ((number w8).spelling byte ++ (number w16).spelling place) out.old result out.new }
{
    put_u8(out, byte)?;
    put_u16(out, place)
}

/// The byte of an instruction without an operand.
fn plain_byte(plain: Plain) -> u8
    ensures { result ≡ plain_byte plain }
{
    match plain {
        Plain::Halt => 0x00,
        Plain::Pop => 0x02,
        Plain::Dup => 0x03,
        Plain::Swap => 0x04,
        Plain::Over => 0x05,
        Plain::Compute(operation) => operation_byte(operation),
        Plain::Return => 0x23,
        Plain::Load => 0x30,
        Plain::Store => 0x31,
        Plain::Input => 0x40,
        Plain::Length => 0x41,
        Plain::Emit => 0x42,
    }
}

/// The byte of an operation.
fn operation_byte(operation: Operation) -> u8
    ensures { result ≡ plain_byte (plain.Compute operation) }
{
    match operation {
        Operation::Add => 0x10,
        Operation::Sub => 0x11,
        Operation::Mul => 0x12,
        Operation::Div => 0x13,
        Operation::Rem => 0x14,
        Operation::And => 0x15,
        Operation::Or => 0x16,
        Operation::Xor => 0x17,
        Operation::Equal => 0x18,
        Operation::Less => 0x19,
    }
}
