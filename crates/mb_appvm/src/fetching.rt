//! The instruction at an offset of a code.

ghost use Rattle.std.specs.Prelude.{◌≡◌, ◌≤◌, length};
ghost use Rattle.std.specs.Int.{w8};
ghost use Rattle.mb_model.specs.declared.limits.TheConstants.{FILE_LIMIT, NAME_LIMIT};
ghost use Rattle.mb_format.specs.Combinators.{table, between, sized_that};
ghost use Rattle.mb_bytes.specs.Reads.{bad_at, Reads};
ghost use Rattle.mb_model.specs.records.RegionFormat.{is_name};
ghost use Rattle.mb_model.specs.application.Instructions.{opcode_rows, opcode_byte, instruction_format};
ghost use Rattle.mb_appvm.specs.Acting.{Fetches};

use mb_bytes::{Cursor, is_name, u8_between};
use mb_model::{BadRecord, Instruction, NAME_LIMIT, Name, Opcode, Operation, Plain};

/// The instruction at an offset of a code, and the offset after it; `None` if no whole instruction stands there. The
/// code has at most 4,194,304 bytes.
pub fn fetch(code: &[u8], place: u32) -> Option<(Instruction<'_>, u32)>
    requires { length code.now ≤ FILE_LIMIT }
    ensures { Fetches code.now place result }
{
    let mut cursor = Cursor::new(code);
    match cursor.take_slice(place) {
        Ok(_) => {}
        Err(_) => return None,
    }
    match instruction_at(&mut cursor) {
        Ok(instruction) => Some((instruction, cursor.offset())),
        Err(_) => None,
    }
}

/// Reads an instruction.
#[tactic(auto, unfolding(mb_model::specs::application::Instructions::instruction_format))]
fn instruction_at<'a>(cursor: &mut Cursor<'a>) -> Result<Instruction<'a>, BadRecord>
    ensures { Reads bad_at instruction_format cursor.old result cursor.new }
{
    match opcode_at(cursor)? {
        Opcode::Plain(plain) => Ok(Instruction::Plain(plain)),
        Opcode::Push => Ok(Instruction::Push(cursor.take_u32()?)),
        Opcode::Jump => Ok(Instruction::Jump(cursor.take_u16()?)),
        Opcode::JumpZero => Ok(Instruction::JumpZero(cursor.take_u16()?)),
        Opcode::Call => Ok(Instruction::Call(cursor.take_u16()?)),
        Opcode::Get => Ok(Instruction::Get(name_at(cursor)?)),
    }
}

/// Reads the first byte of an instruction.
fn opcode_at(cursor: &mut Cursor<'_>) -> Result<Opcode, BadRecord>
    ensures { Reads bad_at (table w8 opcode_rows opcode_byte) cursor.old result cursor.new }
{
    let at = cursor.offset();
    match cursor.take_u8()? {
        0x00 => Ok(Opcode::Plain(Plain::Halt)),
        0x01 => Ok(Opcode::Push),
        0x02 => Ok(Opcode::Plain(Plain::Pop)),
        0x03 => Ok(Opcode::Plain(Plain::Dup)),
        0x04 => Ok(Opcode::Plain(Plain::Swap)),
        0x05 => Ok(Opcode::Plain(Plain::Over)),
        0x10 => Ok(Opcode::Plain(Plain::Compute(Operation::Add))),
        0x11 => Ok(Opcode::Plain(Plain::Compute(Operation::Sub))),
        0x12 => Ok(Opcode::Plain(Plain::Compute(Operation::Mul))),
        0x13 => Ok(Opcode::Plain(Plain::Compute(Operation::Div))),
        0x14 => Ok(Opcode::Plain(Plain::Compute(Operation::Rem))),
        0x15 => Ok(Opcode::Plain(Plain::Compute(Operation::And))),
        0x16 => Ok(Opcode::Plain(Plain::Compute(Operation::Or))),
        0x17 => Ok(Opcode::Plain(Plain::Compute(Operation::Xor))),
        0x18 => Ok(Opcode::Plain(Plain::Compute(Operation::Equal))),
        0x19 => Ok(Opcode::Plain(Plain::Compute(Operation::Less))),
        0x20 => Ok(Opcode::Jump),
        0x21 => Ok(Opcode::JumpZero),
        0x22 => Ok(Opcode::Call),
        0x23 => Ok(Opcode::Plain(Plain::Return)),
        0x30 => Ok(Opcode::Plain(Plain::Load)),
        0x31 => Ok(Opcode::Plain(Plain::Store)),
        0x40 => Ok(Opcode::Plain(Plain::Input)),
        0x41 => Ok(Opcode::Plain(Plain::Length)),
        0x42 => Ok(Opcode::Plain(Plain::Emit)),
        0x43 => Ok(Opcode::Get),
        _ => Err(BadRecord { at }),
    }
}

/// Reads a name of 1 to 32 bytes after its length.
pub(crate) fn name_at<'a>(cursor: &mut Cursor<'a>) -> Result<Name<'a>, BadRecord>
    ensures { Reads bad_at (sized_that is_name (between w8 1 NAME_LIMIT)) cursor.old result cursor.new }
{
    let length = u8_between(cursor, 1, NAME_LIMIT)?;
    let at = cursor.offset();
    let name = cursor.take_slice(u32::from(length))?;
    if is_name(name) {
        Ok(Name::new(name))
    } else {
        Err(BadRecord { at })
    }
}
