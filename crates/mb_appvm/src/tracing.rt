//! The line that tells of a step.

ghost use Rattle.std.specs.Prelude.{◌≡◌, ◌++◌, IfOk, OnOk, option_copied};
ghost use Rattle.mb_appvm.specs.Acting.{state_of, surroundings_of};
ghost use Rattle.mb_appvm.specs.Tracing.{place_part, stack_part, stack_words, at_address, copied, if_room, memory_part, plain_written, written, TellsStep};

use crate::disassembling::{put_numbered, put_words};
use crate::environment::Environment;
use crate::fetching::fetch;
use crate::secrets::{has_room, value_of};
use crate::watching::NextStep;
use mb_bytes::put_slice;
use mb_model::{Bytes, Instruction, NoMemory, Plain};
use mb_words::hex_word;
use std::alloc::Global;

/// The line that tells of a step before it is done, with its LF: its number, the place and the instruction there, the
/// values on the stack, the one on top last, and the bytes that it writes to memory, if it writes some. `None` if no
/// whole instruction stands at the place.
///
/// Errors: `NoMemory`. No clause says when it comes; the tests trace runs with ample memory.
pub fn step_line(alloc: Global, step: &NextStep<'_>) -> Result<Option<Bytes>, NoMemory>
    ensures { IfOk result (TellsStep step.now.number (surroundings_of step.now.environment.now) (state_of step.now.machine.now)) }
{
    let NextStep {
        number,
        machine,
        environment,
    } = *step;
    let Some((instruction, _)) = fetch(environment.code, machine.place) else {
        return Ok(None);
    };
    let stack = machine.stack.as_slice();
    let mut text = Vec::new(alloc);
    put_place(&mut text, number, machine.place)?;
    put_words(&mut text, &instruction)?;
    put_stack(&mut text, stack)?;
    put_written(alloc, &mut text, &instruction, stack, environment)?;
    put_slice(&mut text, b"\n")?;
    Ok(Some(Bytes::from_vec(text)))
}

/// Appends the number of a step, and its place.
fn put_place(out: &mut Vec<u8>, number: u32, place: u32) -> Result<(), NoMemory>
    ensures { OnOk result (out.new.items ≡ out.old.items ++ place_part number place) }
{
    put_numbered(out, b"trace ", number)?;
    put_numbered(out, b" at ", place)?;
    put_slice(out, b": ")
}

/// Appends the values of a stack.
fn put_stack(out: &mut Vec<u8>, stack: &[u32]) -> Result<(), NoMemory>
    ensures { OnOk result (out.new.items ≡ out.old.items ++ stack_part stack.now) }
{
    put_slice(out, b"  stack")?;
    if stack.is_empty() {
        return put_slice(out, b" -");
    }
    put_values(out, stack)
}

/// Appends these values, each after a space.
fn put_values(out: &mut Vec<u8>, values: &[u32]) -> Result<(), NoMemory>
    ensures { OnOk result (out.new.items ≡ out.old.items ++ stack_words values.now) }
{
    for value in values {
        put_numbered(out, b" ", *value)?;
    }
    Ok(())
}

/// Appends what an instruction writes to memory, with these values on the stack; nothing, if it writes nothing.
fn put_written(
    alloc: Global,
    out: &mut Vec<u8>,
    instruction: &Instruction<'_>,
    stack: &[u32],
    environment: &Environment<'_>,
) -> Result<(), NoMemory>
    ensures { OnOk result (out.new.items ≡ out.old.items ++ memory_part (written (surroundings_of environment.now) instruction.now stack.now)) }
{
    let count = stack.len();
    if count < 2 {
        return Ok(());
    }
    let under = stack[count - 2];
    let top = stack[count - 1];
    match instruction {
        Instruction::Plain(plain) => put_stored(alloc, out, *plain, under, top),
        Instruction::Get(name) => {
            let bytes = copied(name.as_slice(), under, top, environment);
            put_memory(alloc, out, under, bytes)
        }
        Instruction::Push(_)
        | Instruction::Jump(_)
        | Instruction::JumpZero(_)
        | Instruction::Call(_) => Ok(()),
    }
}

/// Appends what an instruction without an operand writes to memory, with these two values on the stack, the second on
/// top; nothing, if it writes nothing.
fn put_stored(
    alloc: Global,
    out: &mut Vec<u8>,
    plain: Plain,
    under: u32,
    top: u32,
) -> Result<(), NoMemory>
    ensures { OnOk result (out.new.items ≡ out.old.items ++ memory_part (plain_written plain under top)) }
{
    match plain {
        Plain::Store => {
            let byte = [(under % 256) as u8];
            put_memory(alloc, out, top, if_room(top, &byte))
        }
        Plain::Halt
        | Plain::Pop
        | Plain::Dup
        | Plain::Swap
        | Plain::Over
        | Plain::Compute(_)
        | Plain::Return
        | Plain::Load
        | Plain::Input
        | Plain::Length
        | Plain::Emit => Ok(()),
    }
}

/// The bytes that a `get` of this name in a region copies to memory from an address on; `None` if it copies none.
fn copied<'a>(
    name: &[u8],
    address: u32,
    region: u32,
    environment: &Environment<'a>,
) -> Option<&'a [u8]>
    ensures { option_copied result ≡ copied address name.now ((surroundings_of environment.now).secrets region) }
{
    let secrets = environment.secrets(region)?;
    let value = value_of(secrets, name)?;
    if_room(address, value)
}

/// The bytes, if memory has room for them from an address on.
fn if_room(address: u32, bytes: &[u8]) -> Option<&[u8]>
    ensures { option_copied result ≡ if_room address bytes.now }
{
    if has_room(address, bytes) {
        Some(bytes)
    } else {
        None
    }
}

/// Appends the bytes that are written to memory from an address on, if there are some.
fn put_memory(
    alloc: Global,
    out: &mut Vec<u8>,
    address: u32,
    bytes: Option<&[u8]>,
) -> Result<(), NoMemory>
    ensures { OnOk result (out.new.items ≡ out.old.items ++ memory_part (at_address address (option_copied bytes.entry))) }
{
    let Some(bytes) = bytes else {
        return Ok(());
    };
    let word = hex_word(alloc, bytes)?;
    put_numbered(out, b"  memory ", address)?;
    put_slice(out, b"=")?;
    put_slice(out, word.as_bytes())
}
