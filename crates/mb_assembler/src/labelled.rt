//! The listing of a code with labels and places.

ghost use Rattle.std.specs.Prelude.{◌≤◌, ◌++◌, length, codes, IfOk};
ghost use Rattle.std.specs.Fmt.{decimal};
ghost use Rattle.mb_format.specs.Format.{IsBytes};
ghost use Rattle.mb_model.specs.declared.limits.TheConstants.{CODE_LIMIT};
ghost use Rattle.mb_model.specs.outside.Texts.{line_with_lf};
ghost use Rattle.mb_bytes.specs.Puts.{Puts};
ghost use Rattle.mb_assembler.specs.Labelled.{PlacedInstruction, target_word, words_with_label, line_with_place, label_text};
ghost use Rattle.mb_assembler.specs.Labelled.{instruction_text, IsLabelledListing, ListsWithLabels};
ghost use Rattle.mb_assembler.specs.Marks.{stands_by, reached_by, HasMarks};

use crate::marks::Marks;
use mb_appvm::{DisasmEnd, fetch, put_numbered, put_words};
use mb_bytes::put_slice;
use mb_model::{Bytes, Instruction, NoMemory};
use std::alloc::Global;

/// The text of a code with labels and places: a line for each instruction, which ends with its place in decimal, and
/// before it the line of a label if a jump or a call goes there. A jump or a call names the label of its target if an
/// instruction stands there. The code has at most 32,768 bytes.
///
/// Errors: `NoInstruction` with the first place at which no whole instruction stands, and `NoMemory`. No clause says
/// when the latter comes; the tests list codes with ample memory.
pub fn list_with_labels(alloc: Global, code: &[u8]) -> Result<Bytes, DisasmEnd>
    requires { length code.now ≤ CODE_LIMIT }
    ensures { ListsWithLabels code.now result }
{
    let marks = Marks::of(alloc, code)?;
    let text = write_lines(alloc, code, &marks)?;
    Ok(Bytes::from_vec(text))
}

/// The text of a code whose instructions are marked.
fn write_lines(alloc: Global, code: &[u8], marks: &Marks) -> Result<Vec<u8>, NoMemory>
    requires short { length code.now ≤ CODE_LIMIT }
    requires marked { HasMarks code.now marks.now }
    ensures { IfOk result (λ text. IsLabelledListing code.now text.items) }
{
    are_bytes(code);
    let mut text = Vec::new(alloc);
    let mut place: u32 = 0;
    while (place as usize) < code.len() {
        match fetch(code, place) {
            Some((instruction, next)) => {
                put_text(&mut text, place, &instruction, marks)?;
                place = next;
            }
            None => unreachable!(),
        }
    }
    Ok(text)
}

/// Shows that each byte of a code is less than 256.
fn are_bytes(code: &[u8])
    ensures { IsBytes code.now }
{}

/// Appends the line of the label of an instruction, if it has one, and its own.
fn put_text(
    out: &mut Vec<u8>,
    place: u32,
    instruction: &Instruction<'_>,
    marks: &Marks,
) -> Result<(), NoMemory>
    ensures { Puts (instruction_text (stands_by marks.now) (reached_by marks.now) (record { place = place; it = instruction.now })) out.old result out.new }
{
    put_label_line(out, place, marks)?;
    put_placed_line(out, place, instruction, marks)
}

/// Appends the line of the label of a place and its LF, if a jump or a call goes there.
fn put_label_line(out: &mut Vec<u8>, place: u32, marks: &Marks) -> Result<(), NoMemory>
    ensures { Puts (label_text (reached_by marks.now) place) out.old result out.new }
{
    if !marks.is_target(place) {
        return Ok(());
    }
    put_numbered(out, b"label at_", place)?;
    put_slice(out, b"\n")
}

/// Appends the line of an instruction with its place, and its LF.
fn put_placed_line(
    out: &mut Vec<u8>,
    place: u32,
    instruction: &Instruction<'_>,
    marks: &Marks,
) -> Result<(), NoMemory>
    ensures { Puts (line_with_lf (line_with_place (stands_by marks.now) (record { place = place; it = instruction.now }))) out.old result out.new }
{
    put_placed_words(out, place, instruction, marks)?;
    put_slice(out, b"\n")
}

/// Appends the words of an instruction, and its place.
fn put_placed_words(
    out: &mut Vec<u8>,
    place: u32,
    instruction: &Instruction<'_>,
    marks: &Marks,
) -> Result<(), NoMemory>
    ensures { Puts (line_with_place (stands_by marks.now) (record { place = place; it = instruction.now })) out.old result out.new }
{
    put_instruction(out, instruction, marks)?;
    put_numbered(out, b" ; ", place)
}

/// Appends the words of an instruction, with the label of the place to which it goes.
fn put_instruction(
    out: &mut Vec<u8>,
    instruction: &Instruction<'_>,
    marks: &Marks,
) -> Result<(), NoMemory>
    ensures { Puts (words_with_label (stands_by marks.now) instruction.now) out.old result out.new }
{
    match instruction {
        Instruction::Jump(to) => put_jump(out, b"jump ", *to, marks),
        Instruction::JumpZero(to) => put_jump(out, b"jumpzero ", *to, marks),
        Instruction::Call(to) => put_jump(out, b"call ", *to, marks),
        Instruction::Plain(_) | Instruction::Push(_) | Instruction::Get(_) => {
            put_words(out, instruction)
        }
    }
}

/// Appends a word, and the place to which it goes: the label of the place if an instruction stands there, and else its
/// number.
fn put_jump(out: &mut Vec<u8>, word: &[u8], to: u16, marks: &Marks) -> Result<(), NoMemory>
    ensures { Puts (word.now ++ target_word (stands_by marks.now) to) out.old result out.new }
{
    put_slice(out, word)?;
    if marks.has_instruction(to) {
        put_numbered(out, b"at_", u32::from(to))
    } else {
        put_numbered(out, b"", u32::from(to))
    }
}
