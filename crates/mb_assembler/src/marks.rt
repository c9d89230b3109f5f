//! Which places of a code have an instruction, and to which of them it goes.

ghost use Rattle.std.specs.Prelude.{◌≡◌, ◌<◌, ◌≤◌, false, true, length, replicate, set, IfOk};
ghost use Rattle.mb_model.specs.declared.limits.TheConstants.{CODE_LIMIT};
ghost use Rattle.mb_assembler.specs.Marks.{is_marked, stands_by, reached_by, with_target, AddsMarks, MarksCode};

use mb_appvm::{DisasmEnd, fetch};
use mb_model::{Instruction, NoMemory};
use std::alloc::Global;

/// For each offset of a code, whether an instruction stands there, and whether a jump or a call goes there.
#[derive(Drop)]
pub(crate) struct Marks {
    instructions: Vec<bool>,
    targets: Vec<bool>,
}

impl Marks {
    /// The marks of a code; `NoInstruction` with the first place at which no whole instruction stands.
    pub(crate) fn of(alloc: Global, code: &[u8]) -> Result<Marks, DisasmEnd>
        requires { length code.now ≤ CODE_LIMIT }
        ensures { MarksCode code.now result }
    {
        let mut marks = Marks::none(alloc, code.len())?;
        let mut place: u32 = 0;
        while (place as usize) < code.len() {
            match fetch(code, place) {
                Some((instruction, next)) => {
                    marks.add(place as usize, &instruction);
                    place = next;
                }
                None => return Err(DisasmEnd::NoInstruction { at: place }),
            }
        }
        Ok(marks)
    }

    /// Whether an instruction stands at a place.
    pub(crate) fn has_instruction(&self, place: u16) -> bool
        ensures { result ≡ stands_by self.now place }
    {
        is_marked(&self.instructions, place as usize)
    }

    /// Whether a jump or a call goes to a place.
    pub(crate) fn is_target(&self, place: u32) -> bool
        ensures { result ≡ reached_by self.now place }
    {
        is_marked(&self.targets, place as usize)
    }

    /// No marks, for a code of this size.
    fn none(alloc: Global, size: usize) -> Result<Marks, NoMemory>
        requires { size ≤ CODE_LIMIT }
        ensures instructions { IfOk result (λ marks. marks.instructions.items ≡ replicate size false) }
        ensures targets { IfOk result (λ marks. marks.targets.items ≡ replicate size false) }
    {
        Ok(Marks {
            instructions: vec![in alloc; false; size]?,
            targets: vec![in alloc; false; size]?,
        })
    }

    /// Marks an instruction at its place, and the place to which it goes.
    fn add(&mut self, place: usize, instruction: &Instruction<'_>)
        requires { place < length self.old.instructions.items }
        ensures { AddsMarks self.old place instruction.now self.new }
    {
        self.instructions[place] = true;
        mark_target(&mut self.targets, instruction);
    }
}

/// Whether a place is marked; one past the table is not.
fn is_marked(marks: &Vec<bool>, place: usize) -> bool
    ensures { result ≡ is_marked marks.now.items place }
{
    place < marks.len() && marks[place]
}

/// Marks the place to which an instruction goes, if it goes to one in the table.
fn mark_target(targets: &mut Vec<bool>, instruction: &Instruction<'_>)
    ensures { targets.new.items ≡ with_target instruction.now targets.old.items }
{
    match instruction {
        Instruction::Jump(to) | Instruction::JumpZero(to) | Instruction::Call(to) => {
            mark(targets, *to as usize);
        }
        Instruction::Plain(_) | Instruction::Push(_) | Instruction::Get(_) => {}
    }
}

/// Marks a place, if it is in the table.
fn mark(marks: &mut Vec<bool>, place: usize)
    ensures { marks.new.items ≡ set marks.old.items place true }
{
    if place < marks.len() {
        marks[place] = true;
    }
}
