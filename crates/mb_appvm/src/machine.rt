//! The machine, one instruction after another.

ghost use Rattle.std.specs.Prelude.{◌≡◌, ◌+◌, ◌<◌, ◌≤◌, ◌++◌, ◌∷◌, [], ℕ, length};
ghost use Rattle.arrayvec.specs.ArrayVec.{array_vec_len};
ghost use Rattle.mb_model.specs.declared.limits.TheConstants.{FILE_LIMIT};
ghost use Rattle.mb_model.specs.declared.limits.TheConstants.{STACK_LIMIT};
ghost use Rattle.mb_model.specs.application.Application.{Surroundings, takes, leaves};
ghost use Rattle.mb_model.specs.application.Application.{plain_takes, plain_leaves};
ghost use Rattle.mb_model.specs.application.Runs.{first_state};
ghost use Rattle.mb_appvm.specs.Acting.{state_of, surroundings_of, DoesStep, DoesOn};
ghost use Rattle.mb_model.specs.declared.instruction.Instruction.TheVariants as instruction;
ghost use Rattle.mb_appvm.specs.declared.machine.Step.TheVariants as step;

use crate::environment::Environment;
use crate::fetching::fetch;
use arrayvec::ArrayVec;
use mb_model::{CALL_LIMIT, Instruction, MEMORY_LENGTH, OUTPUT_LIMIT, Plain, STACK_LIMIT, Trap};

/// A machine between two instructions.
#[derive(Drop)]
pub struct Machine {
    pub(crate) place: u32,
    pub(crate) stack: ArrayVec<u32, STACK_LIMIT>,
    pub(crate) returns: ArrayVec<u32, CALL_LIMIT>,
    pub(crate) memory: [u8; MEMORY_LENGTH],
    pub(crate) output: ArrayVec<u8, OUTPUT_LIMIT>,
}

/// What an instruction leads to.
#[derive(Clone, Copy, PartialEq, Eq)]
pub enum Step {
    GoesOn,
    Ends,
    Traps(Trap),
}

impl Machine {
    /// A machine before its first instruction.
    pub(crate) fn new() -> Machine
        ensures { state_of result ≡ first_state }
    {
        Machine {
            place: 0,
            stack: ArrayVec::new(),
            returns: ArrayVec::new(),
            memory: [0; MEMORY_LENGTH],
            output: ArrayVec::new(),
        }
    }

    /// Executes the instruction at the machine's place. A machine that does not go on is unchanged.
    pub(crate) fn step(&mut self, environment: &Environment<'_>) -> Step
        requires code { length environment.now.code.now ≤ FILE_LIMIT }
        requires input { length environment.now.input.now ≤ FILE_LIMIT }
        ensures { DoesStep (surroundings_of environment.now) self.old result self.new }
    {
        let Some((instruction, next)) = fetch(environment.code, self.place) else {
            return Step::Traps(Trap::NoInstruction);
        };
        let values = self.stack.len();
        let taken = takes(&instruction);
        if values < taken {
            return Step::Traps(Trap::TooFewValues);
        }
        if values + leaves(&instruction) > taken + STACK_LIMIT {
            return Step::Traps(Trap::TooManyValues);
        }
        self.act(instruction, next, environment)
    }

    /// Does an instruction whose values are there and whose results have room.
    fn act(
        &mut self,
        instruction: Instruction<'_>,
        next: u32,
        environment: &Environment<'_>,
    ) -> Step
        requires enough { takes instruction ≤ array_vec_len self.old.stack }
        requires room { array_vec_len self.old.stack + leaves instruction ≤ takes instruction + STACK_LIMIT }
        requires fits { array_vec_len self.old.stack ≤ STACK_LIMIT }
        requires input { length environment.now.input.now ≤ FILE_LIMIT }
        ensures { DoesOn (surroundings_of environment.now) instruction.entry next self.old result self.new }
    {
        match instruction {
            Instruction::Plain(plain) => self.act_plain(plain, next, environment.input),
            Instruction::Push(value) => {
                self.push(value);
                self.go(next)
            }
            Instruction::Jump(to) => self.go(u32::from(to)),
            Instruction::JumpZero(to) => {
                let value = self.pop();
                self.go(if value == 0 { u32::from(to) } else { next })
            }
            Instruction::Call(to) => self.call(to, next),
            Instruction::Get(name) => self.get(name.as_slice(), next, environment),
        }
    }

    /// Continues at a place.
    pub(crate) fn go(&mut self, place: u32) -> Step
        ensures goes { result ≡ step.GoesOn }
        ensures place { self.new ≡ record self.old { place = place } }
    {
        self.place = place;
        Step::GoesOn
    }

    /// Takes the value on top.
    pub(crate) fn pop(&mut self) -> u32
        requires { 0 < array_vec_len self.old.stack }
        ensures value { self.old.stack.items ≡ self.new.stack.items ++ result ∷ [] }
        ensures stays { self.new ≡ record self.old { stack = self.new.stack } }
    {
        match self.stack.pop() {
            Some(value) => value,
            None => unreachable!(),
        }
    }

    /// Puts a value on top.
    pub(crate) fn push(&mut self, value: u32)
        requires { array_vec_len self.old.stack < STACK_LIMIT }
        ensures value { self.new.stack.items ≡ self.old.stack.items ++ value ∷ [] }
        ensures stays { self.new ≡ record self.old { stack = self.new.stack } }
    {
        self.stack.push(value);
    }

    /// Keeps the next place and continues at another.
    fn call(&mut self, to: u16, next: u32) -> Step
        requires room { array_vec_len self.old.stack ≤ STACK_LIMIT }
        ensures { (s : Surroundings) → DoesOn s (instruction.Call to) next self.old result self.new }
    {
        if self.returns.is_full() {
            return Step::Traps(Trap::BadReturn);
        }
        self.returns.push(next);
        self.go(u32::from(to))
    }
}

/// How many values an instruction takes from the stack.
fn takes(instruction: &Instruction<'_>) -> usize
    ensures value { result ≡ takes instruction.now }
    ensures few { result ≤ 2 }
{
    match instruction {
        Instruction::Plain(plain) => plain_takes(*plain),
        Instruction::Push(_) | Instruction::Jump(_) | Instruction::Call(_) => 0,
        Instruction::JumpZero(_) => 1,
        Instruction::Get(_) => 2,
    }
}

/// How many values an instruction without an operand takes.
fn plain_takes(plain: Plain) -> usize
    ensures value { result ≡ plain_takes plain }
    ensures few { result ≤ 2 }
{
    match plain {
        Plain::Halt | Plain::Return | Plain::Length => 0,
        Plain::Pop | Plain::Dup | Plain::Load | Plain::Input | Plain::Emit => 1,
        Plain::Swap | Plain::Over | Plain::Compute(_) | Plain::Store => 2,
    }
}

/// How many values an instruction leaves in place of those that it takes.
fn leaves(instruction: &Instruction<'_>) -> usize
    ensures value { result ≡ leaves instruction.now }
    ensures few { result ≤ 3 }
{
    match instruction {
        Instruction::Plain(plain) => plain_leaves(*plain),
        Instruction::Push(_) | Instruction::Get(_) => 1,
        Instruction::Jump(_) | Instruction::Call(_) | Instruction::JumpZero(_) => 0,
    }
}

/// How many values an instruction without an operand leaves.
fn plain_leaves(plain: Plain) -> usize
    ensures value { result ≡ plain_leaves plain }
    ensures few { result ≤ 3 }
{
    match plain {
        Plain::Halt | Plain::Pop | Plain::Return | Plain::Store | Plain::Emit => 0,
        Plain::Compute(_) | Plain::Load | Plain::Input | Plain::Length => 1,
        Plain::Dup | Plain::Swap => 2,
        Plain::Over => 3,
    }
}
