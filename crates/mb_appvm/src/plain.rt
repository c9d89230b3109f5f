//! What instructions without an operand do.

ghost use Rattle.std.specs.Prelude.{◌≡◌, ◌+◌, ◌<◌, ◌≤◌, ℕ, List, length, get_or};
ghost use Rattle.arrayvec.specs.ArrayVec.{array_vec_len};
ghost use Rattle.mb_model.specs.declared.limits.TheConstants.{FILE_LIMIT};
ghost use Rattle.mb_model.specs.declared.limits.TheConstants.{STACK_LIMIT};
ghost use Rattle.mb_model.specs.application.Application.{plain_takes, plain_leaves, result_of};
ghost use Rattle.mb_appvm.specs.Acting.{DoesPlainOn};
ghost use Rattle.mb_model.specs.declared.instruction.Plain.TheVariants as plain;

use crate::machine::{Machine, Step};
use crate::secrets::write;
use mb_model::{MEMORY_LENGTH, Operation, Plain, Trap};

impl Machine {
    /// Does an instruction whose values are there and whose results have room.
    pub(crate) fn act_plain(&mut self, plain: Plain, next: u32, input: &[u8]) -> Step
        requires enough { plain_takes plain ≤ array_vec_len self.old.stack }
        requires room { array_vec_len self.old.stack + plain_leaves plain ≤ plain_takes plain + STACK_LIMIT }
        requires fits { array_vec_len self.old.stack ≤ STACK_LIMIT }
        requires input { length input.now ≤ FILE_LIMIT }
        ensures { DoesPlainOn input.now plain next self.old result self.new }
    {
        match plain {
            Plain::Halt => Step::Ends,
            Plain::Pop => {
                self.pop();
                self.go(next)
            }
            Plain::Dup => self.dup(next),
            Plain::Swap => self.swap(next),
            Plain::Over => self.over(next),
            Plain::Compute(operation) => self.compute(operation, next),
            Plain::Return => self.come_back(next),
            Plain::Load => self.load(next),
            Plain::Store => self.store(next),
            Plain::Emit => self.emit(next),
            Plain::Input => {
                let index = self.pop();
                self.push(byte_at(input, index));
                self.go(next)
            }
            Plain::Length => {
                self.push(input.len() as u32);
                self.go(next)
            }
        }
    }

    /// Pushes the value on top once more.
    fn dup(&mut self, next: u32) -> Step
        requires enough { 1 ≤ array_vec_len self.old.stack }
        requires room { array_vec_len self.old.stack < STACK_LIMIT }
        ensures { (input : List ℕ) → DoesPlainOn input plain.Dup next self.old result self.new }
    {
        let value = self.pop();
        self.push(value);
        self.push(value);
        self.go(next)
    }

    /// Exchanges the two values on top.
    fn swap(&mut self, next: u32) -> Step
        requires enough { 2 ≤ array_vec_len self.old.stack }
        requires room { array_vec_len self.old.stack ≤ STACK_LIMIT }
        ensures { (input : List ℕ) → DoesPlainOn input plain.Swap next self.old result self.new }
    {
        let second = self.pop();
        let first = self.pop();
        self.push(second);
        self.push(first);
        self.go(next)
    }

    /// Pushes the value under the one on top.
    fn over(&mut self, next: u32) -> Step
        requires enough { 2 ≤ array_vec_len self.old.stack }
        requires room { array_vec_len self.old.stack < STACK_LIMIT }
        ensures { (input : List ℕ) → DoesPlainOn input plain.Over next self.old result self.new }
    {
        let second = self.pop();
        let first = self.pop();
        self.push(first);
        self.push(second);
        self.push(first);
        self.go(next)
    }

    /// Puts the result of an operation in place of its two values.
    fn compute(&mut self, operation: Operation, next: u32) -> Step
        requires enough { 2 ≤ array_vec_len self.old.stack }
        requires room { array_vec_len self.old.stack ≤ STACK_LIMIT }
        ensures { (input : List ℕ) → DoesPlainOn input (plain.Compute operation) next self.old result self.new }
    {
        let second = self.pop();
        let first = self.pop();
        match result_of(operation, first, second) {
            Some(value) => {
                self.push(value);
                self.go(next)
            }
            None => {
                self.push(first);
                self.push(second);
                Step::Traps(Trap::DivisionByZero)
            }
        }
    }

    /// Continues at the place that was kept last.
    fn come_back(&mut self, next: u32) -> Step
        ensures { (input : List ℕ) → DoesPlainOn input plain.Return next self.old result self.new }
    {
        match self.returns.pop() {
            Some(place) => self.go(place),
            None => Step::Traps(Trap::BadReturn),
        }
    }

    /// Puts the byte of memory at an address in place of the address.
    fn load(&mut self, next: u32) -> Step
        requires enough { 1 ≤ array_vec_len self.old.stack }
        requires room { array_vec_len self.old.stack ≤ STACK_LIMIT }
        ensures { (input : List ℕ) → DoesPlainOn input plain.Load next self.old result self.new }
    {
        let address = self.pop();
        if address as usize >= MEMORY_LENGTH {
            self.push(address);
            return Step::Traps(Trap::BadAddress);
        }
        let byte = self.memory[address as usize];
        self.push(u32::from(byte));
        self.go(next)
    }

    /// Takes an address, and under it a value, and stores the value's low byte there.
    fn store(&mut self, next: u32) -> Step
        requires enough { 2 ≤ array_vec_len self.old.stack }
        requires room { array_vec_len self.old.stack ≤ STACK_LIMIT }
        ensures { (input : List ℕ) → DoesPlainOn input plain.Store next self.old result self.new }
    {
        let address = self.pop();
        let value = self.pop();
        if address as usize >= MEMORY_LENGTH {
            self.push(value);
            self.push(address);
            return Step::Traps(Trap::BadAddress);
        }
        write(&mut self.memory, address as usize, &[(value % 256) as u8]);
        self.go(next)
    }

    /// Takes a value and appends its low byte to the output.
    fn emit(&mut self, next: u32) -> Step
        requires enough { 1 ≤ array_vec_len self.old.stack }
        requires room { array_vec_len self.old.stack ≤ STACK_LIMIT }
        ensures { (input : List ℕ) → DoesPlainOn input plain.Emit next self.old result self.new }
    {
        let value = self.pop();
        if self.output.is_full() {
            self.push(value);
            return Step::Traps(Trap::OutputFull);
        }
        self.output.push((value % 256) as u8);
        self.go(next)
    }
}

/// The byte of the input at an index, or 256 past its end.
fn byte_at(input: &[u8], index: u32) -> u32
    ensures { result ≡ get_or input.now index 256 }
{
    match input.get(index as usize) {
        Some(byte) => u32::from(*byte),
        None => 256,
    }
}

/// The result of an operation; `None` for a division by 0.
fn result_of(operation: Operation, first: u32, second: u32) -> Option<u32>
    ensures { result ≡ result_of operation first second }
{
    match operation {
        Operation::Add => Some(first.wrapping_add(second)),
        Operation::Sub => Some(first.wrapping_sub(second)),
        Operation::Mul => Some(first.wrapping_mul(second)),
        Operation::Div => first.checked_div(second),
        Operation::Rem => first.checked_rem(second),
        Operation::And => Some(first & second),
        Operation::Or => Some(first | second),
        Operation::Xor => Some(first ^ second),
        Operation::Equal => Some(u32::from(first == second)),
        Operation::Less => Some(u32::from(first < second)),
    }
}
