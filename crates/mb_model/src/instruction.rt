//! The instructions of the machine.

ghost use Rattle.std.specs.Prelude.{◌≡◌};

use std::marker::Model;

/// An operation on the two values on top of the stack: `a`, and `b` above it. Results are modulo 2^32.
#[derive(Clone, Copy, Debug, PartialEq, Eq)]
pub enum Operation {
    Add,
    /// a minus b
    Sub,
    Mul,
    /// a divided by b, without the remainder
    Div,
    /// The remainder of a divided by b.
    Rem,
    And,
    Or,
    Xor,
    /// 1 if a is b, else 0
    Equal,
    /// 1 if a is below b, else 0
    Less,
}

/// An instruction without an operand.
#[derive(Clone, Copy, Debug, PartialEq, Eq)]
pub enum Plain {
    /// Ends the run.
    Halt,
    /// Drops the value on top.
    Pop,
    /// Pushes the value on top once more.
    Dup,
    /// Exchanges the two values on top.
    Swap,
    /// Pushes the value under the one on top.
    Over,
    /// Puts the result of an operation in place of its two values.
    Compute(Operation),
    /// Continues at the place that was kept last.
    Return,
    /// Puts the byte of memory at an address in place of the address.
    Load,
    /// Takes an address, and under it a value, and stores the value's low byte there.
    Store,
    /// Puts the byte of the input at an index, or 256 past its end, in place of the index.
    Input,
    /// Pushes the number of bytes of the input.
    Length,
    /// Takes a value and appends its low byte to the output.
    Emit,
}

/// An instruction without its operand: what its first byte says.
#[derive(Clone, Copy, Debug, PartialEq, Eq)]
pub enum Opcode {
    Plain(Plain),
    Push,
    Jump,
    JumpZero,
    Call,
    Get,
}

/// The name of a secret in an instruction: 1 to 32 bytes from 0x21 to 0x7E.
#[derive(Drop)]
pub struct Name<'a> {
    bytes: &'a [u8],
}

impl<'a> Model for Name<'a> {
    ghost use Rattle.std.specs.Prelude.{List, ℕ};

    ghost Value = { List ℕ };

    ghost view = { λ name. name.bytes.now };
}

impl<'a> Name<'a> {
    /// The bytes as a name.
    pub fn new(bytes: &'a [u8]) -> Name<'a>
        ensures { result ≡ bytes.now }
    {
        Name { bytes }
    }

    /// The bytes of the name.
    pub fn as_slice(&self) -> &'a [u8]
        ensures { result.now ≡ self.now }
    {
        self.bytes
    }
}

/// An instruction with its operand.
#[derive(Drop)]
pub enum Instruction<'a> {
    Plain(Plain),
    /// Pushes the number.
    Push(u32),
    /// Continues at the place.
    Jump(u16),
    /// Takes a value and continues at the place if it is 0.
    JumpZero(u16),
    /// Keeps the next place and continues at this one.
    Call(u16),
    /// Takes a region, 2 or 3, and under it an address; copies the named secret to memory from there and pushes its
    /// length, or pushes 4,294,967,295 if the region has no such secret.
    Get(Name<'a>),
}
