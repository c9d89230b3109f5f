//! Why a run stops before its `halt`.

ghost use Rattle.std.specs.Prelude.{◌≡◌};
ghost use Rattle.mb_model.specs.application.Application.{trap_number};

/// Why a run stops before its `halt`. It is an enum, since no type would say of a number that it is 1 to 8.
#[derive(Clone, Copy, Debug, PartialEq, Eq)]
pub enum Trap {
    /// No instruction stands at the place: an unknown code, a bad name, or bytes past the code's end.
    NoInstruction,
    /// The stack has fewer values than the instruction takes.
    TooFewValues,
    /// The instruction would leave more than 256 values on the stack.
    TooManyValues,
    /// An address is past the memory's end, or a secret does not fit between it and the end.
    BadAddress,
    /// A division by 0.
    DivisionByZero,
    /// A region that the running layer may not read.
    BadRegion,
    /// The output already has 4,096 bytes.
    OutputFull,
    /// A call while 64 places are kept, or a return while none is.
    BadReturn,
}

impl Trap {
    /// The number with which the trap is reported, 1 to 8.
    pub fn number(self) -> u8
        ensures { result ≡ trap_number self }
    {
        match self {
            Trap::NoInstruction => 1,
            Trap::TooFewValues => 2,
            Trap::TooManyValues => 3,
            Trap::BadAddress => 4,
            Trap::DivisionByZero => 5,
            Trap::BadRegion => 6,
            Trap::OutputFull => 7,
            Trap::BadReturn => 8,
        }
    }
}
