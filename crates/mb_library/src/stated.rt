//! What the statement of a chain says, in plain numbers and bytes.

ghost use Rattle.std.specs.Prelude.{◌≡◌, ◌≤◌, length};
ghost use Rattle.mb_model.specs.declared.limits.TheConstants.{MESSAGE_LIMIT};
ghost use Rattle.mb_library.specs.Stated.{no_statement, padded, message_stated, answer_stated, stated_of, IsShortSaid};

use mb_bytes::put_at;
use mb_model::{MESSAGE_LIMIT, Said};

/// The chain has no statement.
pub const SAYS_NOTHING: u32 = 0;

/// The statement is one of a message, which the host chose.
pub const SAYS_MESSAGE: u32 = 1;

/// The statement is one of a call: what the code of the key's layer answered.
pub const SAYS_ANSWER: u32 = 2;

/// What the statement of a chain says. What no field is said to hold is 0.
#[repr(C)]
#[derive(Clone, Copy)]
pub struct Stated {
    /// `SAYS_NOTHING`, `SAYS_MESSAGE` or `SAYS_ANSWER`.
    pub kind: u32,
    /// How many bytes the message or the answer has.
    pub length: u32,
    /// The SHA-256 of the call's input.
    pub input: [u8; 32],
    /// The message or the answer, and zeros.
    pub bytes: [u8; 128],
}

impl Stated {
    /// What is told if there is no statement, or no chain is accepted.
    pub(crate) fn none() -> Stated
        ensures { result ≡ no_statement }
    {
        Stated {
            kind: SAYS_NOTHING,
            length: 0,
            input: [0; 32],
            bytes: [0; 128],
        }
    }

    /// What is told of a statement that says this.
    pub(crate) fn of(said: &Option<Said>) -> Stated
        requires { IsShortSaid said.now }
        ensures { result ≡ stated_of said.now }
    {
        match said {
            Some(Said::Message(message)) => message_stated(message.as_slice()),
            Some(Said::Answer { input, answer }) => answer_stated(input, answer.as_slice()),
            None => Stated::none(),
        }
    }
}

/// What is told of a message.
fn message_stated(message: &[u8]) -> Stated
    requires { length message.now ≤ MESSAGE_LIMIT }
    ensures { result ≡ message_stated message.now }
{
    Stated {
        kind: SAYS_MESSAGE,
        length: message.len() as u32,
        input: [0; 32],
        bytes: padded(message),
    }
}

/// What is told of the answer of a call whose input has this hash.
fn answer_stated(input: &[u8; 32], answer: &[u8]) -> Stated
    requires { length answer.now ≤ MESSAGE_LIMIT }
    ensures { result ≡ answer_stated input.now answer.now }
{
    Stated {
        kind: SAYS_ANSWER,
        length: answer.len() as u32,
        input: *input,
        bytes: padded(answer),
    }
}

/// The bytes, and zeros.
fn padded(bytes: &[u8]) -> [u8; 128]
    requires { length bytes.now ≤ MESSAGE_LIMIT }
    ensures { result ≡ padded bytes.now }
{
    let mut out = [0; MESSAGE_LIMIT as usize];
    put_at(&mut out, 0, bytes);
    out
}
