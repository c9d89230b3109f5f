//! Statements both ways, against bytes of another program.

use super::spelled::joined;
use mb_cert::{Statement, read_statement, write_statement};
use mb_model::Said;
use std::alloc::Global;
use std::process::Abort;
use std::test::Fail;

/// The number 5 and the message hello, as another program spelled them before a signature.
pub const FIRST: (&str, usize) = ("000000050568656c6c6f", 1);

/// The number 5, the mark of a call, the SHA-256 of hello, and the answer abc after its length.
const CALLED: (&str, usize) = (
    "00000005812cf24dba5fb0a30e26e83b2ac5b9e29e1b161e5c1fa7425e73043362938b982403616263",
    1,
);

/// The number 5, and a hash of 32 bytes 0x11 after the mark of a call.
pub const ASKED: (&str, usize) = (
    "00000005811111111111111111111111111111111111111111111111111111111111111111",
    1,
);

/// The SHA-256 of hello.
const INPUT: [u8; 32] = [
    0x2c, 0xf2, 0x4d, 0xba, 0x5f, 0xb0, 0xa3, 0x0e, 0x26, 0xe8, 0x3b, 0x2a, 0xc5, 0xb9, 0xe2, 0x9e,
    0x1b, 0x16, 0x1e, 0x5c, 0x1f, 0xa7, 0x42, 0x5e, 0x73, 0x04, 0x33, 0x62, 0x93, 0x8b, 0x98, 0x24,
];

/// A signature of bytes 0x63.
const SIGNATURE: (&str, usize) = ("63", 2_348);

/// Whether the statement has the number 5, the message hello, and a signature of bytes 0x63.
pub fn is_hello(statement: &Statement) -> bool {
    match &statement.said {
        Said::Message(message) => {
            statement.number == 5
                && message.as_slice() == b"hello".as_slice()
                && statement.signature == [0x63; 2348]
        }
        Said::Answer { .. } => false,
    }
}

/// Whether the statement has the number 5, the SHA-256 of hello, the answer abc, and a signature of bytes 0x63.
fn is_called(statement: &Statement) -> bool {
    match &statement.said {
        Said::Answer { input, answer } => {
            statement.number == 5
                && *input == INPUT
                && answer.as_slice() == b"abc".as_slice()
                && statement.signature == [0x63; 2348]
        }
        Said::Message(_) => false,
    }
}

/// The statement of these pieces, which is written as it was read.
fn read_and_written(
    rt: &impl Abort,
    alloc: Global,
    pieces: &[(&str, usize)],
) -> Result<Statement, Fail> {
    let bytes = joined(alloc, pieces)?;
    let statement = read_statement(alloc, &bytes)?;
    let mut out = Vec::with_capacity(alloc, 2_514)?;
    write_statement(&statement, &mut out)?;
    assert!(rt; out.as_slice() == bytes.as_slice());
    Ok(statement)
}

#[test]
fn a_statement_goes_both_ways(rt: HostRuntime) -> Result<(), Fail> {
    let statement = read_and_written(&rt, rt.alloc(), &[FIRST, SIGNATURE])?;
    assert!(rt; is_hello(&statement));
    let statement = read_and_written(&rt, rt.alloc(), &[CALLED, SIGNATURE])?;
    assert!(rt; is_called(&statement));
    Ok(())
}
