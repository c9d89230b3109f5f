//! Runs, checked against the ends that another program gives.

ghost use Rattle.std.specs.Prelude.{◌≤◌, length};

use super::codes::{ARBITRARY, Row, Wanted};
use super::devices::{Sight, layers_of, region_three, region_two};
use crate::tests::pieces::{bytes_of, joined};
use Sight::{Both, FromThree, OnlyTwo};
use Wanted::{Halted, Out, Stopped};
use mb_appvm::{AppEnd, Trap, run_app};
use std::alloc::Global;
use std::test::Fail;

/// Runs that halt, or that come to no end.
const HALTS: &[Row] = &[
    ("00", "09", Both, 1_000, Halted(1, "")),
    ("01000000050200", "09", Both, 1_000, Halted(3, "")),
    ("010000000703424200", "09", Both, 1_000, Halted(5, "0707")),
    (
        "0100000001010000000204424200",
        "09",
        Both,
        1_000,
        Halted(6, "0102"),
    ),
    (
        "010000000101000000020542424200",
        "09",
        Both,
        1_000,
        Halted(7, "010201"),
    ),
    (
        "01000000050100000003114200",
        "09",
        Both,
        1_000,
        Halted(5, "02"),
    ),
    (
        "010000000301000000051101fffffffe184200",
        "09",
        Both,
        1_000,
        Halted(7, "01"),
    ),
    (
        "01ffffffff0100000002104200",
        "09",
        Both,
        1_000,
        Halted(5, "01"),
    ),
    (
        "01000100010100010001120100020001184200",
        "09",
        Both,
        1_000,
        Halted(7, "01"),
    ),
    (
        "01000000070100000002134200",
        "09",
        Both,
        1_000,
        Halted(5, "03"),
    ),
    (
        "01000000070100000004144200",
        "09",
        Both,
        1_000,
        Halted(5, "03"),
    ),
    (
        "01800000000100000001194200",
        "09",
        Both,
        1_000,
        Halted(5, "00"),
    ),
    (
        "01000000010180000000194200",
        "09",
        Both,
        1_000,
        Halted(5, "01"),
    ),
    (
        "010000000c010000000a154200",
        "09",
        Both,
        1_000,
        Halted(5, "08"),
    ),
    (
        "010000000c010000000a164200",
        "09",
        Both,
        1_000,
        Halted(5, "0e"),
    ),
    (
        "010000000c010000000a174200",
        "09",
        Both,
        1_000,
        Halted(5, "06"),
    ),
    ("01000001414200", "09", Both, 1_000, Halted(3, "41")),
    ("2000040001000000014200", "09", Both, 1_000, Halted(4, "01")),
    ("01000000002100090000", "09", Both, 1_000, Halted(3, "")),
    ("010000000121000000", "09", Both, 1_000, Halted(3, "")),
    (
        "22000a0100000002420001000000014223",
        "09",
        Both,
        1_000,
        Halted(7, "0102"),
    ),
    (
        "010000020101000003ff3101000003ff304200",
        "09",
        Both,
        1_000,
        Halted(7, "01"),
    ),
    ("0100000009304200", "09", Both, 1_000, Halted(4, "00")),
    ("414200", "09", Both, 1_000, Halted(3, "01")),
    ("0100000000404200", "09", Both, 1_000, Halted(4, "09")),
    (
        "0100000001400100000100184200",
        "09",
        Both,
        1_000,
        Halted(6, "01"),
    ),
    (
        "01000003fe010000000243016b4201000003ff304200",
        "09",
        Both,
        1_000,
        Halted(8, "0208"),
    ),
    (
        "01000003fe010000000243016b4201000003ff304200",
        "09",
        OnlyTwo,
        1_000,
        Halted(8, "0208"),
    ),
    (
        "010000040001000000024301654200",
        "09",
        Both,
        1_000,
        Halted(5, "00"),
    ),
    (
        "010000040001000000024301654200",
        "09",
        OnlyTwo,
        1_000,
        Halted(5, "00"),
    ),
    (
        "01ffffffff010000000343016b01ffffffff184200",
        "09",
        Both,
        1_000,
        Halted(7, "01"),
    ),
    (
        "01ffffffff010000000343016b01ffffffff184200",
        "09",
        FromThree,
        1_000,
        Halted(7, "01"),
    ),
    ("200001", "09", Both, 1_000, Halted(2, "")),
    ("200000", "09", Both, 1_000, Out("")),
    ("01000000414200", "", Both, 1, Out("")),
    ("01000000414200", "", Both, 2, Out("41")),
    ("01000000414200", "", Both, 3, Halted(3, "41")),
    ("01000000414200", "", Both, 4, Halted(3, "41")),
];

/// Runs that trap.
const TRAPS: &[Row] = &[
    ("", "09", Both, 1_000, Stopped(Trap::NoInstruction, 0, "")),
    (
        "01000003fe010000000243016b4201000003ff304200",
        "09",
        FromThree,
        1_000,
        Stopped(Trap::BadRegion, 10, ""),
    ),
    (
        "010000040001000000024301654200",
        "09",
        FromThree,
        1_000,
        Stopped(Trap::BadRegion, 10, ""),
    ),
    (
        "01ffffffff010000000343016b01ffffffff184200",
        "09",
        OnlyTwo,
        1_000,
        Stopped(Trap::BadRegion, 10, ""),
    ),
    (
        "010000000120ffff",
        "09",
        Both,
        1_000,
        Stopped(Trap::NoInstruction, 65535, ""),
    ),
    (
        "0100000001",
        "09",
        Both,
        1_000,
        Stopped(Trap::NoInstruction, 5, ""),
    ),
    ("10", "09", Both, 1_000, Stopped(Trap::TooFewValues, 0, "")),
    (
        "010000000013",
        "09",
        Both,
        1_000,
        Stopped(Trap::TooFewValues, 5, ""),
    ),
    (
        "010000040031",
        "09",
        Both,
        1_000,
        Stopped(Trap::TooFewValues, 5, ""),
    ),
    ("23", "09", Both, 1_000, Stopped(Trap::BadReturn, 0, "")),
    ("220000", "09", Both, 1_000, Stopped(Trap::BadReturn, 0, "")),
    (
        "010000040030",
        "09",
        Both,
        1_000,
        Stopped(Trap::BadAddress, 5, ""),
    ),
    (
        "0100000001010000040031",
        "09",
        Both,
        1_000,
        Stopped(Trap::BadAddress, 10, ""),
    ),
    (
        "01000003ff010000000243016b",
        "09",
        Both,
        1_000,
        Stopped(Trap::BadAddress, 10, ""),
    ),
    (
        "01000003ff010000000243016b",
        "09",
        OnlyTwo,
        1_000,
        Stopped(Trap::BadAddress, 10, ""),
    ),
    (
        "01000003ff010000000243016b",
        "09",
        FromThree,
        1_000,
        Stopped(Trap::BadRegion, 10, ""),
    ),
    (
        "01000004010100000002430165",
        "09",
        Both,
        1_000,
        Stopped(Trap::BadAddress, 10, ""),
    ),
    (
        "01000004010100000002430165",
        "09",
        OnlyTwo,
        1_000,
        Stopped(Trap::BadAddress, 10, ""),
    ),
    (
        "01000004010100000002430165",
        "09",
        FromThree,
        1_000,
        Stopped(Trap::BadRegion, 10, ""),
    ),
    (
        "01ffffffff010000000243016b",
        "09",
        Both,
        1_000,
        Stopped(Trap::BadAddress, 10, ""),
    ),
    (
        "01ffffffff010000000243016b",
        "09",
        OnlyTwo,
        1_000,
        Stopped(Trap::BadAddress, 10, ""),
    ),
    (
        "01ffffffff010000000243016b",
        "09",
        FromThree,
        1_000,
        Stopped(Trap::BadRegion, 10, ""),
    ),
    (
        "0100000001010000000013",
        "09",
        Both,
        1_000,
        Stopped(Trap::DivisionByZero, 10, ""),
    ),
    (
        "0100000001010000000014",
        "09",
        Both,
        1_000,
        Stopped(Trap::DivisionByZero, 10, ""),
    ),
    (
        "010000270f010000000143016b",
        "09",
        Both,
        1_000,
        Stopped(Trap::BadRegion, 10, ""),
    ),
    (
        "010000270f010000000143016b",
        "09",
        OnlyTwo,
        1_000,
        Stopped(Trap::BadRegion, 10, ""),
    ),
    (
        "010000270f010000000143016b",
        "09",
        FromThree,
        1_000,
        Stopped(Trap::BadRegion, 10, ""),
    ),
    (
        "0100000000010000000443016b",
        "09",
        Both,
        1_000,
        Stopped(Trap::BadRegion, 10, ""),
    ),
    (
        "0100000000010000000443016b",
        "09",
        OnlyTwo,
        1_000,
        Stopped(Trap::BadRegion, 10, ""),
    ),
    (
        "0100000000010000000443016b",
        "09",
        FromThree,
        1_000,
        Stopped(Trap::BadRegion, 10, ""),
    ),
    (
        "010000270f01ffffffff43016b",
        "09",
        Both,
        1_000,
        Stopped(Trap::BadRegion, 10, ""),
    ),
    (
        "010000270f01ffffffff43016b",
        "09",
        OnlyTwo,
        1_000,
        Stopped(Trap::BadRegion, 10, ""),
    ),
    (
        "010000270f01ffffffff43016b",
        "09",
        FromThree,
        1_000,
        Stopped(Trap::BadRegion, 10, ""),
    ),
    (
        "010000270f0100000003430174",
        "09",
        Both,
        1_000,
        Stopped(Trap::BadAddress, 10, ""),
    ),
    (
        "010000270f0100000003430174",
        "09",
        OnlyTwo,
        1_000,
        Stopped(Trap::BadRegion, 10, ""),
    ),
    (
        "010000270f0100000003430174",
        "09",
        FromThree,
        1_000,
        Stopped(Trap::BadAddress, 10, ""),
    ),
];

/// Bytes that are no instruction, each behind a `halt` that is jumped over.
const NO_INSTRUCTIONS: &[Row] = &[
    (
        "2000040006",
        "",
        Both,
        9,
        Stopped(Trap::NoInstruction, 4, ""),
    ),
    (
        "200004000f",
        "",
        Both,
        9,
        Stopped(Trap::NoInstruction, 4, ""),
    ),
    (
        "200004001a",
        "",
        Both,
        9,
        Stopped(Trap::NoInstruction, 4, ""),
    ),
    (
        "2000040024",
        "",
        Both,
        9,
        Stopped(Trap::NoInstruction, 4, ""),
    ),
    (
        "2000040044",
        "",
        Both,
        9,
        Stopped(Trap::NoInstruction, 4, ""),
    ),
    (
        "20000400ff",
        "",
        Both,
        9,
        Stopped(Trap::NoInstruction, 4, ""),
    ),
    (
        "2000040001000000",
        "",
        Both,
        9,
        Stopped(Trap::NoInstruction, 4, ""),
    ),
    (
        "200004002000",
        "",
        Both,
        9,
        Stopped(Trap::NoInstruction, 4, ""),
    ),
    (
        "2000040043",
        "",
        Both,
        9,
        Stopped(Trap::NoInstruction, 4, ""),
    ),
    (
        "200004004300",
        "",
        Both,
        9,
        Stopped(Trap::NoInstruction, 4, ""),
    ),
    (
        "200004004321616161616161616161616161616161616161616161616161616161616161616161",
        "",
        Both,
        9,
        Stopped(Trap::NoInstruction, 4, ""),
    ),
    (
        "20000400430120",
        "",
        Both,
        9,
        Stopped(Trap::NoInstruction, 4, ""),
    ),
    (
        "2000040043017f",
        "",
        Both,
        9,
        Stopped(Trap::NoInstruction, 4, ""),
    ),
    (
        "200004004302",
        "",
        Both,
        9,
        Stopped(Trap::NoInstruction, 4, ""),
    ),
    (
        "20000400430261",
        "",
        Both,
        9,
        Stopped(Trap::NoInstruction, 4, ""),
    ),
];

/// Whether the word spells the bytes in hexadecimal.
fn is_spelled(alloc: Global, bytes: &[u8], word: &str) -> Result<bool, Fail> {
    Ok(hex::decode(alloc, word)?.as_slice() == bytes)
}

/// Whether a run comes to this end.
fn is_end(alloc: Global, end: &AppEnd, wanted: Wanted) -> Result<bool, Fail> {
    match (end, wanted) {
        (AppEnd::Halted { steps, output }, Halted(wanted_steps, word)) => {
            Ok(*steps == wanted_steps && is_spelled(alloc, output.as_slice(), word)?)
        }
        (
            AppEnd::Trap {
                cause,
                place,
                output,
            },
            Stopped(wanted_cause, wanted_place, word),
        ) => Ok(
            *cause == wanted_cause
                && *place == wanted_place
                && is_spelled(alloc, output.as_slice(), word)?,
        ),
        (AppEnd::OutOfSteps { output }, Out(word)) => is_spelled(alloc, output.as_slice(), word),
        _ => Ok(false),
    }
}

/// Whether a code comes to this end.
fn runs_to(
    alloc: Global,
    code: &[u8],
    input: &[u8],
    sight: Sight,
    steps: u32,
    wanted: Wanted,
) -> Result<bool, Fail>
    requires code { length code.now ≤ 4194304 }
    requires input { length input.now ≤ 4194304 }
{
    let two = region_two(alloc)?;
    let three = region_three(alloc)?;
    let layers = layers_of(sight);
    let end = run_app(
        alloc,
        code,
        input,
        sight.layer(),
        &layers,
        &two,
        &three,
        steps,
    )?;
    is_end(alloc, &end, wanted)
}

/// Whether a row comes to its end.
fn is_so(alloc: Global, row: &Row) -> Result<bool, Fail> {
    let code = bytes_of(alloc, row.0)?;
    let input = bytes_of(alloc, row.1)?;
    runs_to(
        alloc,
        code.as_slice(),
        input.as_slice(),
        row.2,
        row.3,
        row.4,
    )
}

#[test]
fn runs_halt(rt: HostRuntime) -> Result<(), Fail> {
    for row in HALTS {
        assert!(rt; is_so(rt.alloc(), row)?, "{}", row.0);
    }
    Ok(())
}

#[test]
fn runs_trap(rt: HostRuntime) -> Result<(), Fail> {
    for row in TRAPS {
        assert!(rt; is_so(rt.alloc(), row)?, "{}", row.0);
    }
    Ok(())
}

#[test]
fn no_instructions_trap(rt: HostRuntime) -> Result<(), Fail> {
    for row in NO_INSTRUCTIONS {
        assert!(rt; is_so(rt.alloc(), row)?, "{}", row.0);
    }
    Ok(())
}

#[test]
fn arbitrary_codes_end(rt: HostRuntime) -> Result<(), Fail> {
    for row in ARBITRARY {
        assert!(rt; is_so(rt.alloc(), row)?, "{}", row.0);
    }
    Ok(())
}

/// 256 values and then an instruction, given in hexadecimal, and the end.
const FULL_STACKS: &[(&str, Wanted)] = &[
    ("0100000002", Stopped(Trap::TooManyValues, 260, "")),
    ("05", Stopped(Trap::TooManyValues, 260, "")),
    ("0400", Halted(258, "")),
    ("41", Stopped(Trap::TooManyValues, 260, "")),
];

/// Whether a full stack and then an instruction come to this end.
fn is_full(alloc: Global, last: &str, wanted: Wanted) -> Result<bool, Fail> {
    let code = joined(alloc, &[("0100000001", 1), ("03", 255), (last, 1)])?;
    runs_to(alloc, code.as_slice(), b"\x09", Both, 1_000, wanted)
}

#[test]
fn stacks_are_bounded(rt: HostRuntime) -> Result<(), Fail> {
    for (last, wanted) in FULL_STACKS {
        assert!(rt; is_full(rt.alloc(), last, *wanted)?, "{last}");
    }
    Ok(())
}
