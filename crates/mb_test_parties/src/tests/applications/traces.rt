//! The lines that tell of the steps of runs, checked against those that another program gives.

ghost use Rattle.std.specs.Prelude.{◌≤◌, length};

use super::devices::{Sight, layers_of, region_three, region_two};
use crate::tests::pieces::bytes_of;
use Sight::{Both, FromThree, OnlyTwo};
use mb_appvm::{NextStep, OUTPUT_LIMIT, Readable, Watcher, run_code, step_line};
use std::alloc::Global;
use std::test::Fail;

/// A code and an input in hexadecimal, what the run may read, how many steps it may do, and the lines of its steps.
type Row = (&'static str, &'static str, Sight, u32, &'static str);

const TRACES: &[Row] = &[
    (
        "01000000050100000003114200",
        "09",
        Both,
        1_000,
        "trace 1 at 0: push 5  stack -\n\
            trace 2 at 5: push 3  stack 5\n\
            trace 3 at 10: sub  stack 5 3\n\
            trace 4 at 11: emit  stack 2\n\
            trace 5 at 12: halt  stack -\n",
    ),
    (
        "0100000102010000000c31010000000c304200",
        "09",
        FromThree,
        1_000,
        "trace 1 at 0: push 258  stack -\n\
            trace 2 at 5: push 12  stack 258\n\
            trace 3 at 10: store  stack 258 12  memory 12=02\n\
            trace 4 at 11: push 12  stack -\n\
            trace 5 at 16: load  stack 12\n\
            trace 6 at 17: emit  stack 2\n\
            trace 7 at 18: halt  stack -\n",
    ),
    (
        "01000003e8010000000243016b01000003ff010000000343017400",
        "09",
        Both,
        1_000,
        "trace 1 at 0: push 1000  stack -\n\
            trace 2 at 5: push 2  stack 1000\n\
            trace 3 at 10: get k  stack 1000 2  memory 1000=0708\n\
            trace 4 at 13: push 1023  stack 2\n\
            trace 5 at 18: push 3  stack 2 1023\n\
            trace 6 at 23: get t  stack 2 1023 3  memory 1023=05\n\
            trace 7 at 26: halt  stack 2 1\n",
    ),
    (
        "010000040001000000024301650100000000010000000343016b00",
        "",
        Both,
        1_000,
        "trace 1 at 0: push 1024  stack -\n\
            trace 2 at 5: push 2  stack 1024\n\
            trace 3 at 10: get e  stack 1024 2  memory 1024=-\n\
            trace 4 at 13: push 0  stack 0\n\
            trace 5 at 18: push 3  stack 0 0\n\
            trace 6 at 23: get k  stack 0 0 3\n\
            trace 7 at 26: halt  stack 0 4294967295\n",
    ),
    (
        "01000003ff010000000243016b00",
        "",
        OnlyTwo,
        1_000,
        "trace 1 at 0: push 1023  stack -\n\
            trace 2 at 5: push 2  stack 1023\n\
            trace 3 at 10: get k  stack 1023 2\n",
    ),
    (
        "010000000701000004003100",
        "",
        FromThree,
        1_000,
        "trace 1 at 0: push 7  stack -\n\
            trace 2 at 5: push 1024  stack 7\n\
            trace 3 at 10: store  stack 7 1024\n",
    ),
    (
        "01000000000100000003430174",
        "",
        OnlyTwo,
        1_000,
        "trace 1 at 0: push 0  stack -\n\
            trace 2 at 5: push 3  stack 0\n\
            trace 3 at 10: get t  stack 0 3\n",
    ),
    (
        "010000000021000900",
        "",
        Both,
        1_000,
        "trace 1 at 0: push 0  stack -\n\
            trace 2 at 5: jumpzero 9  stack 0\n",
    ),
    ("4200", "", Both, 1_000, "trace 1 at 0: emit  stack -\n"),
    (
        "22000341200000",
        "0102",
        Both,
        6,
        "trace 1 at 0: call 3  stack -\n\
            trace 2 at 3: length  stack -\n\
            trace 3 at 4: jump 0  stack 2\n\
            trace 4 at 0: call 3  stack 2\n\
            trace 5 at 3: length  stack 2\n\
            trace 6 at 4: jump 0  stack 2 2\n",
    ),
];

/// Keeps the lines of a run.
#[derive(Drop)]
struct Lines {
    alloc: Global,
    text: Vec<u8>,
}

impl Watcher for Lines {
    ghost Kept = { Unit {0} };

    ghost kept = { λ _. tt };

    fn see(&mut self, next: &NextStep<'_>) {
        if let Ok(Some(line)) = step_line(self.alloc, next) {
            let _ = self.text.extend_from_slice(line.as_slice());
        }
    }
}

/// Whether the steps of a code are told by these lines.
fn is_told(
    alloc: Global,
    code: &[u8],
    input: &[u8],
    sight: Sight,
    steps: u32,
    wanted: &[u8],
) -> Result<bool, Fail>
    requires code { length code.now ≤ 4194304 }
    requires input { length input.now ≤ 4194304 }
{
    let two = region_two(alloc)?;
    let three = region_three(alloc)?;
    let layers = layers_of(sight);
    let readable = Readable::of(sight.layer(), &layers, &two, &three);
    let mut output = Vec::with_capacity(alloc, OUTPUT_LIMIT)?;
    let mut lines = Lines {
        alloc,
        text: Vec::new(alloc),
    };
    let _ = run_code(code, input, readable, steps, &mut output, &mut lines);
    Ok(lines.text.as_slice() == wanted)
}

/// Whether a row has its lines.
fn is_so(alloc: Global, row: &Row) -> Result<bool, Fail> {
    let code = bytes_of(alloc, row.0)?;
    let input = bytes_of(alloc, row.1)?;
    is_told(
        alloc,
        code.as_slice(),
        input.as_slice(),
        row.2,
        row.3,
        row.4.as_bytes(),
    )
}

#[test]
fn steps_are_told(rt: HostRuntime) -> Result<(), Fail> {
    for row in TRACES {
        assert!(rt; is_so(rt.alloc(), row)?, "{}", row.0);
    }
    Ok(())
}
