//! Scripts, draws and replies, against texts and bytes that are written out.

use mb_model::{Bytes, Event, Events, Reply, Standing, Tear};
use mb_script::{ScriptEnd, place_draws, read_script, write_reply};
use std::alloc::Global;
use std::process::Abort;

/// How many events a script has, or the number of the first line that is wrong.
pub fn count_events(alloc: Global, text: &[u8]) -> Result<usize, u32> {
    if text.len() > 4_194_304 {
        return Err(u32::MAX);
    }
    match read_script(alloc, text) {
        Ok(events) => Ok(events.as_slice().len()),
        Err(ScriptEnd::BadLine { line }) => Err(line),
        Err(ScriptEnd::NoMemory) => Err(u32::MAX),
    }
}

/// Texts, and the number of the first line of each that is wrong, or 0 if the text is a script.
const SCRIPTS: &[(&str, u32)] = &[
    ("boot\n\njump", 3),
    ("", 0),
    ("# jump\n\nboot\ngo\nstatus\ntamper\noff\n", 0),
    ("boot \n", 1),
    ("off\n #\njump\n", 2),
    ("cut 100000 keep 1048576 fill 00", 0),
    ("cut 100001 fill 00", 1),
    ("cut 0 fill 00", 1),
    ("cut 1 keep 1048577 fill 00", 1),
    ("cut 1 fill -", 1),
    ("cut 1 fill 000102030405060708090a0b0c0d0e0f10", 1),
    ("cut 01 fill 00", 1),
    ("cut 1 keep fill 00", 1),
    ("sign 2 4294967295 -", 0),
    ("sign 2 4294967296 -", 1),
    ("call 2 - -", 0),
    ("call 3 4294967295 00", 0),
    ("call 3 4294967296 00", 1),
    ("call 3 -1 00", 1),
    ("call 3 -", 1),
    ("call 3 - ", 1),
    ("call 1 - -", 1),
    ("get 2 abcdefghijklmnopqrstuvwxyz012345", 0),
    ("get 2 abcdefghijklmnopqrstuvwxyz0123456", 1),
    ("get 4 pin", 1),
];

#[test]
fn first_bad_lines_are_named(rt: HostRuntime) {
    for (text, line) in SCRIPTS {
        let found = count_events(rt.alloc(), text.as_bytes()).err();
        assert!(rt; found.unwrap_or(0) == *line, "{text}");
    }
}

/// What the line of an event says.
#[derive(Drop)]
pub enum Said {
    Boot,
    Cut(u32, Tear),
    Command(&'static [u8]),
    /// A command of this many bytes.
    Long(usize),
    Put(u8, &'static [u8], &'static [u8]),
    Sign(u8, u32, &'static [u8]),
    Call(u8, Option<u32>, &'static [u8]),
}

/// Lines, and what they say.
const LINES: &[(&str, Said)] = &[
    ("boot", Said::Boot),
    ("command 0aFF", Said::Command(b"\x0A\xFF")),
    ("put 2 pin 31323334", Said::Put(2, b"pin", b"1234")),
    ("sign 3 1 68656c6c6f", Said::Sign(3, 1, b"hello")),
    ("call 3 1 68656c6c6f", Said::Call(3, Some(1), b"hello")),
    ("call 2 - -", Said::Call(2, None, b"")),
    (
        "cut 3 keep 5 fill fF",
        Said::Cut(
            3,
            Tear {
                keep: 5,
                fill: [0xFF, 0, 0, 0, 0, 0, 0, 0, 0, 0, 0, 0, 0, 0, 0, 0],
                fill_length: 1,
            },
        ),
    ),
];

/// Whether the event is what is said.
fn is_event(event: &Event, said: &Said) -> bool {
    match event {
        Event::Boot => matches!(said, Said::Boot),
        Event::Cut { count, tear } => match said {
            Said::Cut(c, t) => count == c && tear == t,
            _ => false,
        },
        Event::Order { text, draw } => match said {
            Said::Command(t) => text.as_slice() == *t && *draw == [0; 32],
            Said::Long(length) => text.as_slice().len() == *length,
            _ => false,
        },
        Event::Put {
            region,
            name,
            value,
        } => match said {
            Said::Put(r, n, v) => region == r && name.as_slice() == *n && value.as_slice() == *v,
            _ => false,
        },
        Event::Sign {
            region,
            key,
            message,
        } => match said {
            Said::Sign(r, k, m) => region == r && key == k && message.as_slice() == *m,
            _ => false,
        },
        Event::Call { region, key, input } => match said {
            Said::Call(r, k, i) => region == r && key == k && input.as_slice() == *i,
            _ => false,
        },
        _ => false,
    }
}

/// Whether the text says this event and nothing else.
pub fn says(alloc: Global, text: &[u8], said: &Said) -> bool {
    if text.len() > 4_194_304 {
        return false;
    }
    match read_script(alloc, text) {
        Ok(events) => match events.as_slice() {
            [event] => is_event(event, said),
            _ => false,
        },
        Err(_) => false,
    }
}

#[test]
fn lines_say_events(rt: HostRuntime) {
    for (line, said) in LINES {
        assert!(rt; says(rt.alloc(), line.as_bytes(), said), "{line}");
    }
}

/// Whether event `at` is a command with this draw.
fn has_draw(events: &Events, at: usize, draw: [u8; 32]) -> bool {
    match events.as_slice().get(at) {
        Some(Event::Order { text: _, draw: d }) => *d == draw,
        _ => false,
    }
}

/// Whether the noise is enough, exactly if `enough`, for two commands with a boot between them, and these draws result.
fn draws(alloc: Global, noise: &[u8], enough: bool, one: u8, two: u8) -> bool {
    match read_script(alloc, b"command 00\nboot\ncommand 00\n") {
        Ok(mut events) => {
            events.as_slice().len() == 3
                && place_draws(&mut events, noise).is_ok() == enough
                && has_draw(&events, 0, [one; 32])
                && has_draw(&events, 2, [two; 32])
        }
        Err(_) => false,
    }
}

#[test]
fn commands_get_their_draws_of_enough_noise_alone(rt: HostRuntime) {
    let noise = b"aaaaaaaaaaaaaaaaaaaaaaaaaaaaaaaabbbbbbbbbbbbbbbbbbbbbbbbbbbbbbbbc";
    assert!(rt; draws(rt.alloc(), noise, true, b'a', b'b'));
    let short = b"aaaaaaaaaaaaaaaaaaaaaaaaaaaaaaaabbbbbbbbbbbbbbbbbbbbbbbbbbbbbbb";
    assert!(rt; draws(rt.alloc(), short, false, 0, 0));
}

/// The reply has this line.
fn is_written(rt: &impl Abort, alloc: Global, reply: Reply, line: &[u8]) {
    let mut out = Vec::new(alloc);
    assert!(rt;
        write_reply(&reply, &mut out).is_ok() && out.as_slice() == line,
        "{line:?}"
    );
}

#[test]
fn plain_replies_are_written(rt: HostRuntime) {
    let alloc = rt.alloc();
    is_written(&rt, alloc, Reply::Booted, b"booted\n");
    is_written(&rt, alloc, Reply::Off, b"off\n");
    is_written(&rt, alloc, Reply::Tampered, b"tampered\n");
    is_written(&rt, alloc, Reply::Armed, b"armed\n");
    is_written(&rt, alloc, Reply::Kept, b"kept\n");
    is_written(&rt, alloc, Reply::Dropped, b"dropped\n");
    is_written(&rt, alloc, Reply::Absent, b"absent\n");
    is_written(&rt, alloc, Reply::Stopped, b"stopped\n");
    is_written(&rt, alloc, Reply::NoMemory, b"no memory\n");
}

#[test]
fn replies_with_numbers_are_written(rt: HostRuntime) {
    let alloc = rt.alloc();
    is_written(&rt, alloc, Reply::At(2), b"at 2\n");
    is_written(&rt, alloc, Reply::Refused(8), b"refused 8 code\n");
    is_written(&rt, alloc, Reply::Refused(9), b"refused 9 run\n");
    is_written(&rt, alloc, Reply::Refused(15), b"refused 15 log full\n");
    let done = Reply::Done {
        number: 31,
        length: 128,
    };
    is_written(&rt, alloc, done, b"done 31 128\n");
    let status = Reply::Status {
        serial: [7; 16],
        number: 1,
        length: 2,
        one: Standing::Runnable,
        two: Standing::Unreliable,
        three: Standing::Unowned,
    };
    let line = b"status 07070707070707070707070707070707 1 2 runnable unreliable unowned\n";
    is_written(&rt, alloc, status, line);
}

/// A value of these bytes has this line.
fn is_value(rt: &impl Abort, alloc: Global, value: &[u8], line: &[u8]) {
    match Bytes::copy(alloc, value) {
        Ok(value) => is_written(rt, alloc, Reply::Value(value), line),
        Err(_) => panic!(rt; "no memory"),
    }
}

/// An answer of these bytes has this line.
fn is_answer(rt: &impl Abort, alloc: Global, answer: &[u8], line: &[u8]) {
    match Bytes::copy(alloc, answer) {
        Ok(answer) => is_written(rt, alloc, Reply::Called(answer), line),
        Err(_) => panic!(rt; "no memory"),
    }
}

/// A signed statement of these bytes has this line.
pub fn is_statement(rt: &impl Abort, alloc: Global, statement: &[u8], line: &[u8]) {
    let signed = match Bytes::copy(alloc, statement) {
        Ok(statement) => Reply::Signed {
            key: 1,
            index: 0,
            statement,
        },
        Err(_) => panic!(rt; "no memory"),
    };
    is_written(rt, alloc, signed, line);
}

#[test]
fn replies_with_bytes_are_written(rt: HostRuntime) {
    is_value(&rt, rt.alloc(), b"1234", b"value 31323334\n");
    is_value(&rt, rt.alloc(), b"", b"value -\n");
    is_answer(&rt, rt.alloc(), b"\x02\x01", b"called 0201\n");
    is_answer(&rt, rt.alloc(), b"", b"called -\n");
    is_statement(&rt, rt.alloc(), b"\xAB", b"signed 1 0 ab\n");
}
