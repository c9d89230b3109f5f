//! If there is memory, the longest scripts are read, each event is copied, and the longest lines are written.

use super::pieces::text_of;
use super::scripts::{Said, count_events, is_statement, says};
use mb_model::{Events, NoMemory};
use mb_script::read_script;
use std::alloc::Global;

/// Whether a script of this line, `times` times, has the wanted number of events, or the wanted line is its first wrong
/// one.
fn has_events(alloc: Global, line: &str, times: usize, wanted: Result<usize, u32>) -> bool {
    match text_of(alloc, &[(line, times)]) {
        Ok(text) => count_events(alloc, text.as_slice()) == wanted,
        Err(_) => false,
    }
}

#[test]
fn scripts_have_at_most_65_536_events(rt: HostRuntime) {
    assert!(rt; has_events(rt.alloc(), "off\n", 65_536, Ok(65_536)));
    assert!(rt; has_events(rt.alloc(), "put 2 a 00\n", 65_536, Ok(65_536)));
    assert!(rt; has_events(rt.alloc(), "off\n", 65_537, Err(65_537)));
}

/// Whether a command of `count` bytes is read.
fn is_command(alloc: Global, count: usize) -> bool {
    match text_of(alloc, &[("command ", 1), ("07", count)]) {
        Ok(text) => says(alloc, text.as_slice(), &Said::Long(count)),
        Err(_) => false,
    }
}

/// Whether a call with an input of `count` bytes is read.
fn is_call(alloc: Global, count: usize) -> bool {
    match text_of(alloc, &[("call 3 - ", 1), ("07", count)]) {
        Ok(text) => count_events(alloc, text.as_slice()) == Ok(1),
        Err(_) => false,
    }
}

#[test]
fn long_lines_are_read_and_written(rt: HostRuntime) {
    assert!(rt; is_command(rt.alloc(), 61_034));
    assert!(rt; is_call(rt.alloc(), 4_096) && !is_call(rt.alloc(), 4_097));
    let Ok(line) = text_of(rt.alloc(), &[("signed 1 0 ", 1), ("07", 2_514), ("\n", 1)]) else {
        panic!(rt; "no memory");
    };
    assert!(rt; line.len() == 5_040);
    is_statement(&rt, rt.alloc(), &[7; 2_514], line.as_slice());
}

/// How many events are copied.
fn count_copies(alloc: Global, events: &Events) -> Result<usize, NoMemory> {
    let mut copies = Events::new(alloc);
    for event in events.as_slice() {
        copies.push(event.copy(alloc)?)?;
    }
    Ok(copies.as_slice().len())
}

/// Whether the script has `count` events, and all are copied.
fn are_copied(alloc: Global, text: &[u8], count: usize) -> bool {
    text.len() <= 4_194_304
        && match read_script(alloc, text) {
            Ok(events) => count_copies(alloc, &events) == Ok(count),
            Err(_) => false,
        }
}

#[test]
fn all_events_are_copied(rt: HostRuntime) {
    let plain = b"boot\noff\ntamper\nstatus\ngo\ncut 3 keep 5 fill ff\n";
    assert!(rt; are_copied(rt.alloc(), plain, 6));
    let worded = b"command 00\nput 2 pin 31323334\nget 2 pin\ndrop 2 pin\nsign 3 1 68656c6c6f\n";
    assert!(rt; are_copied(rt.alloc(), worded, 5));
    let calls = b"call 3 1 68656c6c6f\ncall 2 - -\n";
    assert!(rt; are_copied(rt.alloc(), calls, 2));
}
