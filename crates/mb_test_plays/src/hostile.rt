//! What a command meets of a hostile world: calls of the host that fail, files that are too long, and files that end
//! early. The tables of commands are made of these kinds of steps.

use crate::files::{file_of, filled, host_like, slice, store};
use crate::play::{Program, ends, status_of};
use crate::sights::{expect, was_called};
use crate::step::{Access, ShortFile, Told};
use mb_host::MemoryHost;
use mb_model::{FILE_LIMIT, NoMemory};
use std::alloc::Global;
use std::test::Fail;

/// A host before the words, and one after them.
#[derive(Clone, Copy)]
struct Times<'a> {
    before: &'a MemoryHost,
    after: &'a MemoryHost,
}

/// Each call of the host by each command fails in turn. The line names the call, each file written before it is as if
/// no call had failed, and nothing is written after it.
pub fn calls_fail(program: &impl Program, host: &MemoryHost, table: &[Access]) -> Result<(), Fail> {
    for access in table {
        fails_in_turn(program, host, access)?;
    }
    Ok(())
}

/// Each call of the host by a command fails in turn.
fn fails_in_turn(program: &impl Program, host: &MemoryHost, access: &Access) -> Result<(), Fail> {
    let mut after = host_like(program.alloc(), host, access.words, &[])?;
    let ended = status_of(program, &mut after, access.words)?;
    expect(ended == 0, format_args!("{}: status {ended}", access.words))?;
    calls_are(&after, access, usize::MAX, 1)?;
    let times = Times {
        before: host,
        after: &after,
    };
    reads_fail(program, &times, access)?;
    writes_fail(program, &times, access)?;
    let calls = access.reads.len().saturating_add(access.writes.len());
    call_fails(program, &times, access, calls, 5, "write failed output\n")
}

/// Each read fails in turn.
fn reads_fail(program: &impl Program, times: &Times<'_>, access: &Access) -> Result<(), Fail> {
    for (call, file) in access.reads.iter().enumerate() {
        let line = format!(in program.alloc(); "read failed {}\n", file.0)?;
        call_fails(program, times, access, call, 4, &line)?;
    }
    Ok(())
}

/// Each write fails in turn.
fn writes_fail(program: &impl Program, times: &Times<'_>, access: &Access) -> Result<(), Fail> {
    for (number, file) in access.writes.iter().enumerate() {
        let line = format!(in program.alloc(); "write failed {}\n", file.0)?;
        let call = access.reads.len().saturating_add(number);
        call_fails(program, times, access, call, 5, &line)?;
    }
    Ok(())
}

/// The call of this number, from 0, fails, and the words end with this status and line.
fn call_fails(
    program: &impl Program,
    times: &Times<'_>,
    access: &Access,
    call: usize,
    status: u8,
    line: &str,
) -> Result<(), Fail> {
    let mut host = host_like(program.alloc(), times.before, access.words, &[call as u64])?;
    ends(program, &mut host, access.words, status, line)?;
    let is_print = line == "write failed output\n";
    calls_are(&host, access, call, if is_print { 2 } else { 1 })?;
    let written = access
        .writes
        .get(..call.saturating_sub(access.reads.len()))
        .unwrap_or_default();
    files_are(&host, times, access.words, written)
}

/// The files of the words that were written, and no others, are as they are after the words.
fn files_are(
    host: &MemoryHost,
    times: &Times<'_>,
    words: &str,
    written: &[(&str, &str)],
) -> Result<(), Fail> {
    for name in words.split(' ') {
        let wanted = if written.iter().any(|file| file.1 == name) {
            times.after
        } else {
            times.before
        };
        let is_right = host.file(name) == wanted.file(name);
        expect(is_right, format_args!("{words}: {name}"))?;
    }
    Ok(())
}

/// The calls are the reads and writes up to the one of this number, and `prints` prints.
fn calls_are(host: &MemoryHost, access: &Access, call: usize, prints: u64) -> Result<(), Fail> {
    let calls = call.saturating_add(1);
    let reads = calls.min(access.reads.len());
    let writes = calls.saturating_sub(reads).min(access.writes.len());
    was_called(host, [reads as u64, writes as u64, prints])
}

/// Each input of each command has one byte more than a file may have, in turn, and nothing is written.
pub fn inputs_are_long(
    program: &impl Program,
    host: &mut MemoryHost,
    table: &[Access],
) -> Result<(), Fail> {
    let long = filled(Vec::new(program.alloc()), FILE_LIMIT + 1, 7)?;
    for access in table {
        are_long(program, host, access, &long)?;
    }
    Ok(())
}

/// Each input of the command is this long file in turn.
fn are_long(
    program: &impl Program,
    host: &mut MemoryHost,
    access: &Access,
    long: &[u8],
) -> Result<(), Fail> {
    for file in access.reads {
        let whole = Vec::from_slice(program.alloc(), file_of(host, file.1)?)?;
        let line = format!(in program.alloc(); "input {} too long\n", file.0)?;
        store(host, file.1, long)?;
        is_refused(program, host, access.words, 3, &line)?;
        store(host, file.1, &whole)?;
    }
    Ok(())
}

/// Each file ends early at each of its offsets, and nothing is written.
pub fn inputs_are_short(
    program: &impl Program,
    host: &mut MemoryHost,
    table: &[ShortFile],
) -> Result<(), Fail> {
    for file in table {
        ends_early(program, host, file)?;
    }
    Ok(())
}

/// The file ends early at each of its offsets.
fn ends_early(program: &impl Program, host: &mut MemoryHost, file: &ShortFile) -> Result<(), Fail> {
    let whole = Vec::from_slice(program.alloc(), file_of(host, file.name)?)?;
    for offset in file.offsets {
        store(host, file.name, slice(&whole, 0, *offset)?)?;
        let line = line_at(program.alloc(), &file.told, *offset)?;
        is_refused(program, host, file.words, file.status, &line)?;
    }
    store(host, file.name, &whole)
}

/// The line that is printed for a file that ends at this offset.
fn line_at(alloc: Global, told: &Told, offset: usize) -> Result<String, NoMemory> {
    match told {
        Told::Line(line) => Ok(String::from_str(alloc, line)?),
        Told::Offset(words) => Ok(format!(in alloc; "{} {offset}\n", *words)?),
    }
}

/// The words end with this status and line, and write nothing.
fn is_refused(
    program: &impl Program,
    host: &mut MemoryHost,
    words: &str,
    status: u8,
    line: &str,
) -> Result<(), Fail> {
    let writes = host.writes();
    ends(program, host, words, status, line)?;
    expect(host.writes() == writes, format_args!("{words}: it writes"))
}
