//! A program goes through plays.

use crate::cuts::{is_cut, is_cut_twice};
use crate::files::{bytes_of, file_of, host_with, keep_statement, store, write};
use crate::hostile::{calls_fail, inputs_are_long, inputs_are_short};
use crate::sights::{
    ends_in_zeros, expect, file_is, file_matches, hash_is, is_missing, is_summarised, order_is,
    touches, was_called,
};
use crate::step::{Given, Part, Play, Step};
use mb_host::MemoryHost;
use mb_model::NoMemory;
use std::alloc::Global;
use std::test::Fail;

/// A program that is given words over a host in memory.
pub trait Program {
    /// The memory of the program, and of its plays.
    fn alloc(&self) -> Global;

    /// The status with which the words end.
    fn answer(&self, words: Vec<String>, host: &mut MemoryHost) -> u8;
}

/// Each play goes as it says, over a host of its own with these files.
pub fn perform(program: &impl Program, files: &[Given], plays: &[Play]) -> Result<(), Fail> {
    for play in plays {
        let mut host = host_with(program.alloc(), files, play.failing)?;
        go_on(program, &mut host, play.steps)?;
    }
    Ok(())
}

/// The steps go as they say.
pub fn go_on(program: &impl Program, host: &mut MemoryHost, steps: &[Step]) -> Result<(), Fail> {
    for step in steps {
        take(program, host, step)?;
    }
    Ok(())
}

/// The parts go as their steps say, one after another.
pub fn go_through(
    program: &impl Program,
    host: &mut MemoryHost,
    parts: &[&[Step]],
) -> Result<(), Fail> {
    for steps in parts {
        go_on(program, host, steps)?;
    }
    Ok(())
}

fn take(program: &impl Program, host: &mut MemoryHost, step: &Step) -> Result<(), Fail> {
    let alloc = program.alloc();
    match step {
        Step::Ends(words, status, lines) => ends(program, host, words, *status, lines),
        Step::Serves(script, noise, lines) => serve(program, host, script, noise, lines),
        Step::Holds(name, bytes) => file_is(alloc, host, name, bytes),
        Step::HasHash(name, hash) => hash_is(alloc, name, file_of(host, name)?, hash),
        Step::IsOrder(name, hash) => order_is(alloc, host, name, hash),
        Step::IsMissing(name) => is_missing(host, name),
        Step::WasCalled(reads, writes, prints) => was_called(host, [*reads, *writes, *prints]),
        Step::Gives(given) => store(host, given.name, &bytes_of(alloc, &given.content)?),
        Step::Writes(name, parts) => write(alloc, host, name, parts),
        Step::Matches(name, other) => file_matches(host, name, other),
        Step::Touches(name, other, sectors) => touches(host, name, other, sectors),
        Step::EndsInZeros(name, count) => ends_in_zeros(host, name, *count),
        Step::IsCut(cut) => is_cut(program, host, cut),
        Step::IsCutTwice(cut) => is_cut_twice(program, host, cut),
        Step::KeepsStatement(name) => keep_statement(alloc, host, name),
        Step::IsSummarised(name) => is_summarised(alloc, host, name),
        Step::CallsFail(table) => calls_fail(program, host, table),
        Step::InputsAreLong(table) => inputs_are_long(program, host, table),
        Step::InputsAreShort(table) => inputs_are_short(program, host, table),
    }
}

/// The words of a text, which a space separates. A word may be empty.
fn words_of(alloc: Global, text: &str) -> Result<Vec<String>, NoMemory> {
    let mut words = Vec::new(alloc);
    for word in text.split(' ') {
        words.push(String::from_str(alloc, word)?)?;
    }
    Ok(words)
}

/// The status with which the words of this text end.
pub(crate) fn status_of(
    program: &impl Program,
    host: &mut MemoryHost,
    words: &str,
) -> Result<u8, NoMemory> {
    let words = words_of(program.alloc(), words)?;
    Ok(program.answer(words, host))
}

/// The words end with this status and print these lines.
pub fn ends(
    program: &impl Program,
    host: &mut MemoryHost,
    words: &str,
    status: u8,
    lines: &str,
) -> Result<(), Fail> {
    let seen = host.printed().len();
    let ended = status_of(program, host, words)?;
    expect(
        ended == status,
        format_args!("{words}: status {ended}, not {status}"),
    )?;
    prints(host, words, seen, lines)
}

/// Serves the image a script of these parts, which ends with status 0 and prints these lines.
fn serve(
    program: &impl Program,
    host: &mut MemoryHost,
    script: &[Part],
    noise: &str,
    lines: &str,
) -> Result<(), Fail> {
    write(program.alloc(), host, "script", script)?;
    let words = format!(in program.alloc(); "run image script {noise}")?;
    ends(program, host, &words, 0, lines)
}

/// The words printed these lines, after `seen` bytes that were there before.
fn prints(host: &MemoryHost, words: &str, seen: usize, lines: &str) -> Result<(), Fail> {
    let printed = host.printed().get(seen..).unwrap_or_default();
    let found = str::from_utf8(printed).unwrap_or_default();
    expect(fit(printed, lines), format_args!("{words}: {found}"))
}

/// The bytes fit one of these choices of lines.
pub(crate) fn fit_one(printed: &[u8], choices: &[&str]) -> bool {
    for lines in choices {
        if fit(printed, lines) {
            return true;
        }
    }
    false
}

/// The bytes are these lines. A line that ends in `*` fits each line that begins with what is before it, and a line
/// `**` fits all that follow.
fn fit(printed: &[u8], lines: &str) -> bool {
    let mut found = printed.split(|byte| *byte == b'\n');
    for line in lines.split('\n') {
        if line == "**" {
            return true;
        }
        if !found.next().is_some_and(|it| fits(it, line.as_bytes())) {
            return false;
        }
    }
    found.next().is_none()
}

fn fits(found: &[u8], line: &[u8]) -> bool {
    match line.strip_suffix(b"*") {
        Some(head) => found.starts_with(head),
        None => found == line,
    }
}
