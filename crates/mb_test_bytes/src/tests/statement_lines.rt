//! Lines of statements, against bytes of another program.

use super::statements::{FIRST, is_hello};
use mb_cert::{StatementLineEnd, read_statement_line};
use std::alloc::Global;
use std::process::Abort;
use std::test::Fail;

/// The text of the pieces, each as often as its number says.
fn text_of(alloc: Global, pieces: &[(&str, usize)]) -> Result<String, Fail> {
    let mut text = String::new(alloc);
    for (piece, times) in pieces {
        append(&mut text, piece, *times)?;
    }
    Ok(text)
}

/// Appends the piece `times` times.
fn append(text: &mut String, piece: &str, times: usize) -> Result<(), Fail> {
    for _i in 0..times {
        text.push_str(piece)?;
    }
    Ok(())
}

#[test]
fn the_line_of_a_statement_is_read(rt: HostRuntime) -> Result<(), Fail> {
    let alloc = rt.alloc();
    let text = text_of(alloc, &[FIRST, ("63", 2_348), ("\n", 1)])?;
    let statement = read_statement_line(alloc, text.as_bytes())?;
    assert!(rt; is_hello(&statement));
    Ok(())
}

/// Texts that are no line of a statement, and the first wrong line of each.
const WRONG: &[(&[(&str, usize)], u32)] = &[
    (&[], 1),
    (&[("\n", 1), FIRST, ("63", 2_348)], 1),
    (&[FIRST, ("63", 2_347)], 1),
    (&[FIRST, ("63", 2_348), ("6", 1)], 1),
    (&[FIRST, ("63", 2_349)], 1),
    (&[("63", 3_000)], 1),
    (&[FIRST, ("63", 2_348), ("\n\n", 1)], 2),
    (&[FIRST, ("63", 2_348), ("\nboot", 1)], 2),
];

/// The first wrong line of the text of the pieces is `line`.
fn is_wrong(
    rt: &impl Abort,
    alloc: Global,
    pieces: &[(&str, usize)],
    line: u32,
) -> Result<(), Fail> {
    let text = text_of(alloc, pieces)?;
    let found = match read_statement_line(alloc, text.as_bytes()) {
        Err(StatementLineEnd::BadLine { line }) => line,
        _ => 0,
    };
    assert_eq!(rt; found, line);
    Ok(())
}

#[test]
fn other_texts_are_refused(rt: HostRuntime) -> Result<(), Fail> {
    for (pieces, line) in WRONG {
        is_wrong(&rt, rt.alloc(), pieces, *line)?;
    }
    Ok(())
}
