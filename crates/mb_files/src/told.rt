//! What is told on standard error. What cannot be told is left out, which is no fault.

use crate::system::System;
use std::fmt::{Display, Formatter};
use std::{fmt, io};

// A name on one line: a question mark stands for each control character.
#[derive(Clone, Copy)]
struct OneLine<'a>(&'a str);

impl<'a> Display for OneLine<'a> {
    fn fmt<W: fmt::Write>(&self, f: &mut Formatter<W>) -> fmt::Result {
        for character in self.0.chars() {
            f.write_char(if character.is_control() {
                '?'
            } else {
                character
            })?;
        }
        Ok(())
    }
}

// Tells a text. Bytes that are no text are not told.
pub(crate) fn tell_text<R: System>(runtime: &R, bytes: &[u8]) {
    if let Ok(text) = str::from_utf8(bytes) {
        let _ = runtime.eprint(text);
    }
}

// Tells on one line what the system said of the file of this name. The line is made of the very error that was counted.
pub(crate) fn tell_error<R: System>(runtime: &R, name: &str, error: io::Error) {
    let name = OneLine(name);
    let _ = match format!(in runtime.alloc(); "{error}") {
        Ok(text) => eprintln!(runtime; "miniboot: {name}: {}", without_number(text.as_str())),
        Err(_) => eprintln!(runtime; "miniboot: {name}: {error}"),
    };
}

// The text of an error without the number that the system has for it.
fn without_number(text: &str) -> &str {
    match text.split_once(" (os error ") {
        Some((words, _)) => words,
        None => text,
    }
}
