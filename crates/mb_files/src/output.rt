//! Where the bytes of a write go: into a new file that takes the old one's place, or into a pipe or a device.

use crate::identity::standing_at;
use crate::kept::KeptFiles;
use crate::opened::open_to_write;
use crate::replacement::Replacement;
use crate::system::System;
use std::fs::File;
use std::io;
use std::io::Write;

/// What was opened to be written. It holds its bytes for good once it is flushed.
#[derive(Drop)]
pub(crate) enum Output<'a, 'b, R> {
    /// A pipe, a terminal or a device, written as it stands.
    Stream(File),
    /// The new file of a name.
    Replacement(Replacement<'a, 'b, R>),
}

impl<'a, 'b, R: System> Output<'a, 'b, R> {
    // Opens what stands at this path, to which the name leads, and leaves it as it is.
    pub(crate) fn open(
        runtime: &'a R,
        kept: &KeptFiles,
        name: &str,
        path: &'b str,
    ) -> io::Result<Output<'a, 'b, R>> {
        let Some(found) = standing_at(runtime, path)? else {
            kept.claim_nothing(name)?;
            return Ok(Output::Replacement(Replacement::of_nothing(runtime, path)?));
        };
        // A file that may not be written is not replaced either.
        let file = open_to_write(runtime, path)?;
        if !found.is_file() {
            return Ok(Output::Stream(file));
        }
        kept.claim(runtime, name, &found)?;
        Ok(Output::Replacement(Replacement::of(runtime, path, &found)?))
    }

    // Ends the write: a new file that did not take its place is removed.
    pub(crate) fn end(&self) {
        if let Output::Replacement(replacement) = self {
            replacement.remove_unless_placed();
        }
    }
}

impl<'a, 'b, R: System> Write for Output<'a, 'b, R> {
    fn write(&mut self, bytes: &[u8]) -> io::Result<usize> {
        match self {
            Output::Stream(file) => file.write(bytes),
            Output::Replacement(replacement) => replacement.file.write(bytes),
        }
    }

    fn flush(&mut self) -> io::Result<()> {
        match self {
            Output::Stream(_) => Ok(()),
            Output::Replacement(replacement) => replacement.place(),
        }
    }
}
