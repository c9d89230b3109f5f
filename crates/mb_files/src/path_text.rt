//! Paths on the stack, so that a write of a file that is no link takes no memory.

use crate::identity::standing_at;
use crate::system::System;
use arrayvec::ArrayString;
use std::{fs, io};

// The ending of a new file's name until it takes its place, and the length of the longest path of the system with it.
// The name is fixed, so that two commands that write one file exclude each other by it, and the next one finds what a
// killed one has left. Under random names new files with secrets would stay behind; a file without a name, linked at
// the end, is not in the kit.
const NEW_FILE: &str = ".miniboot-new";

const LONGEST: usize = 4_096 + 13;

/// A path on the stack. It takes no memory: so a command that has its inputs ends by its outputs, and no index is lost
/// for want of memory.
pub(crate) type PathText = ArrayString<LONGEST>;

// Where the file of this name stands: at the name, or where it leads if it is a link to a regular file. A link that
// leads nowhere is an error.
pub(crate) fn path_of<R: System>(runtime: &R, name: &str) -> io::Result<PathText> {
    let is_link = standing_at(runtime, name)?.is_some_and(|found| found.is_symlink());
    if is_link && fs::metadata(runtime, name)?.is_file() {
        let path = fs::canonicalize(runtime, name)?.into_string();
        return path_text(path.as_str(), "");
    }
    path_text(name, "")
}

// Where the new file for this path is written.
pub(crate) fn new_file_of(path: &str) -> io::Result<PathText> {
    path_text(path, NEW_FILE)
}

// The path with this ending. An error if it is longer than any path of the system.
fn path_text(path: &str, ending: &str) -> io::Result<PathText> {
    let mut text = PathText::new();
    if text.try_push_str(path).is_err() || text.try_push_str(ending).is_err() {
        return Err(io::Error::from(io::ErrorKind::InvalidFilename));
    }
    Ok(text)
}
