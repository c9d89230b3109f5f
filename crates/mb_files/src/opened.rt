//! Files that are opened to be written.

use crate::system::System;
use std::fs::{File, OpenOptions};
use std::io;
use std::os::fd::AsRawFd;
use std::os::unix::fs::OpenOptionsExt;

// The last number of the standard streams.
const STANDARD_ERROR: i32 = 2;

// Opens what stands at this path to be written, and leaves its content.
pub(crate) fn open_to_write<R: System>(runtime: &R, path: &str) -> io::Result<File> {
    beside_streams(OpenOptions::new().write(true).open(runtime, path)?)
}

// Makes a file that only its owner may read and write, where none stands. Public files too: the host knows names and no
// roles, and a key that others can read is the worse mistake. A mode for each role would have to be handed down by the
// trait.
pub(crate) fn create<R: System>(runtime: &R, path: &str) -> io::Result<File> {
    let made = OpenOptions::new()
        .write(true)
        .create_new(true)
        .mode(0o600)
        .open(runtime, path)?;
    beside_streams(made)
}

// The file under a number of its own. If a standard stream is closed, a file can get its number, and what is told there
// would be written into the file.
fn beside_streams(file: File) -> io::Result<File> {
    if file.as_raw_fd() > STANDARD_ERROR {
        return Ok(file);
    }
    file.try_clone()
}
