//! Files of the system told apart, whatever their names.

use std::fs::{File, Metadata};
use std::os::unix::fs::MetadataExt;
use std::rt::Files;
use std::{fs, io};

/// The device of a file and its number there. They stay while the file is renamed.
#[derive(Clone, Copy, PartialEq, Eq)]
pub(crate) struct Identity {
    device: u64,
    number: u64,
}

impl Identity {
    // The identity of the file with this metadata.
    pub(crate) fn of(found: &Metadata) -> Identity {
        Identity {
            device: found.dev(),
            number: found.ino(),
        }
    }
}

// What stands at this path, if anything does. A link is not followed.
pub(crate) fn standing_at<R: Files>(runtime: &R, path: &str) -> io::Result<Option<Metadata>> {
    match fs::symlink_metadata(runtime, path) {
        Ok(found) => Ok(Some(found)),
        Err(error) if error.kind() == io::ErrorKind::NotFound => Ok(None),
        Err(error) => Err(error),
    }
}

// Whether this open file stands at this path.
pub(crate) fn stands_at<R: Files>(runtime: &R, path: &str, file: &File) -> io::Result<bool> {
    let identity = Identity::of(&file.metadata()?);
    let standing = standing_at(runtime, path)?;
    Ok(standing.is_some_and(|found| Identity::of(&found) == identity))
}
