//! Why a file is neither read nor replaced, although the system has given no error.

use std::io;

/// What stands in the way.
#[derive(Clone, Copy)]
pub(crate) enum Obstacle {
    /// Another process has locked the file, or is writing a new one for its name.
    InUse,
    /// Since the file was read, it was moved away, or another one took its place.
    Replaced,
    /// The file has a second name, which would go on standing for the old content.
    SecondName,
    /// The file system has no locks.
    NoLocks,
    /// Where the new file would be written, something stands that is no regular file.
    NameTaken,
}

impl Obstacle {
    // What is told of it, after the file's name.
    fn words(self) -> &'static str {
        match self {
            Obstacle::InUse => "in use by another command",
            Obstacle::Replaced => "moved or replaced since it was read",
            Obstacle::SecondName => "not replaced, since it has a second name (a hard link)",
            Obstacle::NoLocks => "not replaced, since its file system has no locks",
            Obstacle::NameTaken => "what stands at its name with .miniboot-new is no regular file",
        }
    }
}

impl From<Obstacle> for io::Error {
    fn from(obstacle: Obstacle) -> io::Error {
        io::Error::other(obstacle.words())
    }
}
