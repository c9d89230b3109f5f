//! New files, each of which takes its place whole once its bytes are on the disk.
//!
//! The bytes are written to a new file beside the old one. So at each moment, also after a kill or a power loss, the
//! name stands for the old file or for the new one.

use crate::identity::{Identity, standing_at, stands_at};
use crate::obstacle::Obstacle;
use crate::opened::{create, open_to_write};
use crate::path_text::new_file_of;
use crate::system::System;
use std::fs::{File, Metadata, Permissions, TryLockError};
use std::os::unix::fs::{MetadataExt, PermissionsExt, fchown};
use std::path::Path;
use std::{fs, io};

/// A new file, locked for this process alone.
#[derive(Drop)]
pub(crate) struct Replacement<'a, 'b, R> {
    runtime: &'a R,
    pub(crate) file: File,
    // The place that it takes, and which file stands there now.
    place: &'b str,
    replaced: Option<Identity>,
    is_placed: bool,
}

impl<'a, 'b, R: System> Replacement<'a, 'b, R> {
    // A new file at a path where nothing stands. Only its owner may read and write it.
    pub(crate) fn of_nothing(runtime: &'a R, path: &'b str) -> io::Result<Replacement<'a, 'b, R>> {
        Ok(Replacement {
            runtime,
            file: create_locked(runtime, new_file_of(path)?.as_str())?,
            place: path,
            replaced: None,
            is_placed: false,
        })
    }

    // A new file with the owner, the group and the mode of the file that it replaces.
    pub(crate) fn of(
        runtime: &'a R,
        path: &'b str,
        found: &Metadata,
    ) -> io::Result<Replacement<'a, 'b, R>> {
        let mut replacement = Replacement::of_nothing(runtime, path)?;
        replacement.replaced = Some(Identity::of(found));
        match copy_access(found, &replacement.file) {
            Ok(()) => Ok(replacement),
            Err(error) => {
                replacement.remove_unless_placed();
                Err(error)
            }
        }
    }

    // Gives the new file its place, if what stood there still does. The bytes are on the disk before, and the place is
    // after.
    pub(crate) fn place(&mut self) -> io::Result<()> {
        self.file.sync_all()?;
        let folder = File::open(self.runtime, folder_of(self.place))?;
        if !self.is_place_as_found()? {
            return Err(Obstacle::Replaced.into());
        }
        fs::rename(self.runtime, new_file_of(self.place)?.as_str(), self.place)?;
        self.is_placed = true;
        folder.sync_all()
    }

    // Removes the new file if it did not take its place.
    pub(crate) fn remove_unless_placed(&self) {
        if !self.is_placed {
            // (if this fails, the next command that writes here removes it)
            let _ = new_file_of(self.place).and_then(|path| fs::remove_file(
                self.runtime,
                path.as_str(),
            ));
        }
    }

    // Whether the file that is to be replaced, or none, still stands at the place.
    fn is_place_as_found(&self) -> io::Result<bool> {
        let standing = standing_at(self.runtime, self.place)?;
        Ok(standing.map(|found| Identity::of(&found)) == self.replaced)
    }
}

// Makes a new file and locks it. One that was left there by a process that was killed is removed first.
fn create_locked<R: System>(runtime: &R, path: &str) -> io::Result<File> {
    let file = match create(runtime, path) {
        Err(error) if error.kind() == io::ErrorKind::AlreadyExists => {
            remove_left(runtime, path)?;
            create(runtime, path)?
        }
        created => created?,
    };
    // (a file system that has no locks gives another error, and is written without)
    if matches!(file.try_lock(), Err(TryLockError::WouldBlock))
        || !stands_at(runtime, path, &file)?
    {
        return Err(Obstacle::InUse.into());
    }
    Ok(file)
}

// Removes a new file that no process is writing any more. Anything else that stands at the path stays, and is an error.
fn remove_left<R: System>(runtime: &R, path: &str) -> io::Result<()> {
    if !fs::symlink_metadata(runtime, path)?.is_file() {
        return Err(Obstacle::NameTaken.into());
    }
    let left = open_to_write(runtime, path)?;
    let is_written = matches!(left.try_lock(), Err(TryLockError::WouldBlock));
    if is_written || !stands_at(runtime, path, &left)? {
        return Err(Obstacle::InUse.into());
    }
    fs::remove_file(runtime, path)
}

// Gives a new file the owner and the group of the one that it replaces, where this process may, and its mode.
fn copy_access(found: &Metadata, file: &File) -> io::Result<()> {
    unless_denied(fchown(file, None, Some(found.gid())))?;
    unless_denied(fchown(file, Some(found.uid()), None))?;
    file.set_permissions(Permissions::from_mode(found.mode() & 0o777))
}

// The outcome, where a denial is none.
fn unless_denied(outcome: io::Result<()>) -> io::Result<()> {
    match outcome {
        Err(error) if error.kind() == io::ErrorKind::PermissionDenied => Ok(()),
        other => other,
    }
}

// The folder of this path.
fn folder_of(path: &str) -> &str {
    match Path::new(path).parent() {
        Some(folder) if !folder.as_os_str().is_empty() => folder.as_os_str(),
        _ => ".",
    }
}
