//! The files that were read: each stays open and locked, so that no other process replaces it meanwhile.

use crate::identity::{Identity, standing_at, stands_at};
use crate::obstacle::Obstacle;
use crate::system::System;
use std::alloc::Global;
use std::fs::{File, Metadata, TryLockError};
use std::os::unix::fs::MetadataExt;
use std::time::Duration;
use std::{fs, io, thread};

// How often a lock is tried: for about a second. No call waits for a lock, so no two processes wait for each other.
// With one try alone, eight commands at once nearly always refuse each other. A lock for this process alone from the
// read on would need a second call of the trait, and ROOT and CHAIN serve many commands.
const TRIES: u64 = 100;

// A file that was read.
#[derive(Drop)]
struct KeptFile {
    // Its path with no link in it.
    path: String,
    identity: Identity,
    // Whether its file system has locks.
    is_locked: bool,
    // A handle of its own, which holds the lock.
    file: File,
}

// A name by which a file was read.
#[derive(Drop)]
struct ReadName {
    name: String,
    identity: Identity,
}

/// The files that this process has read. Each lock is shared with other readers, and held until this value is dropped,
/// at the latest at the end of the process.
#[derive(Drop)]
pub(crate) struct KeptFiles {
    files: Vec<KeptFile>,
    names: Vec<ReadName>,
}

impl KeptFiles {
    // No file read yet.
    pub(crate) fn none(alloc: Global) -> KeptFiles {
        KeptFiles {
            files: Vec::new(alloc),
            names: Vec::new(alloc),
        }
    }

    // Opens a file to be read. A regular file is locked and kept; a pipe or a device is not.
    pub(crate) fn open<R: System>(&mut self, runtime: &R, name: &str) -> io::Result<File> {
        for _ in 0..TRIES {
            if let Some(file) = self.open_once(runtime, name)? {
                return Ok(file);
            }
            pause(runtime);
        }
        Err(Obstacle::InUse.into())
    }

    // Opens a file once; `None` if another process is replacing it, or has just done so.
    fn open_once<R: System>(&mut self, runtime: &R, name: &str) -> io::Result<Option<File>> {
        let file = File::open(runtime, name)?;
        let found = file.metadata()?;
        if !found.is_file() {
            return Ok(Some(file));
        }
        let identity = Identity::of(&found);
        if has_no_path(&found) {
            // (it was replaced just now, or removed, and the name leads to it as /dev/stdin does)
            let leads_to = Identity::of(&fs::metadata(runtime, name)?);
            return Ok((leads_to == identity).then_some(file));
        }
        let is_kept = self.has(identity) || self.keep(runtime, name, &file, identity)?;
        if !is_kept {
            return Ok(None);
        }
        let name = String::from_str(runtime.alloc(), name)?;
        self.names.push(ReadName { name, identity })?;
        Ok(Some(file))
    }

    // Locks a file and keeps it, and returns whether that was done: not if another process has locked it for itself,
    // or the name leads to another file by now.
    fn keep<R: System>(
        &mut self,
        runtime: &R,
        name: &str,
        file: &File,
        identity: Identity,
    ) -> io::Result<bool> {
        let path = fs::canonicalize(runtime, name)?.into_string();
        let is_locked = match file.try_lock_shared() {
            Ok(()) => true,
            Err(TryLockError::WouldBlock) => return Ok(false),
            Err(TryLockError::Error(_)) => false,
        };
        if !stands_at(runtime, path.as_str(), file)? {
            return Ok(false);
        }
        self.files.push(KeptFile {
            path,
            identity,
            is_locked,
            file: file.try_clone()?,
        })?;
        Ok(true)
    }

    // Locks the file that was found by this name for this process alone, if it was read. An error if it is not the one
    // that was read, if another process keeps it too, if it has a second name, or if there are no locks.
    pub(crate) fn claim<R: System>(
        &self,
        runtime: &R,
        name: &str,
        found: &Metadata,
    ) -> io::Result<()> {
        let identity = Identity::of(found);
        if self.was_read_as_another(name, identity) {
            return Err(Obstacle::Replaced.into());
        }
        let Some(kept) = self.files.iter().find(|kept| kept.identity == identity) else {
            return self.refuse_a_place_taken(runtime, identity);
        };
        if found.nlink() > 1 {
            return Err(Obstacle::SecondName.into());
        }
        if !kept.is_locked {
            return Err(Obstacle::NoLocks.into());
        }
        lock_alone(runtime, kept)
    }

    // An error if a file was read by this name, at which nothing stands now: it was moved away, and is not made anew:
    // it and the one that was moved would give one index twice. A file that was not read may have two names: the one
    // that was given leads to the new file.
    pub(crate) fn claim_nothing(&self, name: &str) -> io::Result<()> {
        if self.names.iter().any(|read| read.name.as_str() == name) {
            return Err(Obstacle::Replaced.into());
        }
        Ok(())
    }

    // Whether this file is kept.
    fn has(&self, identity: Identity) -> bool {
        self.files.iter().any(|kept| kept.identity == identity)
    }

    // Whether the last file that was read by this name is another than this one.
    fn was_read_as_another(&self, name: &str, identity: Identity) -> bool {
        let last = self
            .names
            .iter()
            .rev()
            .find(|read| read.name.as_str() == name);
        last.is_some_and(|read| read.identity != identity)
    }

    // An error if this file, which was not read, stands at a path from which one was read.
    fn refuse_a_place_taken<R: System>(&self, runtime: &R, identity: Identity) -> io::Result<()> {
        for kept in &self.files {
            let standing = standing_at(runtime, kept.path.as_str())?;
            if standing.is_some_and(|found| Identity::of(&found) == identity) {
                return Err(Obstacle::Replaced.into());
            }
        }
        Ok(())
    }
}

// Whether no path leads to the file, so that it cannot be replaced.
fn has_no_path(found: &Metadata) -> bool {
    found.nlink() == 0
}

// Locks a kept file for this process alone. A try that fails lets the shared lock go: then of several processes that
// have read the file one is the next to replace it, and the others find that it was replaced.
fn lock_alone<R: System>(runtime: &R, kept: &KeptFile) -> io::Result<()> {
    for _ in 0..TRIES {
        let is_alone = match kept.file.try_lock() {
            Ok(()) => true,
            Err(TryLockError::WouldBlock) => false,
            Err(TryLockError::Error(error)) => return Err(error),
        };
        if !stands_at(runtime, kept.path.as_str(), &kept.file)? {
            return Err(Obstacle::Replaced.into());
        }
        if is_alone {
            return Ok(());
        }
        pause(runtime);
    }
    Err(Obstacle::InUse.into())
}

// Lets other processes go on for a while.
fn pause<R: System>(runtime: &R) {
    thread::sleep(runtime, Duration::from_millis(10));
}
