//! A host with its files and its output in memory, and with calls that fail by number.

ghost use Rattle.std.specs.Prelude.{◌≡◌, ◌≤◌, Some, true, false, IfOk, OnOk, OnErr, IsErr, IsErrOf, vec_len, option_copied};
ghost use Rattle.std.specs.List.{position};
ghost use Rattle.mb_model.specs.declared.limits.TheConstants.{FILE_LIMIT};
ghost use Rattle.mb_model_commands.specs.Outside.{HoldsFile, HoldsTooMuch, read_once, FailsToRead};
ghost use Rattle.mb_model_commands.specs.Outside.{WritesFile, FailsToWrite, Prints, FailsToPrint, count_after_call as raised_count};
ghost use Rattle.mb_host.specs.Memory.{IsNumbered, Stores, content_of, host_of, is_named, next_fails, told};

use crate::count::raised;
use crate::host::{Host, HostEnd, HostFailed};
use mb_model::{Bytes, Calls, FILE_LIMIT, File, Files, NoMemory};
use std::alloc::Global;
use std::marker::Model;

/// Files and output in memory, for tests. Contracts see all of its contents. If two files have one name, the first
/// counts. A write or a print that finds no memory counts a fault. No clause says that no other write or print fails:
/// both take memory. The list is not in the trait, since no other host has one. It wants no trace, and drops what it is
/// told.
#[derive(Drop)]
pub struct MemoryHost {
    alloc: Global,
    files: Vec<File>,
    printed: Vec<u8>,
    failing: Calls,
    calls: u64,
    read_faults: u64,
    absences: u64,
    write_faults: u64,
    reads: u64,
    writes: u64,
    prints: u64,
}

impl Model for MemoryHost {
    ghost use Rattle.mb_host.specs.Memory.{HostShown};

    ghost Value = { HostShown };

    ghost view = { λ host. record {
      files = host.files.items;
      printed = host.printed.items;
      failing = host.failing;
      calls = host.calls;
      read_faults = host.read_faults;
      absences = host.absences;
      write_faults = host.write_faults;
      reads = host.reads;
      writes = host.writes;
      prints = host.prints;
    } };
}

impl MemoryHost {
    /// A host with these files and nothing printed, which allocates with `alloc`. The calls of `read`, `write` and
    /// `print` are numbered together, from 0; those with a number in `failing` fail.
    ///
    /// `NoMemory` if an allocation fails. No clause rules that out: the tests show that a host is made.
    pub fn new(alloc: Global, files: Files, failing: Calls) -> Result<MemoryHost, NoMemory>
        ensures { IfOk result (λ host. host ≡ host_of files failing) }
    {
        Ok(MemoryHost {
            alloc,
            files: files.into_vec(),
            printed: Vec::new(alloc),
            failing,
            calls: 0,
            read_faults: 0,
            absences: 0,
            write_faults: 0,
            reads: 0,
            writes: 0,
            prints: 0,
        })
    }

    /// The bytes printed so far.
    pub fn printed(&self) -> &[u8]
        ensures { (told self.now).printed ≡ Some result.now }
    {
        self.printed.as_slice()
    }

    /// The content of the file of this name.
    pub fn file(&self, name: &str) -> Option<&[u8]>
        ensures { (files : _) → (told self.now).files ≡ Some files
            → option_copied result ≡ files name.now }
    {
        content(self.files.as_slice(), name)
    }

    /// The number of reads that failed although they could have been served.
    pub fn read_faults(&self) -> u64
        ensures { result ≡ (told self.now).read_faults }
    {
        self.read_faults
    }

    /// The number of reads of absent names.
    pub fn absences(&self) -> u64
        ensures { result ≡ (told self.now).absences }
    {
        self.absences
    }

    /// The number of writes and prints that failed.
    pub fn write_faults(&self) -> u64
        ensures { result ≡ (told self.now).write_faults }
    {
        self.write_faults
    }

    /// The number of calls of `read`.
    pub fn reads(&self) -> u64
        ensures { result ≡ (told self.now).reads }
    {
        self.reads
    }

    /// The number of calls of `write`.
    pub fn writes(&self) -> u64
        ensures { result ≡ (told self.now).writes }
    {
        self.writes
    }

    /// The number of calls of `print`.
    pub fn prints(&self) -> u64
        ensures { result ≡ (told self.now).prints }
    {
        self.prints
    }

    // Numbers a call, and returns whether it fails.
    fn call_fails(&mut self) -> bool
        ensures fails { result ≡ next_fails self.old }
        ensures numbered { self.new ≡ record self.old { calls = raised_count self.old.calls } }
    {
        let fails = self.failing.as_slice().contains(&self.calls);
        self.calls = raised(self.calls);
        fails
    }
}

impl Host for MemoryHost {
    ghost outside = { told };

    fn read(&mut self, alloc: Global, name: &str) -> Result<Vec<u8>, HostEnd>
        ensures listed { next_fails self.old ≡ true → IsErrOf result HostEnd.Failed }
        ensures unlisted { next_fails self.old ≡ false
            → self.new.read_faults ≡ self.old.read_faults }
        ensures numbered { IsNumbered self.old self.new }
        ensures whole { IfOk result (λ bytes. HoldsFile (told self.old) name.now bytes.items) }
        ensures short { IfOk result (λ bytes. vec_len bytes ≤ FILE_LIMIT) }
        ensures too_long { IsErrOf result HostEnd.TooLong → HoldsTooMuch (told self.old) name.now }
        ensures failed { IsErrOf result HostEnd.Failed
            → FailsToRead name.now (told self.old) (told self.new) }
        ensures counted { (IsErrOf result HostEnd.Failed → ⊥)
            → told self.new ≡ read_once (told self.old) }
    {
        let fails = self.call_fails();
        self.reads = raised(self.reads);
        if fails {
            self.read_faults = raised(self.read_faults);
            return Err(HostEnd::Failed);
        }
        let Some(bytes) = content(self.files.as_slice(), name) else {
            self.absences = raised(self.absences);
            return Err(HostEnd::Failed);
        };
        if bytes.len() > FILE_LIMIT {
            return Err(HostEnd::TooLong);
        }
        Vec::from_slice(alloc, bytes).map_err(|_| HostEnd::NoMemory)
    }

    fn write(&mut self, name: &str, bytes: &[u8]) -> Result<(), HostFailed>
        ensures listed { next_fails self.old ≡ true → IsErr result }
        ensures numbered { IsNumbered self.old self.new }
        ensures done { OnOk result (WritesFile name.now bytes.now (told self.old) (told self.new)) }
        ensures failed { OnErr result (FailsToWrite name.now (told self.old) (told self.new)) }
    {
        self.writes = raised(self.writes);
        if self.call_fails() || store(&mut self.files, self.alloc, name, bytes).is_err() {
            self.write_faults = raised(self.write_faults);
            return Err(HostFailed);
        }
        Ok(())
    }

    fn print(&mut self, bytes: &[u8]) -> Result<(), HostFailed>
        ensures listed { next_fails self.old ≡ true → IsErr result }
        ensures numbered { IsNumbered self.old self.new }
        ensures done { OnOk result (Prints bytes.now (told self.old) (told self.new)) }
        ensures failed { OnErr result (FailsToPrint bytes.now (told self.old) (told self.new)) }
    {
        self.prints = raised(self.prints);
        if self.call_fails() || self.printed.extend_from_slice(bytes).is_err() {
            self.write_faults = raised(self.write_faults);
            return Err(HostFailed);
        }
        Ok(())
    }

    fn wants_trace(&self) -> bool {
        false
    }

    fn tell(&mut self, _bytes: &[u8]) {}
}

// The index of the first file of this name.
fn index_of(files: &[File], name: &str) -> Option<usize>
    ensures { result ≡ position (is_named name.now) files.now }
{
    files
        .iter()
        .position(|file| file.name.as_slice() == name.as_bytes())
}

// The content of the first file of this name.
fn content<'a>(files: &'a [File], name: &str) -> Option<&'a [u8]>
    ensures { option_copied result ≡ content_of files.now name.now }
{
    let file = files
        .iter()
        .find(|file| file.name.as_slice() == name.as_bytes())?;
    Some(file.bytes.as_slice())
}

// Makes these bytes the content of the first file of this name, or of a new file. After an error nothing has changed.
fn store(files: &mut Vec<File>, alloc: Global, name: &str, bytes: &[u8]) -> Result<(), NoMemory>
    ensures stored { OnOk result (Stores files.old.items files.new.items name.now bytes.now) }
    ensures kept { OnErr result (files.new.items ≡ files.old.items) }
{
    let bytes = Bytes::copy(alloc, bytes)?;
    match index_of(files.as_slice(), name) {
        Some(at) => files[at].bytes = bytes,
        None => {
            let name = Bytes::copy(alloc, name.as_bytes())?;
            files.push(File { name, bytes })?;
        }
    }
    Ok(())
}
