//! Whole reads and writes over any source and any sink: their results, and how they are counted.

ghost use Rattle.std.specs.Prelude.{◌≡◌, ◌≢◌, ℕ, ◌<◌, ◌≤◌, IfErr, IfOk, IfSome, IsErr, IsErrOf, OnErr, OnOk, length, take, vec_len};
ghost use Rattle.std.specs.IoError.{error_kind};
ghost use Rattle.std.specs.Io.KnownBytes.{Appends, Consumes, IsAtEnd};
ghost use Rattle.mb_model.specs.declared.limits.TheConstants.{FILE_LIMIT};
ghost use Rattle.mb_model_commands.specs.Outside.{count_after_call as raised_count};
ghost use Rattle.mb_files.specs.Real.{known};

use crate::faults::{Faults, Sink, Source};
use mb_host::{HostEnd, HostFailed, raised};
use mb_model::FILE_LIMIT;
use std::alloc::Global;
use std::io;
use std::io::ErrorKind;

// The most bytes of one read.
const PIECE_LENGTH: usize = 65_536;

/// The number of reads, and of reads that failed. Only a read raises them.
#[derive(Drop)]
pub(crate) struct ReadCounts {
    calls: u64,
    faults: Faults,
}

impl ReadCounts {
    // No read yet.
    pub(crate) fn none() -> ReadCounts
        ensures { result ≡ record { calls = 0; faults = 0 } }
    {
        ReadCounts {
            calls: 0,
            faults: Faults::none(),
        }
    }

    // The error of the last read that failed.
    pub(crate) fn last_fault(&self) -> Option<io::Error> {
        self.faults.last()
    }

    // Reads all of the source, if it was opened.
    pub(crate) fn read<S: Source + Drop>(
        &mut self,
        alloc: Global,
        opened: io::Result<S>,
    ) -> Result<Vec<u8>, HostEnd>
        ensures unopened { IfErr opened (λ error. error_kind error ≢ ErrorKind.OutOfMemory
            → IsErrOf result HostEnd.Failed) }
        ensures no_memory { IfErr opened (λ error. error_kind error ≡ ErrorKind.OutOfMemory
            → IsErrOf result HostEnd.NoMemory) }
        ensures whole { IfOk opened (λ source. IfSome (S.left source) (λ all.
            IfOk result (λ bytes. bytes.items ≡ all))) }
        ensures short { IfOk result (λ bytes. vec_len bytes ≤ FILE_LIMIT) }
        ensures too_long { IsErrOf result HostEnd.TooLong
            → IfOk opened (λ source. IfSome (S.left source) (λ all. FILE_LIMIT < length all)) }
        ensures failed { IsErrOf result HostEnd.Failed →
            self.new ≡ record {
              calls = raised_count self.old.calls;
              faults = raised_count self.old.faults;
            } }
        ensures counted { (IsErrOf result HostEnd.Failed → ⊥) →
            self.new ≡ record { calls = raised_count self.old.calls; faults = self.old.faults } }
    {
        self.calls = raised(self.calls);
        match opened {
            Ok(mut source) => read_whole(&mut source, &mut self.faults, alloc),
            Err(error) if matches!(error.kind(), ErrorKind::OutOfMemory) => Err(HostEnd::NoMemory),
            Err(error) => {
                self.faults.count(error);
                Err(HostEnd::Failed)
            }
        }
    }
}

/// The number of writes of files, of prints, and of failures of both. Only a write or a print raises them.
#[derive(Drop)]
pub(crate) struct WriteCounts {
    files: u64,
    prints: u64,
    faults: Faults,
}

impl WriteCounts {
    // No write yet.
    pub(crate) fn none() -> WriteCounts
        ensures { result ≡ record { files = 0; prints = 0; faults = 0 } }
    {
        WriteCounts {
            files: 0,
            prints: 0,
            faults: Faults::none(),
        }
    }

    // The error of the last write or print that failed.
    pub(crate) fn last_fault(&self) -> Option<io::Error> {
        self.faults.last()
    }

    // Writes all of these bytes to a file and settles it, if it was opened.
    pub(crate) fn write<S: Sink>(
        &mut self,
        opened: &mut io::Result<S>,
        bytes: &[u8],
    ) -> Result<(), HostFailed>
        ensures unopened { OnErr opened.old (IsErr result) }
        ensures whole { OnOk result (Appends (known S.held opened.old)
            (known S.held opened.new) bytes.now) }
        ensures part { OnErr result ((n : ℕ) ×
            Appends (known S.held opened.old) (known S.held opened.new) (take n bytes.now)) }
        ensures lasting { OnOk result (known S.lasting opened.new ≡ known S.held opened.new) }
        ensures done { OnOk result (self.new
            ≡ record self.old { files = raised_count self.old.files }) }
        ensures failed { OnErr result
            (self.new ≡ record self.old {
              files = raised_count self.old.files;
              faults = raised_count self.old.faults;
            }) }
    {
        self.files = raised(self.files);
        self.faults.note(opened);
        match opened {
            Ok(sink) => write_settled(sink, &mut self.faults, bytes),
            Err(_) => Err(HostFailed),
        }
    }

    // Prints all of these bytes.
    pub(crate) fn print<S: Sink>(&mut self, output: &mut S, bytes: &[u8]) -> Result<(), HostFailed>
        ensures whole { OnOk result (Appends (S.held output.old) (S.held output.new) bytes.now) }
        ensures part { OnErr result ((n : ℕ)
            × Appends (S.held output.old) (S.held output.new) (take n bytes.now)) }
        ensures done { OnOk result (self.new
            ≡ record self.old { prints = raised_count self.old.prints }) }
        ensures failed { OnErr result
            (self.new ≡ record self.old {
              prints = raised_count self.old.prints;
              faults = raised_count self.old.faults;
            }) }
    {
        self.prints = raised(self.prints);
        write_whole(output, &mut self.faults, bytes)
    }
}

// Reads all that is left of a source. A read of no bytes is its end.
fn read_whole<S: Source>(
    source: &mut S,
    faults: &mut Faults,
    alloc: Global,
) -> Result<Vec<u8>, HostEnd>
    ensures whole { IfOk result (λ bytes. Consumes (S.left source.old)
        (S.left source.new) bytes.items) }
    ensures end { OnOk result (IsAtEnd (S.left source.new)) }
    ensures short { IfOk result (λ bytes. vec_len bytes ≤ FILE_LIMIT) }
    ensures too_long { IsErrOf result HostEnd.TooLong
        → IfSome (S.left source.old) (λ all. FILE_LIMIT < length all) }
    ensures failed { IsErrOf result HostEnd.Failed → faults.new ≡ raised_count faults.old }
    ensures fine { (IsErrOf result HostEnd.Failed → ⊥) → faults.new ≡ faults.old }
{
    let mut piece = [0; PIECE_LENGTH];
    let mut bytes = Vec::new(alloc);
    while bytes.len() <= FILE_LIMIT {
        let count = source.give(faults, &mut piece).ok_or(HostEnd::Failed)?;
        if count == 0 {
            return Ok(bytes);
        }
        bytes
            .extend_from_slice(&piece[..count])
            .map_err(|_| HostEnd::NoMemory)?;
    }
    Err(HostEnd::TooLong)
}

// Writes all of these bytes.
fn write_whole<S: Sink>(sink: &mut S, faults: &mut Faults, bytes: &[u8]) -> Result<(), HostFailed>
    ensures whole { OnOk result (Appends (S.held sink.old) (S.held sink.new) bytes.now) }
    ensures part { OnErr result ((n : ℕ)
        × Appends (S.held sink.old) (S.held sink.new) (take n bytes.now)) }
    ensures done { OnOk result (faults.new ≡ faults.old) }
    ensures failed { OnErr result (faults.new ≡ raised_count faults.old) }
{
    let mut rest = bytes;
    while !rest.is_empty() {
        let Some(count) = sink.take(faults, rest) else {
            return Err(HostFailed);
        };
        rest = &rest[count..];
    }
    Ok(())
}

// Writes all of these bytes, and makes them last. A fault on closing the file is not seen: the kit closes it when it
// goes out of scope, and gives no answer. It was synced before, which reports what the system has to say of its bytes.
fn write_settled<S: Sink>(sink: &mut S, faults: &mut Faults, bytes: &[u8]) -> Result<(), HostFailed>
    ensures whole { OnOk result (Appends (S.held sink.old) (S.held sink.new) bytes.now) }
    ensures part { OnErr result ((n : ℕ)
        × Appends (S.held sink.old) (S.held sink.new) (take n bytes.now)) }
    ensures lasting { OnOk result (S.lasting sink.new ≡ S.held sink.new) }
    ensures done { OnOk result (faults.new ≡ faults.old) }
    ensures failed { OnErr result (faults.new ≡ raised_count faults.old) }
{
    write_whole(sink, faults, bytes)?;
    sink.settle(faults).ok_or(HostFailed)
}
