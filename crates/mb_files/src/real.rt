//! The host over the files and the standard output of the system.

ghost use Rattle.std.specs.Prelude.{◌≡◌, None};
ghost use Rattle.mb_files.specs.Real.{untold};

use crate::kept::KeptFiles;
use crate::output::Output;
use crate::path_text::path_of;
use crate::system::{System, has_variable};
use crate::told::{tell_error, tell_text};
use crate::whole::{ReadCounts, WriteCounts};
use mb_host::{Host, HostEnd, HostFailed};
use std::alloc::Global;
use std::io;

// The variable of the environment by which a trace is asked for.
const TRACE_VARIABLE: &str = "MINIBOOT_TRACE";

/// The files and the standard output of a runtime. Contracts see its counts alone, and none of its contents.
///
/// A file that was read stays locked until the host is dropped. A file is replaced whole, and is on the disk once its
/// write is Ok; a pipe, a terminal and a device are written as they stand. What the system says of each read and write
/// that fails, and of the first print that fails, is told on standard error, on one line. It cannot tell a missing file
/// from a failed read: both count a fault, and nothing counts an absence. A trace is wanted if the environment has the
/// variable `MINIBOOT_TRACE` with a value that is not empty.
#[derive(Drop)]
pub struct RealHost<'a, R> {
    runtime: &'a R,
    kept: KeptFiles,
    reads: ReadCounts,
    writes: WriteCounts,
    // Whether it was told that printing failed.
    is_print_told: bool,
}

impl<'a, R: System> RealHost<'a, R> {
    /// A host over this runtime, with no call yet.
    pub fn new(runtime: &'a R) -> RealHost<'a, R>
        ensures { ⟦<RealHost<'a, R> as Host>⟧.outside result ≡ record {
          files = None;
          printed = None;
          read_faults = 0;
          absences = 0;
          write_faults = 0;
          reads = 0;
          writes = 0;
          prints = 0;
        } }
    {
        RealHost {
            runtime,
            kept: KeptFiles::none(runtime.alloc()),
            reads: ReadCounts::none(),
            writes: WriteCounts::none(),
            is_print_told: false,
        }
    }

    // Tells the error of a write or a print, if it failed.
    fn tell_write(&self, name: &str, outcome: Result<(), HostFailed>) {
        if let (Err(_), Some(error)) = (outcome, self.writes.last_fault()) {
            tell_error(self.runtime, name, error);
        }
    }
}

// No clause says which file the system opens, what its files hold or what it prints. The results and the counts are
// those of the calls in `whole.rt`, which are proved over any source and sink.
impl<'a, R: System> Host for RealHost<'a, R> {
    ghost outside = { λ host. untold host.reads host.writes };

    fn read(&mut self, alloc: Global, name: &str) -> Result<Vec<u8>, HostEnd> {
        let result = self.reads.read(alloc, self.kept.open(self.runtime, name));
        if let (Err(HostEnd::Failed), Some(error)) = (&result, self.reads.last_fault()) {
            tell_error(self.runtime, name, error);
        }
        result
    }

    fn write(&mut self, name: &str, bytes: &[u8]) -> Result<(), HostFailed> {
        let path = path_of(self.runtime, name);
        let mut opened = match &path {
            Ok(path) => Output::open(self.runtime, &self.kept, name, path.as_str()),
            Err(error) => Err(*error),
        };
        let result = self.writes.write(&mut opened, bytes);
        if let Ok(output) = &opened {
            output.end();
        }
        self.tell_write(name, result);
        result
    }

    fn print(&mut self, bytes: &[u8]) -> Result<(), HostFailed> {
        let result = self.writes.print(&mut io::writer(self.runtime), bytes);
        if result.is_err() && !self.is_print_told {
            self.is_print_told = true;
            self.tell_write("standard output", result);
        }
        result
    }

    fn wants_trace(&self) -> bool {
        has_variable(self.runtime, TRACE_VARIABLE)
    }

    fn tell(&mut self, bytes: &[u8]) {
        tell_text(self.runtime, bytes);
    }
}
