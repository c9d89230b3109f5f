//! The trait of a host: files by name, printing, and what is told beside it.

ghost use Rattle.std.specs.Prelude.{◌≡◌, ◌≤◌, IfOk, OnOk, OnErr, IsErrOf, vec_len};
ghost use Rattle.mb_model.specs.declared.limits.TheConstants.{FILE_LIMIT};
ghost use Rattle.mb_model_commands.specs.Outside.{Outside, HoldsFile, HoldsTooMuch, read_once, FailsToRead};
ghost use Rattle.mb_model_commands.specs.Outside.{WritesFile, FailsToWrite, Prints, FailsToPrint};

use std::alloc::Global;

/// Why a file was not read.
#[derive(Clone, Copy, Debug, PartialEq, Eq)]
pub enum HostEnd {
    /// The read failed, or there is no such file.
    Failed,
    /// The file has more than 4,194,304 bytes.
    TooLong,
    /// An allocation failed.
    NoMemory,
}

/// A write or a print failed.
#[derive(Clone, Copy, Debug, PartialEq, Eq)]
pub struct HostFailed;

/// Files by name, somewhere to print, and somewhere to tell what a person may want to know besides.
///
/// A host counts its calls of each kind, and its faults: reads that failed, reads of absent names, and writes and
/// prints that failed. `Failed` and `HostFailed` raise one count of faults by one, and all other results leave these
/// counts as they were. Each call changes only what its clauses say. Counts saturate at the last value of a `u64`.
pub trait Host {
    ghost outside: { Self → Outside };

    /// Reads the whole file of this name. A read that `Failed` counts as a fault, or as an absence if there is no such
    /// file.
    fn read(&mut self, alloc: Global, name: &str) -> Result<Vec<u8>, HostEnd>
        ensures whole { IfOk result (λ bytes. HoldsFile (outside self.old) name.now bytes.items) }
        ensures short { IfOk result (λ bytes. vec_len bytes ≤ FILE_LIMIT) }
        ensures too_long { IsErrOf result HostEnd.TooLong
            → HoldsTooMuch (outside self.old) name.now }
        ensures failed { IsErrOf result HostEnd.Failed
            → FailsToRead name.now (outside self.old) (outside self.new) }
        ensures counted { (IsErrOf result HostEnd.Failed → ⊥)
            → outside self.new ≡ read_once (outside self.old) };

    /// Makes these bytes the whole file of this name, and leaves the others. An error counts as a fault, and the
    /// content of the file is then unknown.
    fn write(&mut self, name: &str, bytes: &[u8]) -> Result<(), HostFailed>
        ensures done { OnOk result (WritesFile name.now bytes.now (outside self.old)
            (outside self.new)) }
        ensures failed { OnErr result (FailsToWrite name.now (outside self.old)
            (outside self.new)) };

    /// Prints these bytes. An error counts as a fault, and a prefix of the bytes was then printed.
    fn print(&mut self, bytes: &[u8]) -> Result<(), HostFailed>
        ensures done { OnOk result (Prints bytes.now (outside self.old) (outside self.new)) }
        ensures failed { OnErr result (FailsToPrint bytes.now (outside self.old)
            (outside self.new)) };

    /// Whether whoever started the program wants each step of a code told that runs. It changes nothing, and no clause
    /// says what it answers.
    fn wants_trace(&self) -> bool;

    /// Tells these bytes beside what is printed: a text for a person, of any number of lines, each with its LF. No
    /// program should rely on it. It is no print, and changes nothing that is counted or shown to the contracts. What
    /// cannot be told is left out, which is no fault.
    fn tell(&mut self, bytes: &[u8])
        ensures { outside self.new ≡ outside self.old };
}
