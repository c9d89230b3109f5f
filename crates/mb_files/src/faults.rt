//! Sources and sinks of the system, with each of their errors counted.
//!
//! Whole reads and writes see a source and a sink only through the traits here: no error reaches them uncounted, and
//! they count no fault without an error.

ghost use Rattle.std.specs.Prelude.{◌≡◌, ℕ, ◌<◌, ◌≤◌, List, Option, length, take, IfSome, MatchOption, MatchResult};
ghost use Rattle.std.specs.Io.KnownBytes.{Appends, Consumes, IsAtEnd, Keeps};
ghost use Rattle.mb_model_commands.specs.Outside.{count_after_call as raised_count};

use mb_host::raised;
use std::io;
use std::io::{Read, Write};
use std::marker::Model;

/// The errors so far. Contracts see their number.
#[derive(Drop)]
pub(crate) struct Faults {
    count: u64,
    last: Option<io::Error>,
}

impl Model for Faults {
    ghost Value = { ℕ };

    ghost view = { λ faults. faults.count };
}

impl Faults {
    // No error yet.
    pub(crate) fn none() -> Faults
        ensures { result ≡ 0 }
    {
        Faults {
            count: 0,
            last: None,
        }
    }

    // The last error, if there was one.
    pub(crate) fn last(&self) -> Option<io::Error> {
        self.last
    }

    // Counts the result of a call of the system, if it is an error.
    pub(crate) fn note<T>(&mut self, given: &io::Result<T>)
        ensures { MatchResult given.now (λ _. self.new ≡ self.old)
            (λ _. self.new ≡ raised_count self.old) }
    {
        if let Err(error) = given {
            self.count(*error);
        }
    }

    // Counts an error.
    pub(crate) fn count(&mut self, error: io::Error)
        ensures { self.new ≡ raised_count self.old }
    {
        self.count = raised(self.count);
        self.last = Some(error);
    }
}

/// A source of bytes. A call that a signal interrupts is an error, and is not tried again.
pub(crate) trait Source {
    // The bytes left in it, if they are known.
    ghost left: { Self → Option (List ℕ) };

    /// Fills the front of `piece`, and returns the number of bytes; `None` after an error, which is counted. A nonempty
    /// piece gets no bytes only at the end.
    fn give(&mut self, faults: &mut Faults, piece: &mut [u8]) -> Option<usize>
        ensures counted { MatchOption result (faults.new ≡ raised_count faults.old)
            (λ _. faults.new ≡ faults.old) }
        ensures bound { IfSome result (λ count. count ≤ length piece.new) }
        ensures bytes { MatchOption result
            (Keeps (left self.old) (left self.new))
            (λ count. Consumes (left self.old) (left self.new) (take count piece.new)) }
        ensures end { IfSome result (λ count. count ≡ 0 → 0 < length piece.new
            → IsAtEnd (left self.new)) };
}

impl<S: Read> Source for S {
    ghost left = { S.remaining };

    fn give(&mut self, faults: &mut Faults, piece: &mut [u8]) -> Option<usize> {
        let given = self.read(piece);
        faults.note(&given);
        given.ok()
    }
}

/// A sink of bytes.
pub(crate) trait Sink {
    // The bytes that it holds, if they are known.
    ghost held: { Self → Option (List ℕ) };

    // The bytes that last, if they are known: those that it held when it was last settled.
    ghost lasting: { Self → Option (List ℕ) };

    /// Appends the first of `bytes`, at least one of them, and returns how many it took; `None` after an error, which
    /// is counted. Taking nothing is an error.
    fn take(&mut self, faults: &mut Faults, bytes: &[u8]) -> Option<usize>
        ensures counted { MatchOption result (faults.new ≡ raised_count faults.old)
            (λ _. faults.new ≡ faults.old) }
        ensures bound { IfSome result (λ count. count ≤ length bytes.now) }
        ensures some { IfSome result (λ count. 0 < count) }
        ensures bytes { MatchOption result
            (Keeps (held self.old) (held self.new))
            (λ count. Appends (held self.old) (held self.new) (take count bytes.now)) };

    /// Makes the bytes that it holds last. `None` after an error, which is counted.
    fn settle(&mut self, faults: &mut Faults) -> Option<()>
        ensures counted { MatchOption result (faults.new ≡ raised_count faults.old)
            (λ _. faults.new ≡ faults.old) }
        ensures bytes { Keeps (held self.old) (held self.new) }
        ensures lasting { IfSome result (λ _. lasting self.new ≡ held self.new) };
}

impl<S: Write> Sink for S {
    ghost held = { S.contents };

    ghost lasting = { S.contents };

    fn take(&mut self, faults: &mut Faults, bytes: &[u8]) -> Option<usize> {
        let given = match self.write(bytes) {
            Ok(0) => Err(io::Error::from(io::ErrorKind::WriteZero)),
            given => given,
        };
        faults.note(&given);
        given.ok()
    }

    fn settle(&mut self, faults: &mut Faults) -> Option<()> {
        let given = self.flush();
        faults.note(&given);
        given.ok()
    }
}
