//! The serial of the device that a log belongs to.

ghost use Rattle.std.specs.Prelude.{◌≡◌};
ghost use Rattle.mb_model.specs.owners.Log.{entries_of, serial_in, serial_of};

use mb_model::{Entry, SignedEntry};

/// The serial that the birth in the log names, if there is one.
pub fn serial_of(log: &[SignedEntry]) -> Option<[u8; 16]>
    ensures { result ≡ serial_of (entries_of log.now) }
{
    let mut serial = None;
    for signed in log {
        serial = serial_in(&signed.entry).or(serial);
    }
    serial
}

/// The serial that an entry names, if it is a birth.
fn serial_in(entry: &Entry) -> Option<[u8; 16]>
    ensures { result ≡ serial_in entry.now }
{
    match entry {
        Entry::Birth { serial, .. } => Some(*serial),
        _ => None,
    }
}
