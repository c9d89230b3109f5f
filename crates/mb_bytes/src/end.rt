//! Why no value was read by a reader that takes memory.

ghost use Rattle.std.specs.Prelude.{◌≡◌};

use crate::cursor::Short;
use crate::field::ReadError;
use mb_model::{BadRecord, NoMemory};

/// Why no value was read by a reader that takes memory.
#[derive(Clone, Copy, Debug, PartialEq, Eq)]
pub enum ReadEnd {
    /// The bytes spell no such value.
    Bad {
        /// The offset, from 0, of the first field that lacks bytes or is not allowed, or of the first byte after the
        /// last field.
        at: u32,
    },
    /// An allocation failed. No clause of a reader says when, so a reader that always answers this is proved too: the
    /// tests read with ample memory.
    NoMemory,
}

impl From<Short> for ReadEnd {
    ghost use Rattle.mb_bytes.specs.declared.end.ReadEnd.TheVariants.{Bad};

    ghost from_gives = { λ short e. e ≡ Bad short.at };

    fn from(short: Short) -> ReadEnd {
        ReadEnd::Bad { at: short.at }
    }
}

impl From<BadRecord> for ReadEnd {
    ghost use Rattle.mb_bytes.specs.declared.end.ReadEnd.TheVariants.{Bad};

    ghost from_gives = { λ bad e. e ≡ Bad bad.at };

    fn from(bad: BadRecord) -> ReadEnd {
        ReadEnd::Bad { at: bad.at }
    }
}

impl From<NoMemory> for ReadEnd {
    ghost use Rattle.mb_bytes.specs.declared.end.ReadEnd.TheVariants.{NoMemory};

    ghost from_gives = { λ _ e. e ≡ NoMemory };

    fn from(_error: NoMemory) -> ReadEnd {
        ReadEnd::NoMemory
    }
}

impl ReadError for ReadEnd {
    ghost use Rattle.mb_bytes.specs.Ends.{end_at};

    ghost points = { end_at };

    fn bad(at: u32) -> ReadEnd {
        ReadEnd::Bad { at }
    }

    fn offset(&self) -> Option<u32> {
        match self {
            ReadEnd::Bad { at } => Some(*at),
            ReadEnd::NoMemory => None,
        }
    }
}
