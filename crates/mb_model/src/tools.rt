//! What the officers' tools read and write.

ghost use Rattle.std.specs.Prelude.{◌≡◌, ◌≤◌, ◌<◌, ◌+◌, IfSome, IsNone};
ghost use Rattle.mb_model.specs.declared.limits.TheConstants.{KEY_USES};

use crate::key::KeySeed;
use crate::limits::KEY_USES;
use std::marker::Model;

/// The index with which a key signs next, from 0; the number of its indices, 32, if all are used.
#[derive(Clone, Copy, PartialEq, Eq)]
pub struct NextIndex {
    index: u32,
}

impl Model for NextIndex {
    ghost use Rattle.std.specs.Prelude.{ℕ, ◌≤◌};
    ghost use Rattle.mb_model.specs.declared.limits.TheConstants.{KEY_USES};

    ghost Value = { ℕ };

    ghost view = { λ next. next.index };

    ghost invariant = { λ next. next.index ≤ KEY_USES };

    ghost inverse = { λ index. record { index = index } };
}

impl NextIndex {
    /// The first index of a key.
    pub fn first() -> NextIndex
        ensures { result ≡ 0 }
    {
        NextIndex { index: 0 }
    }

    /// The next index with this number, at most 32; none if the number is higher.
    pub fn new(number: u32) -> Option<NextIndex>
        ensures some { IfSome result (λ next. (next ≡ number) × (number ≤ KEY_USES)) }
        ensures none { IsNone result → KEY_USES < number }
    {
        if number > KEY_USES as u32 {
            return None;
        }
        Some(NextIndex { index: number })
    }

    /// The number of the index.
    pub fn number(self) -> u32
        ensures number { result ≡ self }
        ensures most { result ≤ KEY_USES }
    {
        self.index
    }

    /// Takes the index for a signature and goes on to the next; none if all are used.
    pub fn take(&mut self) -> Option<u32>
        ensures some { IfSome result (λ index. (index ≡ self.old) × (index < KEY_USES) × (self.new ≡ self.old + 1)) }
        ensures none { IsNone result → (self.old ≡ KEY_USES) × (self.new ≡ self.old) }
    {
        let index = self.index;
        if index >= KEY_USES as u32 {
            return None;
        }
        self.index = index + 1;
        Some(index)
    }
}

/// An officer's key.
#[derive(Clone, Copy, PartialEq, Eq)]
pub struct Keyfile {
    pub seed: KeySeed,
    /// The index with which the key signs next.
    pub next: NextIndex,
}

/// A record that is not in its form.
#[derive(Clone, Copy, Debug, PartialEq, Eq)]
pub struct BadRecord {
    /// The offset, from 0, of the first field that is not in its form.
    pub at: u32,
}
