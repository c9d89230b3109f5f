//! The entries that a device has shown before, and those that it shows now.

ghost use Rattle.mb_model.specs.declared.limits.TheConstants.{ENTRY_LIMIT};
ghost use Rattle.std.specs.Prelude.{◌≤◌, length};
ghost use Rattle.mb_fleet.specs.Lookups.{Compares};

/// How the hashes of the entries that are shown compare with those that were shown before.
#[derive(Clone, Copy)]
pub enum Comparison {
    /// The new hashes are the old ones.
    Same,
    /// The old hashes are a proper prefix of the new ones.
    Longer,
    /// The new hashes are a proper prefix of the old ones.
    Shorter,
    /// The new hashes differ from the old ones at an index of both.
    Differs {
        /// The first index, from 0, at which they differ.
        place: u32,
    },
}

/// How the new hashes compare with the old ones.
pub(crate) fn compare(old: &[[u8; 32]], new: &[[u8; 32]]) -> Comparison
    requires { length old.now ≤ ENTRY_LIMIT }
    ensures { Compares old.now new.now result }
{
    for index in 0..old.len().min(new.len()) {
        if old[index] != new[index] {
            return Comparison::Differs {
                place: index as u32,
            };
        }
    }
    if old.len() == new.len() {
        Comparison::Same
    } else if old.len() < new.len() {
        Comparison::Longer
    } else {
        Comparison::Shorter
    }
}
