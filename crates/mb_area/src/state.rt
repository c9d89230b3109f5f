//! The states of a device in which work is left.

ghost use Rattle.std.proofs.Common.{◌≡◌, rules};

use mb_model::Root;
use mb_ratchet::{Compartment, Off, One, R1, Reaches, Register, Up};

/// A device at level 1 with the root record that says that work is pending in it. It cannot be dropped: the work has to
/// be done first.
pub struct Unsettled {
    pub working: Working,
    /// The current root record.
    pub root: Root,
}

/// A device at level 1 whose pending work is being done. It reaches every place, and cannot be dropped: the work has to
/// be finished first.
pub struct Working {
    pub(crate) up: Up<R1>,
}

/// A device at level 1 with no pending work, whose inactive root area may still hold an old secret. It cannot be
/// dropped: that area has to be wiped first.
pub struct Unwiped {
    pub(crate) up: Up<R1>,
}

/// The state of a device with this root record, by which work is pending in it.
pub(crate) fn unsettled_by(up: Up<R1>, root: &Root) -> Unsettled
    ensures { result.root ≡ root.now }
{
    Unsettled {
        working: Working { up },
        root: *root,
    }
}

impl<L: Compartment> Reaches<L> for Working {
    ghost stage = { 1 };

    ghost raised = { Prim.search rules };

    ghost within = { L.least };

    fn lost<R: Register>(self, r: &R) -> Off {
        let Working { up } = self;
        Reaches::<One>::lost(up, r)
    }
}
