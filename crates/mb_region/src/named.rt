//! The compartments of the battery-backed memory that hold regions.

ghost use Rattle.std.specs.Prelude.{◌≡◌, ◌⊎◌};
ghost use Rattle.std.proofs.Common.{rules};

use mb_ratchet::{Compartment, Three, Two};

/// The compartment of a region: `Two` or `Three`.
pub trait Named: Compartment {
    ghost named: { (Self.place ≡ 2) ⊎ (Self.place ≡ 3) };
}

impl Named for Two {
    ghost named = { Prim.search rules };
}

impl Named for Three {
    ghost named = { Prim.search rules };
}
