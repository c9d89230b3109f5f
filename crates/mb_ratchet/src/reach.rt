//! Which states reach which compartment of the battery-backed memory.

ghost use Rattle.std.specs.Prelude.{◌≡◌, ◌≤◌, ℕ, false};
ghost use Rattle.std.proofs.Common.{rules};

use crate::register::Register;
use crate::state::{Off, R1, R2, R3, Up};

/// A compartment of the battery-backed memory: that of the root, or of a region.
pub trait Compartment {
    /// The place of the compartment: 1 for the root, 2 and 3 for the regions.
    ghost place: { ℕ };

    /// The place of the compartment, from 1 to 3.
    fn number() -> u16
        ensures { result ≡ place };

    ghost least: { 1 ≤ place };

    ghost most: { place ≤ 3 };
}

/// The compartment of the root.
#[derive(Drop)]
pub struct One;

/// The compartment of region 2, of layer 2.
#[derive(Drop)]
pub struct Two;

/// The compartment of region 3, of layer 3.
#[derive(Drop)]
pub struct Three;

impl Compartment for One {
    ghost place = { 1 };

    ghost least = { Prim.search rules };

    ghost most = { Prim.search rules };

    fn number() -> u16 {
        1
    }
}

impl Compartment for Two {
    ghost place = { 2 };

    ghost least = { Prim.search rules };

    ghost most = { Prim.search rules };

    fn number() -> u16 {
        2
    }
}

impl Compartment for Three {
    ghost place = { 3 };

    ghost least = { Prim.search rules };

    ghost most = { Prim.search rules };

    fn number() -> u16 {
        3
    }
}

/// A state that reaches the compartment `L`: the level at which it stands is at least 1, and no higher than the
/// compartment's number.
pub trait Reaches<L: Compartment> {
    /// The level at which this state stands.
    ghost stage: { ℕ };

    /// The state after power failed.
    fn lost<R: Register>(self, r: &R) -> Off
        requires { R.power r.now ≡ false };

    ghost raised: { 1 ≤ stage };

    ghost within: { stage ≤ L.place };
}

impl<L: Compartment> Reaches<L> for Up<R1> {
    ghost stage = { 1 };

    ghost raised = { Prim.search rules };

    ghost within = { L.least };

    fn lost<R: Register>(self, r: &R) -> Off {
        Off::first(r)
    }
}

impl Reaches<Two> for Up<R2> {
    ghost stage = { 2 };

    ghost raised = { Prim.search rules };

    ghost within = { Prim.search rules };

    fn lost<R: Register>(self, r: &R) -> Off {
        Off::first(r)
    }
}

impl Reaches<Three> for Up<R2> {
    ghost stage = { 2 };

    ghost raised = { Prim.search rules };

    ghost within = { Prim.search rules };

    fn lost<R: Register>(self, r: &R) -> Off {
        Off::first(r)
    }
}

impl Reaches<Three> for Up<R3> {
    ghost stage = { 3 };

    ghost raised = { Prim.search rules };

    ghost within = { Prim.search rules };

    fn lost<R: Register>(self, r: &R) -> Off {
        Off::first(r)
    }
}
