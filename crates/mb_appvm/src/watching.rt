//! Who watches a run.

ghost use Rattle.std.specs.Prelude.{◌≡◌, ◌≤◌, length};
ghost use Rattle.mb_model.specs.declared.limits.TheConstants.{FILE_LIMIT};

use crate::environment::Environment;
use crate::machine::Machine;

/// The next step of a run: its number, and the machine and what it sees before it.
#[derive(Clone, Copy)]
pub struct NextStep<'a> {
    // From 1.
    pub(crate) number: u32,
    pub(crate) machine: &'a Machine,
    pub(crate) environment: &'a Environment<'a>,
    ghost short: { length environment.now.code.now ≤ FILE_LIMIT },
}

/// Sees each step of a run before it is done. A run is the same whoever watches it: a watcher sees the machine, and
/// cannot change it.
pub trait Watcher {
    // What watching leaves as it was.
    ghost Kept: { Type 0 };

    ghost kept: { Self → Kept };

    /// Sees the next step.
    fn see(&mut self, next: &NextStep<'_>)
        ensures { kept self.new ≡ kept self.old };
}

/// A run that nobody watches.
#[derive(Clone, Copy)]
pub struct Nobody;

impl Watcher for Nobody {
    ghost Kept = { Unit {0} };

    ghost kept = { λ _. tt };

    fn see(&mut self, _next: &NextStep<'_>) {}
}
