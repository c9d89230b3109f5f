//! The states of a device, as types.

ghost use Rattle.std.specs.Prelude.{◌≡◌, ◌+◌, ◌<◌, true, false};

use crate::register::Register;
use std::marker::PhantomData;

/// Power is off.
#[derive(Drop)]
pub struct Off {
    seal: (),
}

/// Power is on, at level 0: nothing of the memory has been read yet.
#[derive(Drop)]
pub struct Zero {
    seal: (),
}

/// Power is on, at the level that `G` names: `R1`, `R2` or `R3`.
#[derive(Drop)]
pub struct Up<G> {
    level: PhantomData<G>,
}

/// Power is on, at level 0, and there the device stays: it is dead.
#[derive(Drop)]
pub struct Dead {
    seal: (),
}

/// Level 1, at which layer 1 runs.
#[derive(Drop)]
pub struct R1;

/// Level 2, at which layer 2 runs.
#[derive(Drop)]
pub struct R2;

/// Level 3, at which layer 3 runs.
#[derive(Drop)]
pub struct R3;

impl Off {
    /// The state of a register whose power is off.
    pub fn first<R: Register>(r: &R) -> Off
        requires { R.power r.now ≡ false }
    {
        Off { seal: () }
    }

    /// Turns power on, at level 0.
    pub fn power_on<R: Register>(self, r: &mut R) -> Zero
        requires { R.power r.old ≡ false }
        ensures power { R.power r.new ≡ true }
        ensures level { R.level r.new ≡ 0 }
        ensures rest { R.rest r.new ≡ R.rest r.old }
    {
        r.power_on();
        Zero { seal: () }
    }
}

impl Zero {
    /// Raises the level to 1.
    pub fn advance<R: Register>(self, r: &mut R) -> Up<R1>
        requires power { R.power r.old ≡ true }
        requires level { R.level r.old ≡ 0 }
        ensures power { R.power r.new ≡ true }
        ensures level { R.level r.new ≡ 1 }
        ensures rest { R.rest r.new ≡ R.rest r.old }
    {
        raised(r)
    }

    /// The state of a device that was found dead. The level stays 0.
    pub fn dead(self) -> Dead {
        Dead { seal: () }
    }

    /// Turns power off. It may be off already.
    pub fn off<R: Register>(self, r: &mut R) -> Off
        ensures power { R.power r.new ≡ false }
        ensures rest { R.rest r.new ≡ R.rest r.old }
    {
        powered_off(r)
    }
}

impl Up<R1> {
    /// Raises the level from 1 to 2.
    pub fn advance<R: Register>(self, r: &mut R) -> Up<R2>
        requires power { R.power r.old ≡ true }
        requires level { R.level r.old ≡ 1 }
        ensures power { R.power r.new ≡ true }
        ensures level { R.level r.new ≡ 2 }
        ensures rest { R.rest r.new ≡ R.rest r.old }
    {
        raised(r)
    }
}

impl Up<R2> {
    /// Raises the level from 2 to 3.
    pub fn advance<R: Register>(self, r: &mut R) -> Up<R3>
        requires power { R.power r.old ≡ true }
        requires level { R.level r.old ≡ 2 }
        ensures power { R.power r.new ≡ true }
        ensures level { R.level r.new ≡ 3 }
        ensures rest { R.rest r.new ≡ R.rest r.old }
    {
        raised(r)
    }
}

impl<G> Up<G> {
    /// Turns power off. It may be off already.
    pub fn off<R: Register>(self, r: &mut R) -> Off
        ensures power { R.power r.new ≡ false }
        ensures rest { R.rest r.new ≡ R.rest r.old }
    {
        powered_off(r)
    }
}

impl Dead {
    /// Turns power off. It may be off already.
    pub fn off<R: Register>(self, r: &mut R) -> Off
        ensures power { R.power r.new ≡ false }
        ensures rest { R.rest r.new ≡ R.rest r.old }
    {
        powered_off(r)
    }
}

/// Raises the level by one, to the one that `G` names.
fn raised<G, R: Register>(r: &mut R) -> Up<G>
    requires power { R.power r.old ≡ true }
    requires below { R.level r.old < 3 }
    ensures power { R.power r.new ≡ true }
    ensures level { R.level r.new ≡ R.level r.old + 1 }
    ensures rest { R.rest r.new ≡ R.rest r.old }
{
    r.raise();
    Up { level: PhantomData }
}

/// Turns power off.
fn powered_off<R: Register>(r: &mut R) -> Off
    ensures power { R.power r.new ≡ false }
    ensures rest { R.rest r.new ≡ R.rest r.old }
{
    r.power_off();
    Off { seal: () }
}
