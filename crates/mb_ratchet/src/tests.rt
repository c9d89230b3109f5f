//! The states of a small register.

ghost use Rattle.std.specs.Prelude.{◌≡◌, ℕ, true, false};
ghost use Rattle.std.proofs.Common.{rules};

use super::*;

/// A register that holds one byte beside power and level.
#[derive(Drop)]
struct Small {
    on: bool,
    level: u8,
    byte: u8,
}

impl Register for Small {
    ghost Rest = { ℕ };

    ghost rest = { λ small. small.byte };

    ghost power = { λ small. small.on };

    ghost level = { λ small. small.level };

    fn power_on(&mut self) {
        self.on = true;
        self.level = 0;
    }

    fn power_off(&mut self) {
        self.on = false;
    }

    fn raise(&mut self) {
        self.level += 1;
    }
}

/// A state that holds another, and reaches what the other reaches.
struct Held {
    up: Up<R1>,
}

impl<L: Compartment> Reaches<L> for Held {
    ghost stage = { 1 };

    ghost raised = { Prim.search rules };

    ghost within = { L.least };

    fn lost<R: Register>(self, r: &R) -> Off {
        let Held { up } = self;
        Reaches::<One>::lost(up, r)
    }
}

// Power fails at an access to the compartment.
fn fails_at<L: Compartment, S: Reaches<L>, R: Register>(state: S, r: &mut R) -> Off
    requires power { R.power r.old ≡ true }
    requires level { R.level r.old ≡ S.stage }
    ensures power { R.power r.new ≡ false }
    ensures rest { R.rest r.new ≡ R.rest r.old }
{
    r.power_off();
    state.lost(r)
}

fn off() -> Small
    ensures { result.on ≡ false }
{
    Small {
        on: false,
        level: 2,
        byte: 7,
    }
}

#[test]
fn rises_to_three(rt: HostRuntime) {
    let mut small = off();
    let zero = Off::first(&small).power_on(&mut small);
    assert!(rt; small.on);
    assert_eq!(rt; small.level, 0);
    let one = zero.advance(&mut small);
    assert_eq!(rt; small.level, 1);
    let two = one.advance(&mut small);
    assert_eq!(rt; small.level, 2);
    let three = two.advance(&mut small);
    assert_eq!(rt; small.level, 3);
    let again = three.off(&mut small).power_on(&mut small);
    assert_eq!(rt; small.level, 0);
    let _off = again.off(&mut small);
    assert!(rt; !small.on);
    assert_eq!(rt; small.byte, 7);
}

#[test]
fn stays_dead(rt: HostRuntime) {
    let mut small = off();
    let dead = Off::first(&small).power_on(&mut small).dead();
    assert!(rt; small.on);
    assert_eq!(rt; small.level, 0);
    let _off = dead.off(&mut small);
    assert!(rt; !small.on);
}

#[test]
fn power_fails_at_each_compartment(rt: HostRuntime) {
    let mut small = off();
    let one = Off::first(&small).power_on(&mut small).advance(&mut small);
    let one = fails_at::<One, Up<R1>, Small>(one, &mut small)
        .power_on(&mut small)
        .advance(&mut small);
    let one = fails_at::<Two, Up<R1>, Small>(one, &mut small)
        .power_on(&mut small)
        .advance(&mut small);
    let two = fails_at::<Three, Up<R1>, Small>(one, &mut small)
        .power_on(&mut small)
        .advance(&mut small)
        .advance(&mut small);
    let two = fails_at::<Two, Up<R2>, Small>(two, &mut small)
        .power_on(&mut small)
        .advance(&mut small)
        .advance(&mut small);
    let three = fails_at::<Three, Up<R2>, Small>(two, &mut small)
        .power_on(&mut small)
        .advance(&mut small)
        .advance(&mut small)
        .advance(&mut small);
    let up = fails_at::<Three, Up<R3>, Small>(three, &mut small)
        .power_on(&mut small)
        .advance(&mut small);
    let _off = fails_at::<Two, Held, Small>(Held { up }, &mut small);
    assert!(rt; !small.on);
    assert_eq!(rt; small.byte, 7);
}

// The number of a compartment.
fn number_of<L: Compartment>() -> u16
    ensures { result ≡ L.place }
{
    L::number()
}

#[test]
fn compartments_have_their_numbers(rt: HostRuntime) {
    assert_eq!(rt; number_of::<One>(), 1);
    assert_eq!(rt; number_of::<Two>(), 2);
    assert_eq!(rt; number_of::<Three>(), 3);
}
