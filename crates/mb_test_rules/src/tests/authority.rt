//! Conditions, and what changes leave, by the rules of the device.

use mb_authority::{admits, after, kept_regions, layer_of, may_cosign, stands_for_order};
use mb_model::{Chains, ChangeKind, CodeName, Layer, Layers, Pair, PublicKey, Tree, Trust, Trusts};
use std::process::Abort;

/// A layer with an owner, whose two trusts are `trust`.
fn owned(trust: Trust) -> Layer {
    Layer {
        owner: Some(PublicKey {
            tree: Tree::H5,
            chains: Chains::W4,
            identifier: [1; 16],
            root: [2; 32],
        }),
        code: Some(CodeName {
            hash: [3; 32],
            version: 4,
        }),
        reliable: true,
        trust: Trusts::equal(trust),
    }
}

/// The countersignature of layer 3 alone.
const THREE: Pair = Pair {
    two: false,
    three: true,
};

/// Three layers with owners: layer 2 trusts never, and layer 3 if its owner countersigned.
fn all_owned() -> Layers {
    Layers {
        one: owned(Trust::Never),
        two: owned(Trust::Never),
        three: owned(Trust::Countersigned),
    }
}

/// A change, or `None` for a new key, its layer, and whether the layers of `all_owned` admit it.
const ORDERS: &[(Option<ChangeKind>, u8, bool)] = &[
    (Some(ChangeKind::Establish), 2, false),
    (Some(ChangeKind::Surrender), 3, true),
    (Some(ChangeKind::Surrender), 1, false),
    (Some(ChangeKind::Load), 1, true),
    (Some(ChangeKind::Emergency), 1, false),
    (None, 3, true),
    (None, 4, false),
];

/// The layers of `all_owned` admit this change or new key as expected.
fn is_admitted(rt: &impl Abort, kind: Option<ChangeKind>, layer: u8, expected: bool) {
    assert!(rt; stands_for_order(&all_owned(), kind, layer) == expected);
}

#[test]
fn orders_have_their_layers(rt: HostRuntime) {
    for (kind, layer, expected) in ORDERS {
        is_admitted(&rt, *kind, *layer, *expected);
    }
}

/// The region of layer 3 alone is kept.
fn three_is_kept(rt: &impl Abort, kind: ChangeKind, layer: u8) {
    let kept = kept_regions(&all_owned(), kind, layer, THREE);
    assert!(rt; !kept.two && kept.three);
}

#[test]
fn a_load_beneath_is_admitted_by_trust(rt: HostRuntime) {
    let layers = all_owned();
    let new = layer_of(&layers, 1);
    let left = after(&layers, ChangeKind::Load, 1, THREE, &new);
    assert!(rt; !left.two.reliable && left.three.reliable);
    three_is_kept(&rt, ChangeKind::Load, 1);
}

#[test]
fn an_emergency_load_is_admitted_by_no_own_trust(rt: HostRuntime) {
    three_is_kept(&rt, ChangeKind::Emergency, 2);
    let layers = all_owned();
    let by_three = may_cosign(&layers, ChangeKind::Emergency, 2, 3);
    let by_two = may_cosign(&layers, ChangeKind::Emergency, 2, 2);
    assert!(rt; by_three && !by_two);
}

/// Trust in all loads of layer 1 and in none of layer 2.
const FIRST_ALONE: Trusts = Trusts {
    one: Trust::Always,
    two: Trust::Never,
};

/// Trust in no loads of layer 1 and in all of layer 2.
const SECOND_ALONE: Trusts = Trusts {
    one: Trust::Never,
    two: Trust::Always,
};

/// Trust in countersigned loads of layer 1 and in none of layer 2.
const FIRST_COUNTERSIGNED: Trusts = Trusts {
    one: Trust::Countersigned,
    two: Trust::Never,
};

/// The trusts of layer 3, a load beneath it and its layer, and whether layer 3 admits it if its owner countersigned.
const LOADS: &[(Trusts, ChangeKind, u8, bool)] = &[
    (FIRST_ALONE, ChangeKind::Load, 1, true),
    (FIRST_ALONE, ChangeKind::Load, 2, false),
    (FIRST_ALONE, ChangeKind::Emergency, 2, false),
    (SECOND_ALONE, ChangeKind::Load, 1, false),
    (SECOND_ALONE, ChangeKind::Load, 2, true),
    (SECOND_ALONE, ChangeKind::Emergency, 2, true),
    (FIRST_COUNTERSIGNED, ChangeKind::Load, 1, true),
    (FIRST_COUNTERSIGNED, ChangeKind::Load, 2, false),
    (FIRST_ALONE, ChangeKind::Surrender, 2, false),
    (SECOND_ALONE, ChangeKind::Establish, 2, false),
];

/// Layer 3 with these trusts admits the change as expected, and exactly then stays reliable and keeps its region.
fn three_admits(rt: &impl Abort, trust: Trusts, kind: ChangeKind, layer: u8, expected: bool) {
    let mut layers = all_owned();
    layers.three.trust = trust;
    let admitted = admits(&layers, kind, layer, THREE, 3);
    let kept = kept_regions(&layers, kind, layer, THREE);
    let left = after(&layers, kind, layer, THREE, &layer_of(&layers, layer));
    assert!(rt; [admitted, kept.three, left.three.reliable] == [expected; 3]);
}

#[test]
fn two_trusts(rt: HostRuntime) {
    for (trust, kind, layer, expected) in LOADS {
        three_admits(&rt, *trust, *kind, *layer, *expected);
    }
}
