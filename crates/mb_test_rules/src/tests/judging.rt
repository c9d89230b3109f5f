//! Orders judged by written figures, and each refusal before those that come after it.

ghost use Rattle.std.specs.Prelude.{◌≡◌, ◌<◌, ◌≤◌};
ghost use Rattle.mb_model.specs.machine.OrderChecks.{Passes};

use super::signed::{
    ESTABLISH_AT_SEVEN, LOAD_ONE, LOAD_ONE_BY_ONE, LOAD_ONE_BY_THREE, LOAD_THREE,
    LOAD_THREE_BY_THREE, LOAD_TWO, LOAD_TWO_BY_TWO, NEW_KEY, NEW_KEY_BY_THREE, ONE, THREE, TWO,
};
use super::{joined, public_key};
use mb_command::{read_order, signed_prefix};
use mb_lms::HashCount;
use mb_model::{
    CodeName, Fate, KeySeed, Layer, Layers, NoMemory, Order, OrderRefusal, Trust, Trusts, View,
};
use mb_orders::{Plan, check, make_plan};
use mb_signer::Bench;
use std::alloc::Global;
use std::marker::Brand;
use std::sync::ledger::{Blank, Ledger};
use std::test::Fail;

/// A signature of no bytes, after its length.
const UNSIGNED: &str = "0000";

/// No countersignatures.
const ALONE: &str = "00";

/// One countersignature, of layer 2, of no bytes.
const WRONG: &str = "01020000";

/// A load of layer 1 with the target that the log has seven entries.
const LOAD_AT_SEVEN: &str = "0301010200000007000000020000000003616263";

/// A layer with this owner, reliable, that trusts always.
fn layer(owner: &str) -> Result<Layer, Fail> {
    Ok(Layer {
        owner: Some(public_key(owner)?),
        code: Some(CodeName {
            hash: [7; 32],
            version: 1,
        }),
        reliable: true,
        trust: Trusts {
            one: Trust::Always,
            two: Trust::Always,
        },
    })
}

/// Trust in all loads of layer 1 and in none of layer 2.
const APART: Trusts = Trusts {
    one: Trust::Always,
    two: Trust::Never,
};

/// What is changed in three layers of `layer`.
#[derive(Clone, Copy)]
enum But {
    /// Nothing is changed.
    Nothing,
    /// Layer 1 is not reliable.
    OneUnreliable,
    /// Layer 2 is not reliable.
    TwoUnreliable,
    /// Layer 3 has no owner.
    ThreeUnowned,
    /// Layer 3 trusts if its owner countersigned.
    ThreeCountersigned,
    /// Layer 3 trusts all loads of layer 1 and none of layer 2.
    ThreeApart,
}

fn layers_but(but: But) -> Result<Layers, Fail> {
    let mut layers = Layers {
        one: layer(ONE)?,
        two: layer(TWO)?,
        three: layer(THREE)?,
    };
    match but {
        But::Nothing => (),
        But::OneUnreliable => layers.one.reliable = false,
        But::TwoUnreliable => layers.two.reliable = false,
        But::ThreeUnowned => layers.three.owner = None,
        But::ThreeCountersigned => layers.three.trust = Trusts::equal(Trust::Countersigned),
        But::ThreeApart => layers.three.trust = APART,
    }
    Ok(layers)
}

/// The figures of a device with these layers, `length` entries, and `uses` indices of the device key used. Region 3 has
/// as many keys as it can have.
fn view(layers: Layers, length: u32, uses: u32) -> View
    ensures uses { result.uses ≡ uses }
    ensures number { result.number ≡ 3 }
    ensures keys_made { result.keys_made ≡ 12 }
{
    View {
        serial: [9; 16],
        layers,
        length,
        number: 3,
        keys_made: 12,
        device: KeySeed {
            identifier: [5; 16],
            seed: [6; 32],
        },
        uses,
        keys_two: 2,
        keys_three: 8,
    }
}

fn plan_counted<L: Ledger>(
    alloc: Global,
    view: &View,
    order: &Order,
    blank: Blank,
) -> Result<Plan, NoMemory>
    requires passes { Passes view.now order.now }
    requires uses { view.now.uses ≤ 31 }
    requires number { view.now.number ≤ 128 }
    requires keys_made { view.now.keys_made ≤ 128 }
    requires name { blank.name ≡ L.name }
    requires parts { blank.parts ≡ L.parts }
    requires some { 0 < blank.parts }
{
    let mut hashes = HashCount::<L>::begin(alloc, blank);
    make_plan(alloc, view, order, &[8; 32], &mut Bench::new(), &mut hashes)
}

/// The plan of the order of these parts (its body, the signature, and the countersignatures), or the first check that
/// it fails.
fn judge(alloc: Global, view: &View, parts: [&str; 3]) -> Result<Result<Plan, OrderRefusal>, Fail>
    requires uses { view.now.uses ≤ 31 }
    requires number { view.now.number ≤ 128 }
    requires keys_made { view.now.keys_made ≤ 128 }
{
    let bytes = joined(alloc, &parts)?;
    let order = read_order(alloc, &bytes)?;
    match check(view, &order, signed_prefix(&order, &bytes)) {
        Ok(()) => Ok(Ok(plan_counted::<Brand>(alloc, view, &order, Blank::new(1))?)),
        Err(end) => Ok(Err(end)),
    }
}

/// What is seen of a plan.
struct Seen {
    entries: usize,
    uses: u32,
    /// The device key gives way to the next one.
    outgoing: bool,
    /// Region 2 loses its configuration keys.
    two_loses: bool,
    /// Region 3 loses its configuration keys.
    three_loses: bool,
    /// Region 3 becomes empty.
    three_empties: bool,
    /// Layer 3 is left reliable.
    reliable: bool,
}

/// What an order comes to.
enum Outcome {
    /// A plan of which this is seen.
    Plan(Seen),
    /// A plan that leaves layer 3 these trusts.
    Trusts(Trusts),
    /// No plan, for this reason.
    End(OrderRefusal),
}

/// Whether this is seen of the plan.
fn is_seen(plan: &Plan, seen: &Seen) -> bool {
    plan.bodies.entries.as_slice().len() == seen.entries
        && plan.bodies.uses == seen.uses
        && plan.bodies.outgoing.is_some() == seen.outgoing
        && (plan.two == Fate::DropConfiguration) == seen.two_loses
        && (plan.three == Fate::DropConfiguration) == seen.three_loses
        && (plan.three == Fate::Empty) == seen.three_empties
        && plan.layers.three.reliable == seen.reliable
}

/// Whether the plan is what is expected.
fn is_planned(plan: &Plan, expected: &Outcome) -> bool {
    match expected {
        Outcome::Plan(seen) => is_seen(plan, seen),
        Outcome::Trusts(trusts) => plan.layers.three.trust == *trusts,
        Outcome::End(_) => false,
    }
}

/// Whether the order of these parts comes to this, on a device with these figures.
fn comes_to(alloc: Global, view: &View, parts: [&str; 3], expected: &Outcome) -> Result<bool, Fail>
    requires uses { view.now.uses ≤ 31 }
    requires number { view.now.number ≤ 128 }
    requires keys_made { view.now.keys_made ≤ 128 }
{
    match judge(alloc, view, parts)? {
        Ok(plan) => Ok(is_planned(&plan, expected)),
        Err(found) => Ok(matches!(expected, Outcome::End(end) if *end == found)),
    }
}

/// Orders: what each shows, what is changed in the layers, the number of entries, the number of used indices (less than
/// 32), the parts of the order, and what it comes to.
const ORDERS: &[(&str, But, u32, u8, [&str; 3], Outcome)] = &[
    (
        "a target comes first",
        But::Nothing,
        1,
        1,
        [ESTABLISH_AT_SEVEN, UNSIGNED, ALONE],
        Outcome::End(OrderRefusal::WrongTarget(0)),
    ),
    (
        "a target before all",
        But::OneUnreliable,
        128,
        31,
        [LOAD_AT_SEVEN, UNSIGNED, WRONG],
        Outcome::End(OrderRefusal::WrongTarget(0)),
    ),
    (
        "the layers come next",
        But::TwoUnreliable,
        128,
        31,
        [LOAD_TWO, UNSIGNED, ALONE],
        Outcome::End(OrderRefusal::WrongState),
    ),
    (
        "then the signature",
        But::Nothing,
        128,
        31,
        [LOAD_ONE, UNSIGNED, WRONG],
        Outcome::End(OrderRefusal::WrongSignature),
    ),
    (
        "then countersignatures",
        But::Nothing,
        128,
        31,
        [LOAD_ONE, LOAD_ONE_BY_ONE, WRONG],
        Outcome::End(OrderRefusal::WrongCountersignature(2)),
    ),
    (
        "nobody countersigns for a layer without an owner",
        But::ThreeUnowned,
        2,
        1,
        [LOAD_ONE, LOAD_ONE_BY_ONE, LOAD_ONE_BY_THREE],
        Outcome::End(OrderRefusal::WrongCountersignature(3)),
    ),
    (
        "then the log, without room for two",
        But::Nothing,
        127,
        31,
        [LOAD_TWO, LOAD_TWO_BY_TWO, ALONE],
        Outcome::End(OrderRefusal::LogFull),
    ),
    (
        "then the log, without room for one",
        But::Nothing,
        128,
        1,
        [NEW_KEY, NEW_KEY_BY_THREE, ALONE],
        Outcome::End(OrderRefusal::LogFull),
    ),
    (
        "the keys come last",
        But::Nothing,
        100,
        1,
        [NEW_KEY, NEW_KEY_BY_THREE, ALONE],
        Outcome::End(OrderRefusal::KeysFull),
    ),
    (
        "a load of layer 1 needs no succession",
        But::Nothing,
        127,
        31,
        [LOAD_ONE, LOAD_ONE_BY_ONE, ALONE],
        Outcome::Plan(Seen {
            entries: 1,
            uses: 0,
            outgoing: true,
            two_loses: true,
            three_loses: true,
            three_empties: false,
            reliable: true,
        }),
    ),
    (
        "a load of layer 2 needs a succession",
        But::Nothing,
        100,
        31,
        [LOAD_TWO, LOAD_TWO_BY_TWO, ALONE],
        Outcome::Plan(Seen {
            entries: 2,
            uses: 1,
            outgoing: true,
            two_loses: true,
            three_loses: true,
            three_empties: false,
            reliable: true,
        }),
    ),
    (
        "a region is lost where its owner did not countersign",
        But::ThreeCountersigned,
        2,
        1,
        [LOAD_ONE, LOAD_ONE_BY_ONE, ALONE],
        Outcome::Plan(Seen {
            entries: 1,
            uses: 0,
            outgoing: true,
            two_loses: true,
            three_loses: false,
            three_empties: true,
            reliable: false,
        }),
    ),
    (
        "a region is kept where its layer trusts changes of layer 1",
        But::ThreeApart,
        2,
        1,
        [LOAD_ONE, LOAD_ONE_BY_ONE, ALONE],
        Outcome::Plan(Seen {
            entries: 1,
            uses: 0,
            outgoing: true,
            two_loses: true,
            three_loses: true,
            three_empties: false,
            reliable: true,
        }),
    ),
    (
        "a region is lost where its layer does not trust changes of layer 2",
        But::ThreeApart,
        2,
        1,
        [LOAD_TWO, LOAD_TWO_BY_TWO, ALONE],
        Outcome::Plan(Seen {
            entries: 1,
            uses: 2,
            outgoing: false,
            two_loses: true,
            three_loses: false,
            three_empties: true,
            reliable: false,
        }),
    ),
    (
        "a region is kept where its owner countersigned",
        But::ThreeCountersigned,
        2,
        1,
        [LOAD_ONE, LOAD_ONE_BY_ONE, LOAD_ONE_BY_THREE],
        Outcome::Plan(Seen {
            entries: 1,
            uses: 0,
            outgoing: true,
            two_loses: true,
            three_loses: true,
            three_empties: false,
            reliable: true,
        }),
    ),
    (
        "a load gives two trusts",
        But::Nothing,
        2,
        1,
        [LOAD_THREE, LOAD_THREE_BY_THREE, ALONE],
        Outcome::Trusts(APART),
    ),
];

#[test]
fn orders_are_judged(rt: HostRuntime) -> Result<(), Fail> {
    for (shown, but, length, uses, parts, expected) in ORDERS {
        let view = view(layers_but(*but)?, *length, u32::from(*uses % 32));
        assert!(rt; comes_to(rt.alloc(), &view, *parts, expected)?, "{shown}");
    }
    Ok(())
}
