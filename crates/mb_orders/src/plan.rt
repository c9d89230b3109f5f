//! The effect of an order that passes every check.

ghost use Rattle.std.specs.Prelude.{◌≡◌, ◌+◌, ◌≤◌, ◌==◌, IfOk, IsSome, OnErr, ◌*◌};
ghost use Rattle.std.specs.List.{list_any};
ghost use Rattle.mb_model.specs.owners.Log.{keys_made_by};
ghost use Rattle.mb_model.specs.machine.OrderChecks.{Passes};
ghost use Rattle.mb_model.specs.machine.OrderEffects.{cosigners_of, change_fact, fact_of, layers_after};
ghost use Rattle.mb_model.specs.machine.Fates.{change_fate};
ghost use Rattle.mb_model.specs.machine.Work.{region_fate};
ghost use Rattle.mb_log.specs.Additions.{IsInRange};
ghost use Rattle.mb_orders.specs.Judging.{plan_by};
ghost use Rattle.mb_signer.specs.Benches.{HasTree, IsBare, HasRoom};
ghost use Rattle.mb_lms.specs.declared.hash_count.TheConstants.{TREE_HASHES};

use mb_authority::{admits, after, kept_regions, layer_from_order, layer_of};
use mb_lms::HashCount;
use mb_log::bodies;
use mb_model::{
    Act, Bodies, ChangeKind, Fact, Fate, Layers, NoMemory, Order, Pair, RegionKey, View,
};
use mb_signer::Bench;
use std::alloc::Global;
use std::sync::ledger::Ledger;

/// The effect of an order.
#[derive(Drop)]
pub struct Plan {
    /// The layers afterwards.
    pub layers: Layers,
    /// The entries that the order appends, and the keys that it makes.
    pub bodies: Bodies,
    /// What becomes of region 2.
    pub two: Fate,
    /// What becomes of region 3.
    pub three: Fate,
}

/// Whether the owner of the layer countersigned the order.
fn is_cosigned(order: &Order, layer: u8) -> bool
    ensures { result ≡ list_any (λ by. by.layer == layer) order.now.countersignatures }
{
    let countersignatures = order.countersignatures.as_slice();
    countersignatures.iter().any(|by| by.layer == layer)
}

/// The layers above whose owners countersigned the order.
fn cosigned_by(order: &Order) -> Pair
    ensures { result ≡ cosigners_of order.now }
{
    Pair {
        two: is_cosigned(order, 2),
        three: is_cosigned(order, 3),
    }
}

/// The fact of an order that makes a change of the kind.
fn change_fact(layers: &Layers, kind: ChangeKind, order: &Order) -> Fact
    ensures { result ≡ change_fact layers.now kind order.now }
{
    let cosigned = cosigned_by(order);
    let new = layer_from_order(&layer_of(layers, order.layer), &order.act);
    Fact::Change {
        kind,
        layer: order.layer,
        cosigned,
        layers: after(layers, kind, order.layer, cosigned, &new),
        kept: kept_regions(layers, kind, order.layer, cosigned),
    }
}

/// The fact that the order makes true.
fn fact_of(layers: &Layers, order: &Order) -> Fact
    ensures { result ≡ fact_of layers.now order.now order.now.act }
{
    match &order.act {
        Act::Establish { .. } => change_fact(layers, ChangeKind::Establish, order),
        Act::Surrender => change_fact(layers, ChangeKind::Surrender, order),
        Act::Load(_) => change_fact(layers, ChangeKind::Load, order),
        Act::Emergency(_) => change_fact(layers, ChangeKind::Emergency, order),
        Act::NewKey { kind } => Fact::NewKey {
            layer: order.layer,
            kind: *kind,
        },
    }
}

/// The layers after the fact.
fn layers_after(layers: &Layers, fact: &Fact) -> Layers
    ensures { result ≡ layers_after layers.now fact.now }
{
    match fact {
        Fact::Change { layers, .. } => *layers,
        Fact::NewKey { .. } => *layers,
    }
}

/// What a change of the kind at `layer` does to a region. The layers are those before the change.
fn change_fate(layers: &Layers, kind: ChangeKind, layer: u8, cosigned: Pair, region: u8) -> Fate
    ensures { result ≡ change_fate layers.now kind layer cosigned region }
{
    if region < layer {
        Fate::Keep
    } else if admits(layers, kind, layer, cosigned, region) {
        Fate::DropConfiguration
    } else {
        Fate::Empty
    }
}

/// What the fact does to a region. `key` is the key that the order makes.
fn fate_of(layers: &Layers, fact: &Fact, key: Option<RegionKey>, region: u8) -> Fate
    ensures { result ≡ region_fate layers.now fact.now key region }
{
    match (fact, key) {
        (
            Fact::Change {
                kind,
                layer,
                cosigned,
                ..
            },
            _,
        ) => change_fate(layers, *kind, *layer, *cosigned, region),
        (Fact::NewKey { layer, .. }, Some(key)) if region == *layer => Fate::AddKey(key),
        (Fact::NewKey { .. }, _) => Fate::Keep,
    }
}

/// Plans an order that passes every check, by the figures of a device. New keys are derived from `draw`, in 34,399
/// hashes for each key that the order's entries name, of which there are at most two. The tree of a new device key is
/// on the bench afterwards. A bench that was bare has room for another tree.
pub fn make_plan<L: Ledger>(
    alloc: Global,
    view: &View,
    order: &Order,
    draw: &[u8; 32],
    bench: &mut Bench,
    hashes: &mut HashCount<L>,
) -> Result<Plan, NoMemory>
    requires range { IsInRange view.now }
    requires passes { Passes view.now order.now }
    ensures planned { IfOk result (λ plan. plan ≡ plan_by view.now order.now draw.now) }
    ensures at_hand { IfOk result (λ plan. IsSome plan.bodies.outgoing
        → HasTree bench.new plan.bodies.device) }
    ensures room { IsBare bench.old → HasRoom bench.new }
    ensures cost { hashes.new ≤ hashes.old + 2 * TREE_HASHES }
    ensures keys { IfOk result (λ plan. hashes.new
        ≤ hashes.old + keys_made_by plan.bodies.entries * TREE_HASHES) }
    ensures unhashed { OnErr result (hashes.new ≡ hashes.old) }
{
    let fact = fact_of(&view.layers, order);
    let bodies = bodies(alloc, view, &fact, draw, bench, hashes)?;
    Ok(Plan {
        layers: layers_after(&view.layers, &fact),
        two: fate_of(&view.layers, &fact, bodies.key, 2),
        three: fate_of(&view.layers, &fact, bodies.key, 3),
        bodies,
    })
}
