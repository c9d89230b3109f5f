//! The officers of a workload, and the orders that they sign.

ghost use Rattle.std.specs.Prelude.{◌≡◌, ◌+◌, ◌-◌, ◌<◌, ◌≤◌, length, IsTrue, IfOk, OnOk, ◌*◌};
ghost use Rattle.mb_model.specs.declared.limits.TheConstants.{CODE_LIMIT, KEY_USES};
ghost use Rattle.mb_model.specs.declared.key.Trust.TheVariants.{Countersigned};
ghost use Rattle.mb_model.specs.declared.order.Act.TheVariants as act;
ghost use Rattle.mb_model.specs.owners.Layers.{is_upper};
ghost use Rattle.mb_model.specs.records.OrderFormat.{order_format};
ghost use Rattle.mb_model.specs.machine.SignedOrders.{keyfile_after_use, signed_order, countersigned_order};
ghost use Rattle.mb_model.specs.machine.SignedOrders.{IsCountersignable};
ghost use Rattle.mb_model_commands.specs.Workload.{plan, plan_payload, round_plan};
ghost use Rattle.mb_generate.specs.declared.limits.TheConstants.{ROUND_LIMIT};
ghost use Rattle.mb_generate.specs.Orders.{HaveUsed, layers_above, targeted, CanBeOrdered, SignsPlan};
ghost use Rattle.mb_lms.specs.declared.hash_count.TheConstants.{SIGNING_HASHES};

use mb_lms::HashCount;
use mb_model::{
    Act, Bytes, Countersignatures, Items, Keyfile, NoMemory, Order, Payload, Target, Trust, Trusts,
};
use mb_officer::{SignEnd, countersign, sign_order};
use std::alloc::Global;
use std::sync::ledger::Ledger;

/// The keys of the three officers; each owns the layer with the officer's number.
#[derive(Clone, Copy)]
pub(crate) struct Officers {
    pub(crate) one: Keyfile,
    pub(crate) two: Keyfile,
    pub(crate) three: Keyfile,
}

/// The order of round `round`, from 1: layers 3, 2 and 1 are loaded in turn, and the owners of the layers above
/// countersign.
pub(crate) fn round_order<L: Ledger>(
    alloc: Global,
    round: u32,
    code: &[u8],
    officers: &mut Officers,
    hashes: &mut HashCount<L>,
) -> Result<Order, NoMemory>
    requires round { round ≤ ROUND_LIMIT }
    requires code { length code.now ≤ CODE_LIMIT }
    requires used { HaveUsed (5 + round) officers.old }
    ensures signs { SignsPlan (5 + round) (round_plan round code.now) officers.old result officers.new }
    ensures spelled { IfOk result order_format.Allowed }
    ensures used { OnOk result (HaveUsed (6 + round) officers.new) }
    ensures cost { hashes.new ≤ hashes.old + 3 * SIGNING_HASHES }
{
    let load = load_of(alloc, 1 + round, code)?;
    match round % 3 {
        1 => load_layer(alloc, 3, 5 + round, load, officers, hashes),
        2 => load_layer(alloc, 2, 5 + round, load, officers, hashes),
        _ => load_layer(alloc, 1, 5 + round, load, officers, hashes),
    }
}

/// The payload of a load after which the layer trusts countersigned changes.
pub(crate) fn load_of(alloc: Global, version: u32, code: &[u8]) -> Result<Payload, NoMemory>
    ensures { IfOk result (λ payload. payload ≡ plan_payload version code.now) }
{
    Ok(Payload {
        version,
        trust: Trusts::equal(Trust::Countersigned),
        code: Bytes::copy(alloc, code)?,
    })
}

/// The load of a layer, for a log of `count` entries: the owner signs it, and the owners of the layers above
/// countersign it.
fn load_layer<L: Ledger>(
    alloc: Global,
    layer: u8,
    count: u32,
    load: Payload,
    officers: &mut Officers,
    hashes: &mut HashCount<L>,
) -> Result<Order, NoMemory>
    requires count { count ≤ 30 }
    requires able { CanBeOrdered layer (act.Load load) }
    requires used { HaveUsed count officers.old }
    ensures signs { SignsPlan count (plan layer (act.Load load) (layers_above layer)) officers.old result officers.new }
    ensures spelled { IfOk result order_format.Allowed }
    ensures used { OnOk result (HaveUsed (count + 1) officers.new) }
    ensures cost { hashes.new ≤ hashes.old + 3 * SIGNING_HASHES }
{
    let mut order = targeted(alloc, layer, count, Act::Load(load))?;
    match layer {
        1 => {
            sign(alloc, &mut officers.one, &mut order, hashes)?;
            agree(alloc, &mut officers.two, 2, &mut order, hashes)?;
            agree(alloc, &mut officers.three, 3, &mut order, hashes)?;
            Ok(order)
        }
        2 => {
            sign(alloc, &mut officers.two, &mut order, hashes)?;
            agree(alloc, &mut officers.three, 3, &mut order, hashes)?;
            Ok(order)
        }
        _ => {
            sign(alloc, &mut officers.three, &mut order, hashes)?;
            Ok(order)
        }
    }
}

/// An order without signatures, whose target is a log of `count` entries.
pub(crate) fn targeted(alloc: Global, layer: u8, count: u32, what: Act) -> Result<Order, NoMemory>
    requires { CanBeOrdered layer what }
    ensures order { IfOk result (λ order. order ≡ targeted layer count what) }
    ensures spelled { IfOk result order_format.Allowed }
{
    let mut targets = Items::new(alloc);
    targets.push(Target::Length(count))?;
    Ok(Order {
        layer,
        targets,
        act: what,
        signature: Bytes::from_vec(Vec::new(alloc)),
        countersignatures: Countersignatures::new(alloc),
    })
}

/// Signs the order with the key of an officer, which has an index left.
pub(crate) fn sign<L: Ledger>(
    alloc: Global,
    officer: &mut Keyfile,
    order: &mut Order,
    hashes: &mut HashCount<L>,
) -> Result<(), NoMemory>
    requires left { officer.old.next < KEY_USES }
    requires spelled { order_format.Allowed order.old }
    ensures signed { OnOk result (order.new ≡ signed_order officer.old order.old) }
    ensures used { OnOk result (officer.new ≡ keyfile_after_use officer.old) }
    ensures spelled { OnOk result (order_format.Allowed order.new) }
    ensures cost { hashes.new ≤ hashes.old + SIGNING_HASHES }
{
    match sign_order(alloc, officer, order, hashes) {
        Ok(_) => Ok(()),
        Err(SignEnd::NoMemory) => Err(NoMemory),
        Err(SignEnd::Spent) => unreachable!(),
        Err(SignEnd::NotCountersignable) => unreachable!(),
    }
}

/// Countersigns the order with the key of an officer, who owns the layer; the key has an index left.
fn agree<L: Ledger>(
    alloc: Global,
    officer: &mut Keyfile,
    layer: u8,
    order: &mut Order,
    hashes: &mut HashCount<L>,
) -> Result<(), NoMemory>
    requires left { officer.old.next < KEY_USES }
    requires spelled { order_format.Allowed order.old }
    requires layer { IsTrue (is_upper layer) }
    requires able { IsCountersignable order.old layer }
    ensures signed { OnOk result (order.new ≡ countersigned_order officer.old layer order.old) }
    ensures used { OnOk result (officer.new ≡ keyfile_after_use officer.old) }
    ensures spelled { OnOk result (order_format.Allowed order.new) }
    ensures cost { hashes.new ≤ hashes.old + SIGNING_HASHES }
{
    match countersign(alloc, officer, layer, order, hashes) {
        Ok(_) => Ok(()),
        Err(SignEnd::NoMemory) => Err(NoMemory),
        Err(SignEnd::Spent) => unreachable!(),
        Err(SignEnd::NotCountersignable) => unreachable!(),
    }
}
