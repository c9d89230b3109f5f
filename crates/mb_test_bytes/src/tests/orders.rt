//! Orders both ways, against bytes of another program and bytes that are written out.

ghost use Rattle.mb_model.specs.records.OrderFormat.{order_format};

use super::spelled::joined;
use mb_command::{body_length, order_body, read_order, write_order};
use mb_model::{Act, NoMemory, Order, Target, Trust, Trusts};
use std::alloc::Global;
use std::process::Abort;
use std::test::Fail;

/// A signature of no bytes, and no countersignatures.
const UNSIGNED: &str = "000000";

/// Whether the order is written as the bytes, and the first `body` bytes are its body, which is what is signed.
pub fn is_written(alloc: Global, order: &Order, bytes: &[u8], body: usize) -> Result<bool, NoMemory>
    requires { order_format.Allowed order.now }
{
    let mut out = Vec::new(alloc);
    write_order(order, &mut out)?;
    let part = order_body(alloc, order)?;
    let signed = part.as_slice();
    let length = body_length(order) as usize;
    Ok(
        out.as_slice() == bytes
            && bytes.starts_with(signed)
            && signed.len() == body
            && length == body,
    )
}

/// The body and the signatures are read as an order, and the order is written as the same bytes.
fn goes_both_ways(
    rt: &impl Abort,
    alloc: Global,
    body: &str,
    signatures: &str,
) -> Result<(), Fail> {
    let bytes = joined(alloc, &[(body, 1), (signatures, 1)])?;
    let order = read_order(alloc, &bytes)?;
    assert!(rt; is_written(alloc, &order, &bytes, body.len() / 2) == Ok(true));
    Ok(())
}

/// Bodies and signatures of orders.
pub const ORDERS: &[(&str, &str)] = &[
    ("0202010200000007", UNSIGNED),
    ("05030001", UNSIGNED),
    ("030300000001020100000003616263", UNSIGNED),
    ("03010000000002010000000100", UNSIGNED),
    (LOAD_APART, UNSIGNED),
    (LOAD_APART, "0003a1a2a300"),
    (ESTABLISH_APART, UNSIGNED),
    (EMERGENCY_APART, "0001ff01030000"),
    (LOAD_OF_ONE, UNSIGNED),
    (EMERGENCY, UNSIGNED),
    (ESTABLISH, UNSIGNED),
    (LOAD_OF_ONE, "0003a1a2a3020200011103000122"),
    (LOAD_OF_ONE, "0000010300012f"),
    (EMERGENCY, "0001ff01030000"),
];

#[test]
fn orders_go_both_ways(rt: HostRuntime) -> Result<(), Fail> {
    for (body, signatures) in ORDERS {
        goes_both_ways(&rt, rt.alloc(), body, signatures)?;
    }
    Ok(())
}

/// Layer 1, two targets, no code.
const LOAD_OF_ONE: &str = "030102020000000501000102030405060708090a0b0c0d0e0f000000020200000000";

/// Layer 2, a target of each kind that names a layer.
const EMERGENCY: &str = "0402020301111111111111111111111111111111111111111111111111111111\
    1111111111040322222222222222222222222222222222222222222222222222222222222222\
    22ffffffff000000000200ff";

/// Layer 3, no targets, an owner of types 9 and 1, trust never.
const ESTABLISH: &str = "010300000000090000000133333333333333333333333333333333\
    444444444444444444444444444444444444444444444444444444444444444401";

/// A load of layer 3, no targets: all loads of layer 1 are trusted, and none of layer 2.
const LOAD_APART: &str = "13030000000102000100000003616263";

/// Layer 3, no targets: all loads of layer 1 are trusted, and none of layer 2.
const ESTABLISH_APART: &str = "1103000000000500000003313131313131313131313131313131313232323232\
    3232323232323232323232323232323232323232323232323232320001";

/// Layer 2, a target, no code: countersigned loads of layer 1 are trusted, and all of layer 2.
const EMERGENCY_APART: &str = "140201020000000700000001020000000000";

/// Whether the order is an unsigned surrender of layer 2 with a target of length 7.
fn is_surrender(order: &Order) -> bool {
    order.layer == 2
        && matches!(order.targets.as_slice(), [Target::Length(7)])
        && matches!(&order.act, Act::Surrender)
        && order.signature.as_slice().is_empty()
        && order.countersignatures.as_slice().is_empty()
}

#[test]
fn an_order_says_what_its_bytes_spell(rt: HostRuntime) -> Result<(), Fail> {
    let order = read_order(rt.alloc(), b"\x02\x02\x01\x02\0\0\0\x07\0\0\0")?;
    assert!(rt; is_surrender(&order) && body_length(&order) == 8);
    Ok(())
}

/// The trusts that the order gives its layer.
fn given_by(order: &Order) -> Option<Trusts> {
    match &order.act {
        Act::Establish { trust, .. } => Some(*trust),
        Act::Load(payload) | Act::Emergency(payload) => Some(payload.trust),
        _ => None,
    }
}

/// The body is one of an order that gives these trusts.
fn gives(rt: &impl Abort, alloc: Global, body: &str, one: Trust, two: Trust) -> Result<(), Fail> {
    let bytes = joined(alloc, &[(body, 1), (UNSIGNED, 1)])?;
    let order = read_order(alloc, &bytes)?;
    assert!(rt; given_by(&order) == Some(Trusts { one, two }));
    Ok(())
}

/// Bodies, and the trusts in changes of layer 1 and of layer 2 that they give.
const GIVEN: &[(&str, Trust, Trust)] = &[
    (LOAD_APART, Trust::Always, Trust::Never),
    (ESTABLISH_APART, Trust::Always, Trust::Never),
    (EMERGENCY_APART, Trust::Countersigned, Trust::Always),
    (EMERGENCY, Trust::Always, Trust::Always),
    (ESTABLISH, Trust::Never, Trust::Never),
];

#[test]
fn orders_give_trusts(rt: HostRuntime) -> Result<(), Fail> {
    for (body, one, two) in GIVEN {
        gives(&rt, rt.alloc(), body, *one, *two)?;
    }
    Ok(())
}
