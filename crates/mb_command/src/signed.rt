//! What owners sign of an order.

ghost use Rattle.std.specs.Prelude.{◌≡◌, IfOk};
ghost use Rattle.mb_format.specs.Format.{Spells};
ghost use Rattle.mb_model.specs.records.OrderFormat.{order_body, order_format};

use crate::body::body_length;
use crate::order::write_order;
use mb_model::{Bytes, NoMemory, Order};
use std::alloc::Global;

/// The prefix of an order's spelling that its owners sign. Takes no memory.
#[tactic(auto, using(crate::proofs::Lengths::body_within))]
pub fn signed_prefix<'a>(order: &Order, spelling: &'a [u8]) -> &'a [u8]
    requires { Spells order_format spelling.now order.now }
    ensures { result.now ≡ order_body order.now }
{
    &spelling[..body_length(order) as usize]
}

/// The part of an order that its owners sign, as bytes of its own. The order has a spelling.
pub fn order_body(alloc: Global, order: &Order) -> Result<Bytes, NoMemory>
    requires { order_format.Allowed order.now }
    ensures { IfOk result (λ part. part ≡ order_body order.now) }
{
    let mut spelling = Vec::new(alloc);
    write_order(order, &mut spelling)?;
    spelling.truncate(body_length(order) as usize);
    Ok(Bytes::from_vec(spelling))
}
