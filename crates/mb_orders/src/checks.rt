//! The checks of an order, in the order in which they are tried.

ghost use Rattle.std.specs.Prelude.{◌≡◌};
ghost use Rattle.mb_model.specs.records.OrderFormat.{order_body, order_format};
ghost use Rattle.mb_orders.specs.Judging.{ChecksBy};

use crate::room::{log_has_room, region_has_room};
use crate::signatures::{countersignature_fails, is_signed};
use mb_authority::{change_by, stands_for_order, target_fails};
use mb_model::{Order, OrderRefusal, View};

/// Tries every check on the order, which has a spelling, by the figures of a device. `body` is the order's body, which
/// its signatures cover. Takes no memory.
///
/// Errors: the first check that the order fails.
pub fn check(view: &View, order: &Order, body: &[u8]) -> Result<(), OrderRefusal>
    requires spelled { order_format.Allowed order.now }
    requires body { body.now ≡ order_body order.now }
    ensures { ChecksBy view.now order.now result }
{
    if let Some(index) = target_fails(view, order) {
        return Err(OrderRefusal::WrongTarget(index));
    }
    if !stands_for_order(&view.layers, change_by(order), order.layer) {
        return Err(OrderRefusal::WrongState);
    }
    if !is_signed(&view.layers, order, body) {
        return Err(OrderRefusal::WrongSignature);
    }
    if let Some(layer) = countersignature_fails(&view.layers, order, body) {
        return Err(OrderRefusal::WrongCountersignature(layer));
    }
    if !log_has_room(view, order) {
        return Err(OrderRefusal::LogFull);
    }
    if !region_has_room(view, order) {
        return Err(OrderRefusal::KeysFull);
    }
    Ok(())
}
