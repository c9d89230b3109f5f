//! The demands of an order on the device.

ghost use Rattle.std.specs.Prelude.{◌↔◌, All, IsTrue, MatchOption};
ghost use Rattle.mb_model.specs.declared.order.Target.{Target};
ghost use Rattle.mb_model.specs.owners.Rules.{TargetHolds, IsFirstFailing};
ghost use Rattle.mb_model.specs.records.OrderFormat.{order_format};

use crate::layers::layer_of;
use mb_lms::key_hash;
use mb_model::{Order, Target, View};

/// Whether the target holds. A target on the owner or the code of a layer that has none does not hold.
fn holds(view: &View, target: &Target) -> bool
    ensures { IsTrue result ↔ TargetHolds view.now.serial view.now.layers view.now.length target.now }
{
    match target {
        Target::Serial(serial) => *serial == view.serial,
        Target::Length(length) => *length == view.length,
        Target::Owner { layer, hash } => match layer_of(&view.layers, *layer).owner {
            Some(owner) => *hash == key_hash(&owner),
            None => false,
        },
        Target::Code { layer, hash } => match layer_of(&view.layers, *layer).code {
            Some(code) => *hash == code.hash,
            None => false,
        },
    }
}

/// The index, from 0, of the first target of the order that fails, or `None` exactly if all hold. The order has a
/// spelling.
pub fn target_fails(view: &View, order: &Order) -> Option<u8>
    requires { order_format.Allowed order.now }
    ensures { MatchOption result (All (λ target. TargetHolds view.now.serial view.now.layers view.now.length target) order.now.targets) (λ i. (target : Target) × IsFirstFailing (λ t. TargetHolds view.now.serial view.now.layers view.now.length t) order.now.targets i target) }
{
    for (i, target) in order.targets.as_slice().iter().enumerate() {
        if !holds(view, target) {
            return Some(i as u8);
        }
    }
    None
}
