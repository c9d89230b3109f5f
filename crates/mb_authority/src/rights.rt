//! Who has to sign an order, and the state of the layers that it needs.

ghost use Rattle.std.specs.Prelude.{◌≡◌};
ghost use Rattle.mb_model.specs.owners.Rules.{authority, stands_for_order, signing_layer};
ghost use Rattle.mb_model.specs.machine.OrderChecks.{change_by};

use crate::kinds::change_by;
use crate::layers::{is_owned, is_runnable, is_upper, layer_of};
use mb_model::{ChangeKind, Layers, Order, PublicKey};

/// The layer whose owner has to sign an order of the kind, `None` for a new key, for `layer`. The owner beneath
/// establishes an owner and loads code in an emergency; the layer's own owner does all else.
fn signing_layer(kind: Option<ChangeKind>, layer: u8) -> u8
    ensures { result ≡ signing_layer kind layer }
{
    match kind {
        Some(ChangeKind::Establish | ChangeKind::Emergency) => layer.saturating_sub(1),
        Some(ChangeKind::Surrender | ChangeKind::Load) | None => layer,
    }
}

/// The key under which the order has to verify, or `None` exactly if the layer whose owner has to sign it is unowned.
pub fn authority(layers: &Layers, order: &Order) -> Option<PublicKey>
    ensures { result ≡ authority layers.now (change_by order.now) order.now.layer }
{
    layer_of(layers, signing_layer(change_by(order), order.layer)).owner
}

/// Whether these layers allow an order of the kind, `None` for a new key, for `layer`. It is false for every layer that
/// an order of the kind cannot be for.
pub fn stands_for_order(layers: &Layers, kind: Option<ChangeKind>, layer: u8) -> bool
    ensures { result ≡ stands_for_order layers.now kind layer }
{
    let beneath = layer.saturating_sub(1);
    match kind {
        Some(ChangeKind::Establish) => {
            is_upper(layer) && !is_owned(layers, layer) && is_owned(layers, beneath)
        }
        Some(ChangeKind::Surrender) => is_upper(layer) && is_owned(layers, layer),
        Some(ChangeKind::Load) => is_owned(layers, layer) && layer_of(layers, layer).reliable,
        Some(ChangeKind::Emergency) => {
            is_upper(layer) && is_owned(layers, layer) && is_owned(layers, beneath)
        }
        None => is_upper(layer) && is_runnable(layers, layer),
    }
}
