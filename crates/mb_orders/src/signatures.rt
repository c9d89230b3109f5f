//! Whether owners signed an order.

ghost use Rattle.std.specs.Prelude.{◌≡◌, ◌↔◌, ◌++◌, ℕ, All, IsTrue, MatchOption};
ghost use Rattle.mb_model.specs.declared.order.Countersignature.{Countersignature};
ghost use Rattle.mb_model.specs.owners.Rules.{IsFirstFailing};
ghost use Rattle.mb_model.specs.machine.SignedTexts.{IsSignedBy};
ghost use Rattle.mb_orders.specs.Judging.{IsSignedOver, IsCountersignedOver};

use mb_authority::{authority, layer_of};
use mb_lms::verify;
use mb_model::separators::{COUNTERSIGNED_TEXT, ORDER_TEXT};
use mb_model::{Countersignature, Layers, Order, PublicKey};

/// Whether there is a key, and the signature verifies under it over the head and the body.
fn is_signed_by(key: Option<PublicKey>, head: &[u8], body: &[u8], signature: &[u8]) -> bool
    ensures { IsTrue result ↔ IsSignedBy key (head.now ++ body.now) signature.now }
{
    match key {
        Some(key) => verify(&key, head, body, signature),
        None => false,
    }
}

/// Whether the owner in charge signed the order. `body` is the order's body.
#[tactic(auto, unfolding(mb_model::specs::machine::SignedTexts::order_text))]
pub fn is_signed(layers: &Layers, order: &Order, body: &[u8]) -> bool
    ensures { IsTrue result ↔ IsSignedOver layers.now order.now body.now }
{
    let owner = authority(layers, order);
    is_signed_by(owner, &[ORDER_TEXT], body, order.signature.as_slice())
}

/// Whether the owner of the countersignature's layer gave it. `body` is the order's body.
#[tactic(auto, unfolding(mb_model::specs::machine::SignedTexts::countersigned_text))]
fn is_countersigned(layers: &Layers, by: &Countersignature, body: &[u8]) -> bool
    ensures { IsTrue result ↔ IsCountersignedOver layers.now body.now by.now }
{
    let owner = layer_of(layers, by.layer).owner;
    let head = [COUNTERSIGNED_TEXT, by.layer];
    is_signed_by(owner, &head, body, by.signature.as_slice())
}

/// The layer of the first countersignature that its owner did not give, or `None` if each was given. `body` is the
/// order's body.
pub fn countersignature_fails(layers: &Layers, order: &Order, body: &[u8]) -> Option<u8>
    ensures { MatchOption result (All (IsCountersignedOver layers.now body.now)
        order.now.countersignatures) (λ m. (i : ℕ) × (by : Countersignature) × (by.layer ≡ m)
        × IsFirstFailing (IsCountersignedOver layers.now body.now) order.now.countersignatures i
        by) }
{
    for by in order.countersignatures.as_slice() {
        if !is_countersigned(layers, by, body) {
            return Some(by.layer);
        }
    }
    None
}
