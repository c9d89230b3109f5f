//! The kinds of changes.

ghost use Rattle.std.specs.Prelude.{◌≡◌};
ghost use Rattle.mb_model.specs.owners.Rules.{is_load, is_own_load, renews};
ghost use Rattle.mb_model.specs.machine.OrderChecks.{change_by};

use mb_model::{Act, ChangeKind, Order};

/// The kind of the change that the order makes, or `None` if it makes a new key.
pub fn change_by(order: &Order) -> Option<ChangeKind>
    ensures { result ≡ change_by order.now }
{
    match &order.act {
        Act::Establish { .. } => Some(ChangeKind::Establish),
        Act::Surrender => Some(ChangeKind::Surrender),
        Act::Load(_) => Some(ChangeKind::Load),
        Act::Emergency(_) => Some(ChangeKind::Emergency),
        Act::NewKey { .. } => None,
    }
}

/// Whether a change of the kind is a load, ordinary or in an emergency.
pub fn is_load(kind: ChangeKind) -> bool
    ensures { result ≡ is_load (Some kind) }
{
    matches!(kind, ChangeKind::Load | ChangeKind::Emergency)
}

/// Whether a change of the kind is a load by the layer's own owner.
pub fn is_own_load(kind: ChangeKind) -> bool
    ensures { result ≡ is_own_load (Some kind) }
{
    matches!(kind, ChangeKind::Load)
}

/// Whether an order of the kind, `None` for a new key, makes the next device key: if it is an ordinary load of layer 1.
pub fn renews(kind: Option<ChangeKind>, layer: u8) -> bool
    ensures { result ≡ renews kind layer }
{
    matches!(kind, Some(ChangeKind::Load)) && layer == 1
}
