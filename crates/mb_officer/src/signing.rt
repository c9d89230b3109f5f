//! Orders signed and countersigned by an officer's key.

ghost use Rattle.std.specs.Prelude.{◌≡◌, ◌≢◌, ◌↔◌, ◌+◌, ◌<◌, ◌≤◌, ◌++◌, ◌∷◌, [], List, length, All, IfOk, OnOk, OnErr, IsErrOf, IsTrue};
ghost use Rattle.mb_model.specs.declared.limits.TheConstants.{KEY_USES, LAST_INDEX, SIGNATURE_LENGTH};
ghost use Rattle.mb_model.specs.owners.Layers.{is_upper};
ghost use Rattle.mb_model.specs.records.OrderFormat.{order_format};
ghost use Rattle.mb_model.specs.signatures.Signing.{signature_of};
ghost use Rattle.mb_model.specs.machine.SignedOrders.{keyfile_after_use, signed_order, countersigned_order, with_countersignature, IsCountersignable};
ghost use Rattle.mb_model.specs.owners.Rules.{kind_of, change_of, is_load};
ghost use Rattle.mb_lms.specs.declared.hash_count.TheConstants.{SIGNING_HASHES};

use mb_command::order_body;
use mb_lms::HashCount;
use mb_model::separators::{COUNTERSIGNED_TEXT, ORDER_TEXT};
use mb_model::{
    Act, Bytes, Countersignature, Countersignatures, KeySeed, Keyfile, NoMemory, Order,
    SIGNATURE_LENGTH,
};
use mb_signer::{Uses, sign, take_index};
use std::alloc::Global;
use std::sync::ledger::Ledger;

/// Why nothing was signed. Key and order are then as before.
#[derive(Clone, Copy, Debug, PartialEq, Eq)]
pub enum SignEnd {
    /// The key has no index left.
    Spent,
    /// The order is no load, the layer is not above the order's, or that layer's countersignature is there.
    NotCountersignable,
    /// An allocation failed.
    NoMemory,
}

impl From<NoMemory> for SignEnd {
    ghost use Rattle.mb_officer.specs.declared.signing.SignEnd.TheVariants as end;

    ghost from_gives = { λ _ e. e ≡ end.NoMemory };

    fn from(_error: NoMemory) -> SignEnd {
        SignEnd::NoMemory
    }
}

/// Signs the order by the key, in place of the signature that it has, and answers the index of the signature, in at
/// most 35,473 hashes. The order has a spelling.
///
/// Errors: `Spent` exactly if all indices of the key are used, and `NoMemory`.
pub fn sign_order<L: Ledger>(
    alloc: Global,
    k: &mut Keyfile,
    order: &mut Order,
    hashes: &mut HashCount<L>,
) -> Result<u32, SignEnd>
    requires spelled { order_format.Allowed order.old }
    ensures signed { IfOk result (λ index. (index ≡ k.old.next) × (k.new ≡ keyfile_after_use k.old) × (order.new ≡ signed_order k.old order.old)) }
    ensures spelled { OnOk result (order_format.Allowed order.new) }
    ensures spent { IsErrOf result SignEnd.Spent ↔ (k.old.next ≡ KEY_USES) }
    ensures countersignable { IsErrOf result SignEnd.NotCountersignable → ⊥ }
    ensures unchanged { OnErr result ((k.new ≡ k.old) × (order.new ≡ order.old) × (hashes.new ≡ hashes.old)) }
    ensures cost { hashes.new ≤ hashes.old + SIGNING_HASHES }
{
    let mut next = k.next;
    let Some(index) = next.take() else {
        return Err(SignEnd::Spent);
    };
    let body = order_body(alloc, order)?;
    let room = signature_room(alloc)?;
    let text = [ORDER_TEXT];
    order.signature = signature_at(&k.seed, index, &text, body.as_slice(), room, hashes);
    k.next = next;
    Ok(index)
}

/// Adds the countersignature by the key of the owner of the layer, 2 or 3, in its place by layers, and answers the
/// index of the signature, in at most 35,473 hashes. The order has a spelling.
///
/// Errors: `NotCountersignable` exactly if the order is no load, the layer is not above the order's, or that layer's
/// countersignature is there; else `Spent` exactly if all indices of the key are used; and `NoMemory`.
pub fn countersign<L: Ledger>(
    alloc: Global,
    k: &mut Keyfile,
    layer: u8,
    order: &mut Order,
    hashes: &mut HashCount<L>,
) -> Result<u32, SignEnd>
    requires spelled { order_format.Allowed order.old }
    requires layer { IsTrue (is_upper layer) }
    ensures signed { IfOk result (λ index. (index ≡ k.old.next) × (k.new ≡ keyfile_after_use k.old) × (order.new ≡ countersigned_order k.old layer order.old)) }
    ensures spelled { OnOk result (order_format.Allowed order.new) }
    ensures countersignable { IsErrOf result SignEnd.NotCountersignable ↔ (IsCountersignable order.old layer → ⊥) }
    ensures spent { IsErrOf result SignEnd.Spent ↔ (IsCountersignable order.old layer × (k.old.next ≡ KEY_USES)) }
    ensures unchanged { OnErr result ((k.new ≡ k.old) × (order.new ≡ order.old) × (hashes.new ≡ hashes.old)) }
    ensures cost { hashes.new ≤ hashes.old + SIGNING_HASHES }
{
    if !is_countersignable(order, layer) {
        return Err(SignEnd::NotCountersignable);
    }
    let mut next = k.next;
    let Some(index) = next.take() else {
        return Err(SignEnd::Spent);
    };
    let body = order_body(alloc, order)?;
    let empty = Bytes::from_vec(Vec::new(alloc));
    let own_room = signature_room(alloc)?;
    order.countersignatures.push(Countersignature {
        layer,
        signature: empty,
    })?;
    let text = [COUNTERSIGNED_TEXT, layer];
    let signature = signature_at(&k.seed, index, &text, body.as_slice(), own_room, hashes);
    put_in_place(
        &mut order.countersignatures,
        Countersignature { layer, signature },
    );
    k.next = next;
    Ok(index)
}

/// Whether the owner of the layer may countersign the order.
pub fn is_countersignable(order: &Order, layer: u8) -> bool
    ensures { IsTrue result ↔ IsCountersignable order.now layer }
{
    if !is_load(&order.act) || order.layer >= layer {
        return false;
    }
    order
        .countersignatures
        .as_slice()
        .iter()
        .all(|other| other.layer != layer)
}

/// Whether the order is an ordinary load or an emergency load.
fn is_load(act: &Act) -> bool
    ensures { result ≡ is_load (change_of (kind_of act.now)) }
{
    matches!(act, Act::Load(_) | Act::Emergency(_))
}

/// Drops the last countersignature, and puts this one in its place by layers among those before, at most one, of
/// another layer.
fn put_in_place(list: &mut Countersignatures, countersignature: Countersignature)
    requires some { 0 < length list.old }
    requires most { length list.old ≤ 2 }
    ensures { (before : List Countersignature) (place : Countersignature) → list.old ≡ before ++ place ∷ [] → All (λ other. other.layer ≢ countersignature.layer) before → list.new ≡ with_countersignature countersignature before }
{
    let last = list.as_slice().len() as u32 - 1;
    if last > 0 && list.as_slice()[0].layer > countersignature.layer {
        let later = list.set(0, countersignature);
        list.set(last, later);
    } else {
        list.set(last, countersignature);
    }
}

/// Room for a signature.
fn signature_room(alloc: Global) -> Result<Vec<u8>, NoMemory>
    ensures { IfOk result (λ room. length room.items ≡ SIGNATURE_LENGTH) }
{
    Ok(Vec::from_slice(alloc, &[0; SIGNATURE_LENGTH])?)
}

/// The signature of the head and the body by the key at an index, in the room for it.
fn signature_at<L: Ledger>(
    seed: &KeySeed,
    index: u32,
    head: &[u8],
    body: &[u8],
    room: Vec<u8>,
    hashes: &mut HashCount<L>,
) -> Bytes
    requires index { index ≤ LAST_INDEX }
    requires room { length room.items ≡ SIGNATURE_LENGTH }
    ensures signature { result ≡ signature_of seed.now index (head.now ++ body.now) }
    ensures length { length result ≡ SIGNATURE_LENGTH }
    ensures cost { hashes.new ≤ hashes.old + SIGNING_HASHES }
{
    let mut room = room;
    let signature = sign_at(seed, index, head, body, hashes);
    room.copy_from_slice(&signature);
    Bytes::from_vec(room)
}

/// The signature of the head and the body by the key at an index.
pub(crate) fn sign_at<L: Ledger>(
    seed: &KeySeed,
    index: u32,
    head: &[u8],
    body: &[u8],
    hashes: &mut HashCount<L>,
) -> [u8; SIGNATURE_LENGTH]
    requires { index ≤ LAST_INDEX }
    ensures signature { result ≡ signature_of seed.now index (head.now ++ body.now) }
    ensures cost { hashes.new ≤ hashes.old + SIGNING_HASHES }
{
    let mut uses = Uses::stored(index);
    let Some(right) = take_index(&mut uses) else {
        unreachable!();
    };
    let mut signature = [0; SIGNATURE_LENGTH];
    sign(right, seed, head, body, &mut signature, hashes);
    signature
}
