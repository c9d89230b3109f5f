//! The changes that a layer admits, and the layers after a change.

ghost use Rattle.std.specs.Prelude.{◌≡◌};
ghost use Rattle.mb_model.specs.owners.Layers.{trust_for};
ghost use Rattle.mb_model.specs.owners.Rules.{lets_load_in, admits, is_kept, kept_regions, may_cosign, loaded_layer, layer_from_order, layer_after, after};

use crate::kinds::{is_load, is_own_load};
use crate::layers::{is_in, is_owned, layer_of};
use mb_model::{Act, ChangeKind, CodeName, Layer, Layers, Pair, Payload, Trust};
use sha2::{Digest, Sha256};

/// Whether a layer with this trust goes along with a load beneath it. `cosigned` says whether the layer's owner has
/// countersigned the load.
fn trusts(trust: Trust, cosigned: bool) -> bool
    ensures { result ≡ lets_load_in trust cosigned }
{
    match trust {
        Trust::Always => true,
        Trust::Never => false,
        Trust::Countersigned => cosigned,
    }
}

/// The trust of a layer in changes of layer `k`, a layer beneath it: 1 or 2.
fn trust_for(layer: &Layer, k: u8) -> Trust
    ensures { result ≡ trust_for layer.now k }
{
    if k == 1 {
        layer.trust.one
    } else {
        layer.trust.two
    }
}

/// Whether layer `m` admits a change of the kind at `layer`, which is `m` or beneath it. A layer admits its own
/// ordinary load, and each load beneath it that it trusts. The layers are those before the change.
pub fn admits(layers: &Layers, kind: ChangeKind, layer: u8, cosigned: Pair, m: u8) -> bool
    ensures { result ≡ admits layers.now kind layer cosigned m }
{
    if m == layer {
        is_own_load(kind)
    } else {
        is_load(kind) && trusts(trust_for(&layer_of(layers, m), layer), is_in(m, cosigned))
    }
}

/// Whether region `m` is kept over a change of the kind at `layer`: if the change is above it, or layer `m` admits it.
fn is_kept(layers: &Layers, kind: ChangeKind, layer: u8, cosigned: Pair, m: u8) -> bool
    ensures { result ≡ is_kept layers.now kind layer cosigned m }
{
    m < layer || admits(layers, kind, layer, cosigned, m)
}

/// The regions that are kept over a change of the kind at `layer`. The layers are those before the change.
pub fn kept_regions(layers: &Layers, kind: ChangeKind, layer: u8, cosigned: Pair) -> Pair
    ensures { result ≡ kept_regions layers.now kind layer cosigned }
{
    Pair {
        two: is_kept(layers, kind, layer, cosigned, 2),
        three: is_kept(layers, kind, layer, cosigned, 3),
    }
}

/// Whether the owner of layer `m` may countersign a change of the kind at `layer`: if it is a load, and `m` is above it
/// and has an owner.
pub fn may_cosign(layers: &Layers, kind: ChangeKind, layer: u8, m: u8) -> bool
    ensures { result ≡ may_cosign layers.now kind layer m }
{
    is_load(kind) && layer < m && is_owned(layers, m)
}

/// The layer after a load: reliable, with the load's trusts, the name of its code, and the owner as before.
fn loaded_layer(old: &Layer, payload: &Payload) -> Layer
    ensures { result ≡ loaded_layer old.now payload.now }
{
    Layer {
        owner: old.owner,
        code: Some(CodeName {
            hash: Sha256::digest(payload.code.as_slice()),
            version: payload.version,
        }),
        reliable: true,
        trust: payload.trust,
    }
}

/// The layer that an order puts in place of the layer `old`, by what the order does. The code of a load is hashed once.
pub fn layer_from_order(old: &Layer, act: &Act) -> Layer
    ensures { result ≡ layer_from_order old.now act.now }
{
    match act {
        Act::Establish { owner, trust } => Layer {
            owner: Some(*owner),
            code: None,
            reliable: false,
            trust: *trust,
        },
        Act::Surrender => Layer::unowned(),
        Act::Load(payload) | Act::Emergency(payload) => loaded_layer(old, payload),
        Act::NewKey { .. } => *old,
    }
}

/// Layer `m` after the change, as `after` has it.
fn layer_after(
    layers: &Layers,
    kind: ChangeKind,
    layer: u8,
    cosigned: Pair,
    placed: &Layer,
    m: u8,
) -> Layer
    ensures { result ≡ layer_after layers.now kind layer cosigned placed.now m }
{
    let old = layer_of(layers, m);
    if m == layer {
        *placed
    } else if m < layer {
        old
    } else {
        Layer {
            reliable: old.reliable && admits(layers, kind, layer, cosigned, m),
            ..old
        }
    }
}

/// The layers after a change of the kind that puts `placed` in place of `layer`. A layer above it stays reliable only
/// if it admits the change; all else stays.
#[tactic(auto, unfolding(mb_model::specs::owners::Rules::after))]
pub fn after(layers: &Layers, kind: ChangeKind, layer: u8, cosigned: Pair, placed: &Layer) -> Layers
    ensures { result ≡ after layers.now kind layer cosigned placed.now }
{
    Layers {
        one: layer_after(layers, kind, layer, cosigned, placed, 1),
        two: layer_after(layers, kind, layer, cosigned, placed, 2),
        three: layer_after(layers, kind, layer, cosigned, placed, 3),
    }
}
