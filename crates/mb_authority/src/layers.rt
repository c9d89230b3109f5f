//! Layers by their numbers.

ghost use Rattle.std.specs.Prelude.{◌≡◌};
ghost use Rattle.mb_model.specs.owners.Layers.{layer_of, is_owned, is_upper, is_in, is_runnable};

use mb_model::{Layer, Layers, Pair};

/// The layer with this number, 1 to 3; a layer without an owner for any other number.
pub fn layer_of(layers: &Layers, layer: u8) -> Layer
    ensures { result ≡ layer_of layers.now layer }
{
    match layer {
        1 => layers.one,
        2 => layers.two,
        3 => layers.three,
        _ => Layer::unowned(),
    }
}

/// Whether the layer has an owner.
pub fn is_owned(layers: &Layers, layer: u8) -> bool
    ensures { result ≡ is_owned layers.now layer }
{
    layer_of(layers, layer).owner.is_some()
}

/// Whether layers 1 to `layer` are all reliable; `layer` is 1 to 3.
pub fn is_runnable(layers: &Layers, layer: u8) -> bool
    ensures { result ≡ is_runnable layers.now layer }
{
    layers.one.reliable
        && (layer < 2 || layers.two.reliable)
        && (layer < 3 || layers.three.reliable)
}

/// Whether the number is that of a layer above another, 2 or 3.
pub fn is_upper(layer: u8) -> bool
    ensures { result ≡ is_upper layer }
{
    layer == 2 || layer == 3
}

/// Whether the layer is in the pair, which has only layers 2 and 3.
pub fn is_in(layer: u8, pair: Pair) -> bool
    ensures { result ≡ is_in layer pair }
{
    match layer {
        2 => pair.two,
        3 => pair.three,
        _ => false,
    }
}
