//! Laws of the noise that orders are given.

ghost use Rattle.mb_model_histories.specs.NoiseLaws.{NoiseMattersToKeysAlone, DrawsChangeSignaturesAlone, DrawsMatterToNewKeysAlone, DrawsMakeTheDeviceKey, OldKeysStay};

/// The draws of orders decide of keys and of what keys sign, and of nothing else: no owner, layer, code, secret, number
/// or kind of reply depends on them. An order that makes no key leads to one state, whatever its draw; an ordinary load
/// of layer 1 does not. A key of a region keeps its seed.
pub fn noise_matters_to_keys_alone()
    ensures runs { NoiseMattersToKeysAlone }
    ensures answers { DrawsChangeSignaturesAlone }
    ensures orders { DrawsMatterToNewKeysAlone }
    ensures loads { DrawsMakeTheDeviceKey }
    ensures old { OldKeysStay }
{}
