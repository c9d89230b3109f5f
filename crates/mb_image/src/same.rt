//! Whether two states are equal.

ghost use Rattle.std.specs.Prelude.{◌≡◌, ◌↔◌, IsTrue};

use mb_model::{
    Bytes, Codes, Layers, Log, Region, RegionKey, RegionKeys, Secret, Secrets, SignedEntry, State,
};

/// Whether two states are equal; `None` is the state of a dead device.
pub fn same_state(one: &Option<State>, other: &Option<State>) -> bool
    ensures { IsTrue result ↔ (one.now ≡ other.now) }
{
    match (one, other) {
        (None, None) => true,
        (Some(one), Some(other)) => is_same_state(one, other),
        _ => false,
    }
}

/// Whether two live devices have the same state.
fn is_same_state(one: &State, other: &State) -> bool
    ensures { IsTrue result ↔ (one.now ≡ other.now) }
{
    is_same_device(one, other) && are_same_layers(one, other) && are_same_regions(one, other)
}

/// Whether two states have the same serial and the same device key, with the same number of used indices.
fn is_same_device(one: &State, other: &State) -> bool
    ensures { IsTrue result ↔ ((one.now.serial ≡ other.now.serial) × (one.now.device ≡ other.now.device) × (one.now.uses ≡ other.now.uses)) }
{
    one.serial == other.serial && one.device == other.device && one.uses == other.uses
}

/// Whether two states have the same layers, with the same codes, and the same log.
fn are_same_layers(one: &State, other: &State) -> bool
    ensures { IsTrue result ↔ ((one.now.layers ≡ other.now.layers) × (one.now.codes ≡ other.now.codes) × (one.now.log ≡ other.now.log)) }
{
    has_same_layers(&one.layers, &other.layers)
        && are_same_codes(&one.codes, &other.codes)
        && is_same_log(&one.log, &other.log)
}

/// Whether two devices have the same layers.
fn has_same_layers(one: &Layers, other: &Layers) -> bool
    ensures { IsTrue result ↔ (one.now ≡ other.now) }
{
    one == other
}

/// Whether two states have the same regions.
fn are_same_regions(one: &State, other: &State) -> bool
    ensures { IsTrue result ↔ ((one.now.two ≡ other.now.two) × (one.now.three ≡ other.now.three)) }
{
    is_same_region(&one.two, &other.two) && is_same_region(&one.three, &other.three)
}

/// Whether two logs are equal.
fn is_same_log(one: &Log, other: &Log) -> bool
    ensures { IsTrue result ↔ (one.now ≡ other.now) }
{
    are_same_entries(one.as_slice(), other.as_slice())
}

/// Whether two lists hold the same entries in the same order.
fn are_same_entries(ones: &[SignedEntry], others: &[SignedEntry]) -> bool
    ensures { IsTrue result ↔ (ones.now ≡ others.now) }
{
    ones == others
}

/// Whether two devices have the same codes.
fn are_same_codes(one: &Codes, other: &Codes) -> bool
    ensures { IsTrue result ↔ (one.now ≡ other.now) }
{
    is_same_code(&one.one, &other.one)
        && is_same_code(&one.two, &other.two)
        && is_same_code(&one.three, &other.three)
}

/// Whether two layers have the same code, or both none.
fn is_same_code(one: &Option<Bytes>, other: &Option<Bytes>) -> bool
    ensures { IsTrue result ↔ (one.now ≡ other.now) }
{
    match (one, other) {
        (None, None) => true,
        (Some(one), Some(other)) => one.as_slice() == other.as_slice(),
        _ => false,
    }
}

/// Whether two regions hold the same secrets and keys.
fn is_same_region(one: &Region, other: &Region) -> bool
    ensures { IsTrue result ↔ (one.now ≡ other.now) }
{
    has_same_secrets(&one.secrets, &other.secrets) && has_same_keys(&one.keys, &other.keys)
}

/// Whether two regions have the same keys in the same order.
fn has_same_keys(one: &RegionKeys, other: &RegionKeys) -> bool
    ensures { IsTrue result ↔ (one.now ≡ other.now) }
{
    are_same_keys(one.as_slice(), other.as_slice())
}

/// Whether two lists hold the same keys in the same order.
fn are_same_keys(ones: &[RegionKey], others: &[RegionKey]) -> bool
    ensures { IsTrue result ↔ (ones.now ≡ others.now) }
{
    ones == others
}

/// Whether two regions have the same secrets in the same order.
fn has_same_secrets(one: &Secrets, other: &Secrets) -> bool
    ensures { IsTrue result ↔ (one.now ≡ other.now) }
{
    are_same_secrets(one.as_slice(), other.as_slice())
}

/// Whether two lists hold the same secrets in the same order.
fn are_same_secrets(ones: &[Secret], others: &[Secret]) -> bool
    ensures { IsTrue result ↔ (ones.now ≡ others.now) }
{
    match (ones.split_first(), others.split_first()) {
        (None, None) => true,
        (Some((one, ones)), Some((other, others))) => {
            is_same_secret(one, other) && are_same_secrets(ones, others)
        }
        _ => false,
    }
}

/// Whether two secrets are equal.
fn is_same_secret(one: &Secret, other: &Secret) -> bool
    ensures { IsTrue result ↔ (one.now ≡ other.now) }
{
    one.name.as_slice() == other.name.as_slice()
        && one.value.as_slice() == other.value.as_slice()
        && one.born == other.born
}
