//! Rows: what a device has shown.

ghost use Rattle.std.specs.Prelude.{◌≡◌, ℕ, List};
ghost use Rattle.mb_model.specs.declared.key.PublicKey.{PublicKey};
ghost use Rattle.mb_verifier.specs.Entries.{ChainShows};
ghost use Rattle.mb_fleet.specs.Lookups.{HasFewEntries};
ghost use Rattle.mb_fleet.specs.Rows.{hash_of_code, code_hashes};
ghost use Rattle.mb_fleet.specs.Showing.{IsShown};

use mb_model::{Items, Layer, Layers};
use mb_verifier::Shown;

/// The hash of the code of each layer that has code.
#[derive(Clone, Copy, Debug, PartialEq, Eq)]
pub struct CodeHashes {
    pub one: Option<[u8; 32]>,
    pub two: Option<[u8; 32]>,
    pub three: Option<[u8; 32]>,
}

/// What a device has shown.
#[derive(Drop)]
pub struct Row {
    /// The serial of the device.
    pub serial: [u8; 16],
    /// The device's configuration number.
    pub number: u32,
    /// The hashes of the device's code.
    pub code: CodeHashes,
    /// The hash of each entry of the device's log, in order.
    pub hashes: Items<[u8; 32]>,
}

impl CodeHashes {
    /// The hashes of layers without code: none.
    pub(crate) fn none() -> CodeHashes {
        CodeHashes {
            one: None,
            two: None,
            three: None,
        }
    }
}

/// The row of the device whose chain shows this. Takes no memory.
#[tactic(auto, using(crate::proofs::Rowing::shown_row))]
pub(crate) fn row_of(shown: Shown) -> Row
    ensures row { (maker : PublicKey) (bytes : List ℕ) → ChainShows maker bytes shown → IsShown maker bytes result }
    ensures few { (maker : PublicKey) (bytes : List ℕ) → ChainShows maker bytes shown → HasFewEntries result }
{
    Row {
        serial: shown.serial,
        number: shown.figures.number,
        code: code_hashes(&shown.figures.layers),
        hashes: shown.hashes,
    }
}

/// The hashes of the layers' code.
fn code_hashes(layers: &Layers) -> CodeHashes
    ensures { result ≡ code_hashes layers.now }
{
    CodeHashes {
        one: code_hash(&layers.one),
        two: code_hash(&layers.two),
        three: code_hash(&layers.three),
    }
}

/// The hash of a layer's code, if it has code.
fn code_hash(layer: &Layer) -> Option<[u8; 32]>
    ensures { result ≡ hash_of_code layer.now }
{
    match &layer.code {
        Some(code) => Some(code.hash),
        None => None,
    }
}
