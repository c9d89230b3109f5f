//! A maker of HSS signatures.

ghost use Rattle.std.specs.Prelude.{◌≡◌, ◌≤◌, ◌^◌};
ghost use Rattle.mb_hss.specs.declared.limits.TheConstants.{LEVEL_LIMIT};
ghost use Rattle.mb_hss.specs.MakerKeys.{IsMaker, new_maker};

use mb_model::separators::MAKER_SECRET;
use sha2::{Digest, Sha256};

/// A maker's key, from which the keys of all its levels are derived. It cannot be copied: each number signs only once.
/// It is not shown by `Debug` either: a text of it would have the seed.
#[derive(PartialEq, Eq, Drop)]
pub struct Maker {
    /// The number of levels, 1 to 8.
    pub levels: u8,
    /// The secret from which all keys are derived.
    pub seed: [u8; 32],
    /// The number of the next signature, from 0 to 32^levels; none is left at 32^levels.
    pub next: u64,
}

/// A maker with 1 to 8 levels, derived from noise, with all its numbers left.
#[tactic(auto, unfolding(crate::specs::MakerKeys::new_maker))]
pub fn make_maker(noise: &[u8; 32], levels: u8) -> Maker
    requires least { 1 ≤ levels }
    requires most { levels ≤ LEVEL_LIMIT }
    ensures value { result ≡ new_maker noise.now levels }
    ensures valid { IsMaker result }
{
    let mut hasher = Sha256::new();
    hasher.update([MAKER_SECRET]);
    hasher.update(noise.as_slice());
    Maker {
        levels,
        seed: hasher.finalize(),
        next: 0,
    }
}

/// The number of signatures that a maker of 1 to 8 levels can make, 32^levels.
#[tactic(auto, using(crate::proofs::Digits::digit_powers))]
pub fn number_count(levels: u8) -> u64
    requires { levels ≤ LEVEL_LIMIT }
    ensures { result ≡ 32 ^ levels }
{
    1 << (5 * levels)
}
