//! The derivation of an officer's key from noise.

ghost use Rattle.std.specs.Prelude.{◌≡◌};
ghost use Rattle.mb_model.specs.owners.Born.{officer_key};

use mb_log::derive_key;
use mb_model::separators::{OFFICER_IDENTIFIER, OFFICER_SECRET};
use mb_model::{DRAW_LENGTH, Keyfile, NextIndex};

/// Derives the key of an officer from noise. All its indices are left.
#[tactic(auto, unfolding(mb_model::specs::owners::Born::officer_key))]
pub fn make_key(noise: &[u8; DRAW_LENGTH]) -> Keyfile
    ensures { result ≡ record { seed = officer_key noise.now; next = 0 } }
{
    Keyfile {
        seed: derive_key(OFFICER_SECRET, OFFICER_IDENTIFIER, noise),
        next: NextIndex::first(),
    }
}
