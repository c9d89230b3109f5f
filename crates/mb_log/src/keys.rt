//! The derivation of keys from noise.

ghost use Rattle.std.specs.Prelude.{◌≡◌, ◌∷◌, ◌++◌, take};
ghost use Rattle.std.specs.Int.{w32, to_be_bytes};
ghost use Rattle.sha2.specs.Sha256.{sha256};
ghost use Rattle.mb_model.specs.owners.Born.{born_key};

use mb_bytes::put_at;
use mb_model::KeySeed;
use mb_model::separators::{KEY_IDENTIFIER, KEY_SECRET};
use sha2::{Digest, Sha256};

/// The key with the number `number` of the device with the serial, derived from the draw of an event.
#[tactic(auto, unfolding(mb_model::specs::owners::Born::born_key))]
pub fn born(draw: &[u8; 32], serial: &[u8; 16], number: u32) -> KeySeed
    ensures { result ≡ born_key draw.now serial.now number }
{
    let mut text = [0; 52];
    put_at(&mut text, 0, draw);
    put_at(&mut text, 32, serial);
    put_at(&mut text, 48, &number.to_be_bytes());
    derive_key(KEY_SECRET, KEY_IDENTIFIER, &text)
}

/// The key that is derived from the text by two domain separators, which begin the hash of the secret and that of the
/// identifier. The identifier is the first 16 bytes of its hash.
///
/// These two hashes are not counted: a crate whose hashes have to be on a count derives its keys by `mb_lms::hash`. So
/// it does not stand beside `sign_kept` of `mb_signer`, where an uncounted hash would be a way around the count that
/// signing promises.
pub fn derive_key(secret: u8, identifier: u8, text: &[u8]) -> KeySeed
    ensures identifier { result.identifier ≡ take 16 (sha256 (identifier ∷ text.now)) }
    ensures secret { result.seed ≡ sha256 (secret ∷ text.now) }
{
    let mut first = [0; 16];
    first.copy_from_slice(&hash_of(identifier, text)[..16]);
    KeySeed {
        identifier: first,
        seed: hash_of(secret, text),
    }
}

/// The hash of a domain separator and a text.
fn hash_of(separator: u8, text: &[u8]) -> [u8; 32]
    ensures { result ≡ sha256 (separator ∷ text.now) }
{
    let mut hasher = Sha256::new();
    hasher.update([separator]);
    hasher.update(text);
    hasher.finalize()
}
