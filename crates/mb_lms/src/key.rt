//! Public keys as bytes (RFC 8554, section 5.3).

ghost use Rattle.std.specs.Prelude.{◌≡◌, MatchOption};
ghost use Rattle.sha2.specs.Sha256.{sha256};
ghost use Rattle.mb_model.specs.declared.key.PublicKey.{PublicKey};
ghost use Rattle.mb_model.specs.signatures.Key.{IsSized, key_bytes};

use crate::bytes::u32_at;
use crate::parameters::{chains_of_type, tree_of_type};
use mb_bytes::{chains_type, put_at, tree_type};
use mb_model::PublicKey;
use sha2::{Digest, Sha256};

/// The key that the bytes spell: the LMS type, the LM-OTS type, the identifier and the root. `None` exactly if a type
/// number is not in the tables (RFC 8554, sections 4.1 and 5.1).
pub fn parse_key(bytes: &[u8; 56]) -> Option<PublicKey>
    ensures { MatchOption result ((key : PublicKey) → IsSized key → key_bytes key ≡ bytes.now → ⊥) (λ key. IsSized key × (key_bytes key ≡ bytes.now)) }
{
    let tree = tree_of_type(u32_at(bytes, 0))?;
    let chains = chains_of_type(u32_at(bytes, 4))?;
    let mut identifier = [0; 16];
    identifier.copy_from_slice(&bytes[8..24]);
    let mut root = [0; 32];
    root.copy_from_slice(&bytes[24..56]);
    Some(PublicKey {
        tree,
        chains,
        identifier,
        root,
    })
}

/// The key as 56 bytes: the LMS type, the LM-OTS type, the identifier and the root (RFC 8554, section 5.3).
#[tactic(auto, unfolding(mb_model::specs::signatures::Key::key_bytes))]
pub fn key_bytes(key: &PublicKey) -> [u8; 56]
    ensures { result ≡ key_bytes key.now }
{
    let mut bytes = [0; 56];
    put_at(&mut bytes, 0, &tree_type(key.tree).to_be_bytes());
    put_at(&mut bytes, 4, &chains_type(key.chains).to_be_bytes());
    put_at(&mut bytes, 8, &key.identifier);
    put_at(&mut bytes, 24, &key.root);
    bytes
}

/// The SHA-256 hash of the key's bytes.
pub fn key_hash(key: &PublicKey) -> [u8; 32]
    ensures { result ≡ sha256 (key_bytes key.now) }
{
    Sha256::digest(key_bytes(key))
}
