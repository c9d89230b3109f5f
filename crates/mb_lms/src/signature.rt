//! A signature's fields: the leaf's number, the LM-OTS type, C, the chain values, the LMS type and the path (RFC 8554,
//! section 5.4).

ghost use Rattle.std.specs.Prelude.{◌≡◌, ◌↔◌, ◌++◌, IsTrue};
ghost use Rattle.std.specs.Int.{w32, to_be_bytes};
ghost use Rattle.sha2.specs.Hashers.{Holds256};
ghost use Rattle.mb_model.specs.signatures.Winternitz.{message_mark};
ghost use Rattle.mb_model.specs.signatures.Merkle.{HasForm, leaf_number, randomizer, root_from};

use crate::bytes::{begun, u32_at};
use crate::one_time::{digits_of, one_time_key};
use crate::parameters::{chain_count, height};
use crate::tree::{climb, leaf_node};
use mb_bytes::{chains_type, tree_type};
use mb_model::PublicKey;
use mb_model::separators::MESSAGE_MARK;
use sha2::{Digest, Sha256};

/// Whether the bytes have the form of the key's signatures: the length and the type numbers of the key's types, and a
/// leaf that is in the tree.
#[tactic(auto, using(crate::proofs::Form::form_rules))]
pub(crate) fn has_form(key: &PublicKey, sig: &[u8]) -> bool
    ensures { IsTrue result ↔ HasForm key.now sig.now }
{
    let path_at = 44 + 32 * usize::from(chain_count(key.chains));
    let levels = height(key.tree);
    sig.len() == path_at + 32 * levels as usize
        && u32_at(sig, 4) == chains_type(key.chains)
        && u32_at(sig, path_at - 4) == tree_type(key.tree)
        && u32_at(sig, 0) < 1 << levels
}

/// A hasher that has taken all that precedes the signed text (RFC 8554, section 4.5).
pub(crate) fn begun_text(key: &PublicKey, sig: &[u8]) -> Sha256
    requires { HasForm key.now sig.now }
    ensures { Holds256 result (key.now.identifier ++ to_be_bytes w32 (leaf_number sig.now) ++ message_mark ++ randomizer sig.now) }
{
    let mut hasher = begun(&key.identifier, u32_at(sig, 0), MESSAGE_MARK);
    hasher.update(&sig[8..40]);
    hasher
}

/// The root to which a signature leads from the hash of a text (RFC 8554, section 5.4.2).
#[tactic(auto, using(crate::proofs::Form::form_rules), unfolding(mb_model::specs::signatures::Merkle::root_from))]
pub(crate) fn root_from(key: &PublicKey, hash: &[u8; 32], sig: &[u8]) -> [u8; 32]
    requires { HasForm key.now sig.now }
    ensures { result ≡ root_from key.now hash.now sig.now }
{
    let path_at = 44 + 32 * usize::from(chain_count(key.chains));
    let levels = height(key.tree);
    let q = u32_at(sig, 0);
    let digits = digits_of(key.chains, hash);
    let one_time = one_time_key(key, q, &digits, &sig[40..path_at - 4]);
    let number = (1 << levels) + q;
    let leaf = leaf_node(&key.identifier, number, &one_time);
    climb(&key.identifier, number, leaf, &sig[path_at..], levels)
}

/// Whether the bytes have the form of the key's signatures and lead from the hash of a text to the key's root.
pub(crate) fn leads_to_root(key: &PublicKey, hash: &[u8; 32], sig: &[u8]) -> bool
    ensures { IsTrue result ↔ (HasForm key.now sig.now × (root_from key.now hash.now sig.now ≡ key.now.root)) }
{
    has_form(key, sig) && is_equal(&root_from(key, hash, sig), &key.root)
}

fn is_equal(left: &[u8; 32], right: &[u8; 32]) -> bool
    ensures { IsTrue result ↔ (left.now ≡ right.now) }
{
    left == right
}
