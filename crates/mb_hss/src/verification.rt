//! Whether bytes are an HSS signature of a text (RFC 8554, section 6.3).

ghost use Rattle.std.specs.Prelude.{◌≡◌, ◌↔◌, ◌≤◌, ◌++◌, IsTrue, MatchOption};
ghost use Rattle.mb_model.specs.signatures.Key.{chain_count, height};
ghost use Rattle.mb_hss.specs.declared.limits.TheConstants.{LEVEL_LIMIT};
ghost use Rattle.mb_hss.specs.HssVerification.{VerifiesUnder, HssVerifies};
ghost use Rattle.mb_hss.specs.SignatureParts.{signature_length, ArePartsOf, HasNoParts};

use crate::key::HssKey;
use mb_lms::{key_bytes, parse_key, verify as verify_level};
use mb_model::{Chains, PublicKey, Tree};

/// A signature above the last level, taken apart: one key's signature of the next level's key, that key, and what
/// follows it (RFC 8554, section 6.2).
#[derive(Clone, Copy)]
struct Parts<'a> {
    own: &'a [u8],
    next: PublicKey,
    rest: &'a [u8],
}

/// The number of chains of a one-time key (RFC 8554, section 4.1).
fn chain_count(chains: Chains) -> usize
    ensures value { result ≡ chain_count chains }
    ensures most { result ≤ 265 }
{
    match chains {
        Chains::W1 => 265,
        Chains::W2 => 133,
        Chains::W4 => 67,
        Chains::W8 => 34,
    }
}

/// The height of a tree, in levels above the leaves (RFC 8554, section 5.1).
fn height(tree: Tree) -> usize
    ensures value { result ≡ height tree }
    ensures most { result ≤ 25 }
{
    match tree {
        Tree::H5 => 5,
        Tree::H10 => 10,
        Tree::H15 => 15,
        Tree::H20 => 20,
        Tree::H25 => 25,
    }
}

/// The length of the key's signatures, in bytes (RFC 8554, section 5.4).
fn signature_length(key: &PublicKey) -> usize
    ensures { result ≡ signature_length key.now }
{
    44 + 32 * chain_count(key.chains) + 32 * height(key.tree)
}

/// Takes a signature above the last level apart; `None` if it is too short, or the next key is of unknown types.
fn split<'a>(key: &PublicKey, sig: &'a [u8]) -> Option<Parts<'a>>
    ensures { MatchOption result (HasNoParts key.now sig.now)
        (λ parts. ArePartsOf key.now sig.now parts.own.now parts.next parts.rest.now) }
{
    let (own, after) = sig.split_at_checked(signature_length(key))?;
    let (bytes, rest) = after.split_first_chunk::<56>()?;
    let next = parse_key(bytes)?;
    Some(Parts { own, next, rest })
}

/// Whether the signature is one of `head` followed by `body` under a key that has this number of levels below its own.
fn verifies_under(key: &PublicKey, below: u8, head: &[u8], body: &[u8], sig: &[u8]) -> bool
    ensures { IsTrue result ↔ VerifiesUnder key.now below (head.now ++ body.now) sig.now }
{
    if below == 0 {
        return verify_level(key, head, body, sig);
    }
    let Some(parts) = split(key, sig) else {
        return false;
    };
    let signed = verify_level(key, &key_bytes(&parts.next), &[], parts.own);
    signed && verifies_under(&parts.next, below - 1, head, body, parts.rest)
}

/// Whether `sig` is a signature of `head` followed by `body` under the key, whose number of levels is 1 to 8 (RFC 8554,
/// section 6.3). A signature with further bytes after it is none.
pub fn verify(key: &HssKey, head: &[u8], body: &[u8], sig: &[u8]) -> bool
    requires least { 1 ≤ key.now.levels }
    requires most { key.now.levels ≤ LEVEL_LIMIT }
    ensures { IsTrue result ↔ HssVerifies key.now (head.now ++ body.now) sig.now }
{
    let below = key.levels - 1;
    let Some((count, rest)) = sig.split_first_chunk::<4>() else {
        return false;
    };
    *count == u32::from(below).to_be_bytes() && verifies_under(&key.top, below, head, body, rest)
}
