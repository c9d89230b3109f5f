//! Signing, with a kept tree or without one (RFC 8554, sections 4.5 and 5.4).

ghost use Rattle.std.specs.Prelude.{◌≡◌, ◌+◌, ◌<◌, ◌≤◌, ◌++◌, take};
ghost use Rattle.mb_model.specs.declared.key.KeySeed.{KeySeed};
ghost use Rattle.mb_model.specs.signatures.Signing.{signed_values, sibling, path_from, public_of, signature_of};
ghost use Rattle.mb_signer.specs.Tree.{IsTreeOf};
ghost use Rattle.mb_lms.specs.declared.hash_count.TheConstants.{LEAF_HASHES, SIGNING_HASHES, TREE_HASHES};

use crate::one_time::{CHAINS, chain_value, message_hash, randomizer_at};
use crate::tree::{KeptTree, LEAVES};
use crate::uses::OneUse;
use mb_bytes::{chains_type, put_at, tree_type};
use mb_lms::{HashCount, coef, digits_of};
use mb_model::{Chains, KeySeed, PublicKey, SIGNATURE_LENGTH, Tree};
use std::sync::ledger::Ledger;

/// The offset of the LM-OTS type in a signature, after the index.
const CHAINS_TYPE_AT: usize = 4;

/// The offset of C in a signature.
const RANDOMIZER_AT: usize = 8;

/// The offset of the chain values in a signature.
const VALUES_AT: usize = 40;

/// The offset of the LMS type in a signature.
const TREE_TYPE_AT: usize = 2184;

/// The offset of the path in a signature.
const PATH_AT: usize = 2188;

/// The public key of the seed, in 34,399 hashes: those of its tree (RFC 8554, section 5.3).
pub fn public<L: Ledger>(seed: &KeySeed, hashes: &mut HashCount<L>) -> PublicKey
    ensures key { result ≡ public_of seed.now }
    ensures counted { hashes.new ≡ hashes.old + TREE_HASHES }
{
    public_kept(&KeptTree::build(seed, hashes), seed)
}

/// The public key of the seed, from the key's tree, without a hash (RFC 8554, section 5.3).
#[tactic(auto, unfolding(mb_model::specs::signatures::Signing::public_of))]
pub fn public_kept(tree: &KeptTree, seed: &KeySeed) -> PublicKey
    requires { IsTreeOf seed.now tree.now }
    ensures { result ≡ public_of seed.now }
{
    PublicKey {
        tree: Tree::H5,
        chains: Chains::W4,
        identifier: seed.identifier,
        root: tree.node(1),
    }
}

/// Writes the one signature of `head` followed by `body` at the right's index, in at most 35,473 hashes: those of the
/// key's tree, and those of signing with it (RFC 8554, section 5.4.1).
pub fn sign<L: Ledger>(
    right: OneUse,
    seed: &KeySeed,
    head: &[u8],
    body: &[u8],
    out: &mut [u8; SIGNATURE_LENGTH],
    hashes: &mut HashCount<L>,
)
    ensures signature { out.new ≡ signature_of seed.now right (head.now ++ body.now) }
    ensures cost { hashes.new ≤ hashes.old + SIGNING_HASHES }
{
    let tree = KeptTree::build(seed, hashes);
    sign_kept(right, &tree, seed, head, body, out, hashes);
}

/// Writes the one signature of `head` followed by `body` at the right's index, with the key's tree, in at most 1,074
/// hashes: 67 private values, at most 1,005 steps of chains, C, and the hash of the text (RFC 8554, section 5.4.1).
///
/// Each hash is a `mb_lms::hash` on the caller's count, and this crate makes hashes by no other call. So the clause
/// `cost` excludes a body that builds a tree again, which takes 34,399. A body cannot begin a count beside the
/// caller's: `HashCount::begin` takes an allocator, and no call here is given one. The clause does not exclude a
/// SHA-256 that is written out here, nor a call of `verify` or `key_hash`, which count nothing and cannot give a node
/// of a tree.
pub fn sign_kept<L: Ledger>(
    right: OneUse,
    tree: &KeptTree,
    seed: &KeySeed,
    head: &[u8],
    body: &[u8],
    out: &mut [u8; SIGNATURE_LENGTH],
    hashes: &mut HashCount<L>,
)
    requires { IsTreeOf seed.now tree.now }
    ensures signature { out.new ≡ signature_of seed.now right (head.now ++ body.now) }
    ensures cost { hashes.new ≤ hashes.old + LEAF_HASHES }
{
    let q = right.spent();
    let randomizer = randomizer_at(seed, q, hashes);
    let hash = message_hash(seed, q, &randomizer, head, body, hashes);
    put_at(out, 0, &q.to_be_bytes());
    put_at(out, CHAINS_TYPE_AT, &chains_type(Chains::W4).to_be_bytes());
    put_at(out, RANDOMIZER_AT, &randomizer);
    put_values(out, seed, q, &digits_of(Chains::W4, &hash), hashes);
    put_at(out, TREE_TYPE_AT, &tree_type(Tree::H5).to_be_bytes());
    put_path(out, tree, q);
}

/// Writes the values of all chains, each taken through as many steps as its digit says (RFC 8554, section 4.5).
fn put_values<L: Ledger>(
    out: &mut [u8; SIGNATURE_LENGTH],
    seed: &KeySeed,
    q: u32,
    digits: &[u8; 34],
    hashes: &mut HashCount<L>,
)
    ensures values { take TREE_TYPE_AT out.new ≡ take VALUES_AT out.old ++ signed_values seed.now q digits.now CHAINS }
    ensures cost { hashes.new ≤ hashes.old + 1072 }
{
    for chain in 0..CHAINS {
        let value = chain_value(seed, q, chain, coef(Chains::W4, digits, chain), hashes);
        put_at(out, VALUES_AT + 32 * usize::from(chain), &value);
    }
}

/// The number of the other node under the same parent.
fn sibling(number: u32) -> u32
    requires first { 1 < number }
    requires last { number < 64 }
    ensures value { result ≡ sibling number }
    ensures first { 1 ≤ result }
    ensures last { result < 64 }
{
    if number % 2 == 0 {
        number + 1
    } else {
        number - 1
    }
}

/// Writes the siblings of the nodes on the way up from a leaf (RFC 8554, section 5.4.1).
#[tactic(auto, using(crate::proofs::Paths::path_bounds))]
fn put_path(out: &mut [u8; SIGNATURE_LENGTH], tree: &KeptTree, q: u32)
    requires { q < LEAVES }
    ensures { (key : KeySeed) → IsTreeOf key tree.now → out.new ≡ take PATH_AT out.old ++ path_from key (32 + q) 5 }
{
    for level in 0..5u32 {
        let node = tree.node(sibling((LEAVES + q) >> level));
        put_at(out, PATH_AT + 32 * level as usize, &node);
    }
}
