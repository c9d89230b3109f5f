//! The keys of a maker's levels, and the index at which a number signs with each.

ghost use Rattle.std.specs.Prelude.{◌≡◌, ◌+◌, ◌/◌, ◌^◌, ◌<◌, ◌≤◌, ◌++◌};
ghost use Rattle.std.specs.Int.{w8, w64, to_be_bytes};
ghost use Rattle.mb_model.specs.declared.limits.TheConstants.{LAST_INDEX};
ghost use Rattle.mb_model.specs.signatures.Key.{key_bytes};
ghost use Rattle.mb_model.specs.signatures.Signing.{public_of, signature_of};
ghost use Rattle.mb_signer.specs.Tree.{IsTreeOf};
ghost use Rattle.mb_hss.specs.declared.limits.TheConstants.{LEVEL_LIMIT};
ghost use Rattle.mb_hss.specs.MakerKeys.{level_key, index_at, key_at};
ghost use Rattle.mb_lms.specs.declared.hash_count.TheConstants.{LEAF_HASHES, TREE_HASHES};

use crate::maker::Maker;
use mb_bytes::put_at;
use mb_lms::{HashCount, hash, key_bytes};
use mb_model::separators::{LEVEL_IDENTIFIER, LEVEL_SECRET};
use mb_model::{KeySeed, SIGNATURE_LENGTH};
use mb_signer::{KeptTree, Uses, public_kept, sign_kept, take_index};
use std::sync::ledger::Ledger;

/// The number without its last `count` digits to the base 32; `count` is at most 8.
#[tactic(auto, using(crate::proofs::Digits::digit_powers))]
fn without_digits(number: u64, count: u8) -> u64
    requires { count ≤ LEVEL_LIMIT }
    ensures { result ≡ number / 32 ^ count }
{
    number >> (5 * count)
}

/// The level in one byte, and the prefix in eight.
fn level_and_prefix(level: u8, prefix: u64) -> [u8; 9]
    ensures { result ≡ to_be_bytes w8 level ++ to_be_bytes w64 prefix }
{
    let mut bytes = [0; 9];
    put_at(&mut bytes, 0, &level.to_be_bytes());
    put_at(&mut bytes, 1, &prefix.to_be_bytes());
    bytes
}

/// The key of a level and a prefix, in two hashes.
pub(crate) fn level_key<L: Ledger>(
    seed: &[u8; 32],
    level: u8,
    prefix: u64,
    hashes: &mut HashCount<L>,
) -> KeySeed
    ensures key { result ≡ level_key seed.now level prefix }
    ensures counted { hashes.new ≡ hashes.old + 2 }
{
    let whose = level_and_prefix(level, prefix);
    let mut identifier = [0; 16];
    identifier.copy_from_slice(&hash(&[LEVEL_IDENTIFIER], seed, &whose, hashes)[..16]);
    KeySeed {
        identifier,
        seed: hash(&[LEVEL_SECRET], seed, &whose, hashes),
    }
}

/// The key that a number uses at a level, with its tree, and the index at which it signs.
#[derive(Drop)]
pub(crate) struct Level {
    seed: KeySeed,
    tree: KeptTree,
    index: u32,
    ghost kept: { IsTreeOf seed tree },
    ghost within: { index ≤ LAST_INDEX },
}

impl Level {
    /// The key that the number uses at the level, in 34,401 hashes: two derive it, and its tree takes the others.
    pub(crate) fn at<L: Ledger>(
        maker: &Maker,
        number: u64,
        level: u8,
        hashes: &mut HashCount<L>,
    ) -> Level
        requires level { level < maker.now.levels }
        requires most { maker.now.levels ≤ LEVEL_LIMIT }
        ensures seed { result.seed ≡ key_at maker.now number level }
        ensures index { result.index ≡ index_at maker.now.levels number level }
        ensures counted { hashes.new ≡ hashes.old + TREE_HASHES + 2 }
    {
        let prefix = without_digits(number, maker.levels - level);
        let index = (without_digits(number, maker.levels - level - 1) % 32) as u32;
        let seed = level_key(&maker.seed, level, prefix, hashes);
        let tree = KeptTree::build(&seed, hashes);
        Level { seed, tree, index }
    }

    /// The public key as 56 bytes (RFC 8554, section 5.3), without computing a hash.
    pub(crate) fn public_bytes(&self) -> [u8; 56]
        ensures { result ≡ key_bytes (public_of self.now.seed) }
    {
        key_bytes(&public_kept(&self.tree, &self.seed))
    }

    /// The signature of `head` followed by `body` at the index, in at most 1,074 hashes (RFC 8554, section 5.4.1).
    pub(crate) fn sign<L: Ledger>(
        &self,
        head: &[u8],
        body: &[u8],
        hashes: &mut HashCount<L>,
    ) -> [u8; SIGNATURE_LENGTH]
        ensures signature { result ≡ signature_of self.now.seed self.now.index (head.now ++ body.now) }
        ensures cost { hashes.new ≤ hashes.old + LEAF_HASHES }
    {
        let mut uses = Uses::stored(self.index);
        let Some(right) = take_index(&mut uses) else {
            unreachable!();
        };
        let mut signature = no_signature();
        sign_kept(
            right,
            &self.tree,
            &self.seed,
            head,
            body,
            &mut signature,
            hashes,
        );
        signature
    }
}

/// Room for a signature.
fn no_signature() -> [u8; SIGNATURE_LENGTH] {
    [0; SIGNATURE_LENGTH]
}
