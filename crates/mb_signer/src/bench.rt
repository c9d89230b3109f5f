//! The trees of the keys that are at hand while one event is served.

ghost use Rattle.std.specs.Prelude.{◌≡◌, ◌+◌, ◌≤◌, ◌++◌, ◌⊎◌, IfSome, IsSome, MatchOption, None};
ghost use Rattle.mb_model.specs.declared.key.KeySeed.{KeySeed};
ghost use Rattle.mb_model.specs.signatures.Signing.{public_of, signature_of};
ghost use Rattle.mb_signer.specs.Tree.{IsTreeOf};
ghost use Rattle.mb_signer.specs.Benches.{IsTreeAt, HasTree, IsBare, HasRoom, KeepsTrees};
ghost use Rattle.mb_lms.specs.declared.hash_count.TheConstants.{LEAF_HASHES, SIGNING_HASHES, TREE_HASHES};

use crate::key_tree::KeyTree;
use crate::signing::{public_kept, sign_kept};
use crate::tree::KeptTree;
use crate::uses::OneUse;
use mb_lms::HashCount;
use mb_model::{KeySeed, PublicKey, SIGNATURE_LENGTH};
use std::sync::ledger::Ledger;

/// The trees of at most two keys, each beside its key's seed, while one event is served. A tree is found by comparing
/// seeds; if it is not there, it is built and kept. The bench is dropped with the event, and so are the seeds on it.
/// There is room for two, since an order signs by at most the device key and the next. No call that takes a bench has a
/// condition on its contents; trees that are handed down would need one in each call on the way.
#[derive(Drop)]
pub struct Bench {
    first: Option<KeyTree>,
    second: Option<KeyTree>,
}

impl Bench {
    /// A bench without trees.
    pub fn new() -> Bench
        ensures { IsBare result }
    {
        Bench {
            first: None,
            second: None,
        }
    }

    /// Puts the tree of a key on the bench. If the bench has two trees already, this one replaces the second; if it had
    /// none, it has room for another.
    pub fn put(&mut self, seed: &KeySeed, tree: KeptTree)
        requires { IsTreeOf seed.now tree }
        ensures kept { HasTree self.new seed.now }
        ensures beside { HasRoom self.old → KeepsTrees self.old self.new }
        ensures room { IsBare self.old → HasRoom self.new }
    {
        let own = KeyTree { seed: *seed, tree };
        if self.first.is_none() {
            self.first = Some(own);
        } else {
            self.second = Some(own);
        }
    }

    /// Takes the tree of a key off the bench, if it is there.
    pub fn take(&mut self, seed: &KeySeed) -> Option<KeptTree>
        ensures tree { IfSome result (λ tree. IsTreeOf seed.now tree) }
        ensures found { HasTree self.old seed.now → IsSome result }
        ensures others { (key : KeySeed) → HasTree self.old key
            → HasTree self.new key ⊎ (key ≡ seed.now) }
        ensures room { HasRoom self.old ⊎ IsSome result → HasRoom self.new }
        ensures bare { IsBare self.old → IsBare self.new }
    {
        match take_from(&mut self.first, seed) {
            Some(tree) => Some(tree),
            None => take_from(&mut self.second, seed),
        }
    }

    /// Takes the tree of a key off the bench, or builds it, in 34,399 hashes.
    fn take_or_build<L: Ledger>(&mut self, seed: &KeySeed, hashes: &mut HashCount<L>) -> KeptTree
        ensures tree { IsTreeOf seed.now result }
        ensures cost { hashes.new ≤ hashes.old + TREE_HASHES }
        ensures again { HasTree self.old seed.now → hashes.new ≡ hashes.old }
        ensures others { (key : KeySeed) → HasTree self.old key
            → HasTree self.new key ⊎ (key ≡ seed.now) }
        ensures room { HasRoom self.old ⊎ HasTree self.old seed.now → HasRoom self.new }
        ensures bare { IsBare self.old → IsBare self.new }
    {
        match self.take(seed) {
            Some(tree) => tree,
            None => KeptTree::build(seed, hashes),
        }
    }

    /// The public key of the seed, as `public` gives it. Its tree is on the bench afterwards. Nothing is hashed if it
    /// was there before (RFC 8554, section 5.3). A bench that was bare has room for another tree.
    pub fn public<L: Ledger>(&mut self, seed: &KeySeed, hashes: &mut HashCount<L>) -> PublicKey
        ensures key { result ≡ public_of seed.now }
        ensures kept { HasTree self.new seed.now }
        ensures cost { hashes.new ≤ hashes.old + TREE_HASHES }
        ensures again { HasTree self.old seed.now → hashes.new ≡ hashes.old }
        ensures beside { HasRoom self.old ⊎ HasTree self.old seed.now
            → KeepsTrees self.old self.new }
        ensures room { IsBare self.old → HasRoom self.new }
    {
        let tree = self.take_or_build(seed, hashes);
        let key = public_kept(&tree, seed);
        self.put(seed, tree);
        key
    }

    /// Writes the one signature of `head` followed by `body` at the right's index, as `sign` does. The key's tree is on
    /// the bench afterwards. If it was there before, there are at most 1,074 hashes, else at most 35,473 (RFC 8554,
    /// section 5.4.1).
    pub fn sign<L: Ledger>(
        &mut self,
        right: OneUse,
        seed: &KeySeed,
        head: &[u8],
        body: &[u8],
        out: &mut [u8; SIGNATURE_LENGTH],
        hashes: &mut HashCount<L>,
    )
        ensures signature { out.new ≡ signature_of seed.now right (head.now ++ body.now) }
        ensures kept { HasTree self.new seed.now }
        ensures cost { hashes.new ≤ hashes.old + SIGNING_HASHES }
        ensures again { HasTree self.old seed.now → hashes.new ≤ hashes.old + LEAF_HASHES }
        ensures beside { HasRoom self.old ⊎ HasTree self.old seed.now
            → KeepsTrees self.old self.new }
    {
        let tree = self.take_or_build(seed, hashes);
        sign_kept(right, &tree, seed, head, body, out, hashes);
        self.put(seed, tree);
    }
}

/// Takes the tree out of a slot of a bench, if it is that of the key.
fn take_from(slot: &mut Option<KeyTree>, seed: &KeySeed) -> Option<KeptTree>
    ensures tree { IfSome result (λ tree. IsTreeOf seed.now tree) }
    ensures found { IsTreeAt slot.old seed.now → IsSome result }
    ensures other { (key : KeySeed) → IsTreeAt slot.old key
        → IsTreeAt slot.new key ⊎ (key ≡ seed.now) }
    ensures taken { MatchOption result (slot.new ≡ slot.old) (λ _. slot.new ≡ None) }
{
    let own = slot.take()?;
    if own.seed == *seed {
        return Some(own.tree);
    }
    *slot = Some(own);
    None
}
