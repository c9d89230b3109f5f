//! The kept tree of the region's key that signed last.

ghost use Rattle.std.specs.Prelude.{◌≡◌, ◌+◌, ◌≤◌};
ghost use Rattle.mb_signer.specs.Tree.{IsTreeOf};
ghost use Rattle.mb_outbound.specs.KeptTrees.{IsKeptFor, IfKeptFor};
ghost use Rattle.mb_lms.specs.declared.hash_count.TheConstants.{TREE_HASHES};

use mb_lms::HashCount;
use mb_model::KeySeed;
use mb_signer::KeptTree;
use std::sync::ledger::Ledger;

/// The tree of a key of a region, to sign with again. It has public nodes alone: the key's seed stays in the region.
/// Whether the tree is the key's cannot be tested, since two seeds with one root are not excluded. It is a part of what
/// a device remembers of its state, and proved at each step. A seed beside it could be compared, and would be a second
/// copy of a region's secret.
#[derive(Drop)]
pub struct RegionTree {
    /// The place of the region, 2 or 3.
    pub place: u16,
    /// The number of the key.
    pub number: u32,
    /// The tree of the key.
    pub tree: KeptTree,
}

/// The tree of the key with this number in the region of the place: the kept one, without a hash, if it is this key's;
/// else one that is built from the seed, in 34,399 hashes.
pub fn region_tree<L: Ledger>(
    kept: Option<RegionTree>,
    place: u16,
    number: u32,
    seed: &KeySeed,
    hashes: &mut HashCount<L>,
) -> RegionTree
    requires { IfKeptFor kept place number (λ own. IsTreeOf seed.now own.tree) }
    ensures place { result.place ≡ place }
    ensures number { result.number ≡ number }
    ensures tree { IsTreeOf seed.now result.tree }
    ensures cost { hashes.new ≤ hashes.old + TREE_HASHES }
    ensures again { IsKeptFor kept place number → hashes.new ≡ hashes.old }
{
    if let Some(own) = kept {
        if own.place == place && own.number == number {
            return own;
        }
    }
    RegionTree {
        place,
        number,
        tree: KeptTree::build(seed, hashes),
    }
}
