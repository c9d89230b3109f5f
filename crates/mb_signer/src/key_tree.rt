//! A key, and its tree.

ghost use Rattle.mb_signer.specs.Tree.{IsTreeOf};

use crate::tree::KeptTree;
use mb_model::KeySeed;

/// A key, and its tree.
#[derive(Drop)]
pub(crate) struct KeyTree {
    pub(crate) seed: KeySeed,
    pub(crate) tree: KeptTree,
    ghost its_tree: { IsTreeOf seed tree },
}
