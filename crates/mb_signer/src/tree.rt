//! The tree of a key. Its leaves come one after another, and each right child is joined with its sibling at once (RFC
//! 8554, section 5.3).

ghost use Rattle.std.specs.Prelude.{◌≡◌, ℕ, ◌+◌, ◌*◌, ◌/◌, ◌^◌, ◌<◌, ◌≤◌, List};
ghost use Rattle.mb_model.specs.signatures.Merkle.{inner_node};
ghost use Rattle.mb_model.specs.signatures.Signing.{node_of};
ghost use Rattle.mb_signer.specs.Tree.{node_at, joined_above, IsFilled, IsTreeOf};
ghost use Rattle.mb_lms.specs.declared.hash_count.TheConstants.{LEAF_HASHES, TREE_HASHES};

use crate::bytes::marked;
use crate::one_time::one_time_public;
use mb_lms::{HashCount, hash};
use mb_model::KeySeed;
use mb_model::separators::{INNER_MARK, LEAF_MARK};
use std::marker::Model;
use std::sync::ledger::Ledger;

/// The number of leaves of a tree.
pub(crate) const LEAVES: u32 = 32;

/// The 63 nodes of a key's tree, from the root to the last leaf. They are public: no seed is among them. The public key
/// and a kept tree are made by this one builder. A stack of pending nodes for the public key would be a second
/// algorithm for one value.
#[derive(Drop)]
pub struct KeptTree {
    nodes: [[u8; 32]; 63],
}

impl Model for KeptTree {
    ghost use Rattle.std.specs.Prelude.{ℕ, List};
    ghost use Rattle.mb_signer.specs.Tree.{IsSomeTree};

    ghost Value = { List (List ℕ) };

    ghost view = { λ tree. tree.nodes };

    ghost invariant = { λ tree. IsSomeTree tree.nodes };
}

impl KeptTree {
    /// The tree of a key, in 34,399 hashes: 1,074 for each leaf, and one for each of the 31 nodes above.
    pub fn build<L: Ledger>(seed: &KeySeed, hashes: &mut HashCount<L>) -> KeptTree
        ensures tree { IsTreeOf seed.now result }
        ensures counted { hashes.new ≡ hashes.old + TREE_HASHES }
    {
        let mut nodes = no_nodes();
        for q in 0..LEAVES {
            let leaf = leaf_node(seed, q, hashes);
            place(seed, &mut nodes, LEAVES + q, &leaf, hashes);
        }
        KeptTree { nodes }
    }

    /// Node `number`, from the root 1 to the last leaf 63.
    pub(crate) fn node(&self, number: u32) -> [u8; 32]
        requires first { 1 ≤ number }
        requires last { number < 64 }
        ensures { result ≡ node_at self.now number }
    {
        self.nodes[number as usize - 1]
    }
}

/// Room for the nodes of a tree.
fn no_nodes() -> [[u8; 32]; 63] {
    [[0; 32]; 63]
}

/// Leaf `q`, which is node 32 + q.
fn leaf_node<L: Ledger>(seed: &KeySeed, q: u32, hashes: &mut HashCount<L>) -> [u8; 32]
    requires { q < LEAVES }
    ensures value { result ≡ node_of seed.now (32 + q) }
    ensures counted { hashes.new ≡ hashes.old + LEAF_HASHES }
{
    let key = one_time_public(seed, q, hashes);
    hash(
        &marked(&seed.identifier, LEAVES + q, LEAF_MARK),
        &key,
        &[],
        hashes,
    )
}

/// Node `number`, the parent of two nodes.
#[tactic(auto, unfolding(mb_model::specs::signatures::Merkle::inner_node))]
fn inner_node<L: Ledger>(
    seed: &KeySeed,
    number: u32,
    left: &[u8; 32],
    right: &[u8; 32],
    hashes: &mut HashCount<L>,
) -> [u8; 32]
    ensures value { result ≡ inner_node seed.now.identifier number left.now right.now }
    ensures counted { hashes.new ≡ hashes.old + 1 }
{
    hash(
        &marked(&seed.identifier, number, INNER_MARK),
        left,
        right,
        hashes,
    )
}

/// Puts a node into the table, and each node above it whose two children then stand there.
fn place<L: Ledger>(
    seed: &KeySeed,
    nodes: &mut [[u8; 32]; 63],
    number: u32,
    node: &[u8; 32],
    hashes: &mut HashCount<L>,
)
    requires first { 1 ≤ number }
    requires last { number < 64 }
    ensures filled { (n : ℕ) → 2 ^ n ≤ number → number < 2 * 2 ^ n → node.now ≡ node_of seed.now number → IsFilled seed.now nodes.old n number → IsFilled seed.now nodes.new n (number + 1) }
    ensures counted { (n : ℕ) → 2 ^ n ≤ number → number < 2 * 2 ^ n → hashes.new + joined_above n number ≡ hashes.old + joined_above n (number + 1) }
    ensures kept { (r : ℕ) → number < r → r < 64 → node_at nodes.new r ≡ node_at nodes.old r }
{
    let at = number as usize - 1;
    nodes[at] = *node;
    if number > 1 && number % 2 == 1 {
        let parent = inner_node(seed, number / 2, &nodes[at - 1], node, hashes);
        place(seed, nodes, number / 2, &parent, hashes);
    }
}
