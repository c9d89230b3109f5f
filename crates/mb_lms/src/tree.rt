//! The tree over the one-time keys, from a leaf up to the root (RFC 8554, section 5).

ghost use Rattle.std.specs.Prelude.{◌≡◌, ◌*◌, ◌≤◌, length};
ghost use Rattle.mb_model.specs.signatures.Merkle.{leaf_node, inner_node, parent_node, climb};

use crate::bytes::{begun, value_at};
use mb_model::separators::{INNER_MARK, LEAF_MARK};
use sha2::Digest;

/// Node `number`, the leaf of a one-time key.
#[tactic(auto, unfolding(mb_model::specs::signatures::Merkle::leaf_node))]
pub(crate) fn leaf_node(identifier: &[u8; 16], number: u32, key: &[u8; 32]) -> [u8; 32]
    ensures { result ≡ leaf_node identifier.now number key.now }
{
    let mut hasher = begun(identifier, number, LEAF_MARK);
    hasher.update(key.as_slice());
    hasher.finalize()
}

/// Node `number`, the parent of two nodes.
#[tactic(auto, unfolding(mb_model::specs::signatures::Merkle::inner_node))]
fn inner_node(identifier: &[u8; 16], number: u32, left: &[u8; 32], right: &[u8; 32]) -> [u8; 32]
    ensures { result ≡ inner_node identifier.now number left.now right.now }
{
    let mut hasher = begun(identifier, number, INNER_MARK);
    hasher.update(left.as_slice());
    hasher.update(right.as_slice());
    hasher.finalize()
}

/// The parent of node `number`, which is its left child if the number is even.
#[tactic(auto, unfolding(mb_model::specs::signatures::Merkle::parent_node))]
fn parent_node(identifier: &[u8; 16], number: u32, node: &[u8; 32], sibling: &[u8; 32]) -> [u8; 32]
    ensures { result ≡ parent_node identifier.now number node.now sibling.now }
{
    if number % 2 == 0 {
        inner_node(identifier, number / 2, node, sibling)
    } else {
        inner_node(identifier, number / 2, sibling, node)
    }
}

/// The node `levels` levels above leaf node `number`, with the nodes of the path as siblings in turn (RFC 8554, section
/// 5.4.2).
#[tactic(auto, using(crate::proofs::Climbing::climb_rules))]
pub(crate) fn climb(
    identifier: &[u8; 16],
    number: u32,
    leaf: [u8; 32],
    path: &[u8],
    levels: u32,
) -> [u8; 32]
    requires { 32 * levels ≤ length path.now }
    ensures { result ≡ climb identifier.now number leaf path.now levels }
{
    let mut number = number;
    let mut node = leaf;
    for level in 0..levels {
        node = parent_node(identifier, number, &node, &value_at(path, level as usize));
        number /= 2;
    }
    node
}
