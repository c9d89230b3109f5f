//! The parameters of a key's types, and the numbers of the types (RFC 8554, sections 4.1 and 5.1).

ghost use Rattle.std.specs.Prelude.{◌≡◌, ◌-◌, ◌/◌, ◌^◌, ◌≤◌, MatchOption};
ghost use Rattle.mb_model.specs.declared.key.Tree.{Tree};
ghost use Rattle.mb_model.specs.declared.key.Chains.{Chains};
ghost use Rattle.mb_model.specs.signatures.Key.{tree_type, height, chains_type, digit_bits, chain_count};

use mb_model::{Chains, Tree};

/// The tree of an LMS type number; `None` if it is not in the table.
pub(crate) fn tree_of_type(number: u32) -> Option<Tree>
    ensures { MatchOption result ((tree : Tree) → tree_type tree ≡ number → ⊥) (λ tree. tree_type tree ≡ number) }
{
    match number {
        5 => Some(Tree::H5),
        6 => Some(Tree::H10),
        7 => Some(Tree::H15),
        8 => Some(Tree::H20),
        9 => Some(Tree::H25),
        _ => None,
    }
}

/// The tree's height, in levels above the leaves.
pub(crate) fn height(tree: Tree) -> u32
    ensures value { result ≡ height tree }
    ensures bound { result ≤ 25 }
{
    match tree {
        Tree::H5 => 5,
        Tree::H10 => 10,
        Tree::H15 => 15,
        Tree::H20 => 20,
        Tree::H25 => 25,
    }
}

/// The chains of an LM-OTS type number; `None` if it is not in the table.
pub(crate) fn chains_of_type(number: u32) -> Option<Chains>
    ensures { MatchOption result ((chains : Chains) → chains_type chains ≡ number → ⊥) (λ chains. chains_type chains ≡ number) }
{
    match number {
        1 => Some(Chains::W1),
        2 => Some(Chains::W2),
        3 => Some(Chains::W4),
        4 => Some(Chains::W8),
        _ => None,
    }
}

/// The number of chains of a one-time key.
pub(crate) fn chain_count(chains: Chains) -> u16
    ensures value { result ≡ chain_count chains }
    ensures bound { result ≤ 265 }
{
    match chains {
        Chains::W1 => 265,
        Chains::W2 => 133,
        Chains::W4 => 67,
        Chains::W8 => 34,
    }
}

/// The greatest digit: the number of steps of a chain.
pub(crate) fn greatest_digit(chains: Chains) -> u8
    ensures { result ≡ 2 ^ digit_bits chains - 1 }
{
    match chains {
        Chains::W1 => 1,
        Chains::W2 => 3,
        Chains::W4 => 15,
        Chains::W8 => 255,
    }
}

/// The number of digits in the 256 bits of a hash.
pub(crate) fn hash_digits(chains: Chains) -> u16
    ensures { result ≡ 256 / digit_bits chains }
{
    match chains {
        Chains::W1 => 256,
        Chains::W2 => 128,
        Chains::W4 => 64,
        Chains::W8 => 32,
    }
}
