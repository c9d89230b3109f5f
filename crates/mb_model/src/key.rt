//! Keys and their parameters (RFC 8554, sections 4 and 5), and what a layer trusts.

/// The height of a tree of one-time keys, 5 to 25, which gives 2^5 to 2^25 of them: the LMS types 5 to 9 (RFC 8554,
/// section 5.1).
#[derive(Clone, Copy, PartialEq, Eq)]
pub enum Tree {
    H5,
    H10,
    H15,
    H20,
    H25,
}

/// How many bits one chain of a one-time key signs, 1 to 8: the LM-OTS types 1 to 4 (RFC 8554, section 4.1).
#[derive(Clone, Copy, PartialEq, Eq)]
pub enum Chains {
    W1,
    W2,
    W4,
    W8,
}

/// A public key of LMS (RFC 8554, section 5.3).
#[derive(Clone, Copy, PartialEq, Eq)]
pub struct PublicKey {
    /// The tree's height.
    pub tree: Tree,
    /// The width of its one-time keys.
    pub chains: Chains,
    /// The identifier I of the key pair.
    pub identifier: [u8; 16],
    /// T[1], the hash at the tree's root.
    pub root: [u8; 32],
}

/// The seed of a private key of LMS of types 5 and 3: all values of the key are derived from it (RFC 8554, appendix A).
#[derive(Clone, Copy, PartialEq, Eq)]
pub struct KeySeed {
    /// The identifier I of the key pair.
    pub identifier: [u8; 16],
    /// The secret SEED.
    pub seed: [u8; 32],
}

/// When a layer keeps its secrets over a change beneath it.
#[derive(Clone, Copy, PartialEq, Eq)]
pub enum Trust {
    /// At each load.
    Always,
    /// At none.
    Never,
    /// At a load that the layer's own owner has countersigned.
    Countersigned,
}
