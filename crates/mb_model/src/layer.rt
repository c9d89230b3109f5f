//! The layers of a device.

ghost use Rattle.std.specs.Prelude.{◌≡◌};
ghost use Rattle.mb_model.specs.owners.Layers.{equal_trusts, are_equal, layer_without_owner};

use crate::key::{PublicKey, Trust};

/// The name of a layer's code. The version is recorded and never compared: whether older code may come back is for the
/// owner to say, who can name the length of the log as a target.
#[derive(Clone, Copy, PartialEq, Eq)]
pub struct CodeName {
    /// SHA-256 of the code's bytes.
    pub hash: [u8; 32],
    /// The version that the order gave it.
    pub version: u32,
}

/// The trusts of a layer in changes of the layers beneath it. A trust in a layer that is not beneath it is stored and
/// never used. As many trusts as there are layers beneath would need a type for each layer.
#[derive(Clone, Copy, PartialEq, Eq)]
pub struct Trusts {
    /// The trust in changes of layer 1.
    pub one: Trust,
    /// The trust in changes of layer 2.
    pub two: Trust,
}

impl Trusts {
    /// One trust, in changes of layer 1 and of layer 2 alike.
    pub fn equal(trust: Trust) -> Trusts
        ensures { result ≡ equal_trusts trust }
    {
        Trusts {
            one: trust,
            two: trust,
        }
    }

    /// Whether changes of layer 1 and of layer 2 are trusted alike.
    pub fn are_equal(self) -> bool
        ensures { result ≡ are_equal self }
    {
        match (self.one, self.two) {
            (Trust::Always, Trust::Always) => true,
            (Trust::Never, Trust::Never) => true,
            (Trust::Countersigned, Trust::Countersigned) => true,
            _ => false,
        }
    }
}

/// A layer. Without an owner it has no code, is not reliable, and both its trusts are never.
#[derive(Clone, Copy, PartialEq, Eq)]
pub struct Layer {
    /// The public key of its owner.
    pub owner: Option<PublicKey>,
    /// The name of its code.
    pub code: Option<CodeName>,
    /// Whether its code is to be relied on.
    pub reliable: bool,
    /// Which loads beneath it the layer admits. Any other change beneath it empties its region and leaves it
    /// unreliable.
    pub trust: Trusts,
}

impl Layer {
    /// A layer without an owner.
    pub fn unowned() -> Layer
        ensures { result ≡ layer_without_owner }
    {
        Layer {
            owner: None,
            code: None,
            reliable: false,
            trust: Trusts::equal(Trust::Never),
        }
    }
}

/// The layers of a device that can change. Layer 1 always has an owner and is reliable.
#[derive(Clone, Copy, PartialEq, Eq)]
pub struct Layers {
    pub one: Layer,
    pub two: Layer,
    pub three: Layer,
}

/// A set of layers 2 and 3, or of their regions.
#[derive(Clone, Copy, PartialEq, Eq)]
pub struct Pair {
    pub two: bool,
    pub three: bool,
}
