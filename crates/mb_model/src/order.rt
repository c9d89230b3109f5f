//! Orders of the layers' owners.

use crate::bytes::Bytes;
use crate::items::Items;
use crate::key::PublicKey;
use crate::layer::Trusts;

/// How long a key of a region lives.
#[derive(Clone, Copy, PartialEq, Eq)]
pub enum KeyKind {
    /// Until a change over which the region is not kept.
    Epoch,
    /// Until any change of its layer or of one beneath it.
    Configuration,
}

/// What an order demands of the device: if it does not hold, the order is refused.
#[derive(Clone, Copy, PartialEq, Eq)]
pub enum Target {
    /// The device has this serial.
    Serial([u8; 16]),
    /// The log has this many entries.
    Length(u32),
    /// The layer, 1 to 3, has an owner, and this is SHA-256 of the 56 bytes of the owner's key.
    Owner { layer: u8, hash: [u8; 32] },
    /// The layer, 1 to 3, has code, and this is SHA-256 of it.
    Code { layer: u8, hash: [u8; 32] },
}

/// The targets of an order, at most 8.
pub type Targets = Items<Target>;

/// The kinds of orders: what an order does, without what it carries.
#[derive(Clone, Copy, PartialEq, Eq)]
pub enum OrderKind {
    Establish,
    Surrender,
    Load,
    Emergency,
    NewKey,
}

/// The form of an order's spelling, which its first byte gives.
#[derive(Clone, Copy, PartialEq, Eq)]
pub struct OrderForm {
    pub kind: OrderKind,
    /// Whether the order gives its layer two trusts that differ: then both are spelled.
    pub differs: bool,
}

/// What a load of either kind carries.
#[derive(Drop)]
pub struct Payload {
    /// The version of the code.
    pub version: u32,
    /// The trusts of the layer from then on.
    pub trust: Trusts,
    /// At most 32,768 bytes.
    pub code: Bytes,
}

/// What an order does to its layer.
#[derive(Drop)]
pub enum Act {
    /// Gives the layer an owner.
    Establish { owner: PublicKey, trust: Trusts },
    /// Takes the layer's owner away.
    Surrender,
    /// The ordinary load, by the layer's own owner.
    Load(Payload),
    /// The emergency load, by the owner of the layer beneath.
    Emergency(Payload),
    /// Makes a key in the layer's region.
    NewKey { kind: KeyKind },
}

/// The signature of an owner of a higher layer on a load.
#[derive(Drop)]
pub struct Countersignature {
    /// The layer whose owner signed, 2 or 3.
    pub layer: u8,
    /// A signature (RFC 8554, section 5.4), at most 9,324 bytes.
    pub signature: Bytes,
}

/// The countersignatures of an order, in ascending order of their layers, at most 2.
pub type Countersignatures = Items<Countersignature>;

/// An order.
#[derive(Drop)]
pub struct Order {
    /// The layer that the order is for, 1 to 3.
    pub layer: u8,
    pub targets: Targets,
    pub act: Act,
    /// The signature of the owner in charge (RFC 8554, section 5.4), at most 9,324 bytes.
    pub signature: Bytes,
    pub countersignatures: Countersignatures,
}

/// The kinds of orders that change a layer.
#[derive(Clone, Copy, PartialEq, Eq)]
pub enum ChangeKind {
    Establish,
    Surrender,
    Load,
    Emergency,
}
