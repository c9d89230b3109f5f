//! The state of a device, and the part of it by which an order is judged.

use crate::bytes::Bytes;
use crate::entry::{Entries, Log, Said};
use crate::items::Items;
use crate::key::{KeySeed, PublicKey};
use crate::layer::{Layers, Pair};
use crate::order::{ChangeKind, KeyKind};
use crate::region::{Region, RegionKey};
use crate::stored::Outgoing;

/// The code of each layer that has some, at most 32,768 bytes each.
#[derive(Drop)]
pub struct Codes {
    pub one: Option<Bytes>,
    pub two: Option<Bytes>,
    pub three: Option<Bytes>,
}

/// All that a live device keeps. A dead one keeps nothing.
#[derive(Drop)]
pub struct State {
    /// The device's serial.
    pub serial: [u8; 16],
    pub layers: Layers,
    pub codes: Codes,
    pub log: Log,
    /// The device key.
    pub device: KeySeed,
    /// How many of the device key's 32 indices are used.
    pub uses: u32,
    /// The region of layer 2.
    pub two: Region,
    /// The region of layer 3.
    pub three: Region,
}

/// What the entries of a log say together: all that the next entry is judged by.
#[derive(Clone, Copy)]
pub struct Figures {
    /// How many entries there are.
    pub length: u32,
    /// The configuration number: how many of them are changes.
    pub number: u32,
    /// The layers of the last birth or change.
    pub layers: Layers,
    /// The device key that the entries name last.
    pub device: Option<PublicKey>,
    /// How many entries follow the one that names the device key.
    pub uses: u32,
    /// How many keys the entries name.
    pub keys_made: u32,
    /// Whether an entry has version 2.
    pub version_two: bool,
}

/// The part of a state by which an order is judged. Its layers are those of the state, and those of figures what the
/// log names, which are the same only if the state is valid. So a view does not hold figures: `OrderStep` would mean
/// something else in a state that is not valid.
#[derive(Clone, Copy, PartialEq, Eq)]
pub struct View {
    /// The device's serial.
    pub serial: [u8; 16],
    pub layers: Layers,
    /// How many entries the log has.
    pub length: u32,
    /// The configuration number.
    pub number: u32,
    /// How many keys the log's entries name.
    pub keys_made: u32,
    /// The device key.
    pub device: KeySeed,
    /// How many of the device key's indices are used.
    pub uses: u32,
    /// How many keys region 2 has.
    pub keys_two: u32,
    /// How many keys region 3 has.
    pub keys_three: u32,
}

/// What an order makes true and its entry will record.
#[derive(Clone, Copy, PartialEq, Eq)]
pub enum Fact {
    /// A layer is changed.
    Change {
        kind: ChangeKind,
        /// 1 to 3.
        layer: u8,
        /// The layers whose owners countersigned.
        cosigned: Pair,
        /// The layers afterwards.
        layers: Layers,
        /// The regions that are kept.
        kept: Pair,
    },
    /// A key is made in a region.
    NewKey {
        /// The region's layer, 2 or 3.
        layer: u8,
        kind: KeyKind,
    },
}

/// What a fact adds to a device.
#[derive(Drop)]
pub struct Bodies {
    /// The new entries, one or two, not signed yet.
    pub entries: Entries,
    /// The device key afterwards.
    pub device: KeySeed,
    /// How many indices of that key are used, those of the new entries included.
    pub uses: u32,
    /// The device key before, if it gives way.
    pub outgoing: Option<Outgoing>,
    /// The new key of a region.
    pub key: Option<RegionKey>,
}

/// Whether an entry may follow those before it.
#[derive(Clone, Copy, PartialEq, Eq)]
pub enum Follow {
    Yes,
    /// The entry has a wrong position, or its signature a wrong index.
    Order,
    /// The entry breaks the rules of the log.
    Rules,
}

/// A configuration in which a key lived.
#[derive(Clone, Copy, PartialEq, Eq)]
pub struct Configuration {
    /// The configuration number.
    pub number: u32,
    /// The key's layer, 2 or 3.
    pub upto: u8,
    /// The layers up to the key's. Each layer above appears as one without an owner.
    pub layers: Layers,
}

/// The configurations in which a key lived, in order.
pub type Lives = Items<Configuration>;

/// What a verifier learns about a key of a region from a chain that it accepts. It has the number of entries, so that
/// an audit knows how far to compare without reading the chain again.
#[derive(Drop)]
pub struct Report {
    /// The key's layer, 2 or 3.
    pub layer: u8,
    pub kind: KeyKind,
    /// Whether the key is alive at the chain's end.
    pub alive: bool,
    /// The configurations in which the key lived.
    pub lives: Lives,
    /// How many entries the chain has.
    pub entries: u32,
    /// What the chain's statement says, if it has one.
    pub said: Option<Said>,
}
