//! The log of a device, and what is shown of it.

use crate::bytes::Bytes;
use crate::items::Items;
use crate::key::PublicKey;
use crate::layer::{Layers, Pair};
use crate::order::{ChangeKind, KeyKind};

/// An entry of the log.
#[derive(Clone, Copy, PartialEq, Eq)]
pub enum Entry {
    /// The device was made: its serial, its first device key, and its layers.
    Birth {
        /// The version of the entry's spelling: 1 spells one trust for each of its layers, 2 spells both.
        version: u8,
        serial: [u8; 16],
        key: PublicKey,
        layers: Layers,
    },
    /// A layer was changed.
    Change {
        /// The version of the entry's spelling: 1 spells one trust for each of its layers, 2 spells both.
        version: u8,
        /// How many entries stand before this one.
        position: u32,
        /// How many changes there are up to this one: the configuration number from here on.
        number: u32,
        kind: ChangeKind,
        /// The layer that was changed, 1 to 3.
        layer: u8,
        /// The layers whose owners countersigned.
        cosigned: Pair,
        /// The layers afterwards.
        layers: Layers,
        /// The regions that were kept.
        kept: Pair,
        /// The next device key, if the change makes one.
        next: Option<PublicKey>,
    },
    /// A key was made in a region.
    NewKey {
        /// How many entries stand before this one.
        position: u32,
        /// The configuration number.
        number: u32,
        /// The key's number among all keys of the device.
        key_number: u32,
        /// The region's layer, 2 or 3.
        layer: u8,
        kind: KeyKind,
        key: PublicKey,
    },
    /// The device key gives way to the next, and signs this entry with its last index.
    Succession {
        /// How many entries stand before this one.
        position: u32,
        key: PublicKey,
    },
}

/// Entries in order.
pub type Entries = Items<Entry>;

/// An entry and its signature: by the maker's key at the birth, by a device key otherwise (RFC 8554, section 5.4).
#[derive(Clone, Copy, PartialEq, Eq)]
pub struct SignedEntry {
    pub entry: Entry,
    pub signature: [u8; 2348],
}

/// The log of a device, at most 128 entries.
pub type Log = Items<SignedEntry>;

/// An entry as it is stored; its signature may still be missing.
#[derive(Clone, Copy, PartialEq, Eq)]
pub struct PublicEntry {
    pub entry: Entry,
    pub signature: Option<[u8; 2348]>,
}

/// Stored entries in order.
pub type PublicEntries = Items<PublicEntry>;

/// What a statement says.
#[derive(Drop)]
pub enum Said {
    /// A message, at most 128 bytes, that the host chose.
    Message(Bytes),
    /// What the code of the key's layer answered to an input.
    Answer {
        /// The SHA-256 of the input.
        input: [u8; 32],
        /// At most 128 bytes.
        answer: Bytes,
    },
}

/// What a region's key signed.
#[derive(Drop)]
pub struct Statement {
    /// The configuration number at which it was signed.
    pub number: u32,
    /// What is signed.
    pub said: Said,
    /// The region key's signature (RFC 8554, section 5.4).
    pub signature: [u8; 2348],
}

/// A chain of certificates: the log of a device or a prefix of it, and at most one statement.
#[derive(Drop)]
pub struct Chain {
    pub entries: Log,
    pub statement: Option<Statement>,
}
