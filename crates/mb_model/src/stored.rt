//! What stands in a device's memory: the decoded records.

ghost use Rattle.std.specs.Prelude.{◌≡◌};
ghost use Rattle.mb_model.specs.memories.Meaning.{fate_of_two, fate_of_three};

use crate::bytes::Bytes;
use crate::entry::PublicEntries;
use crate::key::KeySeed;
use crate::region::RegionKey;
use crate::state::Codes;

/// A device key that gives way, until its last entry is signed.
#[derive(Clone, Copy, PartialEq, Eq)]
pub struct Outgoing {
    pub seed: KeySeed,
    /// How many of the key's indices are used, 1 to 32, that of its unsigned entry included.
    pub uses: u32,
}

/// Who signs an entry: a key, and the index at which it signs.
#[derive(Drop)]
pub struct Signer {
    pub key: KeySeed,
    pub index: u32,
}

/// What is still to be done to a region.
#[derive(Clone, Copy, PartialEq, Eq)]
pub enum Fate {
    /// The region stays as it is.
    Keep,
    /// The region becomes empty.
    Empty,
    /// The region loses its configuration keys.
    DropConfiguration,
    /// The region gets this key, unless it has a key with that number.
    AddKey(RegionKey),
}

/// The work that an order has left to be done.
#[derive(Clone, Copy, PartialEq, Eq)]
pub struct Pending {
    /// How many entries at the log's end are not signed yet, 1 or 2.
    pub unsigned: u8,
    /// The device key that signs the first unsigned entry, if it is not the current one.
    pub outgoing: Option<Outgoing>,
    /// What becomes of region 2.
    pub two: Fate,
    /// What becomes of region 3.
    pub three: Fate,
}

/// The root record of the battery-backed memory.
#[derive(Clone, Copy, PartialEq, Eq)]
pub struct Root {
    /// The current area of the flash: 0 for the first, 1 for the second.
    pub area: u8,
    /// The device's serial.
    pub serial: [u8; 16],
    /// The device key.
    pub device: KeySeed,
    /// How many of the device key's 32 indices are used, those of entries not signed yet included.
    pub uses: u32,
    pub pending: Option<Pending>,
}

impl Root {
    /// What is still to be done to region 2.
    pub fn fate_of_two(&self) -> Fate
        ensures { result ≡ fate_of_two self.now.pending }
    {
        match &self.pending {
            Some(pending) => pending.two,
            None => Fate::Keep,
        }
    }

    /// What is still to be done to region 3.
    pub fn fate_of_three(&self) -> Fate
        ensures { result ≡ fate_of_three self.now.pending }
    {
        match &self.pending {
            Some(pending) => pending.three,
            None => Fate::Keep,
        }
    }
}

/// The public record of the flash.
#[derive(Drop)]
pub struct Public {
    pub codes: Codes,
    pub entries: PublicEntries,
}

/// Where in the flash the code of a layer stands, and how long the code is. Each layer has two slots there, 1 and 2.
#[derive(Clone, Copy, PartialEq, Eq)]
pub struct Slot {
    /// The slot, 1 or 2; 0 if the layer has no code.
    pub which: u8,
    /// The length of the code in bytes, at most 32,768; 0 if the layer has no code.
    pub length: u32,
}

/// The header of a flash in segments: where the code of each layer stands, how many entries of the log are signed, and
/// the entries that are not signed yet.
#[derive(Drop)]
pub struct Header {
    /// Where the code of layer 1 stands.
    pub one: Slot,
    /// Where the code of layer 2 stands.
    pub two: Slot,
    /// Where the code of layer 3 stands.
    pub three: Slot,
    /// The number of signed entries, 1 to 128.
    pub signed: u32,
    /// The first unsigned entry as bytes, 1 to 400 of them; none if every entry is signed.
    pub first: Option<Bytes>,
    /// The second unsigned entry as bytes, 1 to 400 of them; none if at most one entry is unsigned.
    pub second: Option<Bytes>,
}
