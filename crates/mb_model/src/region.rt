//! What a device keeps for a layer.

use crate::bytes::Bytes;
use crate::items::Items;
use crate::key::KeySeed;
use crate::order::KeyKind;

/// A secret of a region.
#[derive(Drop)]
pub struct Secret {
    /// 1 to 32 bytes from 0x21 to 0x7E.
    pub name: Bytes,
    /// At most 128 bytes.
    pub value: Bytes,
    /// The configuration number at which it was put.
    pub born: u32,
}

/// The secrets of a region, at most 22.
pub type Secrets = Items<Secret>;

/// A key of a region.
#[derive(Clone, Copy, PartialEq, Eq)]
pub struct RegionKey {
    /// The key's number among all keys of the device.
    pub number: u32,
    pub kind: KeyKind,
    pub seed: KeySeed,
    /// How many of the key's 32 indices are used.
    pub uses: u32,
}

/// The keys of a region in the order of their numbers, at most 8.
pub type RegionKeys = Items<RegionKey>;

/// The region of layer 2 or 3.
#[derive(Drop)]
pub struct Region {
    pub secrets: Secrets,
    pub keys: RegionKeys,
}
