//! Answers to questions: which devices have a code, and which codes there are.

use mb_model::Items;

/// A list of serials.
pub type Serials = Items<[u8; 16]>;

/// A list of codes with their counts.
pub type Counts = Items<CodeCount>;

/// A code, and the number of the devices that have it.
#[derive(Clone, Copy, Debug, PartialEq, Eq)]
pub struct CodeCount {
    /// The hash of the code.
    pub hash: [u8; 32],
    /// The number of devices.
    pub count: u32,
}
