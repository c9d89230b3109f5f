//! What the calls on a register come to.

ghost use Rattle.std.specs.Prelude.{◌≡◌};

use mb_bytes::ReadEnd;
use mb_model::NoMemory;
use mb_verifier::ChainRefusal;

/// A chain that a register took, or had taken before. Each variant has the serial of the device, and the number of the
/// chain's entries.
#[derive(Clone, Copy, Debug, PartialEq, Eq)]
pub enum Added {
    /// The device has shown just these entries before.
    Same { serial: [u8; 16], length: u32 },
    /// The device is new.
    Added { serial: [u8; 16], length: u32 },
    /// The device has shown a proper prefix of these entries before.
    Extended { serial: [u8; 16], length: u32 },
}

/// Why a register does not take a chain.
#[derive(Clone, Copy, Debug, PartialEq, Eq)]
pub enum FleetEnd {
    /// The verifier refuses the chain for its form or an entry; never for want of memory.
    Chain(ChainRefusal),
    /// The device has shown these entries and more.
    Older {
        /// The serial of the device.
        serial: [u8; 16],
        /// The number of the entries that it has shown.
        have: u32,
    },
    /// The device has shown another past.
    Fork {
        /// The serial of the device.
        serial: [u8; 16],
        /// The index, from 0, of the first entry that differs.
        place: u32,
    },
    /// The device is new, and the register is full.
    Full,
    /// An allocation failed. No clause says when; the tests show chains with ample memory.
    NoMemory,
}

impl From<NoMemory> for FleetEnd {
    ghost use Rattle.mb_fleet.specs.declared.end.FleetEnd.TheVariants as end;

    ghost from_gives = { λ _ e. e ≡ end.NoMemory };

    fn from(_error: NoMemory) -> FleetEnd {
        FleetEnd::NoMemory
    }
}

/// Why a register or items were not read: the bytes spell none, or an allocation failed.
pub type FleetReadEnd = ReadEnd;

/// Why items were not served.
#[derive(Clone, Copy, Debug, PartialEq, Eq)]
pub enum ServeEnd {
    /// The text of the answers is longer than 268,435,456 bytes.
    TooLong,
    /// An allocation failed. No clause says when; the tests serve with ample memory.
    NoMemory,
}

impl From<NoMemory> for ServeEnd {
    ghost use Rattle.mb_fleet.specs.declared.end.ServeEnd.TheVariants as end;

    ghost from_gives = { λ _ e. e ≡ end.NoMemory };

    fn from(_error: NoMemory) -> ServeEnd {
        ServeEnd::NoMemory
    }
}
