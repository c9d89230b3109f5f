//! Limits of a register and of what it answers.

/// The most devices of a register.
pub const DEVICE_LIMIT: u16 = 512;

/// The longest text of answers, in bytes.
pub const TEXT_LIMIT: usize = 268_435_456;
