//! Limits of HSS (RFC 8554, section 6).

/// The most levels of an HSS key.
pub const LEVEL_LIMIT: u8 = 8;
