//! Limits of a workload.

/// The most rounds of a workload.
pub const ROUND_LIMIT: u32 = 24;
