//! Limits of a policy.

/// The most lines of a policy that are not skipped.
pub const LINE_LIMIT: usize = 256;

/// The most hashes of a set.
pub const HASH_LIMIT: usize = 64;

/// The greatest depth of a test. A test without an inner test has depth 1.
pub const DEPTH_LIMIT: u32 = 32;
