//! Signing by LMS keys of types 5 and 3, whose values are all derived from a seed (RFC 8554, sections 4 and 5, and
//! appendix A).
//!
//! This crate owns the rights to sign, each of which serves one signature; the tree of a key, which may be kept; the
//! bench, which has the trees of the keys at hand while one event is served; and signing. It hashes with the counted
//! hash of `mb_lms` alone. Each call that hashes adds to the count of its caller, and begins none. No call takes
//! memory.
#![tactic(auto)]

mod bench;
mod bytes;
mod key_tree;
mod one_time;
mod signing;
mod tree;
mod uses;

pub use bench::Bench;
pub use signing::{public, public_kept, sign, sign_kept};
pub use tree::KeptTree;
pub use uses::{OneUse, Uses, take_index};
