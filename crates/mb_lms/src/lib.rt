//! LMS signatures of all twenty pairs of types of RFC 8554 with SHA-256: keys as bytes, and whether a signature
//! verifies.
//!
//! This crate owns the spelling of a public key, the verification of a signature, whose text may be fed in pieces, and
//! what a signer shares with it: the digits, the start of a chain's step, and the counted hash. No call takes memory.
//!
//! `hash` raises the count of its caller. `verify`, `Checker` and `key_hash` hash too and count nothing. They are of no
//! use in making a key or a signature: they answer whether a signature verifies, and the hash of the 56 bytes of a key.
//! So a crate that hashes with this crate alone makes keys and signatures with counted hashes alone.
#![tactic(auto)]

mod bytes;
mod checker;
mod hash_count;
mod key;
mod one_time;
mod parameters;
mod signature;
mod tree;

pub use checker::{Checker, verify};
pub use hash_count::{HashCount, LEAF_HASHES, SIGNING_HASHES, TREE_HASHES, hash};
pub use key::{key_bytes, key_hash, parse_key};
pub use one_time::{chain_prefix, coef, digits_of};

#[cfg(test)]
mod tests;
