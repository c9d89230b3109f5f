//! A slot of the battery-backed memory: two areas, and a selector that says which of them is the current one.
//!
//! This crate owns how the current area is replaced so that no power loss leaves a part of it: the inactive area is
//! written whole, and then the selector. Whatever byte a torn write leaves in the selector, it chooses one of two whole
//! areas. No call takes memory.
#![tactic(auto)]

mod slot;

pub use slot::{commit, is_other_blank, read_current, wipe_other};
