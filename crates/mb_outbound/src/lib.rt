//! Signing by the keys of regions.
//!
//! This crate owns how a key of a region is bound: its raised count of uses is stored, and the region's old area is
//! wiped, before the right to sign at the index is returned. No index serves two statements, wherever power fails. A key
//! is bound by itself, or in one with a region that replaces the stored one. The crate also owns what such a right signs,
//! and the tree of the key that signed last. No call takes memory.
#![tactic(auto)]

mod binding;
mod given;
mod kept;
mod stating;

pub use binding::{BindEnd, bind};
pub use given::{bind_region, check_key, put_region};
pub use kept::{RegionTree, region_tree};
pub use stating::{Subject, state_text};
