//! The stored regions of layers 2 and 3.
//!
//! This crate owns how a region is read from the battery-backed memory, counted, replaced, and given the fate that an
//! order left pending for it, so that wherever power fails the memory holds the region before or the one after. Each
//! call that writes takes the state of the device that reaches the region, and returns it. Only `read_stored` takes
//! memory.
#![tactic(auto)]

mod calls;
mod named;
mod stored;

pub use calls::{
    apply_fate, commit_record, commit_region, count_stored_keys, read_stored, wipe_region,
};
pub use named::Named;
pub use stored::read_area;
