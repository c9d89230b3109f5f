//! What the definitions give for calls: who made an accepted statement of one, what a call changes, and what else
//! changes the region of code that takes calls.
//!
//! This crate owns no type and does nothing when it runs. Each law stands on a function with an empty body.
#![tactic(auto)]

mod accepted;
mod changes;

pub use accepted::{accepted_calls_were_made, calls_can_be_made, statements_keep_their_bytes};
pub use changes::{calls_count_wholly, calls_reach_nothing_new, sealed_regions_change_by_calls};
