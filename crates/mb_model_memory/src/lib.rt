//! What a device stores, and what it means: what an order commits, at each step of its work, and which states can
//! be stored at all.
//!
//! This crate owns no type and does nothing when it runs. Each law stands on a function with an empty body, and its
//! definitions and lemmas may be cited above.
#![tactic(auto)]

mod commits;
mod storable;

pub use commits::{
    commits_mean_their_order, memories_are_known_by_what_is_in_force,
    orders_begin_and_end_with_a_root, pieces_are_replaced_alone, rest_means_its_state,
    work_keeps_the_meaning,
};
pub use storable::{
    steps_keep_states_storable, storable_states_have_records, stored_states_are_storable,
};
