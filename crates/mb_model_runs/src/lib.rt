//! What the definitions give for whole runs, for the log and the chain of a device, and for the orders that officers
//! sign.
//!
//! This crate owns no type and does nothing when it runs. Each law stands on a function with an empty body;
//! `mb_top` cites the lemmas on runs and chains.
#![tactic(auto)]

mod chains;
mod indices;
mod officers;
mod runs;
mod statements;

pub use chains::device_chains_are_accepted;
pub use indices::device_indices_are_used_once;
pub use officers::{right_officers_are_obeyed, tools_make_right_orders};
pub use runs::{answers_leave_clean, logs_only_grow, runs_are_sound};
pub use statements::{statements_are_accepted, statements_are_of_keys};
