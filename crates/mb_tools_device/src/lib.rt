//! The commands that serve a device.
//!
//! This crate owns what `run`, `rehearse`, `cutat` and `generate` do after the words are read, and the forms of the
//! scripts among their inputs.
#![tactic(auto)]

mod counter_examples;
pub mod cutat;
pub mod generate;
mod laws;
pub mod rehearse;
mod replies;
pub mod run;
mod scripts;
mod serving;
mod summary;
mod twice;

pub use counter_examples::cut_counter_examples;
pub use laws::{
    cuts_count_wholly_or_not_at_all, plain_runs_are_the_machines, uncut_scripts_are_clear,
};
pub use mb_generate::ROUND_LIMIT;
