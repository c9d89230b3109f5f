//! The command of a relying party: whether its policy allows the configurations that a chain lists for a key.
//!
//! This crate owns what `trust` does after the words are read, and the form of a policy among the inputs.
#![tactic(auto)]

mod input;
mod laws;
pub mod trust;

pub use laws::inputs_are_clear;
