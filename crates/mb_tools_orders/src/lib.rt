//! The commands by which an officer sees what an order says, who has signed it, and what a key has left.
//!
//! This crate owns what `showorder`, `ordered`, `cosign` and `showkey` do after the words are read.
#![tactic(auto)]

pub mod cosign;
mod laws;
pub mod ordered;
pub mod showkey;
mod shown;
pub mod showorder;

pub use laws::{
    exactly_what_verifies_is_named, orders_shown_alike_are_one, targets_are_shown_as_drafted,
};
