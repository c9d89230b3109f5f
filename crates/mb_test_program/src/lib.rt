//! The program goes through plays: `program` of `mb_top`, over the simulated board on which nothing was loaded.
//!
//! This crate is for tests alone. What plays are is `mb_test_plays`.
#![tactic(auto)]

pub mod births;
mod play;

pub use play::{ends, go_on, go_through, perform};
