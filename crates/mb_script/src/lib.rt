//! Scripts and replies as text.
//!
//! This crate owns the reading of a script into events, the draws of its commands, and the writing of replies, a line
//! each.
#![tactic(auto)]

mod draws;
mod events;
mod replies;
mod script;
mod words;

pub use draws::{ShortNoise, place_draws};
pub use replies::write_reply;
pub use script::{ScriptEnd, line_of, read_script};
pub use words::read_tear;
