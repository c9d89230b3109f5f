//! The commands that show what images and chains say.
//!
//! This crate owns what `showimage` and `history` do after the words are read: the lines that show a device by its
//! image, and the lines that tell a device's history by its chain.
#![tactic(auto)]

mod entries;
pub mod history;
mod laws;
mod lines;
pub mod showimage;
mod state;
mod told;

pub use laws::{histories_tell_entries, images_tell_no_secrets, refusals_are_those_of_verify};
