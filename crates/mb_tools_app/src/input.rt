//! The inputs of these commands.

pub mod assembly;
pub mod listing;
pub mod secrets;
