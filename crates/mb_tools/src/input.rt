//! The inputs of the tools: the form of each.

pub mod chains;
pub mod devices;
pub mod keys;
pub mod orders;
