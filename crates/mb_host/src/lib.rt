//! The world outside: a trait for files and printing, and a host in memory.
//!
//! This crate owns what may be relied on of the outside, failing or not. The host over the files of the system stands
//! above it, in a crate of its own.
#![tactic(auto)]

mod count;
mod host;
mod memory;

pub use count::raised;
pub use host::{Host, HostEnd, HostFailed};
pub use memory::MemoryHost;
