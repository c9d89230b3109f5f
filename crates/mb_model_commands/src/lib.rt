//! What the commands do: the definition of each, over that of what any command does, and the types that these name.
//!
//! This crate owns the words of the world outside: what a host shows, what an input means and at which place it is at
//! fault, which steps a command takes, and how it ends. The definitions stand in specs/, one file for each subject. What
//! a device is and does is defined in `mb_model`, which names no command. The commands that are not here are defined in
//! the crates that have their code.
#![tactic(auto)]

mod role;
mod workload;

pub use role::{Place, Role};
pub use workload::Workload;
