//! The device: from one event to the next.
//!
//! This crate owns what a device is between two events, the answer to each event in each phase, and the serving of all
//! events of a board, each by one step of the machine. A device is taken by value and given back, since its state
//! cannot be copied.
#![tactic(auto)]

mod calls;
mod control;
mod counter_examples;
mod device;
mod orders;
mod power;
mod regions;
mod runs;
mod status;
mod step;

pub use counter_examples::tree_counter_examples;
pub use device::Device;
pub use step::STEP_HASHES;
