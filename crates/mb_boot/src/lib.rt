//! How a device comes up and how an order's work ends: pending work is done, and old secrets are wiped.
//!
//! This crate owns the order in which pending work is done, so that the memory means one state wherever power fails;
//! the boot that leaves a memory clean; and `finish_order`, which leaves it clean once an order is committed. Unsigned
//! entries are signed by the key and at the index that the root record names, so that a signature made again after a
//! power loss is the same one. No entry is signed before the root record is committed, and none counts as signed before
//! its sector of the log is written. `boot` takes memory before its first write; no other call takes any.
#![tactic(auto)]

mod device;
mod pending;
mod work;

pub use device::{BootEnd, boot, finish_order};
