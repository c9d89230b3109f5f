//! An order's way into the memory of a device.
//!
//! This crate owns what a device remembers of its state while power is on, and how an order is answered: it is read,
//! and judged by what is remembered and stored; its effect is spelled in full, and all memory taken; only then is it
//! written, where it does not count yet, and committed by one root record.
#![tactic(auto)]

mod committing;
mod header;
mod judging;
mod obeying;
mod planning;
mod remembering;

pub use obeying::obey;
pub use remembering::{Known, Running, Trees, remember};
