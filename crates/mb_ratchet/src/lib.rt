//! The typed states of a device by its hardware ratchet.
//!
//! This crate owns the ratchet's register, the types that show in which state it is, and which of these states reach
//! which compartment of the battery-backed memory. A state is used up by the call that leaves it, and cannot be copied, so
//! that the level only rises until power goes. No call takes memory.
#![tactic(auto)]

mod reach;
mod register;
mod state;

pub use reach::{Compartment, One, Reaches, Three, Two};
pub use register::Register;
pub use state::{Dead, Off, R1, R2, R3, Up, Zero};

#[cfg(test)]
mod tests;
