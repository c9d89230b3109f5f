//! The board: a trait for a device's memories, its power and the events that it is given, and a board that
//! simulates one.
//!
//! This crate owns what may be relied on of the hardware: what a write call leaves if power fails in it, which part of
//! the battery-backed memory each level of the ratchet reaches, and when an answer is taken.
#![tactic(auto)]

mod bank;
mod board;
mod fuse;
mod sim;

pub use board::{Board, Stopped};
pub use fuse::Cut;
pub use sim::SimBoard;
