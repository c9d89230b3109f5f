//! Calls that write, each over the simulated board, stopped by a power loss at each of its writes.
//!
//! This crate has only tests: of `boot` on the images that orders leave, of the calls that replace a region or bind a
//! key of one, and of the call that makes a root current. After each stop the memory has to mean the state before the
//! call or the one after it, and the boots that follow have to bring it to rest with that state. The images, and what
//! they mean, are written by another program, `peers/device.py`.
#![tactic(auto)]

#[cfg(test)]
mod tests;
