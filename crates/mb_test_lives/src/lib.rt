//! Whole lives of devices, served by `top` over a host in memory and the simulated board.
//!
//! This crate has only tests, of `mb_top`. They expect values of another program, and the replies that the rules of a
//! device give. The commands by themselves are tested in `mb_test_commands`.
#![tactic(auto)]

#[cfg(test)]
mod tests;
