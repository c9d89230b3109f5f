//! The program served by `top`, over a host in memory and the simulated board: what each command makes and how it ends.
//!
//! This crate has only tests, of `mb_top`. They expect values of another program, and the ends that the rules of the
//! commands give. Whole lives of devices are tested in `mb_test_lives`.
#![tactic(auto)]

#[cfg(test)]
mod tests;
