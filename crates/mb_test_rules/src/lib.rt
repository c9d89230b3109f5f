//! What is allowed and what is accepted: orders, logs, chains and images by the rules, and a board's power losses.
//!
//! This crate has only tests: of `mb_authority`, `mb_log`, `mb_orders`, `mb_verifier`, `mb_image` and `mb_board`. They
//! expect values of other programs, and what the rules of the device give.
#![tactic(auto)]

#[cfg(test)]
mod tests;
