//! The program: its table of commands.
//!
//! This crate owns the program over any host and board, and the table of its commands. What each command does is in
//! `mb_tools` and the crates beside it, and what all commands share is in `mb_console`.
//!
//! Any call that takes memory may answer that an allocation failed. The tests of `mb_test_lives` show that commands are
//! done.
#![tactic(auto)]

mod command_line;
mod commands;
mod counter_examples;
mod table;

pub use command_line::{NoWords, VERSION, program};
pub use commands::top;
pub use counter_examples::end_counter_examples;
pub use table::{Command, GROUPS};
