//! The commands on the code of applications.
//!
//! This crate owns what `app`, `appcode`, `callcode`, `asm`, `disasm` and `showcode` do after the words are read, the
//! forms of their inputs, and the trace of a code that is tried.
#![tactic(auto)]

pub mod app;
pub mod appcode;
pub mod asm;
pub mod callcode;
pub mod disasm;
mod input;
mod laws;
mod output;
pub mod showcode;
mod trying;

pub use laws::{app_sees_nothing_else, appcode_runs_as_app, inputs_are_clear};
