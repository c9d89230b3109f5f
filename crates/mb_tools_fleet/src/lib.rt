//! The commands that keep a register of what many devices have shown.
//!
//! This crate owns what `register`, `enrol`, `devices` and `fleet` do after the words are read, and the forms of their
//! inputs.
#![tactic(auto)]

pub mod devices;
pub mod enrol;
pub mod fleet;
mod input;
mod laws;
pub mod register;
mod shown;

pub use laws::{
    devices_show_all_rows, enrolments_are_a_run, fleet_is_not_refused, registers_begin_empty,
};
