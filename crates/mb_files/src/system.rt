//! What the host asks of the system.

use std::env::FillError;
use std::fs::File;
use std::io::{Eprint, Print};
use std::rt::{Env, Files};
use std::time::Clock;

/// A runtime with the system's files, memory, a clock, the environment, the standard output and standard error.
pub trait System: Files<File = File> + AllocGlobal + Clock + Env + Print + Eprint {}

impl<R: Files<File = File> + AllocGlobal + Clock + Env + Print + Eprint> System for R {}

// Whether the environment has this variable, with a value that is not empty. Takes no memory.
pub(crate) fn has_variable<R: System>(runtime: &R, name: &str) -> bool {
    match runtime.var(name, &mut [0; 1]) {
        Ok(length) => length > 0,
        Err(FillError::TooLong) => true,
        Err(FillError::NotPresent) => false,
    }
}
