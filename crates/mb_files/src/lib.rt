//! The files of the system, replaced whole: the trusted edge on which the program stands.
//!
//! This crate owns the host over the system's files and its standard output, `RealHost`. Two commands at once on one
//! file, a kill and a power loss lose nothing: a file that was read is locked until the process ends, and a file is
//! replaced whole. No clause says so, since none sees the system's files: it is tested. Only the program and its tests
//! stand on this crate, so that it changes without proving the others anew.
#![tactic(auto)]

mod faults;
mod identity;
mod kept;
mod obstacle;
mod opened;
mod output;
mod path_text;
mod real;
mod replacement;
mod system;
mod told;
mod whole;

pub use real::RealHost;
pub use system::System;
