//! The parts of a device's memory that its root record governs: the root record itself, and the code, headers and log
//! in the flash.
//!
//! This crate owns how a device is looked at when it comes up, how code, headers and sectors of the log are written
//! where the current header does not count them, and how a root record is committed, by an order and once the order's
//! work is done. It owns the states `Unsettled`, `Working` and `Unwiped` of a device in which such work is left; they
//! cannot be dropped. No call takes memory.
#![tactic(auto)]

mod first_look;
mod public;
mod root;
mod state;

pub use first_look::{Looked, look};
pub use public::{read_code, read_header, read_log, takes_calls, write_log, write_public};
pub use root::{commit_root, finish_root, read_root, wipe_root};
pub use state::{Unsettled, Unwiped, Working};
