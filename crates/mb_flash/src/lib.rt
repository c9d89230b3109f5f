//! Sectors of the flash.
//!
//! This crate owns how sectors of the flash are written: none that holds its bytes already, and each of the others
//! erased and programmed once. If power fails, all other sectors are as they were. No call takes memory.
#![tactic(auto)]

mod sector;

pub use sector::{write_sector, write_sectors};
