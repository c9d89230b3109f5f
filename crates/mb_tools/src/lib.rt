//! The commands that need no device: those of makers, officers and relying parties.
//!
//! This crate owns what `keygen`, `sign`, `countersign`, `factory`, `migrate`, `verify`, `audit`, `chain` and `attach`
//! do after the words are read, and the forms of their inputs.
#![tactic(auto)]

pub mod attach;
pub mod audit;
pub mod chain;
pub mod factory;
mod input;
pub mod keygen;
pub mod migrate;
pub mod sign;
pub mod verify;

pub use input::chains::AnyBytes;
pub use input::devices::{CodeForm, Image, read_image};
pub use input::keys::{KeyForm, Leading, PublicKeyForm};
pub use input::orders::{DraftForm, OrderLine};
