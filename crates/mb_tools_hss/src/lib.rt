//! The commands of a maker's HSS key, which endorses factory root keys.
//!
//! This crate owns what `hsskeygen`, `showmaker`, `endorse` and `endorsed` do after the words are read, and the forms
//! of the inputs that no other command has.
#![tactic(auto)]

pub mod endorse;
pub mod endorsed;
pub mod hsskeygen;
mod input;
mod laws;
pub mod showmaker;

pub use laws::{inputs_are_clear, numbers_are};
pub use mb_hss::LEVEL_LIMIT;
