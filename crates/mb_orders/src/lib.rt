//! Whether an order is obeyed, and its effect.
//!
//! This crate owns the checks of an order, which are tried in a fixed sequence, and the plan of an order that passes:
//! the layers afterwards, the entries and keys that it adds, and what becomes of each region.
#![tactic(auto)]

mod checks;
mod plan;
mod room;
mod signatures;

pub use checks::check;
pub use plan::{Plan, make_plan};
