//! The generated workload: the image of a new device, a script, and its noise, all derived from one number.
//!
//! This crate owns what is drawn for a workload, in order, the orders of the device's owners that the script gives, and
//! the script's text.
#![tactic(auto)]

mod draws;
mod limits;
mod make;
mod numbers;
mod officers;
mod script;

pub use limits::ROUND_LIMIT;
pub use make::workload;
pub use mb_model_commands::Workload;
pub use numbers::numbers_are;
