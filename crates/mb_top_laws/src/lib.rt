//! Laws of all commands together.
//!
//! This crate owns what holds of each row of the table of `mb_top`, by its definition alone. No command calls it.
#![tactic(auto)]

mod endorsements;
mod ends;
mod loads;
mod sight;

pub use endorsements::{endorsements_are_accepted, makers_endorse_once};
pub use ends::ends_are_determined;
pub use loads::loads_are_counted;
pub use sight::app_tells_no_more_of_images;
