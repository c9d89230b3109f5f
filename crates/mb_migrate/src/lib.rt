//! What the flash of a device held before it was divided into segments: a record of codes and log in each of two areas.
//! Migration brings an image of that form, the earlier one, or of the current form, to the current form with no work
//! pending.
//!
//! This crate owns the public record of the earlier form, both ways, the meaning of an image of that form, and which of
//! the two forms a migration tries first.
#![tactic(auto)]

mod area;
mod entries;
mod image;
mod laws;
mod migration;
mod public;
mod stored;

pub use area::{public_at_start, record_at_start};
pub use image::old_stand_for;
pub use laws::migrations_are_clear;
pub use migration::migrate;
pub use public::{public_of_bytes, read_public, write_public_record};
pub use stored::OneRecord;
