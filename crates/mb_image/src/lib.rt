//! The state that an image means, or the image's first fault; the length of the log of the image's device, and whether
//! its next boot has work to do; the image of a state, written from nothing; and whether two states are equal.
//!
//! This crate owns the meaning of a device's memory as it lies: the current areas, the unsigned entries and their
//! signatures, the pending work on the regions, and whether a device can have the state that results. What a flash
//! holds is read by its form (`FlashForm`), once for every form; the present one is a flash in segments (`Segments`).
//! The crate also owns the offsets of all that stands in an image with no pending work.
#![tactic(auto)]

mod alive;
mod codes;
mod complete;
mod count;
mod fates;
mod form;
mod image;
mod log;
mod memory;
mod record;
mod regions;
mod same;
mod segments;
mod sound;
mod stored;
mod validity;
mod work;
mod written;

pub use count::log_length;
pub use form::{FlashForm, PublicParts};
pub use image::{IMAGE_HASHES, ImageEnd, stand_for, stand_for_by};
pub use same::same_state;
pub use segments::Segments;
pub use work::has_pending_work;
pub use written::{ImageRoom, write_image};
