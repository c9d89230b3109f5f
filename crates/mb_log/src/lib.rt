//! The log of a device: the entries that an order appends, whether an entry may follow those before it, and the
//! configurations in which a key lived.
//!
//! This crate owns how many entries an order needs and which they are, how a device derives its keys from the draw of
//! an event, the figures and the serial of a log, the tests of whether an entry may follow, and the life of one key by
//! the entries of a log.
#![tactic(auto)]

mod additions;
mod figures;
mod keys;
mod life;
mod rules;
mod serial;

pub use additions::{bodies, needed_with};
pub use figures::{add_entry, figures_of, layers_of, no_figures};
pub use keys::{born, derive_key};
pub use life::{BornKey, Life, ends, lives};
pub use rules::{follows, follows_figures};
pub use serial::serial_of;
