//! The work of officers' tools, and of a maker's, on keys, orders and new devices.
//!
//! This crate owns the file of an officer's key, read and written; the derivation of a key from noise; the drafts of
//! orders, read line by line; the signing and countersigning of orders, each of which uses up one index of a key; the
//! line of an order, read and written; and the image of a new device, whose birth a maker's key signs.
#![tactic(auto)]

mod birth;
mod draft;
mod keyfile;
mod make;
mod order_line;
mod signing;
mod words;

pub use birth::factory;
pub use draft::{DraftEnd, read_draft};
pub use keyfile::{read_keyfile, write_keyfile};
pub use make::make_key;
pub use mb_model::{BadRecord, Keyfile};
pub use order_line::{OrderLineEnd, read_order_line, write_order_line};
pub use signing::{SignEnd, countersign, is_countersignable, sign_order};
