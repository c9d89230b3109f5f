//! Stored regions changed in place: as bytes, and without memory.
//!
//! This crate owns how the record of a region is changed while the work of an order is done: by the fate that an order
//! gave the region, and by the use of a key. Only keys are decoded; the secrets are copied as the bytes that they are.
//! Only crates that store or use regions need it. The readers of a region's secret, key and version, and the writer of
//! its keys, are public calls of `mb_layout`: a second set of readers would have to agree with those.
#![tactic(auto)]

mod fate;
mod row;
mod stored;
mod usage;

pub use fate::fate_record;
pub use row::key_of;
pub use stored::count_keys;
pub use usage::{NotUsed, use_in_record};
