//! The records that a device stores, read from bytes and written to bytes.
//!
//! This crate owns how layers, entries, root and region records are read and written, and how a record is found in an
//! area of the battery-backed memory. It also owns the buffers in which a device works.
#![tactic(auto)]

mod area;
mod entry;
mod layer;
mod region;
mod room;
mod root;

pub use area::{fill_area, is_blank, record_in, region_in, root_in};
pub use entry::{EntryField, entry_bytes, read_entry, write_entry};
pub use layer::{read_layer, write_layer};
pub use mb_bytes::ReadEnd;
pub use mb_model::{BadRecord, Fate, Outgoing, Pending, Root};
pub use region::{
    StoredSecret, most_secrets, put_keys, read_region, region_of_bytes, region_version_at,
    stored_secret_at, write_region,
};
pub use room::{Room, make_area};
pub use root::{read_root, region_key_at, root_of_bytes, write_root};
