//! A flash in segments: which sector holds what, and the bytes of its headers and of the sectors of its log.
//!
//! This crate owns the numbers of sectors, and how a header and a sector of the log are read and written. An entry of
//! the log is its bytes here, 1 to 400 of them; `mb_layout` decides whether they spell an entry.
#![tactic(auto)]

mod header;
mod log;
mod sectors;

pub use header::{StoredHeader, header_at, read_header, write_header};
pub use log::{LogSector, log_at, put_log};
pub use mb_bytes::ReadEnd;
pub use mb_model::{BadRecord, Header, Slot};
pub use sectors::{code_sector, header_sector, log_sector};
