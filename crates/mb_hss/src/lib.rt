//! A maker's HSS key (RFC 8554, section 6): a tree of LMS keys, each of which signs the keys of the next level.
//!
//! This crate owns the spelling of an HSS public key, the verification of an HSS signature, and the maker of such
//! signatures, whose keys are all derived from one seed, with its file. Each call that makes a key or a signature
//! counts its hashes on the count of its caller, and begins no count of its own; only the hash that derives a new
//! maker's seed is not counted.
#![tactic(auto)]

mod key;
mod laws;
mod level;
mod limits;
mod maker;
mod maker_file;
mod signing;
mod verification;

pub use key::{HssKey, hss_key_bytes, parse, read_hss_key};
pub use laws::{
    indices_serve_one_text, keys_are_clear, makers_signatures_verify, numbers_are, numbers_count_up,
};
pub use limits::LEVEL_LIMIT;
pub use maker::{Maker, make_maker, number_count};
pub use maker_file::{read_maker, write_maker};
pub use mb_model::BadRecord;
pub use signing::{HssEnd, public, sign};
pub use verification::verify;
