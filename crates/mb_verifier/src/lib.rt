//! The verdict on a chain of certificates under a maker's key, and the report on a key of a region.
//!
//! This crate owns the verifier: the checks of a chain in their order, the reasons for a refusal, the report on a key
//! of a region, and the listing of the report; and which key signed a statement, if none is asked for.
#![tactic(auto)]

mod chain;
mod entries;
mod listing;
mod refusal;
mod signer;
mod statement;

pub use chain::{Shown, verify, verify_entries, verify_shown};
pub use listing::{kind_word, layer_line, life_word, trust_words, write_listing};
pub use mb_model::Report;
pub use refusal::ChainRefusal;
pub use signer::{life_of, signer_of};
