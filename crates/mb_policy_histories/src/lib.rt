//! What the definitions give for a relying party with a policy: what it may conclude from `allowed`, and what a host
//! changes by shortening a chain.
//!
//! This crate owns no type and does nothing when it runs. Each law stands on a function with an empty body.
#![tactic(auto)]

mod laws;

pub use laws::{
    allowed_calls_tell_the_code, allowed_statements_were_made, shortened_chains_stay_allowed,
};
