//! What layers do with their regions: they keep, read and drop secrets, and sign messages; and their code is called.
//!
//! This crate owns the answers to the events in which a layer uses its region, once the layer may run and is reached.
//! An answer is made from the stored region. All memory is taken before anything is written: so an event that would be
//! refused `full`, `key` or `spent`, or answered `absent`, may be answered `no memory`. The other way is a pass over
//! the stored bytes for the answer alone. The region is replaced wholly or not at all, and its old area is wiped before
//! the answer. The outcome of each event is defined in `mb_model` (`LayerEvents`, `Calls`), and what an answer says of
//! the memory in `mb_model_memory` (`Answering`).
//!
//! All memory of a call is taken before its code runs: a copy of the region, memory for 22 secrets with names and values
//! of any length (`reserve`), the output, the answer and the statement. No clause says so, since an answer `no memory` is
//! free; if it depended on the run, whoever can make allocations fail would learn what the code asks for.
#![tactic(auto)]

mod acting;
mod calls;
mod demands;
mod end;
mod listed;
mod named;
mod reserve;
mod secrets;
mod signing;
mod stored;

pub use calls::{ReachesBoth, call_three, call_two};
pub use demands::meet_all;
pub use listed::{Listed, Shown, list};
pub use secrets::{drop_secret, get_secret, put_secret};
pub use signing::sign_message;
