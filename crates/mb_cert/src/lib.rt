//! Chains of certificates and statements.
//!
//! This crate owns how a chain and a statement are read and written as bytes, how a statement is read from its line of
//! text and attached to a chain, and whether a key signed an entry. The spelling of chains and statements, and the
//! entries that a chain keeps beside a statement, are defined in `mb_model` (`ChainFormat`, `OrderLines`, `Attach`).
#![tactic(auto)]

mod attached;
mod certificate;
mod chain;
mod end;
mod statement;
mod statement_line;

pub use attached::attach;
pub use certificate::{certifies, leaf_number};
pub use chain::{read_chain, write_chain};
pub use end::ChainEnd;
pub use mb_model::{Chain, Statement};
pub use statement::{read_statement, write_statement};
pub use statement_line::{StatementLineEnd, read_statement_line};
