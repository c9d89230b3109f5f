//! Assembler texts as developers read them.
//!
//! This crate owns the listing of a code with labels and places. The plain texts, of one instruction a line, are
//! `mb_appvm`'s.
#![tactic(auto)]

mod labelled;
mod marks;

pub use labelled::list_with_labels;
