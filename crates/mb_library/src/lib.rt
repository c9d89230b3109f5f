//! The verifiers as a library for programs in C, and in languages that call C.
//!
//! This crate owns what crosses to such a program: its calls, the codes that they answer, and the details beside a
//! code. What is verified and judged stands in `mb_lms`, `mb_hss`, `mb_verifier` and `mb_policy`. No call requires
//! anything of the values at its pointers, none keeps a value from one call to the next, and those of signatures take
//! no memory. The heap of the kit is a member of its own of the archive, so that a program which defines the three
//! calls of a heap itself does not get it.
#![tactic(auto)]

pub mod chains;
mod codes;
mod details;
pub mod judging;
mod laws;
pub mod signatures;
mod stated;
pub mod statements;

pub use codes::{
    ACCEPTED, BAD_POLICY, BAD_SIGNATURE, DENIED, NO_KEY, NO_MEMORY, NO_ROOM, TOO_LONG,
};
pub use details::Details;
pub use laws::answers_are_determined;
pub use stated::{SAYS_ANSWER, SAYS_MESSAGE, SAYS_NOTHING, Stated};
