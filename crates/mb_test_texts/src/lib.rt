//! Words, scripts, drafts, officers' files and what they sign, against values of other programs and texts that are
//! written out.
//!
//! This crate has only tests: of `mb_words`, `mb_script`, `mb_host`, `mb_files` and `mb_officer`. If there is memory,
//! no call may answer that there is none; the clauses leave this open.
#![tactic(auto)]

#[cfg(test)]
mod tests;
