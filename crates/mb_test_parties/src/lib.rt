//! Applications, policies, registers and a maker's HSS keys, against values of other programs.
//!
//! This crate has only tests: of the runs, texts and codes of `mb_appvm`, of the policies of `mb_policy` and what they
//! come to, of the registers and answers of `mb_fleet`, and of the keys, files and signatures of `mb_hss`. If there is
//! memory, no call may answer that there is none; the clauses leave this open.
#![tactic(auto)]

#[cfg(test)]
mod tests;
