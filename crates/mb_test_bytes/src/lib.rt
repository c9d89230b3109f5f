//! Fields, records, sectors, orders, chains and signatures, against bytes of other programs and bytes that are written out.
//!
//! This crate has only tests: of the fields of `mb_bytes`, of the records of `mb_layout` and `mb_migrate`, of the edits
//! of `mb_layout_edits`, of the sectors of `mb_segments`, of the orders of `mb_command`, of the chains and statements of
//! `mb_cert`, of the keys and signatures of `mb_signer`, and of the lists and copies of `mb_model`. If there is memory,
//! no call may answer that there is none; the clauses leave this open.
#![tactic(auto)]

#[cfg(test)]
mod tests;
