//! Lemmas on the definitions of the machine, for the proofs of every crate above.
//!
//! This crate owns no type and no function. Its specs/ have the statements that lemmas and laws share, and its proofs/
//! the lemmas, a file for each subject: logs, lives and regions, states and their steps, memories, lines and words,
//! signatures. The laws that are read to believe the definitions stand on functions of `mb_model_laws`,
//! `mb_model_memory` and `mb_model_runs`, and follow from these.
#![tactic(auto)]
