//! A relying party's policy: in which configurations a key of a device may have lived.
//!
//! This crate owns the policy, the reader of its text, and the judgement of a verifier's report. A policy has named
//! sets of hashes, and rules that allow or deny a configuration by a test. The grammar stands in specs/Policies.antt,
//! and what a policy comes to in specs/Judging.antt. A report is one of `mb_model`; no chain is read here.
#![tactic(auto)]

mod judging;
mod keyword;
mod laws;
mod limits;
mod lines;
mod operands;
mod policy;
mod reading;
mod situation;
mod tables;
mod words;

pub use judging::{Judgement, judge_report};
pub use laws::{
    judgement_counter_examples, judgement_examples, judgements_are_clear, numbers_are,
    policies_are_clear, policy_counter_examples, policy_examples,
};
pub use limits::{DEPTH_LIMIT, HASH_LIMIT, LINE_LIMIT};
pub use lines::{PolicyEnd, read_policy};
pub use policy::Policy;
