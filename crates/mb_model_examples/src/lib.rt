//! The definitions at work: worked examples that the checker computes, and values for which they do not hold.
//!
//! This crate owns no type and does nothing when it runs, and no crate stands on it. Each example stands on a
//! function with an empty body.
#![tactic(auto)]

mod counter_examples;
mod events;
mod formats;
mod orders;
mod records;
mod rules;
mod signing;
mod texts;

pub use counter_examples::{
    answer_counter_examples, birth_counter_examples, chain_counter_examples,
    command_counter_examples, log_counter_examples, memory_counter_examples, run_counter_examples,
    segment_counter_examples, text_counter_examples, write_counter_examples,
};
pub use events::{
    call_examples, layer_examples, memory_examples, phase_examples, power_examples,
    stopped_examples,
};
pub use formats::{failing_examples, spelling_examples};
pub use orders::{obeyed_orders, refused_orders, succession_examples, verified_orders};
pub use records::{
    failing_headers, failing_records, headers_are_spelled, records_are_spelled, segments_are_held,
};
pub use rules::{
    admission_examples, authority_examples, change_examples, condition_examples, life_examples,
    standing_examples, target_examples,
};
pub use signing::digit_examples;
pub use texts::{text_examples, workload_examples};
