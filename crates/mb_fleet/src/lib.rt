//! A register of what many devices have shown: a device that shows another past is caught.
//!
//! This crate owns the rows of a register, how a register and items are spelled, what a register answers to a chain and
//! to questions, and the text of all answers to a file of items. Whether the entries of a chain are good is decided by
//! `mb_verifier`. The rows are defined in specs/Rows.antt, the answers in specs/Showing.antt and specs/Questions.antt.
#![tactic(auto)]

mod answer;
mod comparison;
mod end;
mod fleet;
mod index;
mod indexes;
mod item;
mod laws;
mod limits;
mod lookup;
mod question;
mod register;
mod row;
mod serving;

pub use end::{Added, FleetEnd, FleetReadEnd, ServeEnd};
pub use fleet::Fleet;
pub use item::{Item, read_items};
pub use laws::{
    chains_have_one_answer, fleet_bytes_counter_examples, fleet_bytes_examples,
    fleet_inputs_are_clear, items_are_clear, numbers_are, question_counter_examples,
    question_examples, registers_are_clear, rows_have_one_answer, shown_counter_examples,
    shown_examples,
};
pub use limits::{DEVICE_LIMIT, TEXT_LIMIT};
pub use question::{CodeCount, Counts, Serials};
pub use row::{CodeHashes, Row};
pub use serving::serve_items;
