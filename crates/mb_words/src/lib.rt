//! The words of lines.
//!
//! This crate owns how the texts of this repository are read word by word: the next line of a text, a word before a
//! byte or after a known word, numbers in decimal, and bytes in hexadecimal, which are written here too; and why a text
//! or a line is not read. Whole texts, scripts and drafts, are read in the crates above.
#![tactic(auto)]

mod end;
mod hexadecimal;
mod lines;
mod numbers;
mod said;

pub use end::TextEnd;
pub use hexadecimal::{hex_word, read_array, read_hex};
pub use lines::{after_word, is_skipped, split_at_byte, split_line};
pub use numbers::read_number;
pub use said::NotSaid;
