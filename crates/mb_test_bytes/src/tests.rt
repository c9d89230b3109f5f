//! What is spelled in bytes, both ways, and what is signed.

mod chains;
mod edits;
mod fields;
mod limits;
mod model;
mod orders;
mod pieces;
mod places;
mod public;
mod records;
mod segments;
mod signing;
mod spelled;
mod statement_lines;
mod statements;
mod trusts;
mod values;
mod vectors;
