//! Registers, items and answers, by values of another program.

mod entries;
mod limits;
mod records;
mod runs;
