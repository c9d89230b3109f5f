//! Policies and what they come to, checked against values of another program.

mod judgements;
mod large;
mod reports;
