//! Runs, texts and codes of applications, by values of another program.

mod codes;
mod devices;
mod runs;
mod texts;
mod traces;
