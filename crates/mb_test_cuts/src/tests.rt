//! Calls stopped at each of their writes.

mod board;
mod boots;
mod calls;
mod images;
mod regions;
mod roots;
mod states;
