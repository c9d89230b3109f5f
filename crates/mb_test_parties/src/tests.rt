//! What the parties round a device do beside giving it orders: they run and judge code, keep registers, and endorse.

mod applications;
mod makers;
mod pieces;
mod policies;
mod registers;
