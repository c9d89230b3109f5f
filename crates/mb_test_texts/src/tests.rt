//! Texts and files, read and written, and orders of officers.

mod drafts;
mod hosts;
mod keys;
mod long_orders;
mod long_scripts;
mod order_lines;
mod orders;
mod pieces;
mod scripts;
mod words;
