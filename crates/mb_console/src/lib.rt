//! What the commands of the command line share.
//!
//! This crate owns the words of the command line, the reading of inputs, the writing of outputs, and the lines and exit
//! statuses of commands that are not done. It names no command.
#![tactic(auto)]

mod end;
mod input;
mod numbers;
mod output;
mod words;

pub use end::{End, LINE_LIMIT, LongLine, ShortLine, refused, refused_by_number, stop};
pub use input::{Form, Unread, read_as, read_input};
pub use numbers::numbers_are;
pub use output::{Output, finish, print_text, write_all};
pub use words::{
    Argument, Arguments, Kind, WORD_LIMIT, Word, arguments_of, file, hex, is_word, number,
};
