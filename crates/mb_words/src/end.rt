//! Why a text is not read.

ghost use Rattle.std.specs.Prelude.{◌≡◌};

use mb_model::NoMemory;

/// Why a text was not read.
#[derive(Clone, Copy, Debug, PartialEq, Eq)]
pub enum TextEnd {
    /// A line is wrong, or the text ends too early.
    BadLine {
        /// The number of the first such line, from 1, or of the line after the last.
        line: u32,
    },
    /// An allocation failed.
    NoMemory,
}

impl From<NoMemory> for TextEnd {
    ghost use Rattle.mb_words.specs.declared.end.TextEnd.TheVariants as end;

    ghost from_gives = { λ _ e. e ≡ end.NoMemory };

    fn from(_error: NoMemory) -> TextEnd {
        TextEnd::NoMemory
    }
}
