//! Why a word, or a line, is not read.

ghost use Rattle.std.specs.Prelude.{◌≡◌};

use mb_model::NoMemory;

/// Why a word, or a line, was not read.
#[derive(Clone, Copy, Debug, PartialEq, Eq)]
pub enum NotSaid {
    /// The word or line is not in the grammar.
    Form,
    /// An allocation failed.
    NoMemory,
}

impl From<NoMemory> for NotSaid {
    ghost use Rattle.mb_words.specs.declared.said.NotSaid.TheVariants as why;

    ghost from_gives = { λ _ e. e ≡ why.NoMemory };

    fn from(_error: NoMemory) -> NotSaid {
        NotSaid::NoMemory
    }
}
