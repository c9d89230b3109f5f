//! The words of a line, taken one after another.

ghost use Rattle.std.specs.Prelude.{◌≡◌, ◌∷◌, MatchOption};
ghost use Rattle.mb_policy.specs.Policies.{line_words};
ghost use Rattle.mb_policy.specs.Meanings.{MatchesNil, NoneLeft};

use mb_words::split_at_byte;
use std::marker::Model;

/// What is left of a line's words.
#[derive(Drop)]
pub struct Words<'a> {
    text: &'a [u8],
    are_left: bool,
}

impl<'a> Model for Words<'a> {
    ghost use Rattle.std.specs.Prelude.{List, ℕ};
    ghost use Rattle.mb_policy.specs.Meanings.{words_left};

    ghost Value = { List (List ℕ) };

    ghost view = { λ words. words_left words.are_left words.text.now };
}

impl<'a> Words<'a> {
    /// The words of a line: what stands between its spaces.
    pub(crate) fn of(line: &'a [u8]) -> Words<'a>
        ensures { result ≡ line_words line.now }
    {
        Words {
            text: line,
            are_left: true,
        }
    }

    /// Whether no word is left.
    pub(crate) fn are_over(&self) -> bool
        ensures { MatchesNil result self.now }
    {
        !self.are_left
    }

    /// Takes the next word; `None` if no word is left.
    pub(crate) fn take(&mut self) -> Option<&'a [u8]>
        ensures { MatchOption result
            (NoneLeft self.old self.new)
            (λ word. self.old ≡ word.now ∷ self.new) }
    {
        if !self.are_left {
            return None;
        }
        match split_at_byte(self.text, b' ') {
            Some((word, rest)) => {
                self.text = rest;
                Some(word)
            }
            None => {
                let word = self.text;
                self.are_left = false;
                Some(word)
            }
        }
    }
}
