//! Words that mean a value each.

ghost use Rattle.std.specs.Prelude.{◌≡◌};
ghost use Rattle.mb_model.specs.chains.Drafts.{trust_word, kind_word};
ghost use Rattle.mb_policy.specs.Reading.{verb_name, first_of_test};
ghost use Rattle.mb_words.specs.Words.{FindsSome};

use mb_model::{KeyKind, Trust};

/// The first word of a line.
#[derive(Clone, Copy)]
pub enum Verb {
    Set,
    Allow,
    Deny,
}

/// The first word of a test.
#[derive(Clone, Copy)]
pub enum Keyword {
    /// Two tests follow.
    Pair(Pairing),
    /// One test follows.
    Not,
    /// No test follows.
    Leaf(Leaf),
}

/// How two tests are joined.
#[derive(Clone, Copy)]
pub enum Pairing {
    And,
    Or,
}

/// The first word of a test without an inner one.
#[derive(Clone, Copy)]
pub enum Leaf {
    Owner,
    Code,
    Version,
    Trust,
    Reliable,
    Number,
    First,
    Last,
    Kind,
    Alive,
    Statement,
    Called,
    Input,
    Answer,
}

/// The verb that a word is.
pub(crate) fn find_verb(word: &[u8]) -> Option<Verb>
    ensures { FindsSome (λ verb. word.now ≡ verb_name verb) result }
{
    match word {
        b"set" => Some(Verb::Set),
        b"allow" => Some(Verb::Allow),
        b"deny" => Some(Verb::Deny),
        _ => None,
    }
}

/// The keyword that a word is.
pub(crate) fn find_keyword(word: &[u8]) -> Option<Keyword>
    ensures { FindsSome (λ keyword. word.now ≡ first_of_test keyword) result }
{
    match word {
        b"and" => Some(Keyword::Pair(Pairing::And)),
        b"or" => Some(Keyword::Pair(Pairing::Or)),
        b"not" => Some(Keyword::Not),
        b"owner" => Some(Keyword::Leaf(Leaf::Owner)),
        b"code" => Some(Keyword::Leaf(Leaf::Code)),
        b"version" => Some(Keyword::Leaf(Leaf::Version)),
        b"trust" => Some(Keyword::Leaf(Leaf::Trust)),
        b"reliable" => Some(Keyword::Leaf(Leaf::Reliable)),
        b"number" => Some(Keyword::Leaf(Leaf::Number)),
        b"first" => Some(Keyword::Leaf(Leaf::First)),
        b"last" => Some(Keyword::Leaf(Leaf::Last)),
        b"kind" => Some(Keyword::Leaf(Leaf::Kind)),
        b"alive" => Some(Keyword::Leaf(Leaf::Alive)),
        b"statement" => Some(Keyword::Leaf(Leaf::Statement)),
        b"called" => Some(Keyword::Leaf(Leaf::Called)),
        b"input" => Some(Keyword::Leaf(Leaf::Input)),
        b"answer" => Some(Keyword::Leaf(Leaf::Answer)),
        _ => None,
    }
}

/// The trust that a word is.
pub(crate) fn find_trust(word: &[u8]) -> Option<Trust>
    ensures { FindsSome (λ trust. word.now ≡ trust_word trust) result }
{
    match word {
        b"always" => Some(Trust::Always),
        b"never" => Some(Trust::Never),
        b"countersigned" => Some(Trust::Countersigned),
        _ => None,
    }
}

/// The kind of key that a word is.
pub(crate) fn find_kind(word: &[u8]) -> Option<KeyKind>
    ensures { FindsSome (λ kind. word.now ≡ kind_word kind) result }
{
    match word {
        b"epoch" => Some(KeyKind::Epoch),
        b"configuration" => Some(KeyKind::Configuration),
        _ => None,
    }
}
