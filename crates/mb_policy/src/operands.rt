//! The words after the first one, in a test without an inner test.

ghost use Rattle.std.specs.Prelude.{◌≡◌, position};
ghost use Rattle.mb_policy.specs.Reading.{later_words, number_first, layer_in, layer_first};
ghost use Rattle.mb_policy.specs.Reading.{trust_first, kind_first, reads_version, reads_trust};
ghost use Rattle.mb_policy.specs.Reading.{reads_reliable, reads_numbers, reads_kind};
ghost use Rattle.mb_policy.specs.Meanings.{line_has_set, FindsSet, GivesPlain};
ghost use Rattle.mb_policy.specs.Meanings.{ReadsLeaf, ReadsOwner, ReadsCode, ReadsInput, ReadsAnswer};

use crate::keyword::{Leaf, find_kind, find_trust};
use crate::policy::{Line, Test};
use crate::words::Words;
use mb_model::{KeyKind, Trust};
use mb_words::read_number;

/// The last layer that a test can name.
const LAST_LAYER: u8 = 3;

/// The last layer that has another above it.
const LAST_LOWER: u8 = 2;

/// The test that begins with this word, read from the words after it. Its set is among the lines before.
pub(crate) fn read_leaf(leaf: Leaf, words: &mut Words<'_>, before: &[Line]) -> Option<Test>
    ensures { ReadsLeaf before.now leaf words.old result words.new }
{
    match leaf {
        Leaf::Owner => read_owner(words, before),
        Leaf::Code => read_code(words, before),
        Leaf::Version => read_version(words),
        Leaf::Trust => read_trust(words),
        Leaf::Reliable => read_reliable(words),
        Leaf::Number => read_numbers(words),
        Leaf::First => Some(Test::First),
        Leaf::Last => Some(Test::Last),
        Leaf::Kind => read_kind(words),
        Leaf::Alive => Some(Test::Alive),
        Leaf::Statement => Some(Test::Statement),
        Leaf::Called => Some(Test::Called),
        Leaf::Input => read_input(words, before),
        Leaf::Answer => read_answer(words, before),
    }
}

/// The test of a layer's owner.
fn read_owner(words: &mut Words<'_>, before: &[Line]) -> Option<Test>
    ensures { ReadsOwner before.now words.old result words.new }
{
    let Some(layer) = take_layer(words, LAST_LAYER) else {
        return None;
    };
    let Some(set) = take_set(words, before) else {
        return None;
    };
    Some(Test::Owner { layer, set })
}

/// The test of a layer's code.
fn read_code(words: &mut Words<'_>, before: &[Line]) -> Option<Test>
    ensures { ReadsCode before.now words.old result words.new }
{
    let Some(layer) = take_layer(words, LAST_LAYER) else {
        return None;
    };
    let Some(set) = take_set(words, before) else {
        return None;
    };
    Some(Test::Code { layer, set })
}

/// The test of the version of a layer's code.
fn read_version(words: &mut Words<'_>) -> Option<Test>
    ensures { GivesPlain (reads_version words.old) result words.new }
{
    let Some(layer) = take_layer(words, LAST_LAYER) else {
        return None;
    };
    let Some(least) = take_number(words) else {
        return None;
    };
    let Some(most) = take_number(words) else {
        return None;
    };
    Some(Test::Version { layer, least, most })
}

/// The test of a layer's trust in changes of a lower layer.
fn read_trust(words: &mut Words<'_>) -> Option<Test>
    ensures { GivesPlain (reads_trust words.old) result words.new }
{
    let Some(layer) = take_layer(words, LAST_LAYER) else {
        return None;
    };
    let Some(lower) = take_layer(words, LAST_LOWER) else {
        return None;
    };
    let Some(trust) = take_trust(words) else {
        return None;
    };
    Some(Test::Trust {
        layer,
        lower,
        trust,
    })
}

/// The test that a layer is reliable.
fn read_reliable(words: &mut Words<'_>) -> Option<Test>
    ensures { GivesPlain (reads_reliable words.old) result words.new }
{
    let Some(layer) = take_layer(words, LAST_LAYER) else {
        return None;
    };
    Some(Test::Reliable { layer })
}

/// The test of the configuration's number.
fn read_numbers(words: &mut Words<'_>) -> Option<Test>
    ensures { GivesPlain (reads_numbers words.old) result words.new }
{
    let Some(least) = take_number(words) else {
        return None;
    };
    let Some(most) = take_number(words) else {
        return None;
    };
    Some(Test::Number { least, most })
}

/// The test of the key's kind.
fn read_kind(words: &mut Words<'_>) -> Option<Test>
    ensures { GivesPlain (reads_kind words.old) result words.new }
{
    let Some(kind) = take_kind(words) else {
        return None;
    };
    Some(Test::Kind(kind))
}

/// The test of a call's input.
fn read_input(words: &mut Words<'_>, before: &[Line]) -> Option<Test>
    ensures { ReadsInput before.now words.old result words.new }
{
    let Some(set) = take_set(words, before) else {
        return None;
    };
    Some(Test::Input { set })
}

/// The test of a call's answer.
fn read_answer(words: &mut Words<'_>, before: &[Line]) -> Option<Test>
    ensures { ReadsAnswer before.now words.old result words.new }
{
    let Some(set) = take_set(words, before) else {
        return None;
    };
    Some(Test::Answer { set })
}

/// The number that the next word is.
fn take_number(words: &mut Words<'_>) -> Option<u32>
    ensures found { result ≡ number_first words.old }
    ensures left { words.new ≡ later_words words.old }
{
    match words.take() {
        Some(word) => read_number(word, u32::MAX),
        None => None,
    }
}

/// The layer that the next word is, 1 to `last`.
fn take_layer(words: &mut Words<'_>, last: u8) -> Option<u8>
    ensures found { result ≡ layer_first last words.old }
    ensures left { words.new ≡ later_words words.old }
{
    match words.take() {
        Some(word) => read_layer(word, last),
        None => None,
    }
}

/// The layer that the word is, 1 to `last`.
fn read_layer(word: &[u8], last: u8) -> Option<u8>
    ensures { result ≡ layer_in last word.now }
{
    let Some(layer) = read_number(word, u32::from(last)) else {
        return None;
    };
    if layer == 0 {
        return None;
    }
    Some(layer as u8)
}

/// The trust that the next word is.
fn take_trust(words: &mut Words<'_>) -> Option<Trust>
    ensures found { result ≡ trust_first words.old }
    ensures left { words.new ≡ later_words words.old }
{
    match words.take() {
        Some(word) => find_trust(word),
        None => None,
    }
}

/// The kind of key that the next word is.
fn take_kind(words: &mut Words<'_>) -> Option<KeyKind>
    ensures found { result ≡ kind_first words.old }
    ensures left { words.new ≡ later_words words.old }
{
    match words.take() {
        Some(word) => find_kind(word),
        None => None,
    }
}

/// The index of the set that the next word names.
fn take_set(words: &mut Words<'_>, before: &[Line]) -> Option<usize>
    ensures found { FindsSet before.now words.old result }
    ensures left { words.new ≡ later_words words.old }
{
    match words.take() {
        Some(word) => find_set(before, word),
        None => None,
    }
}

/// The index of the first set with this name.
pub(crate) fn find_set(before: &[Line], name: &[u8]) -> Option<usize>
    ensures { result ≡ position (line_has_set name.now) before.now }
{
    before.iter().position(|line| is_set_named(line, name))
}

/// Whether the line says the set with this name.
fn is_set_named(line: &Line, name: &[u8]) -> bool
    ensures { result ≡ line_has_set name.now line.now }
{
    match line {
        Line::Set(set) => set.name.as_slice() == name,
        Line::Rule(_) => false,
    }
}
