//! The words of a command line: whether they call a command, and what the words after its name mean.

ghost use Rattle.std.specs.Prelude.{◌≡◌, ◌↔◌, ◌∷◌, ◌++◌, ◌+◌, ◌≤◌, ℕ, List, IsTrue, MatchOption, length, map, true, string_bytes};
ghost use Rattle.arrayvec.specs.ArrayVec.{array_vec_len};
ghost use Rattle.mb_console.specs.Words.{Argument as Meant, IsWordFor, IsCalled, AppendsWords, given_argument, file_given, number_given, hex_given};

use arrayvec::ArrayVec;
use mb_script::read_tear;
use mb_words::read_number;

/// The most words after a command's name.
pub const WORD_LIMIT: usize = 8;

/// What a word after a command's name may be.
#[derive(Clone, Copy, Debug, PartialEq, Eq)]
pub enum Kind {
    /// The name of a file, which is not empty.
    File,
    /// A number from `least` to `most`, in decimal digits and without leading zeros.
    Number { least: u32, most: u32 },
    /// 1 to 16 bytes in hexadecimal digits of either case.
    Hex,
}

/// A word after a command's name: how `--help` shows it, and of which kind it is.
pub type Word = (&'static str, Kind);

/// What a word means.
#[derive(Clone, Copy)]
pub enum Argument<'a> {
    /// The name of a file.
    File(&'a str),
    /// A number.
    Number(u32),
    /// 1 to 16 bytes in hexadecimal digits, as the word has them: two words can spell one list of bytes, and an
    /// argument stands for one word (`word_of`).
    Hex(&'a str),
}

impl Default for Argument<'_> {
    fn default() -> Self {
        Argument::Number(0)
    }
}

/// What the words after a command's name mean, in their order.
pub type Arguments<'a> = ArrayVec<Argument<'a>, WORD_LIMIT>;

/// What the words after this name mean, each a word of its kind, at most 8; `None` if the words are any others.
pub fn arguments_of<'a>(name: &str, kinds: &[Word], words: &'a [String]) -> Option<Arguments<'a>>
    requires { length kinds.now ≤ WORD_LIMIT }
    ensures { MatchOption result
        ((arguments : List Meant) → IsCalled name.now (map (λ w. w.1) kinds.now) (map string_bytes words.now) arguments → ⊥)
        (λ found. IsCalled name.now (map (λ w. w.1) kinds.now) (map string_bytes words.now) (map given_argument found.items)) }
{
    let Some((first, rest)) = words.split_first() else {
        return None;
    };
    let mut arguments = ArrayVec::new();
    if is_word(first, name) && read_words(kinds, rest, &mut arguments) {
        Some(arguments)
    } else {
        None
    }
}

/// Appends what the words mean. `true` if each is a word of its kind; else some of them may have been appended.
fn read_words<'a>(kinds: &[Word], words: &'a [String], arguments: &mut Arguments<'a>) -> bool
    requires { array_vec_len arguments.old + length kinds.now ≤ WORD_LIMIT }
    ensures { AppendsWords (map (λ w. w.1) kinds.now) (map string_bytes words.now) arguments.old.items result arguments.new.items }
{
    match (kinds.split_first(), words.split_first()) {
        (None, None) => true,
        (Some((kind, kinds)), Some((word, words))) => {
            let Some(argument) = argument_of(kind.1, word) else {
                return false;
            };
            arguments.push(argument);
            read_words(kinds, words, arguments)
        }
        _ => false,
    }
}

/// What a word of this kind means; `None` if it is no word of the kind.
fn argument_of<'a>(kind: Kind, word: &'a str) -> Option<Argument<'a>>
    ensures { MatchOption result
        ((argument : Meant) → IsWordFor kind word.now argument → ⊥)
        (λ found. IsWordFor kind word.now (given_argument found)) }
{
    match kind {
        Kind::File => file_of(word),
        Kind::Number { least, most } => number_of(word, least, most),
        Kind::Hex => hex_of(word),
    }
}

/// The name of a file, which is not empty.
fn file_of<'a>(word: &'a str) -> Option<Argument<'a>>
    ensures { MatchOption result
        ((argument : Meant) → IsWordFor Kind.File word.now argument → ⊥)
        (λ found. IsWordFor Kind.File word.now (given_argument found)) }
{
    if word.is_empty() {
        return None;
    }
    Some(Argument::File(word))
}

/// A number from `least` to `most`.
fn number_of<'a>(word: &str, least: u32, most: u32) -> Option<Argument<'a>>
    ensures { MatchOption result
        ((argument : Meant) → IsWordFor (Kind.Number least most) word.now argument → ⊥)
        (λ found. IsWordFor (Kind.Number least most) word.now (given_argument found)) }
{
    let Some(number) = read_number(word.as_bytes(), most) else {
        return None;
    };
    if number < least {
        return None;
    }
    Some(Argument::Number(number))
}

/// 1 to 16 bytes in hexadecimal digits.
fn hex_of<'a>(word: &'a str) -> Option<Argument<'a>>
    ensures { MatchOption result
        ((argument : Meant) → IsWordFor Kind.Hex word.now argument → ⊥)
        (λ found. IsWordFor Kind.Hex word.now (given_argument found)) }
{
    match read_tear(0, word.as_bytes()) {
        Some(_) => Some(Argument::Hex(word)),
        None => None,
    }
}

/// Whether a word is this one.
pub fn is_word(word: &str, wanted: &str) -> bool
    ensures { IsTrue result ↔ (word.now ≡ wanted.now) }
{
    word == wanted
}

/// The name of the file at this place, from 0; no name if another argument stands there, or none.
pub fn file<'a>(arguments: &Arguments<'a>, place: usize) -> &'a str
    ensures { result.now ≡ file_given place (map given_argument arguments.now.items) }
{
    match arguments.get(place) {
        Some(Argument::File(name)) => name,
        _ => "",
    }
}

/// The number at this place, from 0; 0 if another argument stands there, or none.
pub fn number(arguments: &Arguments<'_>, place: usize) -> u32
    ensures { result ≡ number_given place (map given_argument arguments.now.items) }
{
    match arguments.get(place) {
        Some(Argument::Number(number)) => *number,
        _ => 0,
    }
}

/// The word of the bytes at this place, from 0; an empty word if another argument stands there, or none.
pub fn hex<'a>(arguments: &Arguments<'a>, place: usize) -> &'a str
    ensures { result.now ≡ hex_given place (map given_argument arguments.now.items) }
{
    match arguments.get(place) {
        Some(Argument::Hex(word)) => word,
        _ => "",
    }
}
