//! The events of a script, each read from its line.

ghost use Rattle.std.specs.Prelude.{◌≢◌, ◌++◌, ◌∷◌, ℕ, List, All, MatchOption, codes};
ghost use Rattle.mb_model.specs.chains.Script.{SaysEvent};
ghost use Rattle.mb_words.specs.Words.{Finds, FindsSome};
ghost use Rattle.mb_script.specs.Reading.{SaysTail, SaysSecret};

use crate::words::{
    is_name, read_bounded, read_tear, split_key, split_name, split_number, split_region,
};
use mb_model::{
    Bytes, CUT_LIMIT, DRAW_LENGTH, Event, FLASH_LENGTH, INPUT_LIMIT, MESSAGE_LIMIT, VALUE_LIMIT,
};
use mb_words::{NotSaid, after_word, read_hex, split_at_byte};
use std::alloc::Global;

/// Reads the event of a line. The draw of a command is all zeros.
pub(crate) fn read_event(alloc: Global, line: &[u8]) -> Result<Event, NotSaid>
    ensures { Finds (SaysEvent line.now) result }
{
    match split_at_byte(line, b' ') {
        Some((word, rest)) => read_words(alloc, word, rest),
        None => read_lone_word(line).ok_or(NotSaid::Form),
    }
}

/// Reads the event of a line of one word.
fn read_lone_word(word: &[u8]) -> Option<Event>
    requires { All (λ byte. byte ≢ 32) word.now }
    ensures { FindsSome (SaysEvent word.now) result }
{
    if word == b"boot".as_slice() {
        return Some(Event::Boot);
    }
    if word == b"off".as_slice() {
        return Some(Event::Off);
    }
    if word == b"tamper".as_slice() {
        return Some(Event::Tamper);
    }
    if word == b"status".as_slice() {
        return Some(Event::Status);
    }
    if word == b"go".as_slice() {
        return Some(Event::Go);
    }
    None
}

/// Reads the event of a line of several words; `word` is the first.
fn read_words(alloc: Global, word: &[u8], rest: &[u8]) -> Result<Event, NotSaid>
    requires { All (λ byte. byte ≢ 32) word.now }
    ensures { Finds (SaysEvent (word.now ++ 32 ∷ rest.now)) result }
{
    if word == b"cut".as_slice() {
        return read_cut(rest).ok_or(NotSaid::Form);
    }
    if word == b"command".as_slice() {
        return read_command(alloc, rest);
    }
    if word == b"put".as_slice() {
        return read_put(alloc, rest);
    }
    if word == b"get".as_slice() {
        return read_get(alloc, rest);
    }
    if word == b"drop".as_slice() {
        return read_drop(alloc, rest);
    }
    if word == b"sign".as_slice() {
        return read_sign(alloc, rest);
    }
    if word == b"call".as_slice() {
        return read_call(alloc, rest);
    }
    Err(NotSaid::Form)
}

/// Reads a `cut` from its line without the first word.
fn read_cut(words: &[u8]) -> Option<Event>
    ensures { FindsSome (SaysEvent (codes "cut " ++ words.now)) result }
{
    let Some((count, tail)) = split_number(words, CUT_LIMIT) else {
        return None;
    };
    if count == 0 {
        return None;
    }
    let Some((keep, word)) = split_kept(tail) else {
        return None;
    };
    match read_tear(keep, word) {
        Some(tear) => Some(Event::Cut { count, tear }),
        None => None,
    }
}

/// Reads how many bytes a tear keeps; answers this number and the word of the bytes that fill.
fn split_kept(words: &[u8]) -> Option<(u32, &[u8])>
    ensures { MatchOption result ((keep : ℕ) (word : List ℕ) → SaysTail words.now keep word → ⊥) (λ parts. SaysTail words.now parts.0 parts.1.now) }
{
    if let Some(word) = after_word(words, b"fill ") {
        return Some((0, word));
    }
    let Some(number) = after_word(words, b"keep ") else {
        return None;
    };
    let Some((keep, rest)) = split_number(number, FLASH_LENGTH as u32) else {
        return None;
    };
    match after_word(rest, b"fill ") {
        Some(word) => Some((keep, word)),
        None => None,
    }
}

/// Reads a `command` from its line without the first word.
fn read_command(alloc: Global, word: &[u8]) -> Result<Event, NotSaid>
    ensures { Finds (SaysEvent (codes "command " ++ word.now)) result }
{
    let text = read_hex(alloc, word)?;
    Ok(Event::Order {
        text,
        draw: [0; DRAW_LENGTH],
    })
}

/// Reads a `put` from its line without the first word.
fn read_put(alloc: Global, words: &[u8]) -> Result<Event, NotSaid>
    ensures { Finds (SaysEvent (codes "put " ++ words.now)) result }
{
    let Some((region, rest)) = split_region(words) else {
        return Err(NotSaid::Form);
    };
    let Some((name, word)) = split_name(rest) else {
        return Err(NotSaid::Form);
    };
    let value = read_bounded(alloc, word, VALUE_LIMIT as usize)?;
    let name = Bytes::copy(alloc, name)?;
    Ok(Event::Put {
        region,
        name,
        value,
    })
}

/// Reads a `get` from its line without the first word.
fn read_get(alloc: Global, words: &[u8]) -> Result<Event, NotSaid>
    ensures { Finds (SaysEvent (codes "get " ++ words.now)) result }
{
    let (region, name) = read_secret(alloc, words)?;
    Ok(Event::Get { region, name })
}

/// Reads a `drop` from its line without the first word.
fn read_drop(alloc: Global, words: &[u8]) -> Result<Event, NotSaid>
    ensures { Finds (SaysEvent (codes "drop " ++ words.now)) result }
{
    let (region, name) = read_secret(alloc, words)?;
    Ok(Event::Drop { region, name })
}

/// Reads a region, and a name at the end of a line.
fn read_secret(alloc: Global, words: &[u8]) -> Result<(u8, Bytes), NotSaid>
    ensures { Finds (λ secret. SaysSecret words.now secret.0 secret.1) result }
{
    let Some((region, name)) = split_region(words) else {
        return Err(NotSaid::Form);
    };
    if !is_name(name) {
        return Err(NotSaid::Form);
    }
    Ok((region, Bytes::copy(alloc, name)?))
}

/// Reads a `sign` from its line without the first word.
fn read_sign(alloc: Global, words: &[u8]) -> Result<Event, NotSaid>
    ensures { Finds (SaysEvent (codes "sign " ++ words.now)) result }
{
    let Some((region, rest)) = split_region(words) else {
        return Err(NotSaid::Form);
    };
    let Some((key, word)) = split_number(rest, u32::MAX) else {
        return Err(NotSaid::Form);
    };
    let message = read_bounded(alloc, word, MESSAGE_LIMIT as usize)?;
    Ok(Event::Sign {
        region,
        key,
        message,
    })
}

/// Reads a `call` from its line without the first word.
fn read_call(alloc: Global, words: &[u8]) -> Result<Event, NotSaid>
    ensures { Finds (SaysEvent (codes "call " ++ words.now)) result }
{
    let Some((region, rest)) = split_region(words) else {
        return Err(NotSaid::Form);
    };
    let Some((key, word)) = split_key(rest) else {
        return Err(NotSaid::Form);
    };
    let input = read_bounded(alloc, word, INPUT_LIMIT as usize)?;
    Ok(Event::Call { region, key, input })
}
