//! The words of a line.

ghost use Rattle.std.specs.Prelude.{◌≡◌, ◌↔◌, ◌≤◌, ℕ, List, length, Option, MatchOption, IsTrue};
ghost use Rattle.mb_model.specs.outside.Texts.{IsHex};
ghost use Rattle.mb_model.specs.chains.Script.{IsName, tear_of};
ghost use Rattle.mb_words.specs.Words.{Finds};
ghost use Rattle.mb_script.specs.Reading.{HasNumberFirst, HasRegionFirst, HasKeyFirst, HasNameFirst, IsFill};

use mb_model::{Bytes, FILL_LIMIT, NAME_LIMIT, Tear};
use mb_words::{NotSaid, after_word, read_hex, read_number, split_at_byte};
use std::alloc::Global;

/// Reads a number, at most `most`, and a space; answers the number and what follows.
pub(crate) fn split_number(text: &[u8], most: u32) -> Option<(u32, &[u8])>
    ensures { MatchOption result ((number : ℕ) (rest : List ℕ) → HasNumberFirst most text.now number rest → ⊥) (λ parts. HasNumberFirst most text.now parts.0 parts.1.now) }
{
    let Some((word, rest)) = split_at_byte(text, b' ') else {
        return None;
    };
    match read_number(word, most) {
        Some(number) => Some((number, rest)),
        None => None,
    }
}

/// Reads a region, 2 or 3, and a space; answers the region and what follows.
pub(crate) fn split_region(text: &[u8]) -> Option<(u8, &[u8])>
    ensures { MatchOption result ((region : ℕ) (rest : List ℕ) → HasRegionFirst text.now region rest → ⊥) (λ parts. HasRegionFirst text.now parts.0 parts.1.now) }
{
    match split_number(text, 3) {
        Some((region, rest)) if region >= 2 => Some((region as u8, rest)),
        _ => None,
    }
}

/// Reads the key of a call, a number or a dash for none, and a space; answers the key and what follows.
pub(crate) fn split_key(text: &[u8]) -> Option<(Option<u32>, &[u8])>
    ensures { MatchOption result ((key : Option ℕ) (rest : List ℕ) → HasKeyFirst text.now key rest → ⊥) (λ parts. HasKeyFirst text.now parts.0 parts.1.now) }
{
    if let Some(rest) = after_word(text, b"- ") {
        return Some((None, rest));
    }
    match split_number(text, u32::MAX) {
        Some((number, rest)) => Some((Some(number), rest)),
        None => None,
    }
}

/// Reads a name and a space; answers the name and what follows.
pub(crate) fn split_name(text: &[u8]) -> Option<(&[u8], &[u8])>
    ensures { MatchOption result ((name rest : List ℕ) → HasNameFirst text.now name rest → ⊥) (λ parts. HasNameFirst text.now parts.0.now parts.1.now) }
{
    let Some((word, rest)) = split_at_byte(text, b' ') else {
        return None;
    };
    if is_name(word) {
        Some((word, rest))
    } else {
        None
    }
}

/// Whether the word is the name of a secret.
pub(crate) fn is_name(word: &[u8]) -> bool
    ensures { IsTrue result ↔ IsName word.now }
{
    if word.is_empty() {
        return false;
    }
    if word.len() > NAME_LIMIT as usize {
        return false;
    }
    mb_bytes::is_name(word)
}

/// Reads bytes, at most `most`, from a whole hexadecimal word.
pub(crate) fn read_bounded(alloc: Global, word: &[u8], most: usize) -> Result<Bytes, NotSaid>
    ensures { Finds (λ bytes. IsHex word.now bytes × (length bytes ≤ most)) result }
{
    let bytes = read_hex(alloc, word)?;
    if bytes.as_slice().len() > most {
        return Err(NotSaid::Form);
    }
    Ok(bytes)
}

/// The tear that keeps `keep` bytes and fills with the 1 to 16 bytes of a hexadecimal word; `None` if the word does not
/// spell 1 to 16 bytes.
pub fn read_tear(keep: u32, word: &[u8]) -> Option<Tear>
    ensures { MatchOption result ((fill : List ℕ) → IsFill word.now fill → ⊥) (λ tear. (fill : List ℕ) × IsFill word.now fill × (tear ≡ tear_of keep fill)) }
{
    let length = word.len() / 2;
    if length == 0 || length > FILL_LIMIT as usize {
        return None;
    }
    let mut fill = [0; 16];
    match hex::decode_to_slice(word, &mut fill[..length]) {
        Ok(()) => {
            let fill_length = length as u8;
            Some(Tear {
                keep,
                fill,
                fill_length,
            })
        }
        Err(_) => None,
    }
}
