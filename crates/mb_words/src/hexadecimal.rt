//! Bytes in hexadecimal.

ghost use Rattle.std.specs.Prelude.{◌≡◌, ◌<◌, length, IfOk};
ghost use Rattle.std.specs.String.{string_bytes};
ghost use Rattle.mb_model.specs.outside.Texts.{IsHex};
ghost use Rattle.mb_model.specs.chains.Lines.{hex_word};
ghost use Rattle.mb_words.specs.Words.{Finds, FindsSome};

use crate::said::NotSaid;
use hex::FromHexError;
use mb_model::{Bytes, NoMemory};
use std::alloc::Global;

/// The bytes of a hexadecimal word: two digits of either case for each, or a dash for none.
///
/// `Form` if the word is not hexadecimal.
pub fn read_hex(alloc: Global, word: &[u8]) -> Result<Bytes, NotSaid>
    ensures { Finds (IsHex word.now) result }
{
    if word == b"-".as_slice() {
        return Ok(Bytes::from_vec(Vec::new(alloc)));
    }
    if word.is_empty() {
        return Err(NotSaid::Form);
    }
    match hex::decode(alloc, word) {
        Ok(bytes) => Ok(Bytes::from_vec(bytes)),
        Err(FromHexError::OutOfMemory) => Err(NotSaid::NoMemory),
        Err(_) => Err(NotSaid::Form),
    }
}

/// The bytes in lowercase hexadecimal, or a dash for none.
pub fn hex_word(alloc: Global, bytes: &[u8]) -> Result<String, NoMemory>
    ensures { IfOk result (λ word. string_bytes word ≡ hex_word bytes.now) }
{
    if bytes.is_empty() {
        return Ok(String::from_str(alloc, "-")?);
    }
    Ok(hex::encode(alloc, bytes)?)
}

/// The N bytes of a hexadecimal word; `None` if it is not hexadecimal, or has more or fewer bytes. N is not 0.
pub fn read_array<const N: usize>(word: &[u8]) -> Option<[u8; N]>
    requires { 0 < N }
    ensures { FindsSome (λ bytes. (length bytes ≡ N) × IsHex word.now bytes) result }
{
    let mut bytes = [0; N];
    match hex::decode_to_slice(word, &mut bytes) {
        Ok(()) => Some(bytes),
        Err(_) => None,
    }
}
