//! The text of the secrets with which a code is tried.

ghost use Rattle.std.specs.Prelude.{◌≡◌, ◌≤◌, ◌++◌, ℕ, List, length, MatchOption, IfOk, OnOk};
ghost use Rattle.std.specs.List.{list_any};
ghost use Rattle.mb_model.specs.declared.limits.TheConstants.{FILE_LIMIT, VALUE_LIMIT};
ghost use Rattle.mb_model.specs.outside.Texts.{IsHex, line_with_lf};
ghost use Rattle.mb_model.specs.machine.LayerEvents.{has_name};
ghost use Rattle.mb_words.specs.Words.{Finds, ReadsTextOf};
ghost use Rattle.mb_appvm.specs.SecretTexts.{AreSecrets, AddsSecret, HasSecretWords, secret_line, secrets_text};

use crate::lines::is_name;
use crate::secrets::is_named;
use mb_bytes::put_slice;
use mb_model::{Bytes, NoMemory, SECRET_LIMIT, Secret, Secrets, VALUE_LIMIT};
use mb_words::{
    NotSaid, TextEnd, after_word, hex_word, is_skipped, read_hex, split_at_byte, split_line,
};
use std::alloc::Global;

/// Reads secrets, one a line: `secret`, the name, and the value in hexadecimal or a dash for none. There are at most 22,
/// and no name stands twice. A line ends with LF, which the last may lack; empty lines and lines that begin with `#` are
/// skipped. The text has at most 4,194,304 bytes. Where each was put at the configuration number 0.
///
/// Errors: `BadLine` with the first line that is wrong, and `NoMemory`.
pub fn read_secrets(alloc: Global, text: &[u8]) -> Result<Secrets, TextEnd>
    requires { length text.now ≤ FILE_LIMIT }
    ensures { ReadsTextOf AreSecrets text.now result }
{
    let mut secrets = Secrets::new(alloc);
    let mut number: u32 = 0;
    let mut rest = text;
    while !rest.is_empty() {
        let (line, remaining) = split_line(rest);
        number += 1;
        rest = remaining;
        if is_skipped(line) {
            continue;
        }
        match read_secret(alloc, line, secrets.as_slice()) {
            Ok(secret) => secrets.push(secret)?,
            Err(NotSaid::Form) => return Err(TextEnd::BadLine { line: number }),
            Err(NotSaid::NoMemory) => return Err(TextEnd::NoMemory),
        }
    }
    Ok(secrets)
}

/// The secret of a line, after those before it.
fn read_secret(alloc: Global, line: &[u8], before: &[Secret]) -> Result<Secret, NotSaid>
    ensures { Finds (AddsSecret before.now line.now) result }
{
    let Some((name, word)) = split_secret(line) else {
        return Err(NotSaid::Form);
    };
    if before.len() >= SECRET_LIMIT as usize {
        return Err(NotSaid::Form);
    }
    if has_name(before, name) {
        return Err(NotSaid::Form);
    }
    let value = read_value(alloc, word)?;
    let name = Bytes::copy(alloc, name)?;
    Ok(Secret {
        name,
        value,
        born: 0,
    })
}

/// The name in a line that says a secret, and the word of its value.
fn split_secret(line: &[u8]) -> Option<(&[u8], &[u8])>
    ensures { MatchOption result ((name word : List ℕ) → HasSecretWords line.now name word → ⊥)
        (λ parts. HasSecretWords line.now parts.0.now parts.1.now) }
{
    let Some(words) = after_word(line, b"secret ") else {
        return None;
    };
    let Some((name, word)) = split_at_byte(words, b' ') else {
        return None;
    };
    if is_name(name) {
        Some((name, word))
    } else {
        None
    }
}

/// The value that a word spells in hexadecimal, at most 128 bytes.
fn read_value(alloc: Global, word: &[u8]) -> Result<Bytes, NotSaid>
    ensures { Finds (λ value. IsHex word.now value × (length value ≤ VALUE_LIMIT)) result }
{
    let value = read_hex(alloc, word)?;
    if value.as_slice().len() > VALUE_LIMIT as usize {
        return Err(NotSaid::Form);
    }
    Ok(value)
}

/// Whether a secret has the name.
fn has_name(secrets: &[Secret], name: &[u8]) -> bool
    ensures { result ≡ list_any (has_name name.now) secrets.now }
{
    secrets.iter().any(|secret| is_named(secret, name))
}

/// The text of these secrets: a line for each.
pub fn write_secrets(alloc: Global, secrets: &[Secret]) -> Result<Bytes, NoMemory>
    ensures { IfOk result (λ text. text ≡ secrets_text secrets.now) }
{
    let mut text = Vec::new(alloc);
    for secret in secrets {
        put_secret(alloc, &mut text, secret)?;
    }
    Ok(Bytes::from_vec(text))
}

/// Appends the line of a secret and its LF.
fn put_secret(alloc: Global, out: &mut Vec<u8>, secret: &Secret) -> Result<(), NoMemory>
    ensures { OnOk result (out.new.items ≡ out.old.items ++ line_with_lf (secret_line secret.now)) }
{
    let word = hex_word(alloc, secret.value.as_slice())?;
    put_slice(out, b"secret ")?;
    put_slice(out, secret.name.as_slice())?;
    put_slice(out, b" ")?;
    put_slice(out, word.as_bytes())?;
    put_slice(out, b"\n")
}
