//! The words of a draft's lines.

ghost use Rattle.std.specs.Prelude.{◌≡◌, ◌≤◌, ◌++◌, ◌∷◌, [], ℕ, List, length, codes, MatchOption, IsTrue};
ghost use Rattle.std.specs.Fmt.{decimal};
ghost use Rattle.mb_model.specs.declared.limits.TheConstants.{CODE_LIMIT};
ghost use Rattle.mb_model.specs.signatures.Key.{key_bytes, IsSized};
ghost use Rattle.mb_model.specs.owners.Layers.{is_layer_number};
ghost use Rattle.mb_model.specs.chains.Lines.{number_limit, spaced_words};
ghost use Rattle.mb_model.specs.chains.Script.{EndsInHex};
ghost use Rattle.mb_model.specs.chains.Drafts.{SaysTarget, trust_word, trust_line, trusts_line, SaysTrusts};
ghost use Rattle.mb_words.specs.Words.{Finds, FindsSome};
ghost use Rattle.mb_officer.specs.Drafting.{SaysSecond};

use mb_lms::parse_key;
use mb_model::{Bytes, CODE_LIMIT, PublicKey, Target, Trust, Trusts};
use mb_words::{NotSaid, after_word, read_array, read_hex, read_number};
use std::alloc::Global;

/// Reads a layer, 1 to 3, from a whole word.
pub(crate) fn read_layer(word: &[u8]) -> Option<u8>
    ensures { FindsSome (λ layer. IsTrue (is_layer_number layer) × (word.now ≡ decimal layer)) result }
{
    if word == b"1".as_slice() {
        Some(1)
    } else if word == b"2".as_slice() {
        Some(2)
    } else if word == b"3".as_slice() {
        Some(3)
    } else {
        None
    }
}

/// Reads a layer, 1 to 3, and a space, and answers the layer and what follows.
pub(crate) fn split_layer(text: &[u8]) -> Option<(u8, &[u8])>
    ensures { MatchOption result ((layer : ℕ) (rest : List ℕ) → IsTrue (is_layer_number layer) → text.now ≡ decimal layer ++ 32 ∷ rest → ⊥) (λ parts. IsTrue (is_layer_number parts.0) × (text.now ≡ decimal parts.0 ++ 32 ∷ parts.1.now)) }
{
    if let Some(rest) = after_word(text, b"1 ") {
        return Some((1, rest));
    }
    if let Some(rest) = after_word(text, b"2 ") {
        return Some((2, rest));
    }
    match after_word(text, b"3 ") {
        Some(rest) => Some((3, rest)),
        None => None,
    }
}

/// Reads a target from its line.
pub(crate) fn read_target(line: &[u8]) -> Option<Target>
    ensures { FindsSome (SaysTarget line.now) result }
{
    match after_word(line, b"target ") {
        Some(words) => read_demand(words),
        None => None,
    }
}

/// Reads a target from its line without the first word.
fn read_demand(words: &[u8]) -> Option<Target>
    ensures { FindsSome (SaysTarget (codes "target " ++ words.now)) result }
{
    if let Some(word) = after_word(words, b"serial ") {
        let Some(serial) = read_array(word) else {
            return None;
        };
        return Some(Target::Serial(serial));
    }
    if let Some(word) = after_word(words, b"length ") {
        let Some(length) = read_number(word, u32::MAX) else {
            return None;
        };
        return Some(Target::Length(length));
    }
    if let Some(words) = after_word(words, b"owner ") {
        return read_owner_demand(words);
    }
    match after_word(words, b"code ") {
        Some(words) => read_code_demand(words),
        None => None,
    }
}

/// Reads a target on an owner from its line without the first two words.
fn read_owner_demand(words: &[u8]) -> Option<Target>
    ensures { FindsSome (SaysTarget (codes "target owner " ++ words.now)) result }
{
    let Some((layer, word)) = split_layer(words) else {
        return None;
    };
    let Some(hash) = read_array(word) else {
        return None;
    };
    Some(Target::Owner { layer, hash })
}

/// Reads a target on code from its line without the first two words.
fn read_code_demand(words: &[u8]) -> Option<Target>
    ensures { FindsSome (SaysTarget (codes "target code " ++ words.now)) result }
{
    let Some((layer, word)) = split_layer(words) else {
        return None;
    };
    let Some(hash) = read_array(word) else {
        return None;
    };
    Some(Target::Code { layer, hash })
}

/// Reads a trust from a whole word.
fn trust_of(word: &[u8]) -> Option<Trust>
    ensures { FindsSome (λ trust. word.now ≡ trust_word trust) result }
{
    if word == b"always".as_slice() {
        Some(Trust::Always)
    } else if word == b"never".as_slice() {
        Some(Trust::Never)
    } else if word == b"countersigned".as_slice() {
        Some(Trust::Countersigned)
    } else {
        None
    }
}

/// Reads the second of two trusts from a whole word.
fn trusts_with(first: Trust, word: &[u8]) -> Option<Trusts>
    ensures { FindsSome (SaysSecond first word.now) result }
{
    match trust_of(word) {
        Some(two) => Some(Trusts { one: first, two }),
        None => None,
    }
}

/// Reads two trusts from a line that has a word for each.
#[tactic(auto, using(crate::proofs::Trusting::second_tells, crate::proofs::Trusting::none_begins))]
fn read_two_trusts(line: &[u8]) -> Option<Trusts>
    ensures { FindsSome (λ trusts. line.now ≡ trusts_line trusts) result }
{
    if let Some(word) = after_word(line, b"trust always ") {
        trusts_with(Trust::Always, word)
    } else if let Some(word) = after_word(line, b"trust never ") {
        trusts_with(Trust::Never, word)
    } else if let Some(word) = after_word(line, b"trust countersigned ") {
        trusts_with(Trust::Countersigned, word)
    } else {
        None
    }
}

/// Reads two trusts from a line that has one word for both, or a word for each.
pub(crate) fn read_trusts(line: &[u8]) -> Option<Trusts>
    ensures { FindsSome (SaysTrusts line.now) result }
{
    match read_trust(line) {
        Some(trust) => Some(Trusts::equal(trust)),
        None => read_two_trusts(line),
    }
}

/// Reads a trust from a line that has one word for changes of layer 1 and of layer 2.
#[tactic(auto, using(crate::proofs::Trusting::one_tells, crate::proofs::Trusting::none_said))]
fn read_trust(line: &[u8]) -> Option<Trust>
    ensures { FindsSome (λ trust. line.now ≡ trust_line trust) result }
{
    match after_word(line, b"trust ") {
        Some(word) => trust_of(word),
        None => None,
    }
}

/// Reads an owner's key from its line.
pub(crate) fn read_owner(line: &[u8]) -> Option<PublicKey>
    ensures { FindsSome (λ owner. IsSized owner × EndsInHex line.now (codes "owner" ∷ []) (key_bytes owner)) result }
{
    let Some(word) = after_word(line, b"owner ") else {
        return None;
    };
    match read_array(word) {
        Some(bytes) => parse_key(&bytes),
        None => None,
    }
}

/// Reads the version of code from its line.
pub(crate) fn read_version(line: &[u8]) -> Option<u32>
    ensures { FindsSome (λ version. (version ≤ number_limit) × (line.now ≡ spaced_words (codes "version" ∷ decimal version ∷ []))) result }
{
    match after_word(line, b"version ") {
        Some(word) => read_number(word, u32::MAX),
        None => None,
    }
}

/// Reads code from its line.
pub(crate) fn read_code(alloc: Global, line: &[u8]) -> Result<Bytes, NotSaid>
    ensures { Finds (λ code. (length code ≤ CODE_LIMIT) × EndsInHex line.now (codes "code" ∷ []) code) result }
{
    let Some(word) = after_word(line, b"code ") else {
        return Err(NotSaid::Form);
    };
    let code = read_hex(alloc, word)?;
    if code.as_slice().len() > CODE_LIMIT as usize {
        return Err(NotSaid::Form);
    }
    Ok(code)
}
