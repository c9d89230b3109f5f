//! One-time signatures: digits, chains, and the one-time key to which chain values belong (RFC 8554, section 4).

ghost use Rattle.std.specs.Prelude.{◌≡◌, ℕ, ◌+◌, ◌-◌, ◌*◌, ◌/◌, ◌^◌, ◌<◌, ◌≤◌, ◌∷◌, ◌++◌, List, length};
ghost use Rattle.std.specs.Int.{w16, w32, to_be_bytes};
ghost use Rattle.sha2.specs.Sha256.{sha256};
ghost use Rattle.mb_model.specs.signatures.Key.{digit_bits, chain_count};
ghost use Rattle.mb_model.specs.signatures.Winternitz.{coef, shortfall, checksum, digits_of, value_after_steps};
ghost use Rattle.mb_model.specs.signatures.Winternitz.{one_time_key};

use crate::bytes::{begun, value_at};
use crate::parameters::{chain_count, greatest_digit, hash_digits};
use mb_bytes::put_at;
use mb_model::separators::ONE_TIME_KEY_MARK;
use mb_model::{Chains, PublicKey};
use sha2::{Digest, Sha256};

/// Digit `i` (RFC 8554, section 3.1.3).
#[tactic(auto, using(crate::proofs::Digits::digit_rules), unfolding(mb_model::specs::signatures::Winternitz::coef))]
pub fn coef(chains: Chains, bytes: &[u8], i: u16) -> u8
    requires { i * digit_bits chains / 8 < length bytes.now }
    ensures value { result ≡ coef bytes.now i (digit_bits chains) }
    ensures bound { result ≤ 2 ^ digit_bits chains - 1 }
{
    let i = usize::from(i);
    match chains {
        Chains::W1 => 0x01 & (bytes[i / 8] >> (7 - i % 8)),
        Chains::W2 => 0x03 & (bytes[i / 4] >> (6 - 2 * (i % 4))),
        Chains::W4 => 0x0f & (bytes[i / 2] >> (4 - 4 * (i % 2))),
        Chains::W8 => bytes[i],
    }
}

/// The sum, over the digits of a hash, of how much each is below the greatest digit.
#[tactic(auto, using(crate::proofs::Digits::shortfall_rules))]
fn shortfall(chains: Chains, hash: &[u8; 32]) -> u16
    ensures value { result ≡ shortfall hash.now (digit_bits chains) (256 / digit_bits chains) }
    ensures bound { result ≤ (2 ^ digit_bits chains - 1) * (256 / digit_bits chains) }
{
    let greatest = greatest_digit(chains);
    let mut sum: u16 = 0;
    for i in 0..hash_digits(chains) {
        sum += u16::from(greatest - coef(chains, hash, i));
    }
    sum
}

/// The checksum of a hash, as two bytes (RFC 8554, section 4.4).
#[tactic(auto, unfolding(mb_model::specs::signatures::Winternitz::checksum))]
fn checksum(chains: Chains, hash: &[u8; 32]) -> u16
    ensures { result ≡ checksum chains hash.now }
{
    let sum = shortfall(chains, hash);
    match chains {
        Chains::W1 => sum * 128,
        Chains::W2 => sum * 64,
        Chains::W4 => sum * 16,
        Chains::W8 => sum,
    }
}

/// The bytes whose digits a signature signs: the hash, and then its checksum (RFC 8554, section 4.5).
#[tactic(auto, unfolding(mb_model::specs::signatures::Winternitz::digits_of))]
pub fn digits_of(chains: Chains, hash: &[u8; 32]) -> [u8; 34]
    ensures { result ≡ digits_of chains hash.now }
{
    let mut digits = [0; 34];
    put_at(&mut digits, 0, hash);
    put_at(&mut digits, 32, &checksum(chains, hash).to_be_bytes());
    digits
}

/// The first bytes that every step of a chain hashes: the identifier, the leaf's number and the chain's (RFC 8554,
/// section 4.3).
pub fn chain_prefix(identifier: &[u8; 16], q: u32, chain: u16) -> [u8; 22]
    ensures { result ≡ identifier.now ++ to_be_bytes w32 q ++ to_be_bytes w16 chain }
{
    let mut prefix = [0; 22];
    put_at(&mut prefix, 0, identifier);
    put_at(&mut prefix, 16, &q.to_be_bytes());
    put_at(&mut prefix, 20, &chain.to_be_bytes());
    prefix
}

/// One step of a chain, whose text of 55 bytes is hashed at once.
fn chain_step(prefix: &[u8; 22], step: u8, value: &[u8; 32]) -> [u8; 32]
    ensures { result ≡ sha256 (prefix.now ++ step ∷ value.now) }
{
    let mut text = [0; 55];
    put_at(&mut text, 0, prefix);
    put_at(&mut text, 22, &[step]);
    put_at(&mut text, 23, value);
    Sha256::digest(text)
}

/// The value of a chain after the steps from `first` up to, but not including, `last`.
#[tactic(auto, using(crate::proofs::Digits::chain_rules))]
fn chain_end(prefix: &[u8; 22], first: u8, last: u8, value: [u8; 32]) -> [u8; 32]
    requires { first ≤ last }
    ensures { (id : List ℕ) (q chain : ℕ) → prefix.now ≡ id ++ to_be_bytes w32 q ++ to_be_bytes w16 chain → result ≡ value_after_steps id q chain first last value }
{
    let mut link = value;
    for n in 0..last - first {
        link = chain_step(prefix, first + n, &link);
    }
    link
}

/// The one-time key to which the digits and the chain values belong (RFC 8554, section 4.6).
#[tactic(auto, unfolding(mb_model::specs::signatures::Winternitz::one_time_key))]
pub(crate) fn one_time_key(key: &PublicKey, q: u32, digits: &[u8; 34], values: &[u8]) -> [u8; 32]
    requires { length values.now ≡ 32 * chain_count key.now.chains }
    ensures { result ≡ one_time_key key.now.chains key.now.identifier q digits.now values.now }
{
    let last = greatest_digit(key.chains);
    let mut hasher = begun(&key.identifier, q, ONE_TIME_KEY_MARK);
    for i in 0..chain_count(key.chains) {
        let prefix = chain_prefix(&key.identifier, q, i);
        let value = value_at(values, usize::from(i));
        hasher.update(chain_end(&prefix, coef(key.chains, digits, i), last, value));
    }
    hasher.finalize()
}
