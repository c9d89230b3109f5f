//! Numbers in bytes, and the start of a hash.

ghost use Rattle.std.specs.Prelude.{◌≡◌, ◌+◌, ◌*◌, ◌≤◌, ◌++◌, length, take, drop};
ghost use Rattle.std.specs.Int.{w32, from_be_bytes, to_be_bytes};
ghost use Rattle.mb_model.specs.signatures.Winternitz.{value_at};
ghost use Rattle.sha2.specs.Hashers.{Holds256};

use sha2::{Digest, Sha256};

/// The number in the four bytes from `at` on, big-endian.
pub(crate) fn u32_at(bytes: &[u8], at: usize) -> u32
    requires { at + 4 ≤ length bytes.now }
    ensures { result ≡ from_be_bytes w32 (take 4 (drop at bytes.now)) }
{
    let mut word = [0; 4];
    word.copy_from_slice(&bytes[at..at + 4]);
    u32::from_be_bytes(word)
}

/// Value `i` in a row of values of 32 bytes each.
pub(crate) fn value_at(values: &[u8], i: usize) -> [u8; 32]
    requires { 32 * i + 32 ≤ length values.now }
    ensures { result ≡ value_at values.now i }
{
    let mut value = [0; 32];
    value.copy_from_slice(&values[32 * i..32 * i + 32]);
    value
}

/// A hasher that has taken an identifier, a number and a mark (RFC 8554, section 7.1).
pub(crate) fn begun(identifier: &[u8; 16], number: u32, mark: [u8; 2]) -> Sha256
    ensures { Holds256 result (identifier.now ++ to_be_bytes w32 number ++ mark) }
{
    let mut hasher = Sha256::new();
    hasher.update(identifier.as_slice());
    hasher.update(number.to_be_bytes());
    hasher.update(mark);
    hasher
}
