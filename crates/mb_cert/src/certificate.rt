//! The signer of an entry.

ghost use Rattle.std.specs.Prelude.{◌≡◌, ◌↔◌, IsTrue};
ghost use Rattle.mb_model.specs.records.EntryFormat.{entry_format};
ghost use Rattle.mb_model.specs.signatures.Merkle.{leaf_number, Verifies};
ghost use Rattle.mb_model.specs.machine.SignedTexts.{entry_text};

use mb_lms::verify;
use mb_model::separators::ENTRY_TEXT;
use mb_model::{PublicKey, SIGNATURE_LENGTH, SignedEntry};

/// The index of a signature, which is the number of its leaf (RFC 8554, section 5.4).
pub fn leaf_number(signature: &[u8; SIGNATURE_LENGTH]) -> u32
    ensures { result ≡ leaf_number signature.now }
{
    let mut index = [0; 4];
    index.copy_from_slice(&signature[..4]);
    u32::from_be_bytes(index)
}

/// Whether the entry's signature is one of the entry under the key (RFC 8554, section 5.4.2). `spelling` is the entry's
/// spelling. Takes no memory.
#[tactic(auto, unfolding(mb_model::specs::machine::SignedTexts::entry_text))]
pub fn certifies(key: &PublicKey, signed: &SignedEntry, spelling: &[u8]) -> bool
    requires { spelling.now ≡ entry_format.spelling signed.now.entry }
    ensures { IsTrue result ↔ Verifies key.now (entry_text signed.now.entry) signed.now.signature }
{
    verify(key, &[ENTRY_TEXT], spelling, &signed.signature)
}
