//! Whether a signature is one of a text (RFC 8554, section 5.4.2).

ghost use Rattle.std.specs.Prelude.{◌↔◌, ◌++◌, IsTrue};
ghost use Rattle.mb_model.specs.signatures.Merkle.{Verifies};

use crate::signature::{begun_text, has_form, leads_to_root};
use mb_model::PublicKey;
use sha2::{Digest, Sha256};

/// A signature being checked, while its text is fed in pieces.
#[derive(Drop)]
pub struct Checker {
    key: PublicKey,
    hasher: Sha256,
}

impl Checker {
    ghost use Rattle.std.specs.Prelude.{ℕ, List, [], IsSome, IfSome};
    ghost use Rattle.mb_model.specs.declared.key.PublicKey.{PublicKey};
    ghost use Rattle.mb_model.specs.signatures.Merkle.{HasForm};
    ghost use Rattle.mb_lms.specs.Checking.{IsChecking};

    /// Begins to check a signature, before its text; `None` if it does not have the form of the key's signatures.
    pub fn begin(key: &PublicKey, sig: &[u8]) -> Option<Checker>
        ensures form { IsSome result ↔ HasForm key.now sig.now }
        ensures checking { IfSome result (λ checker. IsChecking checker key.now sig.now []) }
    {
        if !has_form(key, sig) {
            return None;
        }
        Some(Checker {
            key: *key,
            hasher: begun_text(key, sig),
        })
    }

    /// Takes the next piece of the text.
    pub fn feed(&mut self, piece: &[u8])
        ensures { (key : PublicKey) (sig text : List ℕ) → IsChecking self.old key sig text → IsChecking self.new key sig (text ++ piece.now) }
    {
        self.hasher.update(piece);
    }

    /// Whether `sig`, the signature that `begin` was given, is a signature of the text that was fed.
    pub fn finish(self, sig: &[u8]) -> bool
        ensures { (key : PublicKey) (text : List ℕ) → IsChecking self key sig.now text → (IsTrue result ↔ Verifies key text sig.now) }
    {
        let Checker { key, hasher } = self;
        leads_to_root(&key, &hasher.finalize(), sig)
    }
}

/// Whether `sig` is a signature of `head` followed by `body` under the key (RFC 8554, section 5.4.2).
pub fn verify(key: &PublicKey, head: &[u8], body: &[u8], sig: &[u8]) -> bool
    ensures { IsTrue result ↔ Verifies key.now (head.now ++ body.now) sig.now }
{
    let Some(mut checker) = Checker::begin(key, sig) else {
        return false;
    };
    checker.feed(head);
    checker.feed(body);
    checker.finish(sig)
}
