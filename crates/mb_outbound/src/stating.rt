//! Statements: what a key of a region signs.

ghost use Rattle.std.specs.Prelude.{◌≡◌, ◌+◌, ◌≤◌, ◌∷◌, ◌++◌};
ghost use Rattle.std.specs.Int.{w32, to_be_bytes};
ghost use Rattle.mb_model.specs.declared.separators.TheConstants.{CALL_TEXT};
ghost use Rattle.mb_model.specs.signatures.Signing.{signature_of};
ghost use Rattle.mb_model.specs.machine.SignedTexts.{said_text};
ghost use Rattle.mb_signer.specs.Tree.{IsTreeOf};
ghost use Rattle.mb_lms.specs.declared.hash_count.TheConstants.{LEAF_HASHES};

use mb_bytes::put_at;
use mb_lms::HashCount;
use mb_model::separators::{CALL_TEXT, STATEMENT_TEXT};
use mb_model::{KeySeed, SIGNATURE_LENGTH, Said};
use mb_signer::{KeptTree, OneUse, sign_kept};
use std::sync::ledger::Ledger;

/// What a statement is of, besides what it says: the device, the key that signs, and the configuration.
#[derive(Drop)]
pub struct Subject {
    /// The device's serial.
    pub serial: [u8; 16],
    /// The number of the key.
    pub key: u32,
    /// The configuration number.
    pub number: u32,
}

/// The text of a statement before what it says: a domain separator, the device's serial, the number of the key, and the
/// configuration number.
fn subject_text(separator: u8, subject: &Subject) -> [u8; 25]
    ensures { result ≡ separator
        ∷ subject.now.serial ++ to_be_bytes w32 subject.now.key
        ++ to_be_bytes w32 subject.now.number }
{
    let mut head = [0; 25];
    put_at(&mut head, 0, &[separator]);
    put_at(&mut head, 1, &subject.serial);
    put_at(&mut head, 17, &subject.key.to_be_bytes());
    put_at(&mut head, 21, &subject.number.to_be_bytes());
    head
}

/// The text of the statement of a call before the answer: the text of the subject, and the hash of the input.
fn call_head(subject: &Subject, input: &[u8; 32]) -> [u8; 57]
    ensures { result ≡ CALL_TEXT
        ∷ subject.now.serial ++ to_be_bytes w32 subject.now.key
        ++ to_be_bytes w32 subject.now.number ++ input.now }
{
    let mut head = [0; 57];
    put_at(&mut head, 0, &subject_text(CALL_TEXT, subject));
    put_at(&mut head, 25, input);
    head
}

/// Signs the statement that says this with the subject's key, in its device, at its configuration number: a message, or
/// the answer of code to an input. The seed and the tree are the key's. Spends the right; takes at most 1,074 hashes and
/// no memory.
pub fn state_text<L: Ledger>(
    right: OneUse,
    seed: &KeySeed,
    tree: &KeptTree,
    subject: &Subject,
    said: &Said,
    out: &mut [u8; SIGNATURE_LENGTH],
    hashes: &mut HashCount<L>,
)
    requires { IsTreeOf seed.now tree.now }
    ensures signature { out.new
        ≡ signature_of seed.now right (said_text subject.now.serial subject.now.key
        subject.now.number said.now) }
    ensures cost { hashes.new ≤ hashes.old + LEAF_HASHES }
{
    match said {
        Said::Message(message) => {
            let head = subject_text(STATEMENT_TEXT, subject);
            sign_kept(right, tree, seed, &head, message.as_slice(), out, hashes);
        }
        Said::Answer { input, answer } => {
            let head = call_head(subject, input);
            sign_kept(right, tree, seed, &head, answer.as_slice(), out, hashes);
        }
    }
}
