//! The checks of a statement: by the key, of the chain's last configuration, and by a key that is alive.

ghost use Rattle.std.specs.Prelude.{◌≡◌, ◌↔◌, ◌++◌, ℕ, List, IfErr, IfSome, OnOk, IsTrue, Some};
ghost use Rattle.mb_model.specs.declared.key.PublicKey.{PublicKey};
ghost use Rattle.mb_model.specs.owners.Log.{figures_of, entries_of};
ghost use Rattle.mb_model.specs.signatures.Merkle.{Verifies};
ghost use Rattle.mb_model.specs.machine.SignedTexts.{said_text};
ghost use Rattle.mb_model.specs.chains.Acceptance.{IsStated, IsCurrent};
ghost use Rattle.mb_lms.specs.Checking.{IsChecking};
ghost use Rattle.mb_log.specs.KeyLife.{as_entry, IsLifeOf};
ghost use Rattle.mb_verifier.specs.Checked.{IsBadStatement};
ghost use Rattle.mb_verifier.specs.Ends.{chain_refusal_of};
ghost use Rattle.mb_verifier.specs.SaidParts.{said_separator, said_bytes};

use crate::entries::Judged;
use crate::refusal::ChainRefusal;
use mb_lms::Checker;
use mb_log::{BornKey, serial_of};
use mb_model::separators::{CALL_TEXT, STATEMENT_TEXT};
use mb_model::{PublicKey, Said, SignedEntry, Statement};

/// Checks that the statement is by the key `born`, of the chain's last configuration, and that the key is alive; else
/// answers why it is refused. `judged` has the results of the log.
pub(crate) fn check_statement(
    log: &[SignedEntry],
    judged: &Judged,
    born: &BornKey,
    statement: &Statement,
) -> Result<(), ChainRefusal>
    requires figures { judged.now.figures ≡ figures_of (entries_of log.now) }
    requires life { IsLifeOf (entries_of log.now) judged.now.life.number judged.now.life }
    requires born { judged.now.life.born ≡ Some born.now }
    ensures current { OnOk result (IsCurrent (entries_of log.now) judged.now.life.number (as_entry born.now) statement.now) }
    ensures refused { IfErr result (λ why. IfSome (chain_refusal_of why) (IsBadStatement (entries_of log.now) judged.now.life.number (as_entry born.now) statement.now)) }
{
    if !is_stated(log, judged.life.number, &born.key, statement) {
        return Err(ChainRefusal::StatementSignature);
    }
    let last = judged.figures.number;
    if statement.number != last {
        return Err(ChainRefusal::StatementNumber {
            named: statement.number,
            last,
        });
    }
    if !judged.life.alive {
        return Err(ChainRefusal::NotAlive);
    }
    Ok(())
}

/// Whether the key with the number `number` signed the statement, in the device with this log.
pub(crate) fn is_stated(
    log: &[SignedEntry],
    number: u32,
    key: &PublicKey,
    statement: &Statement,
) -> bool
    ensures { IsTrue result ↔ IsStated (entries_of log.now) number key.now statement.now }
{
    match serial_of(log) {
        Some(serial) => states(&serial, number, key, statement),
        None => false,
    }
}

/// Whether the key with the number `number` signed the statement in the device with this serial (RFC 8554, section
/// 5.4.2).
fn states(serial: &[u8; 16], number: u32, key: &PublicKey, statement: &Statement) -> bool
    ensures { IsTrue result ↔ Verifies key.now (said_text serial.now number statement.now.number statement.now.said) statement.now.signature }
{
    let Some(mut checker) = Checker::begin(key, &statement.signature) else {
        return false;
    };
    checker.feed(&[said_separator(&statement.said)]);
    checker.feed(serial);
    checker.feed(&number.to_be_bytes());
    checker.feed(&statement.number.to_be_bytes());
    feed_said(&mut checker, &statement.said);
    checker.finish(&statement.signature)
}

/// Domain separator of the text that says this.
fn said_separator(said: &Said) -> u8
    ensures { result ≡ said_separator said.now }
{
    match said {
        Said::Message(_) => STATEMENT_TEXT,
        Said::Answer { .. } => CALL_TEXT,
    }
}

/// Feeds the end of the text, after the configuration number: the message; or the hash of the input, and the answer.
fn feed_said(checker: &mut Checker, said: &Said)
    ensures { (key : PublicKey) (sig text : List ℕ) → IsChecking checker.old key sig text → IsChecking checker.new key sig (text ++ said_bytes said.now) }
{
    match said {
        Said::Message(message) => checker.feed(message.as_slice()),
        Said::Answer { input, answer } => {
            checker.feed(input);
            checker.feed(answer.as_slice());
        }
    }
}
