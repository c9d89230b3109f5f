//! Which key signed a statement, if no key is asked for.

ghost use Rattle.std.specs.Prelude.{◌≤◌, ℕ, length, IfErr, IfOk, IfSome, MatchOption};
ghost use Rattle.mb_model.specs.declared.limits.TheConstants.{ENTRY_LIMIT};
ghost use Rattle.mb_model.specs.owners.Log.{entries_of, RuledLog};
ghost use Rattle.mb_model.specs.chains.Acceptance.{KeyEntry};
ghost use Rattle.mb_log.specs.KeyLife.{IsLifeOf};
ghost use Rattle.mb_verifier.specs.Ends.{chain_refusal_of};
ghost use Rattle.mb_verifier.specs.Signers.{IsSigner, HasNoSigner, HasSigned, IsStatementRefused};
ghost use Rattle.mb_verifier.specs.SignerEntries.{MakesSigner};

use crate::refusal::ChainRefusal;
use crate::statement::is_stated;
use mb_log::{Life, add_entry, figures_of, no_figures};
use mb_model::{Entry, NoMemory, SignedEntry, Statement};
use std::alloc::Global;

/// The number of the key that signed the statement, the lowest of those that the log makes, if the statement is of the
/// log's last configuration and the key is alive.
///
/// Errors: `StatementSignature` if no key of the log signed it, `StatementNumber`, `NotAlive`, `NoMemory`.
pub fn signer_of(
    alloc: Global,
    log: &[SignedEntry],
    statement: &Statement,
) -> Result<u32, ChainRefusal>
    requires short { length log.now ≤ ENTRY_LIMIT }
    requires ruled { RuledLog (entries_of log.now) }
    ensures signed { IfOk result (HasSigned (entries_of log.now) statement.now) }
    ensures refused { IfErr result (λ why. IfSome (chain_refusal_of why) (IsStatementRefused (entries_of log.now) statement.now)) }
{
    let Some(key) = first_signer(log, statement) else {
        return Err(ChainRefusal::StatementSignature);
    };
    let life = life_of(alloc, log, key)?;
    let last = figures_of(log).number;
    if statement.number != last {
        return Err(ChainRefusal::StatementNumber {
            named: statement.number,
            last,
        });
    }
    if !life.alive {
        return Err(ChainRefusal::NotAlive);
    }
    Ok(key)
}

/// The number of the first key that the log makes and that signed the statement, if one did.
fn first_signer(log: &[SignedEntry], statement: &Statement) -> Option<u32>
    requires { RuledLog (entries_of log.now) }
    ensures { MatchOption result (HasNoSigner (entries_of log.now) statement.now)
        (λ n. (made : KeyEntry) × IsSigner (entries_of log.now) statement.now n made) }
{
    for signed in log {
        if let Some(key) = signer_in(log, &signed.entry, statement) {
            return Some(key);
        }
    }
    None
}

/// The number of the key that an entry makes, if it makes one that signed the statement.
fn signer_in(log: &[SignedEntry], entry: &Entry, statement: &Statement) -> Option<u32>
    ensures { MatchOption result ((n : ℕ) → MakesSigner (entries_of log.now) statement.now entry.now n → ⊥)
        (MakesSigner (entries_of log.now) statement.now entry.now) }
{
    let Entry::NewKey {
        key_number,
        key,
        ..
    } = entry
    else {
        return None;
    };
    if is_stated(log, *key_number, key, statement) {
        Some(*key_number)
    } else {
        None
    }
}

/// The life of the key with the number `key` by a log whose entries obey the rules.
pub fn life_of(alloc: Global, log: &[SignedEntry], key: u32) -> Result<Life, NoMemory>
    requires short { length log.now ≤ ENTRY_LIMIT }
    requires ruled { RuledLog (entries_of log.now) }
    ensures { IfOk result (IsLifeOf (entries_of log.now) key) }
{
    let mut figures = no_figures();
    let mut life = Life::begin(alloc, key);
    for signed in log {
        life.add(&figures, &signed.entry)?;
        add_entry(&mut figures, &signed.entry);
    }
    Ok(life)
}
