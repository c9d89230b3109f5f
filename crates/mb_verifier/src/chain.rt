//! The verdict on a chain, and the report on a key by a chain that is accepted.

ghost use Rattle.std.specs.Prelude.{◌≡◌, ◌≤◌, ℕ, List, length, IfOk, IfErr, IfSome, Some};
ghost use Rattle.mb_model.specs.declared.limits.TheConstants.{FILE_LIMIT};
ghost use Rattle.mb_model.specs.declared.entry.Chain.{Chain};
ghost use Rattle.mb_model.specs.records.ChainFormat.{chain_format};
ghost use Rattle.mb_model.specs.owners.Log.{entries_of, RuledLog};
ghost use Rattle.mb_model.specs.chains.Acceptance.{Accepts, AreGood, IsRefused, said_of};
ghost use Rattle.mb_model.specs.chains.Acceptance as acceptance;
ghost use Rattle.mb_format.specs.Format.{Spells};
ghost use Rattle.mb_verifier.specs.Ends.{chain_refusal_of};
ghost use Rattle.mb_verifier.specs.Entries.{IsEntriesRefused, ChainShows};

use crate::entries::{hash_entries, judge};
use crate::refusal::ChainRefusal;
use crate::statement::check_statement;
use mb_cert::{ChainEnd, read_chain};
use mb_log::serial_of;
use mb_model::{Chain, Figures, Items, PublicKey, Report, Said, Statement};
use std::alloc::Global;

/// What the entries of a chain show of their device.
#[derive(Drop)]
pub struct Shown {
    /// The serial of the device.
    pub serial: [u8; 16],
    /// What the entries say together.
    pub figures: Figures,
    /// The hash of each entry, without its signature, in order.
    pub hashes: Items<[u8; 32]>,
}

/// The report on the key with the number `key` by a chain of at most 4,194,304 bytes, if the chain is accepted under
/// the maker's key `root`. Each signature is checked once, and the text of one entry at a time is in memory; no clause
/// says so.
///
/// Errors: those of `ChainRefusal`.
pub fn verify(
    alloc: Global,
    root: &PublicKey,
    chain: &[u8],
    key: u32,
) -> Result<Report, ChainRefusal>
    requires { length chain.now ≤ FILE_LIMIT }
    ensures accepted { IfOk result (Accepts root.now chain.now key) }
    ensures refused { IfErr result (λ why. (refusal : acceptance.ChainRefusal) → chain_refusal_of why ≡ Some refusal → IsRefused root.now chain.now key refusal) }
    ensures ruled { IfOk result (λ report. (whole : Chain) → Spells chain_format chain.now whole → RuledLog (entries_of whole.entries)) }
{
    match read_chain(alloc, chain) {
        Ok(chain) => report_on(alloc, root, chain, key),
        Err(ChainEnd::Bad { at }) => Err(ChainRefusal::Form { at }),
        Err(ChainEnd::NoMemory) => Err(ChainRefusal::NoMemory),
    }
}

/// The report on the key with the number `key`, if the chain is accepted; else why it is refused.
fn report_on(
    alloc: Global,
    root: &PublicKey,
    chain: Chain,
    key: u32,
) -> Result<Report, ChainRefusal>
    requires { chain_format.Allowed chain }
    ensures accepted { (bytes : List ℕ) → Spells chain_format bytes chain → IfOk result (Accepts root.now bytes key) }
    ensures refused { (bytes : List ℕ) → Spells chain_format bytes chain → IfErr result (λ why. IfSome (chain_refusal_of why) (IsRefused root.now bytes key)) }
{
    let log = chain.entries.as_slice();
    let judged = judge(alloc, root, log, key)?;
    let Some(born) = judged.life.born else {
        return Err(ChainRefusal::KeyUnknown);
    };
    if let Some(statement) = &chain.statement {
        check_statement(log, &judged, &born, statement)?;
    }
    Ok(Report {
        layer: born.layer,
        kind: born.kind,
        alive: judged.life.alive,
        lives: judged.life.lives,
        entries: judged.figures.length,
        said: said_of(chain.statement),
    })
}

/// The chain of at most 4,194,304 bytes, if its entries are good under the maker's key `root`. Of a statement, only the
/// form is checked. Each signature of an entry is checked once; no clause says so.
///
/// Errors: those of `ChainRefusal` that the form or an entry gives (`Form`, `Signature`, `Order`, `Rules`), and
/// `NoMemory`.
pub fn verify_entries(alloc: Global, root: &PublicKey, chain: &[u8]) -> Result<Chain, ChainRefusal>
    requires { length chain.now ≤ FILE_LIMIT }
    ensures spelled { IfOk result (Spells chain_format chain.now) }
    ensures good { IfOk result (λ whole. AreGood root.now whole.entries) }
    ensures refused { IfErr result (λ why. IfSome (chain_refusal_of why) (IsEntriesRefused root.now chain.now)) }
{
    match read_chain(alloc, chain) {
        Ok(chain) => good_chain(alloc, root, chain),
        Err(ChainEnd::Bad { at }) => Err(ChainRefusal::Form { at }),
        Err(ChainEnd::NoMemory) => Err(ChainRefusal::NoMemory),
    }
}

/// The chain, if its entries are good; else why the first that is not good is refused. No entry makes the key with the
/// number 0, so its life takes no memory.
fn good_chain(alloc: Global, root: &PublicKey, chain: Chain) -> Result<Chain, ChainRefusal>
    requires { chain_format.Allowed chain }
    ensures same { IfOk result (λ whole. whole ≡ chain) }
    ensures good { IfOk result (λ whole. AreGood root.now whole.entries) }
    ensures refused { (bytes : List ℕ) → Spells chain_format bytes chain → IfErr result (λ why. IfSome (chain_refusal_of why) (IsEntriesRefused root.now bytes)) }
{
    judge(alloc, root, chain.entries.as_slice(), 0)?;
    Ok(chain)
}

/// What the entries of a chain of at most 4,194,304 bytes show, if they are good under the maker's key `root`. Of a
/// statement, only the form is checked. Each signature of an entry is checked once; no clause says so.
///
/// Errors: those of `ChainRefusal` that the form or an entry gives (`Form`, `Signature`, `Order`, `Rules`), and
/// `NoMemory`.
pub fn verify_shown(alloc: Global, root: &PublicKey, chain: &[u8]) -> Result<Shown, ChainRefusal>
    requires { length chain.now ≤ FILE_LIMIT }
    ensures shown { IfOk result (ChainShows root.now chain.now) }
    ensures refused { IfErr result (λ why. IfSome (chain_refusal_of why) (IsEntriesRefused root.now chain.now)) }
{
    match read_chain(alloc, chain) {
        Ok(chain) => shown_by(alloc, root, &chain),
        Err(ChainEnd::Bad { at }) => Err(ChainRefusal::Form { at }),
        Err(ChainEnd::NoMemory) => Err(ChainRefusal::NoMemory),
    }
}

/// What the entries of a chain show, if they are good; else why the first that is not good is refused.
fn shown_by(alloc: Global, root: &PublicKey, chain: &Chain) -> Result<Shown, ChainRefusal>
    requires { chain_format.Allowed chain.now }
    ensures shown { (bytes : List ℕ) → Spells chain_format bytes chain.now → IfOk result (ChainShows root.now bytes) }
    ensures refused { (bytes : List ℕ) → Spells chain_format bytes chain.now → IfErr result (λ why. IfSome (chain_refusal_of why) (IsEntriesRefused root.now bytes)) }
{
    let log = chain.entries.as_slice();
    let hashed = hash_entries(alloc, root, log)?;
    let Some(serial) = serial_of(log) else {
        unreachable!()
    };
    Ok(Shown {
        serial,
        figures: hashed.figures,
        hashes: hashed.hashes,
    })
}

/// What a statement says, if there is one.
fn said_of(statement: Option<Statement>) -> Option<Said>
    ensures { result ≡ said_of statement }
{
    match statement {
        Some(statement) => Some(statement.said),
        None => None,
    }
}
