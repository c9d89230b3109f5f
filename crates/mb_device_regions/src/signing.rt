//! Statements: what a key of a region signs.

ghost use Rattle.std.specs.Prelude.{◌≡◌, ◌+◌, ◌≤◌, [], vec_len, vec_capacity, IfOk};
ghost use Rattle.mb_model.specs.declared.entry.Said.TheVariants as said;
ghost use Rattle.mb_model.specs.machine.LayerEvents.{sign_event};
ghost use Rattle.mb_model.specs.chains.Script.{FitsMessage};
ghost use Rattle.mb_model.specs.declared.limits.TheConstants.{STATEMENT_LIMIT};
ghost use Rattle.mb_model.specs.declared.reply.Reply.TheVariants as reply;
ghost use Rattle.mb_model.specs.records.ChainFormat.{said_format, statement_format};
ghost use Rattle.mb_signer.specs.Tree.{IsTreeOf};
ghost use Rattle.mb_device_orders.specs.Remembering.{CanAnswer};
ghost use Rattle.mb_device_regions.specs.Calls.{AnswersIn, SignsByTree};
ghost use Rattle.mb_device_regions.specs.Statements.{signed_statement, signed_statement_bytes, subject_in};
ghost use Rattle.mb_device_regions.specs.Statements.{SameBesidesTree, IsKeptOfSeed};
ghost use Rattle.mb_lms.specs.declared.hash_count.TheConstants.{LEAF_HASHES, SIGNING_HASHES};
ghost use Rattle.mb_outbound.specs.KeptTrees.{IsKeptFor, IfKeptFor};

use mb_board::Board;
use mb_cert::write_statement;
use mb_device_orders::{Known, Running};
use mb_lms::HashCount;
use mb_model::{
    Bytes, KeySeed, NoMemory, Refusal, Reply, SIGNATURE_LENGTH, STATEMENT_LIMIT, Said, Statement,
};
use mb_outbound::{BindEnd, Subject, bind, region_tree, state_text};
use mb_ratchet::{Off, Reaches};
use mb_region::Named;
use mb_signer::{KeptTree, OneUse};
use std::alloc::Global;
use std::sync::ledger::Ledger;

/// Memory for the longest statement.
#[derive(Drop)]
pub(crate) struct Sheet {
    bytes: Vec<u8>,
    ghost room: { STATEMENT_LIMIT ≤ vec_capacity bytes },
    ghost none: { vec_len bytes ≡ 0 },
    ghost empty: { bytes.items ≡ [] },
}

impl Sheet {
    /// Takes the memory.
    pub(crate) fn new(alloc: Global) -> Result<Sheet, NoMemory> {
        let bytes = Vec::with_capacity(alloc, STATEMENT_LIMIT)?;
        Ok(Sheet { bytes })
    }
}

/// The statement that says this, with this signature.
#[tactic(auto, using(crate::proofs::Stated::said_allowed))]
fn statement_with(number: u32, said: Said, signature: [u8; SIGNATURE_LENGTH]) -> Statement
    requires { said_format.Allowed said }
    ensures is { result ≡ signed_statement number said signature }
    ensures allowed { statement_format.Allowed result }
{
    Statement {
        number,
        said,
        signature,
    }
}

/// Signs a statement with the subject's key, and spells it. The seed and the tree are the key's. The right is spent.
/// Takes no memory.
fn make_statement<Lg: Ledger>(
    right: OneUse,
    seed: &KeySeed,
    tree: &KeptTree,
    subject: &Subject,
    said: Said,
    sheet: Sheet,
    hashes: &mut HashCount<Lg>,
) -> Bytes
    requires said { said_format.Allowed said }
    requires tree { IsTreeOf seed.now tree.now }
    ensures statement { result ≡ signed_statement_bytes seed.now right subject.now said }
    ensures cost { hashes.new ≤ hashes.old + LEAF_HASHES }
{
    let mut signature = [0; SIGNATURE_LENGTH];
    let Sheet { mut bytes } = sheet;
    state_text(right, seed, tree, subject, &said, &mut signature, hashes);
    let statement = statement_with(subject.number, said, signature);
    match write_statement(&statement, &mut bytes) {
        Ok(()) => Bytes::from_vec(bytes),
        Err(NoMemory) => unreachable!(),
    }
}

/// The reply that the key with number `key` of the region of this place, bound by this right and with this seed, has
/// signed what is said. The key signs with its tree, which is kept in place of the previous one. Takes no memory.
pub(crate) fn sign_bound<Lg: Ledger>(
    place: u16,
    key: u32,
    right: OneUse,
    seed: &KeySeed,
    said: Said,
    sheet: Sheet,
    known: &mut Known,
    hashes: &mut HashCount<Lg>,
) -> Reply
    requires said { said_format.Allowed said }
    requires own { IfKeptFor known.old.trees.value.region place key (λ own. IsTreeOf seed.now own.tree) }
    ensures reply { result ≡ reply.Signed key right
        (signed_statement_bytes seed.now right (subject_in known.old key) said) }
    ensures known { SameBesidesTree known.old known.new }
    ensures kept { IsKeptOfSeed known.new.trees.value.region place key seed.now }
    ensures cost { hashes.new ≤ hashes.old + SIGNING_HASHES }
    ensures again { IsKeptFor known.old.trees.value.region place key → hashes.new ≤ hashes.old + LEAF_HASHES }
{
    let index = right.index();
    let subject = Subject {
        serial: known.serial,
        key,
        number: known.figures.number,
    };
    let kept = &mut known.trees.region;
    let own = region_tree(kept.take(), place, key, seed, hashes);
    let statement = make_statement(right, seed, &own.tree, &subject, said, sheet, hashes);
    *kept = Some(own);
    Reply::Signed {
        key,
        index,
        statement,
    }
}

/// What a statement of the message says, and memory for the statement.
fn prepare(alloc: Global, message: &Bytes) -> Result<(Said, Sheet), NoMemory>
    requires { FitsMessage message.now }
    ensures { IfOk result (λ prepared. prepared.0 ≡ said.Message message.now) }
{
    let sheet = Sheet::new(alloc)?;
    Ok((
        Said::Message(Bytes::copy(alloc, message.as_slice())?),
        sheet,
    ))
}

/// Answers a request to sign: a statement of the message, signed by the key with number `key` at its next index, or a
/// refusal if the region has no such key or the key has no index left. The layer may run. One more use of the key is
/// stored before it signs, so that no index signs twice; if power fails, the use is stored or not. There are at most
/// three write calls and 35,473 hashes.
///
/// The key signs with its tree, which is kept in place of the previous one, so that the same key signs again in at most
/// 1,074 hashes. Where no key signs, the tree that was kept is kept still. A kept tree has to be that of the key for
/// which it is kept.
pub fn sign_message<S: Reaches<L>, L: Named, B: Board, Lg: Ledger>(
    alloc: Global,
    s: S,
    b: &mut B,
    key: u32,
    message: &Bytes,
    running: &mut Running,
    hashes: &mut HashCount<Lg>,
) -> Result<(S, Reply), Off>
    requires can_answer { CanAnswer S.stage running.old.known (B.seen b.old) }
    requires message { FitsMessage message.now }
    ensures answers { AnswersIn L.place (sign_event L.place key message.now) running.old running.new
        result (B.seen b.old) (B.seen b.new) }
    ensures trees { SignsByTree L.place key running.old.known.trees.value
        running.new.known.trees.value result hashes.old hashes.new }
{
    let (said, sheet) = match prepare(alloc, message) {
        Ok(prepared) => prepared,
        Err(NoMemory) => return Ok((s, Reply::NoMemory)),
    };
    match bind::<S, L, B>(s, b, key, &mut running.room) {
        Ok((s, right, seed)) => {
            let reply = sign_bound(
                L::number(),
                key,
                right,
                &seed,
                said,
                sheet,
                &mut running.known,
                hashes,
            );
            Ok((s, reply))
        }
        Err(BindEnd::NoKey(s)) => Ok((s, Refusal::NoSuchKey.reply())),
        Err(BindEnd::Spent(s)) => Ok((s, Refusal::KeySpent.reply())),
        Err(BindEnd::Stopped(off)) => Err(off),
    }
}
