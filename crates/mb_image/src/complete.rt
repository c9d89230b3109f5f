//! The signatures that are still to be made, of entries that are stored without one.

ghost use Rattle.std.specs.Prelude.{◌≡◌, ℕ, ◌+◌, ◌*◌, ◌≤◌, ◌++◌, length, map, All, Some, IfOk, OnOk, IfSome};
ghost use Rattle.mb_model.specs.declared.limits.TheConstants.{KEY_USES, LAST_INDEX};
ghost use Rattle.mb_model.specs.records.EntryFormat.{entry_format};
ghost use Rattle.mb_model.specs.machine.OrderEffects.{entry_signed_by};
ghost use Rattle.mb_model.specs.memories.StoredLog.{entries_signed_for, outgoing_of, log_completed_by};
ghost use Rattle.mb_signer.specs.Tree.{IsTreeOf};
ghost use Rattle.mb_lms.specs.declared.hash_count.TheConstants.{LEAF_HASHES, TREE_HASHES};

use mb_layout::write_entry;
use mb_lms::HashCount;
use mb_model::separators::ENTRY_TEXT;
use mb_model::{Entry, KeySeed, Log, NoMemory, Outgoing, Root, SIGNATURE_LENGTH, SignedEntry};
use mb_signer::{KeptTree, Uses, sign_kept, take_index};
use std::alloc::Global;
use std::sync::ledger::Ledger;

/// The log that the entries of a memory mean. The unsigned entries, at most two, get their signatures by the outgoing
/// key and by the device key; `tree` is the tree of the device key.
#[tactic(auto, unfolding(mb_model::specs::memories::StoredLog::log_completed_by))]
pub(crate) fn completed<L: Ledger>(
    alloc: Global,
    root: &Root,
    tree: &KeptTree,
    signed: Log,
    unsigned: &[Entry],
    hashes: &mut HashCount<L>,
) -> Result<Log, NoMemory>
    requires tree { IsTreeOf root.now.device tree.now }
    requires uses { root.now.uses ≤ KEY_USES }
    requires outgoing { IfSome (outgoing_of root.now.pending) (λ outgoing. outgoing.uses ≤ KEY_USES) }
    requires spelled { All entry_format.Allowed unsigned.now }
    ensures log { IfOk result (λ log. log ≡ log_completed_by root.now signed unsigned.now) }
    ensures cost { hashes.new ≤ hashes.old + TREE_HASHES + LEAF_HASHES * length unsigned.now }
{
    let mut log = signed;
    match outgoing_of(root) {
        None => {
            let last = root.uses.saturating_sub(1);
            push_signed(alloc, &mut log, &root.device, tree, last, unsigned, hashes)?;
        }
        Some(outgoing) => {
            push_handed_over(
                alloc,
                &mut log,
                &outgoing,
                &root.device,
                tree,
                unsigned,
                hashes,
            )?;
        }
    }
    Ok(log)
}

/// The device key that gives way, if one does.
fn outgoing_of(root: &Root) -> Option<Outgoing>
    ensures { result ≡ outgoing_of root.now.pending }
{
    match &root.pending {
        None => None,
        Some(pending) => pending.outgoing,
    }
}

/// Adds the entries. The outgoing key signs the first with the index that it used last, and the device key the others
/// with its first index.
fn push_handed_over<L: Ledger>(
    alloc: Global,
    log: &mut Log,
    outgoing: &Outgoing,
    device: &KeySeed,
    tree: &KeptTree,
    entries: &[Entry],
    hashes: &mut HashCount<L>,
) -> Result<(), NoMemory>
    requires tree { IsTreeOf device.now tree.now }
    requires uses { outgoing.now.uses ≤ KEY_USES }
    requires spelled { All entry_format.Allowed entries.now }
    ensures log { (uses : ℕ) → OnOk result (log.new ≡ log.old ++ entries_signed_for device.now uses (Some outgoing.now) entries.now) }
    ensures cost { hashes.new ≤ hashes.old + TREE_HASHES + LEAF_HASHES * length entries.now }
{
    if entries.is_empty() {
        return Ok(());
    }
    let (first, others) = entries.split_at(1);
    let last = outgoing.uses.saturating_sub(1);
    let own = KeptTree::build(&outgoing.seed, hashes);
    push_signed(alloc, log, &outgoing.seed, &own, last, first, hashes)?;
    push_signed(alloc, log, device, tree, 0, others, hashes)
}

/// Adds the entries, each signed by the key at the index; `tree` is the tree of the key.
fn push_signed<L: Ledger>(
    alloc: Global,
    log: &mut Log,
    key: &KeySeed,
    tree: &KeptTree,
    index: u32,
    entries: &[Entry],
    hashes: &mut HashCount<L>,
) -> Result<(), NoMemory>
    requires tree { IsTreeOf key.now tree.now }
    requires index { index ≤ LAST_INDEX }
    requires spelled { All entry_format.Allowed entries.now }
    ensures log { OnOk result (log.new ≡ log.old ++ map (entry_signed_by key.now index) entries.now) }
    ensures cost { hashes.new ≤ hashes.old + LEAF_HASHES * length entries.now }
{
    for entry in entries {
        log.push(signed_by(alloc, key, tree, index, entry, hashes)?)?;
    }
    Ok(())
}

/// The entry signed by the key at the index; `tree` is the tree of the key.
#[tactic(auto, unfolding(mb_model::specs::machine::OrderEffects::entry_signed_by, mb_model::specs::machine::SignedTexts::entry_text))]
fn signed_by<L: Ledger>(
    alloc: Global,
    key: &KeySeed,
    tree: &KeptTree,
    index: u32,
    entry: &Entry,
    hashes: &mut HashCount<L>,
) -> Result<SignedEntry, NoMemory>
    requires tree { IsTreeOf key.now tree.now }
    requires index { index ≤ LAST_INDEX }
    requires spelled { entry_format.Allowed entry.now }
    ensures signed { IfOk result (λ signed. signed ≡ entry_signed_by key.now index entry.now) }
    ensures cost { hashes.new ≤ hashes.old + LEAF_HASHES }
{
    let mut spelling = Vec::new(alloc);
    write_entry(entry, &mut spelling)?;
    let mut uses = Uses::stored(index);
    let Some(right) = take_index(&mut uses) else {
        unreachable!();
    };
    let mut signature = no_signature();
    sign_kept(
        right,
        tree,
        key,
        &[ENTRY_TEXT],
        spelling.as_slice(),
        &mut signature,
        hashes,
    );
    Ok(SignedEntry {
        entry: *entry,
        signature,
    })
}

/// Room for a signature.
fn no_signature() -> [u8; SIGNATURE_LENGTH] {
    [0; SIGNATURE_LENGTH]
}
