//! Stored entries, signed and unsigned.

ghost use Rattle.std.specs.Prelude.{◌≡◌, ◌↔◌, List, IfOk, IsTrue, MatchOption, map};
ghost use Rattle.mb_model.specs.declared.entry.Entry.{Entry};
ghost use Rattle.mb_model.specs.declared.entry.SignedEntry.{SignedEntry};
ghost use Rattle.mb_model.specs.memories.OldFlash.{with_signature, without_signature};
ghost use Rattle.mb_model.specs.memories.StoredLog.{how_many_unsigned, CanSign};
ghost use Rattle.mb_migrate.specs.Entries.{IsSplitLog};

use mb_model::{Entries, Items, Log, NoMemory, Pending, PublicEntry, SignedEntry};
use std::alloc::Global;

/// The signed entries of a log, and the unsigned entries after them.
#[derive(Drop)]
pub(crate) struct Parted {
    pub signed: Log,
    pub unsigned: Entries,
}

/// The signed and the unsigned stored entries; `None` unless exactly as many of the last entries are unsigned as the
/// pending work of the root says, and no others.
pub(crate) fn split_entries(
    alloc: Global,
    entries: &[PublicEntry],
    pending: &Option<Pending>,
) -> Result<Option<Parted>, NoMemory>
    ensures { IfOk result (λ parted. MatchOption parted
        ((signed : List SignedEntry) (unsigned : List Entry)
        → IsSplitLog entries.now pending.now signed unsigned → ⊥)
        (λ p. IsSplitLog entries.now pending.now p.signed p.unsigned)) }
{
    let last = unsigned_by(pending);
    if !can_sign(pending) || entries.len() < last {
        return Ok(None);
    }
    let (front, back) = entries.split_at(entries.len() - last);
    let Some(signed) = all_signed(alloc, front)? else {
        return Ok(None);
    };
    let Some(unsigned) = all_unsigned(alloc, back)? else {
        return Ok(None);
    };
    Ok(Some(Parted { signed, unsigned }))
}

/// The number of unsigned entries by the pending work.
fn unsigned_by(pending: &Option<Pending>) -> usize
    ensures { result ≡ how_many_unsigned pending.now }
{
    match pending {
        None => 0,
        Some(pending) => usize::from(pending.unsigned),
    }
}

/// Whether there is an outgoing key if two entries are unsigned.
fn can_sign(pending: &Option<Pending>) -> bool
    ensures { IsTrue result ↔ CanSign pending.now }
{
    match pending {
        None => true,
        Some(pending) => pending.outgoing.is_some() || pending.unsigned == 1,
    }
}

/// The entries with their signatures; `None` if one is unsigned.
fn all_signed(alloc: Global, entries: &[PublicEntry]) -> Result<Option<Log>, NoMemory>
    ensures { IfOk result (λ log. MatchOption log
        ((signed : List SignedEntry) → entries.now ≡ map with_signature signed → ⊥)
        (λ signed. entries.now ≡ map with_signature signed)) }
{
    let mut log = Items::new(alloc);
    for stored in entries {
        let Some(signature) = stored.signature else {
            return Ok(None);
        };
        log.push(SignedEntry {
            entry: stored.entry,
            signature,
        })?;
    }
    Ok(Some(log))
}

/// The entries without signatures; `None` if one is signed.
fn all_unsigned(alloc: Global, entries: &[PublicEntry]) -> Result<Option<Entries>, NoMemory>
    ensures { IfOk result (λ list. MatchOption list
        ((unsigned : List Entry) → entries.now ≡ map without_signature unsigned → ⊥)
        (λ unsigned. entries.now ≡ map without_signature unsigned)) }
{
    let mut list = Items::new(alloc);
    for stored in entries {
        if stored.signature.is_some() {
            return Ok(None);
        }
        list.push(stored.entry)?;
    }
    Ok(Some(list))
}
