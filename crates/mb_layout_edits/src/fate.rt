//! The fate of a stored region, carried out without memory.

ghost use Rattle.std.specs.Prelude.{◌≡◌, ◌≤◌, length, vec_capacity};
ghost use Rattle.mb_model.specs.declared.limits.TheConstants.{FILE_LIMIT, KEY_LIMIT, REGION_LIMIT};
ghost use Rattle.mb_model.specs.declared.region.Region.{Region};
ghost use Rattle.mb_model.specs.memories.Meaning.{region_after_fate, keys_after_fate};
ghost use Rattle.mb_model.specs.records.RegionFormat.{SpellsRegion, CanBeWritten};
ghost use Rattle.mb_layout_edits.specs.StoredRegion.{IsStoredAs};
ghost use Rattle.mb_layout_edits.specs.Edits.{IsFated};

use crate::row::{KeyRow, epoch_keys, has_key};
use crate::stored::{StoredRegion, no_region, store, stored_region};
use mb_model::{Fate, KEY_LIMIT, RegionKey};

/// Appends the key, if none has its number and there is room.
fn with_key(keys: KeyRow, key: &RegionKey) -> KeyRow
    ensures { length (keys_after_fate (Fate.AddKey key.now) keys) ≤ KEY_LIMIT
        → result ≡ keys_after_fate (Fate.AddKey key.now) keys }
{
    if has_key(keys.as_slice(), key.number) {
        return keys;
    }
    if keys.as_slice().len() >= KEY_LIMIT as usize {
        return keys;
    }
    let mut row = keys;
    row.push(*key);
    row
}

#[tactic(auto, unfolding(mb_model::specs::memories::Meaning::region_after_fate))]
fn fated_region<'a>(fate: &Fate, stored: StoredRegion<'a>) -> StoredRegion<'a>
    ensures { (region : Region) → IsStoredAs stored.entry region
        → length (region_after_fate fate.now region).keys ≤ KEY_LIMIT
        → IsStoredAs result (region_after_fate fate.now region) }
{
    match fate {
        Fate::Keep => stored,
        Fate::Empty => no_region(),
        Fate::DropConfiguration => StoredRegion {
            secrets: stored.secrets,
            least: stored.least,
            keys: epoch_keys(stored.keys.as_slice()),
        },
        Fate::AddKey(key) => StoredRegion {
            secrets: stored.secrets,
            least: stored.least,
            keys: with_key(stored.keys, key),
        },
    }
}

/// Replaces `out` by the record, of version 2, of the stored region after its fate, or by no bytes if it is then empty.
/// Nothing is said if the bytes spell no region, or if the region afterwards cannot be written, as one with nine keys.
/// `out` has room for any record of a region.
pub fn fate_record(bytes: &[u8], fate: &Fate, out: &mut Vec<u8>)
    requires room { REGION_LIMIT ≤ vec_capacity out.old }
    requires short { length bytes.now ≤ FILE_LIMIT }
    ensures fated { IsFated fate.now bytes.now out.new.items }
    ensures capacity { (region : Region) → SpellsRegion bytes.now region
        → CanBeWritten (region_after_fate fate.now region)
        → vec_capacity out.old ≤ vec_capacity out.new }
{
    out.clear();
    let Some(stored) = stored_region(bytes) else {
        return;
    };
    store(&fated_region(fate, stored), out);
}
