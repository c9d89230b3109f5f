//! The use of a key in a stored region, without memory.

ghost use Rattle.std.specs.Prelude.{◌≡◌, ◌≤◌, [], length, vec_capacity, OnErr};
ghost use Rattle.mb_model.specs.records.RegionFormat.{SpellsRegion, CanBeWritten};
ghost use Rattle.mb_model.specs.declared.limits.TheConstants.{FILE_LIMIT, REGION_LIMIT};
ghost use Rattle.mb_model.specs.declared.region.Region.{Region};
ghost use Rattle.mb_layout_edits.specs.Edits.{UseOf, region_with_use};

use crate::row::{key_of, used_keys};
use crate::stored::{StoredRegion, store, stored_region};
use mb_model::{KEY_USES, RegionKey};

/// Why a key was not used.
#[derive(Clone, Copy, Debug, PartialEq, Eq)]
pub enum NotUsed {
    /// The region has no key of this number.
    NoKey,
    /// None of the key's 32 indices is left.
    Spent,
}

/// Uses the first key of this number in the stored region once: returns the key as it was before, and replaces `out` by
/// the record of the region, of version 2, with one more use of it. `NoKey` exactly if the region has no key of that
/// number, and `Spent` if that key has no index left; `out` is then empty. Nothing is said if the bytes spell no
/// region. `out` has room for any record of a region.
pub fn use_in_record(bytes: &[u8], number: u32, out: &mut Vec<u8>) -> Result<RegionKey, NotUsed>
    requires room { REGION_LIMIT ≤ vec_capacity out.old }
    requires short { length bytes.now ≤ FILE_LIMIT }
    ensures used { (region : Region) → SpellsRegion bytes.now region
        → UseOf region number result out.new.items }
    ensures capacity { (region : Region) → SpellsRegion bytes.now region
        → CanBeWritten (region_with_use number region)
        → vec_capacity out.old ≤ vec_capacity out.new }
    ensures refused { OnErr result (out.new.items ≡ []) }
    ensures refused_capacity { OnErr result (vec_capacity out.old ≤ vec_capacity out.new) }
{
    out.clear();
    let Some(stored) = stored_region(bytes) else {
        return Err(NotUsed::NoKey);
    };
    let Some(key) = key_of(stored.keys.as_slice(), number) else {
        return Err(NotUsed::NoKey);
    };
    if key.uses >= KEY_USES as u32 {
        return Err(NotUsed::Spent);
    }
    let used = StoredRegion {
        secrets: stored.secrets,
        least: stored.least,
        keys: used_keys(stored.keys.as_slice(), number),
    };
    store(&used, out);
    Ok(key)
}
