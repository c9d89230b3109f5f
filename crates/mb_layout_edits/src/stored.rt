//! Stored regions in place: only their keys are decoded.

ghost use Rattle.std.specs.Prelude.{◌≡◌, ◌≤◌, [], ◌∷◌, List, ◌++◌, length, vec_capacity};
ghost use Rattle.mb_model.specs.declared.limits.TheConstants.{FILE_LIMIT, KEY_LIMIT, REGION_LIMIT, REGION_VERSION};
ghost use Rattle.mb_model.specs.declared.region.Region.{Region};
ghost use Rattle.mb_model.specs.declared.region.Secret.{Secret};
ghost use Rattle.mb_model.specs.records.RegionFormat.{least_keys, secrets_format, keys_format, CanBeWritten};
ghost use Rattle.mb_model.specs.records.RegionFormat.{written_region};
ghost use Rattle.mb_bytes.specs.Puts.{Puts};
ghost use Rattle.mb_layout_edits.specs.Walks.{PassesOver};
ghost use Rattle.mb_layout_edits.specs.StoredRegion.{IsStoredAs, Walks, TakesApart, CountsKeys};

use crate::row::{KeyRow, key_row_at};
use mb_bytes::{Cursor, put_slice, u8_between};
use mb_layout::{most_secrets, put_keys, region_version_at, stored_secret_at};
use mb_model::{BadRecord, NoMemory, REGION_VERSION, RegionKey};

/// A stored region: the bytes of its secrets, and its keys.
#[derive(Drop)]
pub struct StoredRegion<'a> {
    /// The number of secrets, in a byte, and the secrets.
    pub secrets: &'a [u8],
    /// The least number of keys beside these secrets: a region without secrets and keys has no record.
    pub least: u8,
    pub keys: KeyRow,
}

/// Moves the cursor past the secrets, at most `most`, without copying them, and returns their number.
#[tactic(auto, unfolding(mb_model::specs::records::RegionFormat::secrets_format))]
fn pass_secrets(cursor: &mut Cursor<'_>, most: u8) -> Result<u8, BadRecord>
    ensures { PassesOver (secrets_format most) cursor.old result cursor.new }
{
    let count = u8_between(cursor, 0, most)?;
    for _i in 0..count {
        stored_secret_at(cursor)?;
    }
    Ok(count)
}

/// The least number of keys beside `count` secrets.
fn least_beside(count: u8) -> u8
    ensures { (secrets : List Secret) → length secrets ≡ count → result ≡ least_keys secrets }
{
    if count == 0 { 1 } else { 0 }
}

fn walk(bytes: &[u8]) -> Result<StoredRegion<'_>, BadRecord>
    requires { length bytes.now ≤ FILE_LIMIT }
    ensures { Walks bytes.now result }
{
    let mut cursor = Cursor::new(bytes);
    let version = region_version_at(&mut cursor)?;
    let start = cursor.offset() as usize;
    let count = pass_secrets(&mut cursor, most_secrets(version))?;
    let end = cursor.offset() as usize;
    let least = least_beside(count);
    let keys = key_row_at(&mut cursor, least)?;
    let behind = bytes.split_at(start).1;
    let secrets = behind.split_at(end - start).0;
    Ok(StoredRegion {
        secrets,
        least,
        keys,
    })
}

/// The empty region.
pub fn no_region() -> StoredRegion<'static>
    ensures { IsStoredAs result (record { secrets = []; keys = [] }) }
{
    StoredRegion {
        secrets: &[0],
        least: 1,
        keys: KeyRow::new(),
    }
}

/// The region that the bytes spell; `None` only if they spell none.
pub fn stored_region(bytes: &[u8]) -> Option<StoredRegion<'_>>
    requires { length bytes.now ≤ FILE_LIMIT }
    ensures { TakesApart bytes.now result }
{
    if bytes.is_empty() {
        return Some(no_region());
    }
    match walk(bytes) {
        Ok(stored) => Some(stored),
        Err(_) => None,
    }
}

/// Counts the keys of the region that the bytes spell; `None` only if they spell none.
pub fn count_keys(bytes: &[u8]) -> Option<u32>
    requires { length bytes.now ≤ FILE_LIMIT }
    ensures { CountsKeys bytes.now result }
{
    let stored = stored_region(bytes)?;
    Some(stored.keys.as_slice().len() as u32)
}

fn put_stored(out: &mut Vec<u8>, secrets: &[u8], keys: &[RegionKey]) -> Result<(), NoMemory>
    requires { length keys.now ≤ KEY_LIMIT }
    ensures { Puts ((REGION_VERSION ∷ []) ++ (secrets.now ++
        (keys_format 0).spelling keys.now)) out.old result out.new }
{
    put_slice(out, &[REGION_VERSION])?;
    put_slice(out, secrets)?;
    put_keys(out, keys)
}

/// Replaces `out` by the region's record of version 2, or by no bytes if it is empty.
pub fn store(stored: &StoredRegion<'_>, out: &mut Vec<u8>)
    requires { REGION_LIMIT ≤ vec_capacity out.old }
    ensures stored { (region : Region) → IsStoredAs stored.now region → CanBeWritten region
        → out.new.items ≡ written_region region }
    ensures capacity { (region : Region) → IsStoredAs stored.now region → CanBeWritten region
        → vec_capacity out.old ≤ vec_capacity out.new }
{
    out.clear();
    if stored.keys.as_slice().len() < stored.least as usize {
        return;
    }
    let _ = put_stored(out, stored.secrets, stored.keys.as_slice());
}
