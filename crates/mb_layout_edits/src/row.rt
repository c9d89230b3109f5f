//! A few keys of a region, held without memory.

ghost use Rattle.std.specs.Prelude.{◌≡◌, ◌+◌, ◌<◌, ◌≤◌, [], ◌∷◌, ◌++◌, length, filter, find, if◌then◌else◌};
ghost use Rattle.std.specs.List.{All, list_any};
ghost use Rattle.mb_model.specs.declared.limits.TheConstants.{KEY_LIMIT};
ghost use Rattle.mb_model.specs.owners.Regions.{is_epoch};
ghost use Rattle.mb_model.specs.machine.LayerEvents.{has_number, with_use};
ghost use Rattle.mb_model.specs.records.RegionFormat.{keys_format};
ghost use Rattle.mb_bytes.specs.Reads.{bad_at, Reads};
ghost use Rattle.mb_layout.specs.Bounds.{HasByteUses};

use mb_bytes::{Cursor, u8_between};
use mb_layout::region_key_at;
use mb_model::{BadRecord, KEY_LIMIT, KeyKind, KeySeed, RegionKey};
use std::marker::Model;

/// The most keys of a row.
const ROOM: usize = KEY_LIMIT as usize;

/// Fills the places of a row that hold no key yet.
const NO_KEY: RegionKey = RegionKey {
    number: 0,
    kind: KeyKind::Epoch,
    seed: KeySeed {
        identifier: [0; 16],
        seed: [0; 32],
    },
    uses: 0,
};

/// At most eight keys, which contracts see as a list. The kit's `ArrayVec` wants a default value of its items, and a
/// key has none that means anything. `MadeWith` for keys is refused: it conflicts with the one for all types with a
/// default.
#[derive(Drop)]
pub struct KeyRow {
    keys: [RegionKey; ROOM],
    count: usize,
}

impl Model for KeyRow {
    ghost use Rattle.std.specs.Prelude.{◌≤◌, List, take};
    ghost use Rattle.mb_model.specs.declared.limits.TheConstants.{KEY_LIMIT};
    ghost use Rattle.mb_model.specs.declared.region.RegionKey.{RegionKey};

    ghost Value = { List RegionKey };

    ghost view = { λ row. take row.count row.keys };

    ghost invariant = { λ row. row.count ≤ KEY_LIMIT };
}

impl KeyRow {
    /// A row of no keys.
    pub fn new() -> KeyRow
        ensures { result ≡ [] }
    {
        KeyRow {
            keys: [NO_KEY; ROOM],
            count: 0,
        }
    }

    /// The keys.
    pub fn as_slice(&self) -> &[RegionKey]
        ensures keys { result.now ≡ self.now }
        ensures most { length result.now ≤ KEY_LIMIT }
    {
        &self.keys[..self.count]
    }

    /// Appends a key.
    pub fn push(&mut self, key: RegionKey)
        requires { length self.old < KEY_LIMIT }
        ensures { self.new ≡ self.old ++ key ∷ [] }
    {
        let keys = &mut self.keys;
        keys[self.count] = key;
        self.count += 1;
    }
}

/// Reads keys after a byte for their number, from `least` to 8.
#[tactic(auto, unfolding(mb_model::specs::records::RegionFormat::keys_format))]
pub fn key_row_at(cursor: &mut Cursor<'_>, least: u8) -> Result<KeyRow, BadRecord>
    ensures { Reads bad_at (keys_format least) cursor.old result cursor.new }
{
    let count = u8_between(cursor, least, KEY_LIMIT)?;
    let mut keys = KeyRow::new();
    for _i in 0..count {
        keys.push(region_key_at(cursor)?);
    }
    Ok(keys)
}

fn put_epoch(kept: &mut KeyRow, key: &RegionKey)
    requires { length kept.old < KEY_LIMIT }
    ensures { kept.new ≡ kept.old ++ (if is_epoch key.now.kind then key.now ∷ [] else []) }
{
    match key.kind {
        KeyKind::Epoch => kept.push(*key),
        KeyKind::Configuration => {}
    }
}

/// The keys without those of configurations.
pub fn epoch_keys(keys: &[RegionKey]) -> KeyRow
    requires { length keys.now ≤ KEY_LIMIT }
    ensures { result ≡ filter (λ key. is_epoch key.kind) keys.now }
{
    let mut kept = KeyRow::new();
    for key in keys {
        put_epoch(&mut kept, key);
    }
    kept
}

fn used_once(key: &RegionKey, number: u32) -> RegionKey
    ensures { HasByteUses key.now
        → result ≡ (if has_number number key.now then record key.now { uses = key.now.uses + 1 }
        else key.now) }
{
    let mut used = *key;
    if used.number == number {
        used.uses = used.uses.saturating_add(1);
    }
    used
}

/// The keys, each key of this number with one more use. Uses fit into a byte.
#[tactic(auto, unfolding(mb_model::specs::machine::LayerEvents::with_use))]
pub fn used_keys(keys: &[RegionKey], number: u32) -> KeyRow
    requires { length keys.now ≤ KEY_LIMIT }
    ensures { All HasByteUses keys.now → result ≡ with_use number keys.now }
{
    let mut used = KeyRow::new();
    for key in keys {
        used.push(used_once(key, number));
    }
    used
}

fn is_numbered(key: &RegionKey, number: u32) -> bool
    ensures { result ≡ has_number number key.now }
{
    key.number == number
}

/// The first key of this number.
pub fn key_of(keys: &[RegionKey], number: u32) -> Option<RegionKey>
    ensures { result ≡ find (has_number number) keys.now }
{
    for key in keys {
        if is_numbered(key, number) {
            return Some(*key);
        }
    }
    None
}

/// Whether there is a key of this number.
pub fn has_key(keys: &[RegionKey], number: u32) -> bool
    ensures { result ≡ list_any (has_number number) keys.now }
{
    keys.iter().any(|key| key.number == number)
}
