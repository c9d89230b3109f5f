//! The pending work on a region.

ghost use Rattle.std.specs.Prelude.{◌≡◌, IfOk, filter};
ghost use Rattle.std.specs.List.{list_any};
ghost use Rattle.mb_model.specs.owners.Regions.{is_epoch};
ghost use Rattle.mb_model.specs.machine.LayerEvents.{has_number};
ghost use Rattle.mb_model.specs.memories.Meaning.{region_after_fate};

use mb_model::{Fate, Items, KeyKind, NoMemory, Region, RegionKeys};
use std::alloc::Global;

/// The region after the pending work on it.
#[tactic(auto, unfolding(mb_model::specs::memories::Meaning::region_after_fate))]
pub(crate) fn fated(alloc: Global, fate: &Fate, region: Region) -> Result<Region, NoMemory>
    ensures { IfOk result (λ after. after ≡ region_after_fate fate.now region) }
{
    let Region { secrets, mut keys } = region;
    match fate {
        Fate::Keep => Ok(Region { secrets, keys }),
        Fate::Empty => Ok(Region {
            secrets: Items::new(alloc),
            keys: Items::new(alloc),
        }),
        Fate::DropConfiguration => Ok(Region {
            secrets,
            keys: epoch_keys(keys),
        }),
        Fate::AddKey(key) => {
            if !is_there(&keys, key.number) {
                keys.push(*key)?;
            }
            Ok(Region { secrets, keys })
        }
    }
}

/// The epoch keys among the keys.
fn epoch_keys(keys: RegionKeys) -> RegionKeys
    ensures { result ≡ filter (λ key. is_epoch key.kind) keys }
{
    let mut keys = keys.into_vec();
    keys.retain(|key| matches!(key.kind, KeyKind::Epoch));
    Items::from_vec(keys)
}

/// Whether one of the keys has the number.
fn is_there(keys: &RegionKeys, number: u32) -> bool
    ensures { result ≡ list_any (has_number number) keys.now }
{
    keys.as_slice().iter().any(|key| key.number == number)
}
