//! Keys of a region that is given, and that replaces the stored one.

ghost use Rattle.std.specs.Prelude.{◌≡◌, position};
ghost use Rattle.mb_model.specs.machine.Calls.{key_for};
ghost use Rattle.mb_model.specs.machine.LayerEvents.{has_number};
ghost use Rattle.mb_model.specs.records.RegionFormat.{CanBeWritten};
ghost use Rattle.mb_board.specs.Calls.{IsUp};
ghost use Rattle.mb_layout_edits.specs.Edits.{region_with_use};
ghost use Rattle.mb_outbound.specs.Binding.{AreKeysInOrder, HasUse, HasUnspentKey};
ghost use Rattle.mb_outbound.specs.Calls.{PutsInSlot, BindsGiven};

use crate::binding::right_after;
use mb_board::Board;
use mb_layout::Room;
use mb_layout_edits::key_of;
use mb_model::{KEY_USES, KeySeed, Refusal, Region, RegionKey};
use mb_ratchet::{Off, Reaches};
use mb_region::{Named, commit_region, wipe_region};
use mb_signer::OneUse;

/// Replaces the stored region by this one, and then wipes its old area. If power fails, the region before or this one
/// is stored. If it does not, there were two write calls if the region before was empty, else three.
pub fn put_region<S: Reaches<L>, L: Named, B: Board>(
    s: S,
    b: &mut B,
    region: &Region,
    room: &mut Room,
) -> Result<S, Off>
    requires up { IsUp S.stage (B.seen b.old) }
    requires stored { CanBeWritten region.now }
    ensures { PutsInSlot L.place (λ given. given ≡ region.now) room.old room.new result (B.seen b.old)
        (B.seen b.new) }
{
    let s = commit_region::<S, L, B>(s, b, region, room)?;
    wipe_region::<S, L, B>(s, b)
}

/// The key of the region that signs, if one is asked for by its number. `NoSuchKey` exactly if the region has no key of
/// this number, and `KeySpent` exactly if no index of the key is left.
pub fn check_key(region: &Region, key: Option<u32>) -> Result<Option<RegionKey>, Refusal>
    ensures { result ≡ key_for key region.now }
{
    let Some(number) = key else {
        return Ok(None);
    };
    match key_of(region.keys.as_slice(), number) {
        None => Err(Refusal::NoSuchKey),
        Some(found) if found.uses >= KEY_USES as u32 => Err(Refusal::KeySpent),
        Some(found) => Ok(Some(found)),
    }
}

/// The place of the first key of this number.
fn place_of(keys: &[RegionKey], key: u32) -> Option<usize>
    ensures { result ≡ position (has_number key) keys.now }
{
    keys.iter().position(|it| it.number == key)
}

/// Uses the region's key of this number once: returns the key as it was before.
fn use_key(region: &mut Region, key: u32) -> RegionKey
    requires ordered { AreKeysInOrder region.old }
    requires can_sign { HasUnspentKey region.old key }
    requires stored { CanBeWritten region.old }
    ensures found { HasUse region.old key result }
    ensures used { region.new ≡ region_with_use key region.old }
{
    let Some(at) = place_of(region.keys.as_slice(), key) else {
        unreachable!()
    };
    let found = region.keys.as_slice()[at];
    let used = RegionKey {
        uses: found.uses + 1,
        ..found
    };
    let _old = region.keys.set(at as u32, used);
    found
}

/// Binds the key of this number in a region that is given: raises its uses there by one, puts that region in the place
/// of the stored one, wipes the old area, and returns the right to the key's next index, and its seed. If power fails,
/// the region before is stored, or the given one with the use. If it does not, there were two write calls if the region
/// before was empty, else three.
pub fn bind_region<S: Reaches<L>, L: Named, B: Board>(
    s: S,
    b: &mut B,
    key: u32,
    region: &mut Region,
    room: &mut Room,
) -> Result<(S, OneUse, KeySeed), Off>
    requires up { IsUp S.stage (B.seen b.old) }
    requires ordered { AreKeysInOrder region.old }
    requires can_sign { HasUnspentKey region.old key }
    requires stored { CanBeWritten region.old }
    ensures { BindsGiven L.place key region.old region.new result room.old room.new (B.seen b.old)
        (B.seen b.new) }
{
    let found = use_key(region, key);
    let s = put_region::<S, L, B>(s, b, region, room)?;
    Ok((s, right_after(found.uses), found.seed))
}
