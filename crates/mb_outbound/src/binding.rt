//! Binding a key of a region.

ghost use Rattle.std.specs.Prelude.{◌≡◌, ◌≤◌, ◌<◌, length, OnOk};
ghost use Rattle.mb_layout.specs.Plans.{SamePlans};
ghost use Rattle.mb_model.specs.declared.limits.TheConstants.{RECORD_LIMIT, KEY_USES};
ghost use Rattle.mb_model.specs.declared.region.Region.{Region};
ghost use Rattle.mb_model.specs.memories.Memory.{area_of_slot};
ghost use Rattle.mb_model.specs.memories.Meaning.{HoldsRegion};
ghost use Rattle.mb_model.specs.records.RegionFormat.{SpellsRegion};
ghost use Rattle.mb_board.specs.Calls.{IsUp};
ghost use Rattle.mb_slot.specs.Slots.{CanUse};
ghost use Rattle.mb_outbound.specs.Binding.{HoldsOrdered};
ghost use Rattle.mb_outbound.specs.Calls.{PutsInSlot, Binds};
ghost use Rattle.mb_outbound.specs.Using.{FindsUse};

use mb_board::Board;
use mb_layout::{Room, record_in};
use mb_layout_edits::{NotUsed, use_in_record};
use mb_model::{KeySeed, RegionKey};
use mb_ratchet::{Off, Reaches};
use mb_region::{Named, commit_record, read_area, wipe_region};
use mb_signer::{OneUse, Uses, take_index};

/// Why no right was handed out.
pub enum BindEnd<S> {
    /// The region has no key of this number.
    NoKey(S),
    /// None of the key's 32 indices is left.
    Spent(S),
    /// Power failed in the call.
    Stopped(Off),
}

/// The first key of this number in the region of the slot, as it is stored. Replaces `room.other` by the bytes that
/// spell the region with one more use of the key.
fn next_use<B: Board>(b: &B, slot: u16, key: u32, room: &mut Room) -> Result<RegionKey, NotUsed>
    requires can_use { CanUse (B.seen b.now) slot }
    requires held { HoldsOrdered (area_of_slot (B.seen b.now).memory.bbram slot) }
    ensures used { (region : Region) → HoldsRegion (area_of_slot (B.seen b.now).memory.bbram slot) region
        → FindsUse region key result room.new.other.items }
    ensures short { OnOk result (length room.new.other.items ≤ RECORD_LIMIT) }
    ensures plans { SamePlans room.old room.new }
{
    read_area(b, slot, &mut room.area);
    let Some(bytes) = record_in(&room.area) else {
        unreachable!()
    };
    use_in_record(bytes, key, &mut room.other)
}

/// Replaces the stored region by the one that `room.other` spells, and then wipes its old area.
fn store<S: Reaches<L>, L: Named, B: Board>(s: S, b: &mut B, room: &mut Room) -> Result<S, Off>
    requires up { IsUp S.stage (B.seen b.old) }
    requires short { length room.old.other.items ≤ RECORD_LIMIT }
    ensures { PutsInSlot L.place (SpellsRegion room.old.other.items) room.old room.new result
        (B.seen b.old) (B.seen b.new) }
{
    let s = commit_record::<S, L, B>(s, b, &room.other, &mut room.area)?;
    wipe_region::<S, L, B>(s, b)
}

/// The right to the next index of a key with this many uses.
pub(crate) fn right_after(uses: u32) -> OneUse
    requires { uses < KEY_USES }
    ensures { result ≡ uses }
{
    let mut count = Uses::stored(uses);
    match take_index(&mut count) {
        Some(right) => right,
        None => unreachable!(),
    }
}

/// Binds the key of this number: stores one more use of it, wipes the region's inactive area, and returns the right to
/// the key's next index, and its seed. If power fails, the uses of the key are the old ones or one more, and all else
/// stays. `NoKey` exactly if the region has no key of this number, and `Spent` exactly if no index of the key is left;
/// then nothing is written. There are at most three write calls.
pub fn bind<S: Reaches<L>, L: Named, B: Board>(
    s: S,
    b: &mut B,
    key: u32,
    room: &mut Room,
) -> Result<(S, OneUse, KeySeed), BindEnd<S>>
    requires up { IsUp S.stage (B.seen b.old) }
    requires held { HoldsOrdered (area_of_slot (B.seen b.old).memory.bbram L.place) }
    ensures { Binds L.place key result room.old room.new (B.seen b.old) (B.seen b.new) }
{
    let found = match next_use(b, L::number(), key, room) {
        Ok(found) => found,
        Err(NotUsed::NoKey) => return Err(BindEnd::NoKey(s)),
        Err(NotUsed::Spent) => return Err(BindEnd::Spent(s)),
    };
    match store::<S, L, B>(s, b, room) {
        Ok(s) => Ok((s, right_after(found.uses), found.seed)),
        Err(off) => Err(BindEnd::Stopped(off)),
    }
}
