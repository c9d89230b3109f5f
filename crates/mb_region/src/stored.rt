//! Regions by the number of their slot.

ghost use Rattle.std.specs.Prelude.{◌≡◌, ◌≤◌, length, IfOk, vec_capacity, ◌↔◌, IsTrue};
ghost use Rattle.mb_format.specs.Format.{IsBytes};
ghost use Rattle.mb_layout.specs.Plans.{SamePlans};
ghost use Rattle.mb_model.specs.declared.limits.TheConstants.{AREA_LENGTH, RECORD_LIMIT};
ghost use Rattle.mb_model.specs.declared.region.Region.{Region};
ghost use Rattle.mb_model.specs.memories.Memory.{area_of_slot};
ghost use Rattle.mb_model.specs.memories.Meaning.{HoldsRegion, region_after_fate};
ghost use Rattle.mb_model.specs.owners.Regions.{empty_region};
ghost use Rattle.mb_model.specs.records.RegionFormat.{SpellsRegion, CanBeWritten};
ghost use Rattle.mb_slot.specs.Slots.{CanUse};
ghost use Rattle.mb_region.specs.Regions.{IsRegionSlot, HoldsSomeRegion};
ghost use Rattle.mb_region.specs.Fates.{CanBeFated, IsPending};
ghost use Rattle.mb_region.specs.Calls.{CommitsBytes, CommitsRecord, CommitsRegion, FinishesFate};

use mb_board::{Board, Stopped};
use mb_layout::{Room, fill_area, make_area, record_in, region_in, write_region};
use mb_layout_edits::{count_keys, fate_record};
use mb_model::{Fate, NoMemory, Region};
use mb_slot::{commit, read_current};
use std::alloc::Global;

/// Makes an area with these bytes, at most 4,094, the current one of the slot. `area` is working space.
fn commit_bytes<B: Board>(
    b: &mut B,
    slot: u16,
    bytes: &[u8],
    area: &mut Vec<u8>,
) -> Result<(), Stopped>
    requires can_use { CanUse (B.seen b.old) slot }
    requires short { length bytes.now ≤ RECORD_LIMIT }
    requires room { AREA_LENGTH ≤ vec_capacity area.old }
    ensures { CommitsBytes slot bytes.now area.old area.new result (B.seen b.old) (B.seen b.new) }
{
    make_area(area);
    fill_area(bytes, area);
    commit(b, slot, area)
}

/// Replaces the region in the slot by the one that these bytes spell, at most 4,094 of them. `area` is working space.
pub(crate) fn replace<B: Board>(
    b: &mut B,
    slot: u16,
    bytes: &[u8],
    area: &mut Vec<u8>,
) -> Result<(), Stopped>
    requires can_use { CanUse (B.seen b.old) slot }
    requires slot { IsRegionSlot slot }
    requires short { length bytes.now ≤ RECORD_LIMIT }
    requires room { AREA_LENGTH ≤ vec_capacity area.old }
    ensures { CommitsRecord slot bytes.now area.old area.new result (B.seen b.old) (B.seen b.new) }
{
    commit_bytes(b, slot, bytes, area)
}

/// Whether the region has neither secrets nor keys.
fn is_empty(region: &Region) -> bool
    ensures { IsTrue result ↔ (region.now ≡ empty_region) }
{
    region.secrets.as_slice().is_empty() && region.keys.as_slice().is_empty()
}

/// Replaces `out` by the bytes that are written for the region: by no bytes if it is empty.
fn region_bytes(region: &Region, out: &mut Vec<u8>)
    requires stored { CanBeWritten region.now }
    requires room { AREA_LENGTH ≤ vec_capacity out.old }
    ensures spelled { SpellsRegion out.new.items region.now }
    ensures short { length out.new.items ≤ RECORD_LIMIT }
    ensures capacity { vec_capacity out.old ≤ vec_capacity out.new }
{
    out.clear();
    if is_empty(region) {
        return;
    }
    let _ = write_region(region, out);
}

/// Replaces the region in the slot by this one.
pub(crate) fn store_region<B: Board>(
    b: &mut B,
    slot: u16,
    region: &Region,
    room: &mut Room,
) -> Result<(), Stopped>
    requires can_use { CanUse (B.seen b.old) slot }
    requires slot { IsRegionSlot slot }
    requires stored { CanBeWritten region.now }
    ensures { CommitsRegion slot region.now room.old room.new result (B.seen b.old) (B.seen b.new) }
{
    region_bytes(region, &mut room.other);
    replace(b, slot, &room.other, &mut room.area)
}

/// Replaces `area` by the current area of the slot.
pub fn read_area<B: Board>(b: &B, slot: u16, area: &mut Vec<u8>)
    requires can_use { CanUse (B.seen b.now) slot }
    requires room { AREA_LENGTH ≤ vec_capacity area.old }
    ensures read { area.new.items ≡ area_of_slot (B.seen b.now).memory.bbram slot }
    ensures bytes { IsBytes area.new.items }
    ensures capacity { vec_capacity area.old ≤ vec_capacity area.new }
{
    make_area(area);
    read_current(b, slot, area);
}

/// Replaces `room.other` by the bytes that spell the region in the slot after its fate.
fn fate_bytes<B: Board>(b: &B, slot: u16, fate: &Fate, room: &mut Room)
    requires can_use { CanUse (B.seen b.now) slot }
    requires held { CanBeFated fate.now (area_of_slot (B.seen b.now).memory.bbram slot) }
    ensures spelled { (region : Region)
        → HoldsRegion (area_of_slot (B.seen b.now).memory.bbram slot) region
        → SpellsRegion room.new.other.items (region_after_fate fate.now region) }
    ensures short { length room.new.other.items ≤ RECORD_LIMIT }
    ensures plans { SamePlans room.old room.new }
{
    read_area(b, slot, &mut room.area);
    let Some(bytes) = record_in(&room.area) else {
        unreachable!()
    };
    fate_record(bytes, fate, &mut room.other);
}

/// Applies the fate that is pending for the region in the slot.
pub(crate) fn finish_fate<B: Board>(
    b: &mut B,
    slot: u16,
    fate: &Fate,
    room: &mut Room,
) -> Result<(), Stopped>
    requires can_use { CanUse (B.seen b.old) slot }
    requires slot { IsRegionSlot slot }
    requires pending { IsPending slot fate.now (B.seen b.old).memory }
    ensures { FinishesFate slot fate.now room.old room.new result (B.seen b.old) (B.seen b.new) }
{
    if let Fate::Keep = fate {
        return Ok(());
    }
    fate_bytes(b, slot, fate, room);
    replace(b, slot, &room.other, &mut room.area)
}

/// Reads the region in the slot. `NoMemory` if an allocation fails.
pub(crate) fn load_region<B: Board>(
    alloc: Global,
    b: &B,
    slot: u16,
    room: &mut Room,
) -> Result<Region, NoMemory>
    requires can_use { CanUse (B.seen b.now) slot }
    requires held { HoldsSomeRegion (area_of_slot (B.seen b.now).memory.bbram slot) }
    ensures region { (region : Region)
        → HoldsRegion (area_of_slot (B.seen b.now).memory.bbram slot) region
        → IfOk result (λ it. it ≡ region) }
    ensures plans { SamePlans room.old room.new }
{
    read_area(b, slot, &mut room.area);
    match region_in(alloc, &room.area)? {
        Some(region) => Ok(region),
        None => unreachable!(),
    }
}

/// Counts the keys of the region in the slot.
pub(crate) fn count_keys_in<B: Board>(b: &B, slot: u16, room: &mut Room) -> u32
    requires can_use { CanUse (B.seen b.now) slot }
    requires held { HoldsSomeRegion (area_of_slot (B.seen b.now).memory.bbram slot) }
    ensures count { (region : Region)
        → HoldsRegion (area_of_slot (B.seen b.now).memory.bbram slot) region
        → result ≡ length region.keys }
    ensures plans { SamePlans room.old room.new }
{
    read_area(b, slot, &mut room.area);
    let Some(bytes) = record_in(&room.area) else {
        unreachable!()
    };
    match count_keys(bytes) {
        Some(count) => count,
        None => unreachable!(),
    }
}
