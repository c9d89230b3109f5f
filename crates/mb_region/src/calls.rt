//! The calls on regions, by the part of the memory that holds one and the state that reaches it.

ghost use Rattle.std.specs.Prelude.{◌≡◌, ◌≤◌, length, IfOk, vec_capacity};
ghost use Rattle.mb_layout.specs.Plans.{SamePlans};
ghost use Rattle.mb_model.specs.declared.limits.TheConstants.{AREA_LENGTH, RECORD_LIMIT};
ghost use Rattle.mb_model.specs.declared.region.Region.{Region};
ghost use Rattle.mb_model.specs.memories.Memory.{area_of_slot};
ghost use Rattle.mb_model.specs.memories.Meaning.{HoldsRegion};
ghost use Rattle.mb_model.specs.records.RegionFormat.{CanBeWritten};
ghost use Rattle.mb_board.specs.Calls.{IsUp};
ghost use Rattle.mb_region.specs.Regions.{HoldsSomeRegion};
ghost use Rattle.mb_region.specs.Fates.{IsPending};
ghost use Rattle.mb_region.specs.Calls.{CommitsRecord, CommitsRegion, FinishesFate, WipesRegion};

use crate::named::Named;
use crate::stored::{count_keys_in, finish_fate, load_region, replace, store_region};
use mb_board::{Board, Stopped};
use mb_layout::Room;
use mb_model::{Fate, NoMemory, Region};
use mb_ratchet::{Off, R1, Reaches, Up};
use mb_slot::wipe_other;
use std::alloc::Global;

/// Reads the stored region. `NoMemory` if an allocation fails.
pub fn read_stored<S: Reaches<L>, L: Named, B: Board>(
    alloc: Global,
    _s: &S,
    b: &B,
    room: &mut Room,
) -> Result<Region, NoMemory>
    requires up { IsUp S.stage (B.seen b.now) }
    requires held { HoldsSomeRegion (area_of_slot (B.seen b.now).memory.bbram L.place) }
    ensures region { (region : Region)
        → HoldsRegion (area_of_slot (B.seen b.now).memory.bbram L.place) region
        → IfOk result (λ it. it ≡ region) }
    ensures plans { SamePlans room.old room.new }
{
    load_region(alloc, b, L::number(), room)
}

/// Counts the keys of the stored region. Takes no memory.
pub fn count_stored_keys<L: Named, B: Board>(_up: &Up<R1>, b: &B, room: &mut Room) -> u32
    requires up { IsUp 1 (B.seen b.now) }
    requires held { HoldsSomeRegion (area_of_slot (B.seen b.now).memory.bbram L.place) }
    ensures count { (region : Region)
        → HoldsRegion (area_of_slot (B.seen b.now).memory.bbram L.place) region
        → result ≡ length region.keys }
    ensures plans { SamePlans room.old room.new }
{
    count_keys_in(b, L::number(), room)
}

/// Replaces the stored region by the one that these bytes spell, at most 4,094 of them. If power fails, the memory
/// holds the region before or this one. `area` is working space. There are two write calls, at a stop one or two.
pub fn commit_record<S: Reaches<L>, L: Named, B: Board>(
    s: S,
    b: &mut B,
    bytes: &[u8],
    area: &mut Vec<u8>,
) -> Result<S, Off>
    requires up { IsUp S.stage (B.seen b.old) }
    requires short { length bytes.now ≤ RECORD_LIMIT }
    requires room { AREA_LENGTH ≤ vec_capacity area.old }
    ensures { CommitsRecord L.place bytes.now area.old area.new result (B.seen b.old) (B.seen b.new) }
{
    match replace(b, L::number(), bytes, area) {
        Ok(()) => Ok(s),
        Err(Stopped) => Err(s.lost(b)),
    }
}

/// Replaces the stored region by this one. If power fails, the memory holds the region before or this one. There are
/// two write calls, at a stop one or two.
pub fn commit_region<S: Reaches<L>, L: Named, B: Board>(
    s: S,
    b: &mut B,
    region: &Region,
    room: &mut Room,
) -> Result<S, Off>
    requires up { IsUp S.stage (B.seen b.old) }
    requires stored { CanBeWritten region.now }
    ensures { CommitsRegion L.place region.now room.old room.new result (B.seen b.old) (B.seen b.new) }
{
    match store_region(b, L::number(), region, room) {
        Ok(()) => Ok(s),
        Err(Stopped) => Err(s.lost(b)),
    }
}

/// Applies the fate that is pending for the stored region. The meaning of the memory stays, wherever power fails. A
/// fate applied twice leaves the same as applied once, and `Keep` writes nothing. There are at most two write calls.
pub fn apply_fate<S: Reaches<L>, L: Named, B: Board>(
    s: S,
    b: &mut B,
    fate: &Fate,
    room: &mut Room,
) -> Result<S, Off>
    requires up { IsUp S.stage (B.seen b.old) }
    requires pending { IsPending L.place fate.now (B.seen b.old).memory }
    ensures { FinishesFate L.place fate.now room.old room.new result (B.seen b.old) (B.seen b.new) }
{
    match finish_fate(b, L::number(), fate, room) {
        Ok(()) => Ok(s),
        Err(Stopped) => Err(s.lost(b)),
    }
}

/// Sets each byte of the region's inactive area to zero, by one write call; writes nothing if each is zero already.
pub fn wipe_region<S: Reaches<L>, L: Named, B: Board>(s: S, b: &mut B) -> Result<S, Off>
    requires up { IsUp S.stage (B.seen b.old) }
    ensures { WipesRegion L.place result (B.seen b.old) (B.seen b.new) }
{
    match wipe_other(b, L::number()) {
        Ok(()) => Ok(s),
        Err(Stopped) => Err(s.lost(b)),
    }
}
