//! The two areas of a slot, and the selector between them.

ghost use Rattle.std.specs.Prelude.{◌≡◌, ◌≤◌, ◌%◌, ◌==◌, ◌⊎◌, ◌↔◌, length, IsTrue, OnOk};
ghost use Rattle.mb_model.specs.memories.Memory.{IsBlank, area_of_slot, inactive_area_of_slot};
ghost use Rattle.mb_model.specs.declared.limits.TheConstants.{AREA_LENGTH};
ghost use Rattle.mb_slot.specs.Slots.{CanUse, is_first_in_force, area_offset, current_offset, other_offset, IsAreaAt, AreExchanged, MakesWrites, RanInOther, RanInSlot};
ghost use Rattle.mb_slot.specs.Calls.{CommitsArea, WipesOther};

use mb_board::{Board, Stopped};
use mb_model::AREA_LENGTH;

/// Whether the first area of the slot is the current one.
fn is_first_in_force<B: Board>(b: &B, slot: u16) -> bool
    requires { CanUse (B.seen b.now) slot }
    ensures { result ≡ is_first_in_force (B.seen b.now).memory.bbram slot }
{
    let mut selector = [0; 1];
    b.bbram_read(slot, &mut selector);
    selector[0] % 2 == 0
}

/// The offset of the first or the second area of a slot.
fn offset_of(slot: u16, is_first: bool) -> u16
    requires least { 1 ≤ slot }
    requires most { slot ≤ 3 }
    ensures { result ≡ area_offset slot is_first }
{
    let second = 2 * AREA_LENGTH as u16 * slot;
    if is_first {
        second - AREA_LENGTH as u16
    } else {
        second
    }
}

/// The offset of the current area of the slot.
fn current_at<B: Board>(b: &B, slot: u16) -> u16
    requires { CanUse (B.seen b.now) slot }
    ensures { IsAreaAt (B.seen b.now).level (current_offset
        (B.seen b.now).memory.bbram slot) result }
{
    offset_of(slot, is_first_in_force(b, slot))
}

/// The offset of the inactive area of the slot.
fn other_at<B: Board>(b: &B, slot: u16) -> u16
    requires { CanUse (B.seen b.now) slot }
    ensures { IsAreaAt (B.seen b.now).level (other_offset (B.seen b.now).memory.bbram slot) result }
{
    offset_of(slot, !is_first_in_force(b, slot))
}

/// Replaces the inactive area by these 4,096 bytes.
fn write_other<B: Board>(b: &mut B, slot: u16, area: &[u8]) -> Result<(), Stopped>
    requires can_use { CanUse (B.seen b.old) slot }
    requires area { length area.now ≡ AREA_LENGTH }
    ensures done { OnOk result (inactive_area_of_slot (B.seen b.new).memory.bbram slot ≡ area.now) }
    ensures current { area_of_slot (B.seen b.new).memory.bbram slot
        ≡ area_of_slot (B.seen b.old).memory.bbram slot }
    ensures writes { MakesWrites 1 result (B.seen b.old) (B.seen b.new) }
    ensures ran { RanInOther 1 slot result (B.seen b.old) (B.seen b.new) }
{
    b.bbram_write(other_at(b, slot), area)
}

/// A selector that makes the first or the second area of a slot the current one.
fn selector_for(is_first: bool) -> u8
    ensures { (result % 2 == 0) ≡ is_first }
{
    if is_first { 0 } else { 1 }
}

/// Makes the inactive area the current one.
fn flip<B: Board>(b: &mut B, slot: u16) -> Result<(), Stopped>
    requires can_use { CanUse (B.seen b.old) slot }
    ensures done { OnOk result (AreExchanged slot (B.seen b.old).memory.bbram
        (B.seen b.new).memory.bbram) }
    ensures either { (area_of_slot (B.seen b.new).memory.bbram slot
        ≡ area_of_slot (B.seen b.old).memory.bbram slot)
        ⊎ (area_of_slot (B.seen b.new).memory.bbram slot ≡ inactive_area_of_slot (B.seen b.old).memory.bbram slot) }
    ensures writes { MakesWrites 1 result (B.seen b.old) (B.seen b.new) }
    ensures ran { RanInSlot 1 slot result (B.seen b.old) (B.seen b.new) }
{
    let selector = selector_for(!is_first_in_force(b, slot));
    b.bbram_write(slot, &[selector])
}

/// Reads the current area of the slot, 4,096 bytes.
pub fn read_current<B: Board>(b: &B, slot: u16, out: &mut [u8])
    requires can_use { CanUse (B.seen b.now) slot }
    requires room { length out.old ≡ AREA_LENGTH }
    ensures { out.new ≡ area_of_slot (B.seen b.now).memory.bbram slot }
{
    b.bbram_read(current_at(b, slot), out);
}

/// Reads the inactive area of the slot, 4,096 bytes.
fn read_other<B: Board>(b: &B, slot: u16, out: &mut [u8])
    requires can_use { CanUse (B.seen b.now) slot }
    requires room { length out.old ≡ AREA_LENGTH }
    ensures { out.new ≡ inactive_area_of_slot (B.seen b.now).memory.bbram slot }
{
    b.bbram_read(other_at(b, slot), out);
}

/// Whether each byte of the inactive area is zero.
pub fn is_other_blank<B: Board>(b: &B, slot: u16) -> bool
    requires can_use { CanUse (B.seen b.now) slot }
    ensures { IsTrue result ↔ IsBlank (inactive_area_of_slot (B.seen b.now).memory.bbram slot) }
{
    let mut area = [0; AREA_LENGTH];
    read_other(b, slot, &mut area);
    area.iter().all(|byte| *byte == 0)
}

/// Makes an area of 4,096 bytes the current one of the slot; the one before becomes the inactive one. If power fails,
/// one of the two is current, whole. There are two write calls, at a stop one or two.
pub fn commit<B: Board>(b: &mut B, slot: u16, area: &[u8]) -> Result<(), Stopped>
    requires can_use { CanUse (B.seen b.old) slot }
    requires area { length area.now ≡ AREA_LENGTH }
    ensures { CommitsArea slot area.now result (B.seen b.old) (B.seen b.new) }
{
    write_other(b, slot, area)?;
    flip(b, slot)
}

/// Sets each byte of the inactive area to zero, by one write call; writes nothing if each is zero already.
pub fn wipe_other<B: Board>(b: &mut B, slot: u16) -> Result<(), Stopped>
    requires can_use { CanUse (B.seen b.old) slot }
    ensures { WipesOther slot result (B.seen b.old) (B.seen b.new) }
{
    if is_other_blank(b, slot) {
        return Ok(());
    }
    write_other(b, slot, &[0; AREA_LENGTH])
}
