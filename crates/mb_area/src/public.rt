//! The code, headers and log in the flash.

ghost use Rattle.std.specs.Prelude.{◌≡◌, ◌≤◌, ◌<◌, ◌-◌, List, ℕ, length, take, vec_capacity, Option, Some};
ghost use Rattle.mb_model.specs.declared.limits.TheConstants.{CODE_LIMIT, ENTRY_LIMIT, SECTOR_COUNT, SECTOR_LENGTH};
ghost use Rattle.mb_model.specs.declared.stored.Header.{Header};
ghost use Rattle.mb_format.specs.Combinators.{same_bytes};
ghost use Rattle.mb_model.specs.machine.Actions.{call_word};
ghost use Rattle.mb_model.specs.machine.LayerEvents.{takes_calls};
ghost use Rattle.mb_model.specs.memories.Flash.{sector, code_slot, HoldsHeader, HoldsCode};
ghost use Rattle.mb_model.specs.records.HeaderFormat.{header_format};
ghost use Rattle.mb_model.specs.memories.Sectors.{header_sector, log_sector, BeginsAs};
ghost use Rattle.mb_board.specs.Calls.{IsPowered, IsUp};
ghost use Rattle.mb_model_memory.specs.FlashInForce.{slot_in};
ghost use Rattle.mb_model_memory.specs.NextHeaders.{free_slot};
ghost use Rattle.mb_layout.specs.Plans.{SameBesidesHeader, SameBesidesLog};
ghost use Rattle.mb_area.specs.Flashes.{IsFreePosition, IsCurrentArea, BeginWithHeader, HoldsSomeHeader, IsPlan, CanBeNamed};
ghost use Rattle.mb_area.specs.Calls.{StoresSector, StoresCode, CanWritePublic, WritesCode, WritesPublic, WritesLog};

use mb_board::{Board, Stopped};
use mb_flash::{write_sector, write_sectors};
use mb_layout::Room;
use mb_model::{SECTOR_LENGTH, Slot};
use mb_ratchet::{Off, One, Reaches};
use mb_segments::{code_sector, header_at, header_sector, log_sector};

/// The bytes with which code begins that takes calls: `push 1296193585` and `pop`.
const CALL_WORD: [u8; 6] = [0x01, 0x4D, 0x42, 0x58, 0x31, 0x02];

// ---- reading

/// Replaces the bytes of a buffer by a whole sector of the flash. The buffer has room for it.
fn read_sector<B: Board>(b: &B, number: u16, buffer: &mut Vec<u8>)
    requires powered { IsPowered (B.seen b.now) }
    requires number { number < SECTOR_COUNT }
    requires room { SECTOR_LENGTH ≤ vec_capacity buffer.old }
    ensures read { buffer.new.items ≡ sector (B.seen b.now).memory.flash number }
    ensures capacity { vec_capacity buffer.old ≤ vec_capacity buffer.new }
{
    let _ = buffer.resize(SECTOR_LENGTH, 0);
    b.flash_read(SECTOR_LENGTH as u32 * u32::from(number), buffer);
}

/// Replaces `room.header` by the whole sector of a header area, 0 or 1.
pub fn read_header<B: Board>(b: &B, area: u8, room: &mut Room)
    requires powered { IsPowered (B.seen b.now) }
    requires area { area ≤ 1 }
    ensures read { room.new.header.items ≡ sector (B.seen b.now).memory.flash (header_sector area) }
    ensures plans { SameBesidesHeader room.old room.new }
{
    read_sector(b, header_sector(area), &mut room.header);
}

/// Replaces `room.log` by the whole sector of the log's entry at a position, 0 to 127.
pub fn read_log<B: Board>(b: &B, position: u32, room: &mut Room)
    requires powered { IsPowered (B.seen b.now) }
    requires position { position < ENTRY_LIMIT }
    ensures read { room.new.log.items ≡ sector (B.seen b.now).memory.flash (log_sector position) }
    ensures plans { SameBesidesLog room.old room.new }
{
    read_sector(b, log_sector(position), &mut room.log);
}

/// Replaces `out` by the first bytes of a slot of a layer, as many as `out` has.
fn read_front<B: Board>(b: &B, layer: u8, slot: u8, out: &mut [u8])
    requires powered { IsPowered (B.seen b.now) }
    requires layer { (1 ≤ layer) × (layer ≤ 3) }
    requires slot { (1 ≤ slot) × (slot ≤ 2) }
    requires short { length out.old ≤ CODE_LIMIT }
    ensures { out.new ≡ take (length out.old) (code_slot (B.seen b.now).memory.flash layer slot) }
{
    let first = code_sector(layer, slot);
    b.flash_read(SECTOR_LENGTH as u32 * u32::from(first), out);
}

/// Replaces the bytes of a buffer by the code of a layer, 1 to 3, that stands in this slot; by none if no slot is
/// named. The buffer has room for it. Writes nothing and takes no memory.
pub fn read_code<B: Board>(b: &B, layer: u8, slot: Slot, out: &mut Vec<u8>)
    requires powered { IsPowered (B.seen b.now) }
    requires layer { (1 ≤ layer) × (layer ≤ 3) }
    requires slot { CanBeNamed slot }
    requires room { CODE_LIMIT ≤ vec_capacity out.old }
    ensures read { (code : List ℕ) → HoldsCode (B.seen b.now).memory.flash layer slot (Some code)
        → out.new.items ≡ code }
    ensures capacity { vec_capacity out.old ≤ vec_capacity out.new }
{
    out.clear();
    if slot.which == 0 {
        return;
    }
    let _ = out.resize(slot.length as usize, 0);
    read_front(b, layer, slot.which, out);
}

/// Whether the bytes are those with which code begins that takes calls.
fn is_call_word(bytes: &[u8]) -> bool
    ensures { result ≡ same_bytes bytes.now call_word }
{
    bytes == CALL_WORD.as_slice()
}

/// Whether the code of a layer, 1 to 3, that stands in this slot takes calls; no code takes any. Reads six bytes of the
/// flash, writes nothing, and takes no memory.
pub fn takes_calls<B: Board>(b: &B, layer: u8, slot: Slot) -> bool
    requires powered { IsPowered (B.seen b.now) }
    requires layer { (1 ≤ layer) × (layer ≤ 3) }
    requires slot { CanBeNamed slot }
    ensures { (code : Option (List ℕ)) → HoldsCode (B.seen b.now).memory.flash layer slot code
        → result ≡ takes_calls code }
{
    if slot.which == 0 {
        return false;
    }
    if slot.length < 6 {
        return false;
    }
    let mut front = [0; 6];
    read_front(b, layer, slot.which, &mut front);
    is_call_word(&front)
}

// ---- one sector, and one slot

/// Makes a sector begin with these bytes, 1 to 4,096 of them. There are at most two write calls, and none if the bytes
/// stand there already.
fn store_sector<B: Board>(b: &mut B, number: u16, bytes: &[u8]) -> Result<(), Stopped>
    requires powered { IsPowered (B.seen b.old) }
    requires number { number < SECTOR_COUNT }
    requires bytes { (1 ≤ length bytes.now) × (length bytes.now ≤ SECTOR_LENGTH) }
    ensures { StoresSector number bytes.now result (B.seen b.old) (B.seen b.new) }
{
    write_sector(b, number, bytes)
}

/// Makes a slot of a layer begin with this code, at most 32,768 bytes. There are at most two write calls for each
/// sector that the code takes.
fn store_code<B: Board>(b: &mut B, layer: u8, slot: u8, code: &[u8]) -> Result<(), Stopped>
    requires powered { IsPowered (B.seen b.old) }
    requires layer { (1 ≤ layer) × (layer ≤ 3) }
    requires slot { (1 ≤ slot) × (slot ≤ 2) }
    requires code { length code.now ≤ CODE_LIMIT }
    ensures { StoresCode layer slot code.now result (B.seen b.old) (B.seen b.new) }
{
    write_sectors(b, code_sector(layer, slot), code)
}

// ---- code and header

/// The slot that the header at the beginning of a sector names for a layer, 1 to 3.
fn slot_at(sector: &[u8], layer: u8) -> Slot
    requires short { length sector.now ≤ SECTOR_LENGTH }
    requires header { BeginWithHeader sector.now }
    ensures { (header : Header) → BeginsAs header_format sector.now header
        → result ≡ slot_in header layer }
{
    let Some(header) = header_at(sector) else {
        unreachable!()
    };
    match layer {
        1 => header.one,
        2 => header.two,
        _ => header.three,
    }
}

/// The slot that the header of a header area names for a layer, 1 to 3. Works in `buffer`.
fn slot_named<B: Board>(b: &B, area: u8, layer: u8, buffer: &mut Vec<u8>) -> Slot
    requires powered { IsPowered (B.seen b.now) }
    requires area { area ≤ 1 }
    requires header { HoldsSomeHeader (B.seen b.now).memory.flash area }
    requires room { SECTOR_LENGTH ≤ vec_capacity buffer.old }
    ensures named { (header : Header) → HoldsHeader (B.seen b.now).memory.flash area header
        → result ≡ slot_in header layer }
    ensures capacity { vec_capacity buffer.old ≤ vec_capacity buffer.new }
{
    read_sector(b, header_sector(area), buffer);
    slot_at(buffer, layer)
}

/// The slot of a layer that is not the one named; slot 1 if none is named.
fn free_slot(named: Slot) -> u8
    ensures { result ≡ free_slot named }
{
    if named.which == 1 { 2 } else { 1 }
}

/// Writes the code of the room, if it has any, into the slot of its layer that the header of the current area does not
/// name.
fn write_code<B: Board>(b: &mut B, area: u8, room: &mut Room) -> Result<(), Stopped>
    requires { CanWritePublic area room.old (B.seen b.old) }
    ensures { WritesCode area room.old room.new result (B.seen b.old) (B.seen b.new) }
{
    if room.code_layer == 0 {
        return Ok(());
    }
    let named = slot_named(b, area, room.code_layer, &mut room.area);
    store_code(b, room.code_layer, free_slot(named), &room.code)
}

/// Writes the code of the room, if it has any, and then its header into the header area that is not the current one.
fn write_both<B: Board>(b: &mut B, area: u8, room: &mut Room) -> Result<(), Stopped>
    requires { CanWritePublic area room.old (B.seen b.old) }
    ensures { WritesPublic area room.old room.new result (B.seen b.old) (B.seen b.new) }
{
    write_code(b, area, room)?;
    store_sector(b, header_sector(1 - area), &room.header)
}

/// Writes what the room holds: the code of a load into the slot of its layer that the current header does not name, or
/// into slot 1 if it names none, and then the header into the header area that is not `area`, the current one. The
/// contents of the memory stay, wherever power fails. There are at most two write calls for each sector, and none if
/// its bytes stand there already. That the contents stay follows from the rest, and is what this call promises; without
/// it, it would be a lemma on a lower crate at every crate above. So it is with the contents after `write_log`, and
/// with what a commit leaves besides, and means.
pub fn write_public<S: Reaches<One>, B: Board>(
    s: S,
    b: &mut B,
    area: u8,
    room: &mut Room,
) -> Result<S, Off>
    requires up { IsUp S.stage (B.seen b.old) }
    requires current { IsCurrentArea (B.seen b.old).memory area }
    requires plan { IsPlan room.old }
    ensures { WritesPublic area room.old room.new result (B.seen b.old) (B.seen b.new) }
{
    match write_both(b, area, room) {
        Ok(()) => Ok(s),
        Err(Stopped) => Err(s.lost(b)),
    }
}

// ---- the log

/// Writes the entry and signature that `room.log` holds into the sector for a position of the log that the current
/// header does not count. The contents of the memory stay, wherever power fails. There are at most two write calls, and
/// none if the bytes stand there already.
pub fn write_log<S: Reaches<One>, B: Board>(
    s: S,
    b: &mut B,
    position: u32,
    room: &mut Room,
) -> Result<S, Off>
    requires up { IsUp S.stage (B.seen b.old) }
    requires position { IsFreePosition (B.seen b.old).memory position }
    requires log { (1 ≤ length room.old.log.items) × (length room.old.log.items ≤ SECTOR_LENGTH) }
    ensures { WritesLog position room.old room.new result (B.seen b.old) (B.seen b.new) }
{
    match store_sector(b, log_sector(position), &room.log) {
        Ok(()) => Ok(s),
        Err(Stopped) => Err(s.lost(b)),
    }
}
