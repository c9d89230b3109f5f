//! What an order writes to the flash: the header that it leaves, and the code that it brings.

ghost use Rattle.std.specs.Prelude.{◌≡◌, ◌≤◌, length, map, All, IfOk, OnOk, IfSome, slice_get, Option, if◌then◌else◌};
ghost use Rattle.mb_format.specs.Format.{Spells};
ghost use Rattle.mb_model.specs.declared.limits.TheConstants.{CODE_LIMIT, FILE_LIMIT};
ghost use Rattle.mb_model.specs.declared.stored.Header.{Header};
ghost use Rattle.mb_model.specs.records.EntryFormat.{entry_format};
ghost use Rattle.mb_model.specs.records.HeaderFormat.{first_text, second_text, header_format};
ghost use Rattle.mb_model.specs.memories.Sectors.{BeginsAs};
ghost use Rattle.mb_model_memory.specs.NextHeaders.{free_slot, code_brought, texts_of_entries, slot_after, header_after};
ghost use Rattle.mb_segments.specs.Uncopied.{header_of};
ghost use Rattle.mb_area.specs.Flashes.{BeginWithHeader};
ghost use Rattle.mb_device_orders.specs.Planning.{BringsShortCode, CanTake, IsToWrite};

use mb_bytes::put_slice;
use mb_layout::{Room, entry_bytes};
use mb_model::{Act, Bytes, Entry, Header, NoMemory, Order, Slot};
use mb_segments::{StoredHeader, header_at, write_header};
use std::alloc::Global;

/// The slot of a layer that the header does not name; slot 1 if it names none.
fn free_slot(slot: Slot) -> u8
    ensures { result ≡ free_slot slot }
{
    if slot.which == 1 { 2 } else { 1 }
}

/// Where the code of a layer stands after an order that does `act` to this layer. New code goes to the free slot.
fn slot_after(old: Slot, act: &Act) -> Slot
    requires { BringsShortCode act.now }
    ensures { result ≡ slot_after old act.now }
{
    match act {
        Act::Establish { .. } | Act::Surrender => Slot {
            which: 0,
            length: 0,
        },
        Act::Load(payload) | Act::Emergency(payload) => Slot {
            which: free_slot(old),
            length: payload.code.as_slice().len() as u32,
        },
        Act::NewKey { .. } => old,
    }
}

/// Where the code of a layer stands after an order. `own` says whether the order is for this layer.
fn slot_left(old: Slot, own: bool, act: &Act) -> Slot
    requires { BringsShortCode act.now }
    ensures { result ≡ (if own then slot_after old act.now else old) }
{
    if own { slot_after(old, act) } else { old }
}

/// The bytes of the entry at a position in a list; `None` if the list is too short.
fn text_at(alloc: Global, entries: &[Entry], place: usize) -> Result<Option<Bytes>, NoMemory>
    requires { All entry_format.Allowed entries.now }
    ensures { IfOk result (λ text. text ≡ slice_get (texts_of_entries entries.now) place) }
{
    let Some(entry) = entries.get(place) else {
        return Ok(None);
    };
    Ok(Some(entry_bytes(alloc, entry)?))
}

/// The header after an order. The order's entries are in it as texts, not signed yet.
fn header_after(
    old: &StoredHeader<'_>,
    order: &Order,
    first: Option<Bytes>,
    second: Option<Bytes>,
) -> Header
    requires { BringsShortCode order.now.act }
    ensures { result
        ≡ header_after (header_of old.now) order.now.layer order.now.act first second }
{
    Header {
        one: slot_left(old.one, order.layer == 1, &order.act),
        two: slot_left(old.two, order.layer == 2, &order.act),
        three: slot_left(old.three, order.layer == 3, &order.act),
        signed: old.signed,
        first,
        second,
    }
}

/// The header at the beginning of a sector that holds one.
fn stored_header(sector: &[u8]) -> StoredHeader<'_>
    requires short { length sector.now ≤ FILE_LIMIT }
    requires some { BeginWithHeader sector.now }
    ensures { (header : Header) → BeginsAs header_format sector.now header
        → header ≡ header_of result }
{
    let Some(header) = header_at(sector) else {
        unreachable!()
    };
    header
}

/// Replaces the header in `room.header` by the header after the order, which appends these entries.
pub(crate) fn put_header(
    alloc: Global,
    order: &Order,
    entries: &[Entry],
    room: &mut Room,
) -> Result<(), NoMemory>
    requires short { length room.old.header.items ≤ FILE_LIMIT }
    requires takes { CanTake order.now.layer order.now.act entries.now room.old.header.items }
    ensures one { (header other : Header) → BeginsAs header_format room.old.header.items header
        → BeginsAs header_format room.old.header.items other → other ≡ header }
    ensures spelled { (header : Header) → BeginsAs header_format room.old.header.items header
        → OnOk result (Spells header_format room.new.header.items
        (header_after header order.now.layer order.now.act
        (first_text (texts_of_entries entries.now))
        (second_text (texts_of_entries entries.now)))) }
{
    let stored = stored_header(&room.header);
    let first = text_at(alloc, entries, 0)?;
    let second = text_at(alloc, entries, 1)?;
    let next = header_after(&stored, order, first, second);
    room.header.clear();
    let _ = write_header(&next, &mut room.header);
    Ok(())
}

/// Puts the code that an order brings into `room.code`, and its layer into `room.code_layer`; no code and 0 if it
/// brings none. The room has the memory for it. The code is copied: a vector that is moved in brings its own capacity,
/// and the buffer has to keep its own.
pub(crate) fn put_code(order: &Order, room: &mut Room)
    requires { BringsShortCode order.now.act }
    ensures code { IsToWrite room.new order.now.layer (code_brought order.now.act) }
    ensures header { room.new.header ≡ room.old.header }
{
    room.code.clear();
    room.code_layer = 0;
    if let Act::Load(payload) | Act::Emergency(payload) = &order.act {
        let _ = put_slice(&mut room.code, payload.code.as_slice());
        room.code_layer = order.layer;
    }
}
