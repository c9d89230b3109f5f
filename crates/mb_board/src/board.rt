//! The trait of a board: a device's memories, its power, and the events that it hands out.

ghost use Rattle.std.specs.Prelude.{◌≡◌, ◌+◌, ◌*◌, ◌/◌, ◌-◌, ◌<◌, ◌≤◌, ◌++◌, ◌∷◌, [], true, false, length, All, IfSome, IfNone, OnOk, OnErr, List, Some, None};
ghost use Rattle.mb_format.specs.Format.{IsBytes};
ghost use Rattle.mb_model.specs.declared.limits.TheConstants.{EVENT_LIMIT, IMAGE_LENGTH, SECTOR_LENGTH, WRITE_LIMIT};
ghost use Rattle.mb_model.specs.outside.Pieces.{part};
ghost use Rattle.mb_model.specs.chains.Script.{IsScriptEvent};
ghost use Rattle.mb_model.specs.outside.Board.{IsLoaded, image_of, memory_with_bytes, erased_bytes, counted_load, ledger_at_load, power_after, memory_after, armed_after, stops_by_answer};
ghost use Rattle.mb_model.specs.memories.Acknowledged.{MayAnswer};
ghost use Rattle.mb_board.specs.Calls.{power_of, level_of, metered, Torn, Seen, held_in};
ghost use Rattle.mb_board.specs.Reach.{Reached, Readable};

use mb_model::{Answered, Event, Events, NoMemory, Reply};
use mb_ratchet::Register;
use std::alloc::Global;

/// Power failed in the call.
#[derive(Clone, Copy, Debug, PartialEq, Eq)]
pub struct Stopped;

/// A device's memories, its power, and the events that it is given.
///
/// A write call (`flash_erase`, `flash_program`, `bbram_write`) is stopped only by an armed power loss. The bytes in
/// its range are then arbitrary, power is off, and no power loss is armed any more. All else is as before.
pub trait Board: Register {
    /// All that a board shows.
    ghost seen: { Self → Seen };

    /// Reads bytes of the flash at the offset `at`.
    fn flash_read(&self, at: u32, out: &mut [u8])
        requires on { (seen self.now).power ≡ true }
        requires within { at + length out.old ≤ length (seen self.now).memory.flash }
        ensures { out.new ≡ part at (length out.old) (seen self.now).memory.flash };

    /// Sets each byte of a sector of 4,096 bytes to 0xFF.
    fn flash_erase(&mut self, sector: u16) -> Result<(), Stopped>
        requires on { (seen self.old).power ≡ true }
        requires within { SECTOR_LENGTH * sector + SECTOR_LENGTH ≤ length
            (seen self.old).memory.flash }
        ensures erased { OnOk result ((seen self.new).memory.flash
            ≡ memory_with_bytes (SECTOR_LENGTH * sector) (erased_bytes SECTOR_LENGTH) (seen self.old).memory.flash) }
        ensures torn { Torn (SECTOR_LENGTH * sector) SECTOR_LENGTH (seen self.old).memory.flash
            (seen self.new).memory.flash }
        ensures bbram { (seen self.new).memory.bbram ≡ (seen self.old).memory.bbram }
        ensures power { (seen self.new).power ≡ power_of result }
        ensures level { (seen self.new).level ≡ level_of result (seen self.old).level }
        ensures ledger { (seen self.new).ledger ≡ (seen self.old).ledger }
        ensures meter { (seen self.new).meter ≡ metered result (seen self.old).meter }
        ensures stopped { OnErr result ((seen self.old).meter.armed ≡ true) };

    /// Stores bytes in erased flash, within one sector.
    fn flash_program(&mut self, at: u32, bytes: &[u8]) -> Result<(), Stopped>
        requires on { (seen self.old).power ≡ true }
        requires some { 0 < length bytes.now }
        requires within { at + length bytes.now ≤ length (seen self.old).memory.flash }
        requires one_sector { at / SECTOR_LENGTH ≡ (at + length bytes.now - 1) / SECTOR_LENGTH }
        requires blank { part at (length bytes.now) (seen self.old).memory.flash
            ≡ erased_bytes (length bytes.now) }
        ensures stored { OnOk result ((seen self.new).memory.flash
            ≡ memory_with_bytes at bytes.now (seen self.old).memory.flash) }
        ensures torn { Torn at (length bytes.now) (seen self.old).memory.flash
            (seen self.new).memory.flash }
        ensures bbram { (seen self.new).memory.bbram ≡ (seen self.old).memory.bbram }
        ensures power { (seen self.new).power ≡ power_of result }
        ensures level { (seen self.new).level ≡ level_of result (seen self.old).level }
        ensures ledger { (seen self.new).ledger ≡ (seen self.old).ledger }
        ensures meter { (seen self.new).meter ≡ metered result (seen self.old).meter }
        ensures stopped { OnErr result ((seen self.old).meter.armed ≡ true) };

    /// Reads bytes of the battery-backed memory at the offset `at`: the life byte, the selector of a slot, or a part of
    /// one of its areas. The level has to reach them.
    fn bbram_read(&self, at: u16, out: &mut [u8])
        requires on { (seen self.now).power ≡ true }
        requires within { at + length out.old ≤ length (seen self.now).memory.bbram }
        requires reached { Readable (seen self.now).level at (length out.old) }
        ensures { out.new ≡ part at (length out.old) (seen self.now).memory.bbram };

    /// Stores bytes in the battery-backed memory: the selector of a slot, or a part of one of its areas. The level has
    /// to reach them.
    fn bbram_write(&mut self, at: u16, bytes: &[u8]) -> Result<(), Stopped>
        requires on { (seen self.old).power ≡ true }
        requires some { 0 < length bytes.now }
        requires within { at + length bytes.now ≤ length (seen self.old).memory.bbram }
        requires reached { Reached (seen self.old).level at (length bytes.now) }
        ensures stored { OnOk result ((seen self.new).memory.bbram
            ≡ memory_with_bytes at bytes.now (seen self.old).memory.bbram) }
        ensures torn { Torn at (length bytes.now) (seen self.old).memory.bbram
            (seen self.new).memory.bbram }
        ensures flash { (seen self.new).memory.flash ≡ (seen self.old).memory.flash }
        ensures power { (seen self.new).power ≡ power_of result }
        ensures level { (seen self.new).level ≡ level_of result (seen self.old).level }
        ensures ledger { (seen self.new).ledger ≡ (seen self.old).ledger }
        ensures meter { (seen self.new).meter ≡ metered result (seen self.old).meter }
        ensures stopped { OnErr result ((seen self.old).meter.armed ≡ true) };

    /// Loads an image, the flash followed by the battery-backed memory, and the events to hand out. Takes room for all
    /// answers. If an allocation fails, the board is as before. One clause says so of all that the board shows; a
    /// clause each for memory, events and counts would leave the level out.
    fn load(&mut self, alloc: Global, image: &[u8], events: Events) -> Result<(), NoMemory>
        requires image { length image.now ≡ IMAGE_LENGTH }
        requires count { length events ≤ EVENT_LIMIT }
        requires events { All IsScriptEvent events }
        requires off { (seen self.old).power ≡ false }
        requires none_out { (seen self.old).ledger.out ≡ None }
        ensures power { (seen self.new).power ≡ false }
        ensures sized { OnOk result (IsLoaded (seen self.new).memory) }
        ensures image { OnOk result (image_of (seen self.new).memory ≡ image.now) }
        ensures ledger { OnOk result ((seen self.new).ledger
            ≡ ledger_at_load (counted_load (seen self.old).ledger.loads) (seen self.old).meter.stops
            (seen self.new).memory events) }
        ensures meter { OnOk result ((seen self.new).meter
            ≡ record (seen self.old).meter { armed = false; writes = 0 }) }
        ensures failed { OnErr result (seen self.new ≡ seen self.old) };

    /// The number of events that wait.
    fn events_left(&self) -> u32
        ensures { result ≡ length (seen self.now).ledger.waiting };

    /// Hands out the first event that waits; it is out until it is answered. `None` exactly if none waits. `Off` and
    /// `Tamper` turn power off, `Tamper` zeroes the battery-backed memory, and `Cut` arms a power loss.
    fn take(&mut self) -> Option<Event>
        requires { (seen self.old).ledger.out ≡ None }
        ensures none { IfNone result (((seen self.old).ledger.waiting ≡ [])
            × ((seen self.new).ledger ≡ (seen self.old).ledger)) }
        ensures some { IfSome result (λ event. (rest : List Event)
            × ((seen self.old).ledger.waiting ≡ event ∷ rest)
            × ((seen self.new).ledger
            ≡ record (seen self.old).ledger { waiting = rest; out = Some event })) }
        ensures power { (seen self.new).power ≡ power_after result (seen self.old).power }
        ensures level { (seen self.new).level ≡ (seen self.old).level }
        ensures memory { (seen self.new).memory ≡ memory_after result (seen self.old).memory }
        ensures meter { (seen self.new).meter
            ≡ record (seen self.old).meter {
              armed = armed_after result
                  (seen self.old).meter.armed;
              writes = 0;
            } }
        ensures flash_bytes { IsBytes (seen self.new).memory.flash }
        ensures bbram_bytes { IsBytes (seen self.new).memory.bbram };

    /// Answers the event that is out. Event and reply have to be one step from the world at the last answer to the
    /// world now. There were at most 35 write calls since the event was handed out, and the reply is `Stopped` exactly
    /// if a power loss stopped a call since the last answer.
    fn answer(&mut self, event: Event, reply: Reply)
        requires out { (seen self.old).ledger.out ≡ Some event }
        requires step { MayAnswer (seen self.old).ledger.standing
            (held_in (seen self.old)) event reply }
        requires writes { (seen self.old).meter.writes ≤ WRITE_LIMIT }
        requires stops { (seen self.old).meter.stops ≡ stops_by_answer reply (seen self.old).ledger.stops }
        ensures ledger { (seen self.new).ledger ≡ record (seen self.old).ledger {
          out = None;
          answered = (seen self.old).ledger.answered ++ record { event = event; reply = reply } ∷ [];
          standing = held_in (seen self.old);
          stops = (seen self.old).meter.stops;
        } }
        ensures power { (seen self.new).power ≡ (seen self.old).power }
        ensures level { (seen self.new).level ≡ (seen self.old).level }
        ensures memory { (seen self.new).memory ≡ (seen self.old).memory }
        ensures meter { (seen self.new).meter ≡ (seen self.old).meter };

    /// The events answered since the load, in order.
    fn answered(&self) -> &[Answered]
        ensures { result.now ≡ (seen self.now).ledger.answered };

    /// The image: the flash, and then the battery-backed memory.
    fn copy_image(&self, out: &mut [u8])
        requires loaded { IsLoaded (seen self.now).memory }
        requires room { length out.old ≡ IMAGE_LENGTH }
        ensures { out.new ≡ image_of (seen self.now).memory };

    ghost sees_power: { (a : Self) → (seen a).power ≡ Self.power a };

    ghost sees_level: { (a : Self) → (seen a).level ≡ Self.level a };

    ghost keeps_memory: { (a b : Self) → Self.rest a ≡ Self.rest b → (seen a).memory ≡ (seen b).memory };

    ghost keeps_ledger: { (a b : Self) → Self.rest a ≡ Self.rest b → (seen a).ledger ≡ (seen b).ledger };

    ghost keeps_meter: { (a b : Self) → Self.rest a ≡ Self.rest b → (seen a).meter ≡ (seen b).meter };
}
