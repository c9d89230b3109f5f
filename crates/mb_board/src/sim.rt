//! A board that simulates a device in memory.

ghost use Rattle.std.specs.Prelude.{◌≡◌, ◌+◌, ◌*◌, ◌-◌, ◌/◌, ◌<◌, ◌≤◌, ◌++◌, ◌∷◌, [], List, Some, None, true, false, length, IfOk, IfSome, IfNone, OnOk, OnErr, All, vec_len, vec_capacity};
ghost use Rattle.std.specs.Result.{is_ok};
ghost use Rattle.std.proofs.Common.{ap, refl};
ghost use Rattle.mb_format.specs.Format.{IsBytes};
ghost use Rattle.mb_model.specs.declared.limits.TheConstants.{EVENT_LIMIT, IMAGE_LENGTH, SECTOR_LENGTH, WRITE_LIMIT};
ghost use Rattle.mb_model.specs.outside.Pieces.{part};
ghost use Rattle.mb_model.specs.chains.Script.{IsScriptEvent};
ghost use Rattle.mb_model.specs.outside.Board.{IsLoaded, image_of, counted_load, ledger_at_load, memory_with_bytes, erased_bytes, power_after, memory_after, armed_after, stops_by_answer};
ghost use Rattle.mb_model.specs.memories.Acknowledged.{MayAnswer};
ghost use Rattle.mb_board.specs.Calls.{Torn, held_by};
ghost use Rattle.mb_board.specs.Cuts.{unused, passes, left_by, cut_after, meter_of, is_armed};
ghost use Rattle.mb_board.specs.Reach.{Reached};
ghost use Rattle.mb_board.specs.Shown.{Rest, BoardShown, board_after, rest_of, unloaded};

use crate::bank::{Bank, are_bytes};
use crate::board::{Board, Stopped};
use crate::fuse::Fuse;
use mb_model::{Answered, Event, Events, FLASH_LENGTH, NoMemory, Reply};
use mb_ratchet::Register;
use std::alloc::Global;
use std::collections::VecDeque;
use std::marker::Model;

/// The power of a board when the bytes of its memories were last kept, and how many calls power losses had stopped.
#[derive(Drop)]
struct Standing {
    is_on: bool,
    level: u8,
    is_armed: bool,
    stops: u64,
}

impl Standing {
    /// Power off, and no power loss armed, when power losses have stopped so many calls.
    fn off(stops: u64) -> Standing
        ensures on { result.is_on ≡ false }
        ensures armed { result.is_armed ≡ false }
        ensures stops { result.stops ≡ stops }
    {
        Standing {
            is_on: false,
            level: 0,
            is_armed: false,
            stops,
        }
    }
}

/// The count of loads saturates here.
const COUNTED_LOADS: u16 = 1_000;

/// The memories as they were when the board was last loaded.
#[derive(Drop)]
struct Loaded {
    flash: Vec<u8>,
    bbram: Vec<u8>,
}

impl Loaded {
    /// Both memories are empty.
    fn none(alloc: Global) -> Loaded
        ensures flash { result.flash.items ≡ [] }
        ensures bbram { result.bbram.items ≡ [] }
    {
        Loaded {
            flash: Vec::new(alloc),
            bbram: Vec::new(alloc),
        }
    }
}

/// A board whose memories and events are held in memory. A write call is stopped exactly if a power loss is armed for
/// it, unless the count of stops is at its last value.
#[derive(Drop)]
pub struct SimBoard {
    is_on: bool,
    level: u8,
    fuse: Fuse,
    /// The flash. Both memories and `standing` were last kept at the last answer, or at the load if nothing was
    /// answered since.
    flash: Bank,
    bbram: Bank,
    standing: Standing,
    loaded: Loaded,
    /// How many loads there were.
    loads: u16,
    waiting: VecDeque<Event>,
    /// A copy of each event that waits; the board keeps it while that event is out.
    copies: VecDeque<Event>,
    out: Option<Event>,
    answered: Vec<Answered>,
}

impl Model for SimBoard {
    ghost use Rattle.mb_model.specs.outside.Board.{phase_at};
    ghost use Rattle.mb_board.specs.Shown.{BoardShown};
    ghost use Rattle.mb_board.specs.Sound.{IsSoundBoard};

    ghost Value = { BoardShown };

    ghost view = { λ s. record {
      power = s.is_on;
      level = s.level;
      memory = record { flash = s.flash.bytes; bbram = s.bbram.bytes };
      ledger = record {
        waiting = s.waiting.items;
        out = s.out;
        answered = s.answered.items;
        standing = record {
          memory = record { flash = s.flash.standing; bbram = s.bbram.standing };
          phase = phase_at s.standing.is_on s.standing.level;
          armed = s.standing.is_armed;
        };
        stops = s.standing.stops;
        loaded = record { flash = s.loaded.flash.items; bbram = s.loaded.bbram.items };
        loads = s.loads;
      };
      fuse = s.fuse;
    } };

    ghost invariant = { IsSoundBoard };
}

impl SimBoard {
    /// A board without a load: power is off, both memories are empty, there are no events, and no power loss is armed.
    pub fn new(alloc: Global) -> SimBoard
        ensures power { result.power ≡ false }
        ensures memory { result.memory ≡ unloaded }
        ensures ledger { result.ledger ≡ ledger_at_load 0 0 unloaded [] }
        ensures fuse { result.fuse ≡ unused }
    {
        SimBoard {
            is_on: false,
            level: 0,
            fuse: Fuse::new(),
            flash: Bank::new(alloc),
            bbram: Bank::new(alloc),
            standing: Standing::off(0),
            loaded: Loaded::none(alloc),
            loads: 0,
            waiting: VecDeque::new(alloc),
            copies: VecDeque::new(alloc),
            out: None,
            answered: Vec::new(alloc),
        }
    }

    /// Does to the board what handing out this event does.
    fn meet(&mut self, event: &Event)
        requires { IsScriptEvent event.now }
        ensures fuse { self.new.fuse
            ≡ record self.old.fuse { cut = cut_after (Some event.now) self.old.fuse.cut } }
        ensures armed { is_armed self.new.fuse.cut
            ≡ armed_after (Some event.now) (is_armed self.old.fuse.cut) }
        ensures power { self.new.power ≡ power_after (Some event.now) self.old.power }
        ensures level { self.new.level ≡ self.old.level }
        ensures memory { self.new.memory ≡ memory_after (Some event.now) self.old.memory }
        ensures ledger { self.new.ledger ≡ self.old.ledger }
    {
        match event {
            Event::Off => self.is_on = false,
            Event::Tamper => {
                self.is_on = false;
                self.bbram.clear();
            }
            Event::Cut { count, tear } => self.fuse.arm(*count, *tear),
            _ => {}
        }
    }
}

impl Register for SimBoard {
    ghost Rest = { Rest };

    ghost rest = { rest_of };

    ghost power = { λ board. board.power };

    ghost level = { λ board. board.level };

    fn power_on(&mut self) {
        self.is_on = true;
        self.level = 0;
    }

    fn power_off(&mut self) {
        self.is_on = false;
    }

    fn raise(&mut self) {
        self.level += 1;
    }
}

// Clauses that stand here say more than the trait's: which write call is stopped, what its range then holds, and that
// nothing else changes the armed power loss. `torn` follows from `left`; the check wants it written out.
impl Board for SimBoard {
    ghost seen = { λ board. record {
      power = board.power;
      level = board.level;
      memory = board.memory;
      ledger = board.ledger;
      meter = meter_of board.fuse;
    } };

    fn flash_read(&self, at: u32, out: &mut [u8]) {
        let start = at as usize;
        out.copy_from_slice(&self.flash.as_slice()[start..start + out.len()]);
    }

    fn flash_erase(&mut self, sector: u16) -> Result<(), Stopped>
        requires on { self.old.power ≡ true }
        requires within { SECTOR_LENGTH * sector + SECTOR_LENGTH ≤ length self.old.memory.flash }
        ensures passes { is_ok result ≡ is_ok (passes self.old.fuse) }
        ensures left { self.new.memory ≡ record self.old.memory {
          flash = memory_with_bytes (SECTOR_LENGTH * sector)
              (left_by (passes self.old.fuse) (erased_bytes SECTOR_LENGTH)) self.old.memory.flash;
        } }
        ensures after { self.new ≡ board_after result self.new.memory self.old }
        ensures torn { Torn (SECTOR_LENGTH * sector) SECTOR_LENGTH
            self.old.memory.flash self.new.memory.flash }
    {
        match self.fuse.pass() {
            Ok(()) => {
                self.flash.erase(sector);
                Ok(())
            }
            Err(tear) => {
                self.flash.erase_torn(sector, &tear);
                self.is_on = false;
                self.level = 0;
                Err(Stopped)
            }
        }
    }

    fn flash_program(&mut self, at: u32, bytes: &[u8]) -> Result<(), Stopped>
        requires on { self.old.power ≡ true }
        requires some { 0 < length bytes.now }
        requires within { at + length bytes.now ≤ length self.old.memory.flash }
        requires one_sector { at / SECTOR_LENGTH ≡ (at + length bytes.now - 1) / SECTOR_LENGTH }
        requires blank { part at (length bytes.now) self.old.memory.flash
            ≡ erased_bytes (length bytes.now) }
        ensures passes { is_ok result ≡ is_ok (passes self.old.fuse) }
        ensures left { self.new.memory ≡ record self.old.memory {
          flash = memory_with_bytes at (left_by (passes self.old.fuse) bytes.now) self.old.memory.flash;
        } }
        ensures after { self.new ≡ board_after result self.new.memory self.old }
        ensures torn { Torn at (length bytes.now) self.old.memory.flash self.new.memory.flash }
    {
        match self.fuse.pass() {
            Ok(()) => {
                self.flash.write(at as usize, bytes);
                Ok(())
            }
            Err(tear) => {
                self.flash.write_torn(at as usize, bytes, &tear);
                self.is_on = false;
                self.level = 0;
                Err(Stopped)
            }
        }
    }

    fn bbram_read(&self, at: u16, out: &mut [u8]) {
        let start = at as usize;
        out.copy_from_slice(&self.bbram.as_slice()[start..start + out.len()]);
    }

    fn bbram_write(&mut self, at: u16, bytes: &[u8]) -> Result<(), Stopped>
        requires on { self.old.power ≡ true }
        requires some { 0 < length bytes.now }
        requires within { at + length bytes.now ≤ length self.old.memory.bbram }
        requires reached { Reached self.old.level at (length bytes.now) }
        ensures passes { is_ok result ≡ is_ok (passes self.old.fuse) }
        ensures left { self.new.memory ≡ record self.old.memory {
          bbram = memory_with_bytes at (left_by (passes self.old.fuse) bytes.now) self.old.memory.bbram;
        } }
        ensures after { self.new ≡ board_after result self.new.memory self.old }
        ensures torn { Torn at (length bytes.now) self.old.memory.bbram self.new.memory.bbram }
    {
        match self.fuse.pass() {
            Ok(()) => {
                self.bbram.write(at as usize, bytes);
                Ok(())
            }
            Err(tear) => {
                self.bbram.write_torn(at as usize, bytes, &tear);
                self.is_on = false;
                self.level = 0;
                Err(Stopped)
            }
        }
    }

    fn load(&mut self, alloc: Global, image: &[u8], events: Events) -> Result<(), NoMemory>
        requires image { length image.now ≡ IMAGE_LENGTH }
        requires count { length events ≤ EVENT_LIMIT }
        requires events { All IsScriptEvent events }
        requires off { self.old.power ≡ false }
        requires none_out { self.old.ledger.out ≡ None }
        ensures power { self.new.power ≡ false }
        ensures sized { OnOk result (IsLoaded self.new.memory) }
        ensures image { OnOk result (image_of self.new.memory ≡ image.now) }
        ensures ledger { OnOk result (self.new.ledger
            ≡ ledger_at_load (counted_load self.old.ledger.loads) self.old.fuse.stops self.new.memory events) }
        ensures fuse { OnOk result (self.new.fuse
            ≡ record self.old.fuse { cut = None; writes = 0 }) }
        ensures failed { OnErr result (self.new ≡ self.old) }
    {
        let (flash, bbram) = image.split_at(FLASH_LENGTH);
        let loaded = Loaded {
            flash: Vec::from_slice(alloc, flash)?,
            bbram: Vec::from_slice(alloc, bbram)?,
        };
        let flash = Bank::from_slice(alloc, flash)?;
        let bbram = Bank::from_slice(alloc, bbram)?;
        let answered = Vec::with_capacity(alloc, events.as_slice().len())?;
        let copies = copies_of(alloc, events.as_slice())?;
        self.flash = flash;
        self.bbram = bbram;
        self.standing = Standing::off(self.fuse.stops());
        self.loaded = loaded;
        if self.loads < COUNTED_LOADS {
            self.loads += 1;
        }
        self.waiting = VecDeque::from_vec(events.into_vec());
        self.copies = copies;
        self.answered = answered;
        self.fuse.disarm();
        self.fuse.restart();
        Ok(())
    }

    fn events_left(&self) -> u32 {
        self.waiting.len() as u32
    }

    fn take(&mut self) -> Option<Event>
        requires { self.old.ledger.out ≡ None }
        ensures fuse { self.new.fuse
            ≡ record self.old.fuse { cut = cut_after result self.old.fuse.cut; writes = 0 } }
        ensures none { IfNone result ((self.old.ledger.waiting ≡ [])
            × (self.new.ledger ≡ self.old.ledger)) }
        ensures some { IfSome result (λ event. (rest : List Event)
            × (self.old.ledger.waiting ≡ event ∷ rest)
            × (self.new.ledger ≡ record self.old.ledger { waiting = rest; out = Some event })) }
        ensures power { self.new.power ≡ power_after result self.old.power }
        ensures level { self.new.level ≡ self.old.level }
        ensures memory { self.new.memory ≡ memory_after result self.old.memory }
        ensures flash_bytes { IsBytes self.new.memory.flash }
        ensures bbram_bytes { IsBytes self.new.memory.bbram }
    {
        self.fuse.restart();
        let event = self.waiting.pop_front();
        if let Some(event) = &event {
            self.out = self.copies.pop_front();
            self.meet(event);
        }
        are_bytes(self.flash.as_slice());
        are_bytes(self.bbram.as_slice());
        event
    }

    fn answer(&mut self, event: Event, reply: Reply)
        requires out { self.old.ledger.out ≡ Some event }
        requires step { MayAnswer self.old.ledger.standing
            (held_by self.old.memory self.old.power self.old.level (meter_of self.old.fuse)) event reply }
        requires writes { self.old.fuse.writes ≤ WRITE_LIMIT }
        requires stops { self.old.fuse.stops ≡ stops_by_answer reply self.old.ledger.stops }
        ensures { self.new ≡ record self.old {
          ledger = record self.old.ledger {
            out = None;
            answered = self.old.ledger.answered ++ record { event = event; reply = reply } ∷ [];
            standing = held_by self.old.memory self.old.power self.old.level (meter_of self.old.fuse);
            stops = self.old.fuse.stops;
          };
        } }
    {
        self.flash.keep();
        self.bbram.keep();
        self.standing = Standing {
            is_on: self.is_on,
            level: self.level,
            is_armed: self.fuse.is_armed(),
            stops: self.fuse.stops(),
        };
        self.out = None;
        append(&mut self.answered, Answered { event, reply });
    }

    fn answered(&self) -> &[Answered] {
        self.answered.as_slice()
    }

    fn copy_image(&self, out: &mut [u8]) {
        let (flash, bbram) = out.split_at_mut(FLASH_LENGTH);
        flash.copy_from_slice(self.flash.as_slice());
        bbram.copy_from_slice(self.bbram.as_slice());
    }

    ghost sees_power = { λ a. refl };

    ghost sees_level = { λ a. refl };

    ghost keeps_memory = { λ a b same. ap (λ (rest : Rest). rest.memory) same };

    ghost keeps_ledger = { λ a b same. ap (λ (rest : Rest). rest.ledger) same };

    ghost keeps_meter = { λ a b same. ap (λ (rest : Rest). meter_of rest.fuse) same };
}

/// Copies each event.
fn copies_of(alloc: Global, events: &[Event]) -> Result<VecDeque<Event>, NoMemory>
    ensures { IfOk result (λ copies. copies.items ≡ events.now) }
{
    let mut copies = VecDeque::with_capacity(alloc, events.len())?;
    for event in events {
        copies.push_back(event.copy(alloc)?)?;
    }
    Ok(copies)
}

/// Appends an answer to a list that has room for it.
fn append(answered: &mut Vec<Answered>, answer: Answered)
    requires { vec_len answered.old < vec_capacity answered.old }
    ensures items { answered.new.items ≡ answered.old.items ++ answer ∷ [] }
    ensures room { vec_capacity answered.old ≤ vec_capacity answered.new }
{
    if answered.push(answer).is_err() {
        unreachable!();
    }
}
