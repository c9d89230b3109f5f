//! What a device remembers of its state.

ghost use Rattle.std.specs.Prelude.{◌≡◌, ◌≤◌, ◌<◌, List, length, IfSome, None, Some};
ghost use Rattle.mb_model.specs.declared.limits.TheConstants.{ENTRY_LIMIT, FILE_LIMIT};
ghost use Rattle.mb_model.specs.declared.entry.SignedEntry.{SignedEntry};
ghost use Rattle.mb_model.specs.declared.state.State.{State};
ghost use Rattle.mb_model.specs.declared.stored.Header.{Header};
ghost use Rattle.mb_model.specs.memories.Flash.{sector, HoldsHeader, HoldsEntry, HoldsLog};
ghost use Rattle.mb_model.specs.records.HeaderFormat.{header_format};
ghost use Rattle.mb_model.specs.owners.Log.{figures_of, entries_of};
ghost use Rattle.mb_model.specs.memories.Sectors.{log_sector, BeginsAs};
ghost use Rattle.mb_board.specs.Calls.{IsPowered, IsUp};
ghost use Rattle.mb_model_memory.specs.Holding.{IsReady, HasReady};
ghost use Rattle.mb_signer.specs.Tree.{IsTreeOf};
ghost use Rattle.mb_device_orders.specs.Calls.{Lends};
ghost use Rattle.mb_device_orders.specs.Remembering.{Knows, KnowsCode, slot_known, IsNoted, FitsNoted, NotesCode};

use mb_area::{read_header, read_log, read_root};
use mb_board::Board;
use mb_bytes::Cursor;
use mb_layout::{Room, read_entry};
use mb_log::{add_entry, no_figures};
use mb_model::{Entry, Figures, KeySeed, Slot};
use mb_outbound::RegionTree;
use mb_ratchet::{R1, Up};
use mb_segments::{header_at, log_at};
use mb_signer::{Bench, KeptTree};

/// The trees of keys that a device keeps while power is on, to sign with again. They are public nodes: no seed is among
/// them.
#[derive(Drop)]
pub struct Trees {
    /// The tree of the device key, once it has signed an order's entry.
    pub device: Option<KeptTree>,
    /// The tree of the region's key that signed last.
    pub region: Option<RegionTree>,
}

impl Trees {
    /// No tree.
    pub fn none() -> Trees
        ensures device { result.device ≡ None }
        ensures region { result.region ≡ None }
    {
        Trees {
            device: None,
            region: None,
        }
    }
}

/// What a device remembers of its state while power is on.
#[derive(Drop)]
pub struct Known {
    /// The device's serial.
    pub serial: [u8; 16],
    /// What the entries of its log say together.
    pub figures: Figures,
    /// Where the code of layer 2 stands.
    pub two: Slot,
    /// Where the code of layer 3 stands.
    pub three: Slot,
    /// The trees that it keeps.
    pub trees: Box<Trees>,
}

impl Known {
    /// Where the code of layer 2 or 3 stands.
    pub fn slot(&self, layer: u8) -> Slot
        ensures { result ≡ slot_known self.now layer }
    {
        if layer == 2 { self.two } else { self.three }
    }

    /// Moves the tree of the device key to the bench, if one is kept.
    pub(crate) fn lend(&mut self, device: &KeySeed, bench: &mut Bench)
        requires { IfSome self.old.trees.value.device (λ tree. IsTreeOf device.now tree) }
        ensures { Lends device.now self.old self.new bench.old bench.new }
    {
        if let Some(tree) = self.trees.device.take() {
            bench.put(device, tree);
        }
    }
}

/// What a device holds while a layer runs.
#[derive(Drop)]
pub struct Running {
    /// What the device remembers of its state.
    pub known: Known,
    /// Working space.
    pub room: Room,
}

/// What a device notes of a header.
#[derive(Clone, Copy)]
pub(crate) struct Noted {
    /// The number of signed entries that it counts.
    pub(crate) signed: u32,
    /// Where the code of layer 2 stands.
    pub(crate) two: Slot,
    /// Where the code of layer 3 stands.
    pub(crate) three: Slot,
}

/// No slot.
const NO_SLOT: Slot = Slot {
    which: 0,
    length: 0,
};

/// What is noted of the header at the beginning of a sector; no entries and no slots if there is no header.
fn noted_in(sector: &[u8]) -> Noted
    requires { length sector.now ≤ FILE_LIMIT }
    ensures noted { (header : Header) → BeginsAs header_format sector.now header
        → IsNoted result header }
    ensures fits { FitsNoted result }
{
    match header_at(sector) {
        Some(header) => Noted {
            signed: header.signed,
            two: header.two,
            three: header.three,
        },
        None => Noted {
            signed: 0,
            two: NO_SLOT,
            three: NO_SLOT,
        },
    }
}

/// The entry in a sector of the log. If it holds no entry, the result is arbitrary.
fn entry_in(sector: &[u8]) -> Option<Entry>
    requires { length sector.now ≤ FILE_LIMIT }
    ensures { (signed : SignedEntry) → HoldsEntry sector.now signed → result ≡ Some signed.entry }
{
    let stored = log_at(sector)?;
    let mut cursor = Cursor::new(stored.text);
    read_entry(&mut cursor).ok()
}

/// What is noted of the header in an area, 0 or 1; no entries and no slots if the area holds no header.
fn read_noted<B: Board>(b: &B, area: u8, room: &mut Room) -> Noted
    requires powered { IsPowered (B.seen b.now) }
    requires area { area ≤ 1 }
    ensures noted { (header : Header) → HoldsHeader (B.seen b.now).memory.flash area header
        → IsNoted result header }
    ensures fits { FitsNoted result }
{
    read_header(b, area, room);
    noted_in(&room.header)
}

/// What is noted of the header that the current root record names.
#[tactic(auto, using(crate::proofs::Remembered::ready_root))]
pub(crate) fn note_header<B: Board>(_up: &Up<R1>, b: &B, room: &mut Room) -> Noted
    requires up { IsUp 1 (B.seen b.now) }
    requires ready { HasReady (B.seen b.now).memory }
    ensures { (state : State) → IsReady (B.seen b.now).memory state
        → NotesCode result (B.seen b.now).memory.flash state }
{
    let root = read_root(b, room);
    read_noted(b, root.area, room)
}

/// The entry of the log at a position, 0 to 127. If its sector holds no entry, the result is arbitrary.
fn entry_at<B: Board>(b: &B, position: u32, room: &mut Room) -> Option<Entry>
    requires powered { IsPowered (B.seen b.now) }
    requires position { position < ENTRY_LIMIT }
    ensures { (signed : SignedEntry)
        → HoldsEntry (sector (B.seen b.now).memory.flash (log_sector position)) signed
        → result ≡ Some signed.entry }
{
    read_log(b, position, room);
    entry_in(&room.log)
}

/// The figures of a log of this many entries, each of which stands in the sector of its position.
fn figures_in<B: Board>(b: &B, signed: u32, room: &mut Room) -> Figures
    requires powered { IsPowered (B.seen b.now) }
    requires few { signed ≤ ENTRY_LIMIT }
    ensures { (log : List SignedEntry) → HoldsLog (B.seen b.now).memory.flash log
        → length log ≡ signed → result ≡ figures_of (entries_of log) }
{
    let mut figures = no_figures();
    for position in 0..signed {
        if let Some(entry) = entry_at(b, position, room) {
            add_entry(&mut figures, &entry);
        }
    }
    figures
}

/// Reads what the device remembers from its memory, which is ready. No tree is kept: what `trees` holds is dropped, and
/// its memory is used again. Takes no memory.
#[tactic(auto, using(crate::proofs::Remembered::ready_root))]
pub fn remember<B: Board>(_up: &Up<R1>, b: &B, trees: Box<Trees>, room: &mut Room) -> Known
    requires up { IsUp 1 (B.seen b.now) }
    requires ready { HasReady (B.seen b.now).memory }
    ensures knows { (state : State) → IsReady (B.seen b.now).memory state → Knows result state }
    ensures codes { (state : State) → IsReady (B.seen b.now).memory state
        → KnowsCode result (B.seen b.now).memory.flash state }
{
    let root = read_root(b, room);
    let noted = read_noted(b, root.area, room);
    let serial = root.serial;
    let figures = figures_in(b, noted.signed, room);
    let mut trees = trees;
    *trees = Trees::none();
    Known {
        serial,
        figures,
        two: noted.two,
        three: noted.three,
        trees,
    }
}
