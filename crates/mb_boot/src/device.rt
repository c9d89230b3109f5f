//! Booting a device, and finishing an order.

ghost use Rattle.std.specs.Prelude.{◌≡◌, ◌==◌, OnOk, true, false};
ghost use Rattle.mb_model.specs.memories.Memory.{life_byte, inactive_area_of_slot};
ghost use Rattle.mb_board.specs.Calls.{IsPowered, IsUp, RanOnBbram, IsSwitched};
ghost use Rattle.mb_model_memory.specs.Holding.{KeepsContents};
ghost use Rattle.mb_boot.specs.Booting.{IsFoundAs, Rests, IsWiped, Cleans, IsQuiet, StandsForValid};
ghost use Rattle.mb_boot.specs.Calls.{Boots, DoesWork, ReachesLevel, UsesTrees};
ghost use Rattle.mb_boot.specs.Settling.{IsLiveBoard, IsLiveWith};

use crate::work::settle;
use mb_area::{Looked, Unsettled, look, wipe_root};
use mb_board::Board;
use mb_layout::Room;
use mb_lms::HashCount;
use mb_model::NoMemory;
use mb_ratchet::{Dead, Off, R1, Three, Two, Up, Zero};
use mb_region::wipe_region;
use mb_signer::Bench;
use std::alloc::Global;
use std::sync::ledger::Ledger;

/// Why a device did not come up.
#[derive(Drop)]
pub enum BootEnd {
    /// Power failed.
    Stopped(Off),
    /// The device is dead: its battery-backed memory is all zero.
    Zeroised(Dead),
    /// An allocation failed; power was turned off.
    NoMemory(Off),
}

/// Whether the life byte says that the device is dead.
fn is_dead<B: Board>(b: &B) -> bool
    requires powered { IsPowered (B.seen b.now) }
    ensures { result ≡ (life_byte (B.seen b.now).memory.bbram == 0) }
{
    let mut life = [0; 1];
    b.bbram_read(0, &mut life);
    life[0] == 0
}

/// Does the pending work, and wipes the root's inactive area. There are at most 13 write calls.
fn settle_and_wipe<B: Board, L: Ledger>(
    u: Unsettled,
    b: &mut B,
    room: &mut Room,
    hashes: &mut HashCount<L>,
) -> Result<Up<R1>, Off>
    requires { IsLiveWith (B.seen b.old) u.root }
    ensures { DoesWork Rests 13 result (B.seen b.old) (B.seen b.new) hashes.old hashes.new }
{
    let unwiped = settle(u, b, room, &mut Bench::new(), hashes)?;
    let up = wipe_root(unwiped, b)?;
    Ok(up)
}

/// Does the work that is left in a live device, and wipes the root's inactive area. There are at most 13 write calls.
#[tactic(auto, using(crate::proofs::Booted::already_quiet, crate::proofs::Booted::unwiped_quiet, crate::proofs::Booted::unsettled_quiet))]
fn bring_to_rest<B: Board, L: Ledger>(
    looked: Looked,
    b: &mut B,
    room: &mut Room,
    hashes: &mut HashCount<L>,
) -> Result<Up<R1>, Off>
    requires live { IsLiveBoard (B.seen b.old) }
    requires looked { IsFoundAs looked (B.seen b.old).memory.bbram }
    ensures work { DoesWork Rests 13 result (B.seen b.old) (B.seen b.new) hashes.old hashes.new }
    ensures quiet { IsQuiet (B.seen b.old).memory (B.seen b.new).memory (B.seen b.old).meter
        (B.seen b.new).meter }
{
    match looked {
        Looked::Settled(up) => Ok(up),
        Looked::Unwiped(unwiped) => wipe_root(unwiped, b),
        Looked::Unsettled(u) => settle_and_wipe(u, b, room, hashes),
    }
}

/// Wipes the inactive areas of both regions. There are at most two write calls.
#[tactic(auto, using(crate::proofs::Booted::contents_then, crate::proofs::Booted::two_leaves_root, crate::proofs::Booted::three_leaves_root, crate::proofs::Booted::both_wiped))]
fn wipe_regions<B: Board>(up: Up<R1>, b: &mut B) -> Result<Up<R1>, Off>
    requires up { IsUp 1 (B.seen b.old) }
    ensures wiped { OnOk result (IsWiped (B.seen b.new).memory.bbram) }
    ensures root { inactive_area_of_slot (B.seen b.new).memory.bbram 1 ≡ inactive_area_of_slot (B.seen b.old).memory.bbram 1 }
    ensures contents { KeepsContents (B.seen b.old).memory (B.seen b.new).memory }
    ensures idle { IsWiped (B.seen b.old).memory.bbram
        → ((B.seen b.new).memory ≡ (B.seen b.old).memory)
        × ((B.seen b.new).meter ≡ (B.seen b.old).meter) }
    ensures ran { RanOnBbram 2 result (B.seen b.old) (B.seen b.new) }
{
    let up = wipe_region::<Up<R1>, Two, B>(up, b)?;
    let up = wipe_region::<Up<R1>, Three, B>(up, b)?;
    Ok(up)
}

/// Does all work that is left in a live device, and wipes all inactive areas. There are at most 15 write calls.
#[tactic(auto, using(crate::proofs::Settled::some_root))]
fn come_up<B: Board, L: Ledger>(
    up: Up<R1>,
    b: &mut B,
    room: &mut Room,
    hashes: &mut HashCount<L>,
) -> Result<Up<R1>, Off>
    requires { IsLiveBoard (B.seen b.old) }
    ensures work { DoesWork Cleans 15 result (B.seen b.old) (B.seen b.new) hashes.old hashes.new }
    ensures quiet { IsQuiet (B.seen b.old).memory (B.seen b.new).memory (B.seen b.old).meter
        (B.seen b.new).meter }
{
    let looked = look(up, b, room);
    let up = bring_to_rest(looked, b, room, hashes)?;
    let up = wipe_regions(up, b)?;
    Ok(up)
}

/// Does the pending work of a committed order, and wipes what it replaced. The entries are signed by the trees on the
/// bench; one that is not there is built. The memory has to mean a state that a device can have, and its root record is
/// the one of `u`, which is not read again. The memory means the same state wherever power fails, and afterwards it is
/// clean. There are at most 15 write calls, and 70,946 hashes; 2,148 if the trees of the keys that sign are on the
/// bench. The tree of the device key is there afterwards if no key gives way and it signs, or if it was there before and
/// the key that signs first found its own tree or room for it.
pub fn finish_order<B: Board, L: Ledger>(
    u: Unsettled,
    b: &mut B,
    room: &mut Room,
    bench: &mut Bench,
    hashes: &mut HashCount<L>,
) -> Result<Up<R1>, Off>
    requires { IsLiveWith (B.seen b.old) u.root }
    ensures work { DoesWork Cleans 15 result (B.seen b.old) (B.seen b.new) hashes.old hashes.new }
    ensures trees { UsesTrees (B.seen b.old).memory.flash u.root result bench.old bench.new
        hashes.old hashes.new }
{
    let unwiped = settle(u, b, room, bench, hashes)?;
    let up = wipe_root(unwiped, b)?;
    let up = wipe_regions(up, b)?;
    Ok(up)
}

/// Turns power on.
fn wake<B: Board>(off: Off, b: &mut B) -> Zero
    requires { (B.seen b.old).power ≡ false }
    ensures { ReachesLevel 0 (B.seen b.old) (B.seen b.new) }
{
    off.power_on(b)
}

/// Raises the level to 1.
fn climb<B: Board>(zero: Zero, b: &mut B) -> Up<R1>
    requires power { (B.seen b.old).power ≡ true }
    requires level { (B.seen b.old).level ≡ 0 }
    ensures { ReachesLevel 1 (B.seen b.old) (B.seen b.new) }
{
    zero.advance(b)
}

/// Turns power off.
fn give_up<B: Board>(up: Up<R1>, b: &mut B) -> Off
    ensures power { (B.seen b.new).power ≡ false }
    ensures switched { IsSwitched (B.seen b.old) (B.seen b.new) }
{
    up.off(b)
}

/// Brings a device up to level 1, with nothing pending and a clean battery-backed memory, and returns the buffers in
/// which it works. Wherever power fails, the memory means what it meant. Nothing is written to a clean memory.
/// There are at most 15 write calls, and 70,946 hashes.
///
/// Errors: `Zeroised` exactly if the device is dead; `Stopped` if power failed; `NoMemory` if an allocation failed,
/// before anything was written.
#[tactic(auto, using(crate::proofs::Booted::loaded_as))]
pub fn boot<B: Board, L: Ledger>(
    alloc: Global,
    off: Off,
    b: &mut B,
    hashes: &mut HashCount<L>,
) -> Result<(Up<R1>, Room), BootEnd>
    requires off { (B.seen b.old).power ≡ false }
    requires stands { StandsForValid (B.seen b.old).memory }
    ensures { Boots result (B.seen b.old) (B.seen b.new) hashes.old hashes.new }
{
    let zero = wake(off, b);
    if is_dead(b) {
        return Err(BootEnd::Zeroised(zero.dead()));
    }
    let up = climb(zero, b);
    let mut room = match Room::new(alloc) {
        Ok(room) => room,
        Err(NoMemory) => return Err(BootEnd::NoMemory(give_up(up, b))),
    };
    match come_up(up, b, &mut room, hashes) {
        Ok(up) => Ok((up, room)),
        Err(off) => Err(BootEnd::Stopped(off)),
    }
}
