//! How a device boots, and how its power goes.

ghost use Rattle.std.specs.Prelude.{◌≡◌, ◌*◌, false};
ghost use Rattle.mb_model.specs.declared.event.Event.TheVariants as event;
ghost use Rattle.mb_board.specs.Calls.{held_in, IsSwitched};
ghost use Rattle.mb_device.specs.Calls.{Answers};
ghost use Rattle.mb_device.specs.Sound.{HasSound};
ghost use Rattle.mb_device.specs.Stepping.{IsOff};
ghost use Rattle.mb_lms.specs.declared.hash_count.TheConstants.{SIGNING_HASHES};

use crate::device::Device;
use mb_board::Board;
use mb_boot::{BootEnd, boot};
use mb_device_orders::{Running, Trees, remember};
use mb_lms::HashCount;
use mb_model::{Refusal, Reply};
use mb_ratchet::Off;
use std::alloc::Global;
use std::sync::ledger::Ledger;

/// Boots a device whose power is off.
fn come_up<B: Board, L: Ledger>(
    alloc: Global,
    off: Off,
    b: &mut B,
    hashes: &mut HashCount<L>,
) -> (Device, Reply)
    requires sound { HasSound (Device.Off off) (held_in (B.seen b.old)) }
    ensures { Answers 15 (2 * SIGNING_HASHES) (Device.Off off) event.Boot result
        (B.seen b.old) (B.seen b.new) hashes.old hashes.new }
{
    let trees = match Box::new(alloc, Trees::none()) {
        Ok(trees) => trees,
        Err(_) => return (Device::Off(off), Reply::NoMemory),
    };
    match boot(alloc, off, b, hashes) {
        Ok((up, room)) => {
            let mut room = room;
            let known = remember(&up, b, trees, &mut room);
            (Device::One(up, Running { known, room }), Reply::Booted)
        }
        Err(BootEnd::Stopped(off)) => (Device::Off(off), Reply::Stopped),
        Err(BootEnd::Zeroised(dead)) => (Device::Dead(dead), Refusal::Zeroised.reply()),
        Err(BootEnd::NoMemory(off)) => (Device::Off(off), Reply::NoMemory),
    }
}

impl Device {
    /// Answers `boot`: power comes on, and the pending work of an order is completed. A dead device stays on and dead.
    /// The memory for trees is taken before a boot does anything, so that any boot, also that of a dead device, may be
    /// answered `no memory`; no later event takes memory for them.
    pub(crate) fn boot<B: Board, L: Ledger>(
        self,
        alloc: Global,
        b: &mut B,
        hashes: &mut HashCount<L>,
    ) -> (Device, Reply)
        requires sound { HasSound self (held_in (B.seen b.old)) }
        ensures { Answers 15 (2 * SIGNING_HASHES) self event.Boot result
            (B.seen b.old) (B.seen b.new) hashes.old hashes.new }
    {
        match self {
            Device::Off(off) => come_up(alloc, off, b, hashes),
            Device::Dead(dead) => (Device::Dead(dead), Refusal::Zeroised.reply()),
            Device::One(up, running) => (Device::One(up, running), Refusal::WrongPhase.reply()),
            Device::Two(up, running) => (Device::Two(up, running), Refusal::WrongPhase.reply()),
            Device::Three(up, running) => (Device::Three(up, running), Refusal::WrongPhase.reply()),
        }
    }

    /// The device once power has gone.
    pub(crate) fn power_off<B: Board>(self, b: &mut B) -> Device
        requires off { (B.seen b.old).power ≡ false }
        ensures device { IsOff result }
        ensures power { (B.seen b.new).power ≡ false }
        ensures switched { IsSwitched (B.seen b.old) (B.seen b.new) }
    {
        match self {
            Device::Off(off) => Device::Off(off),
            Device::Dead(dead) => Device::Off(dead.off(b)),
            Device::One(up, _) => Device::Off(up.off(b)),
            Device::Two(up, _) => Device::Off(up.off(b)),
            Device::Three(up, _) => Device::Off(up.off(b)),
        }
    }

    /// Turns the board's power off between two events; it may be off already. The memory, the events and answers, and
    /// the meter stay as they are.
    pub fn shut<B: Board>(self, b: &mut B)
        ensures power { (B.seen b.new).power ≡ false }
        ensures switched { IsSwitched (B.seen b.old) (B.seen b.new) }
    {
        b.power_off();
    }
}
