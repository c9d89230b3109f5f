//! How a device answers the events of its board.

ghost use Rattle.std.specs.Prelude.{◌≡◌, ◌+◌, ◌*◌, ◌≤◌, [], All, length};
ghost use Rattle.mb_model.specs.declared.limits.TheConstants.{WRITE_LIMIT};
ghost use Rattle.mb_model.specs.outside.Board.{AreBytes, IsLoaded, use_of, having_answered};
ghost use Rattle.mb_model.specs.machine.Machine.{World};
ghost use Rattle.mb_model.specs.chains.Script.{IsScriptEvent};
ghost use Rattle.mb_board.specs.Calls.{held_in, IsBetweenEvents};
ghost use Rattle.mb_device.specs.Calls.{Answers};
ghost use Rattle.mb_device.specs.Sound.{IsSoundDevice, HasSound, CanStep};
ghost use Rattle.mb_device.specs.Served.{IsServedFrom};
ghost use Rattle.mb_device.specs.declared.step.TheConstants.{STEP_HASHES};

use crate::device::Device;
use mb_board::Board;
use mb_lms::{HashCount, SIGNING_HASHES, TREE_HASHES};
use mb_model::{Event, Reply};
use std::alloc::Global;
use std::sync::ledger::Ledger;

/// The most hashes that answering one event takes: two trees, and two signatures each by a tree of its own.
pub const STEP_HASHES: u64 = 2 * TREE_HASHES + 2 * SIGNING_HASHES;

impl Device {
    /// Answers an event that the board has handed out. Together with the handing out, the answer is one step of the
    /// machine, from the world that the board held before. Nothing is written if the event is refused, if an allocation
    /// fails, or if the answer reports no change, nor at the boot of a clean memory. Each sector that holds a signed
    /// entry of the log keeps its bytes, even if power fails, and so do sectors 50 to 63 and 192 to 255, which hold
    /// nothing. There are at most 35 write calls and 139,744 hashes. The answer is `Stopped` exactly if a write call
    /// was stopped.
    ///
    /// Once a region's key has signed, the device keeps its tree, so that the key signs again in at most 1,074 hashes,
    /// until power goes, an order is done, or another region's key signs. From the first order that is done until power
    /// goes, the device keeps the tree of its own key, a new one's too. With it an order takes at most 34,399 hashes for
    /// each key that it makes, and 2,148 to sign by.
    pub fn step<B: Board, L: Ledger>(
        self,
        alloc: Global,
        b: &mut B,
        event: &Event,
        hashes: &mut HashCount<L>,
    ) -> (Device, Reply)
        requires bytes { AreBytes (B.seen b.old).memory }
        requires can_step { CanStep self event.now (held_in (B.seen b.old)) }
        ensures { Answers WRITE_LIMIT STEP_HASHES self event.now result (B.seen b.old) (B.seen b.new)
            hashes.old hashes.new }
    {
        match event {
            Event::Boot => self.boot(alloc, b, hashes),
            Event::Off => (self.power_off(b), Reply::Off),
            Event::Tamper => (self.power_off(b), Reply::Tampered),
            Event::Cut { .. } => (self, Reply::Armed),
            Event::Status => {
                let reply = self.status();
                (self, reply)
            }
            Event::Go => self.go(b),
            Event::Order { text, draw } => self.command(alloc, b, text.as_slice(), draw, hashes),
            Event::Put { region, .. } => self.use_region(alloc, b, *region, event, hashes),
            Event::Get { region, .. } => self.use_region(alloc, b, *region, event, hashes),
            Event::Drop { region, .. } => self.use_region(alloc, b, *region, event, hashes),
            Event::Sign { region, .. } => self.use_region(alloc, b, *region, event, hashes),
            Event::Call { region, key, input } => {
                self.call_code(alloc, b, *region, *key, input, hashes)
            }
        }
    }

    /// Answers all waiting events in order, each by one step of the machine from the world that the board held at the
    /// previous answer. There are at most 139,744 hashes for each event.
    pub fn serve<B: Board, L: Ledger>(
        self,
        alloc: Global,
        b: &mut B,
        hashes: &mut HashCount<L>,
    ) -> Device
        requires between { IsBetweenEvents (B.seen b.old) }
        requires events { All IsScriptEvent (B.seen b.old).ledger.waiting }
        requires sound { HasSound self (held_in (B.seen b.old)) }
        ensures served { (world : World) → IsSoundDevice self (held_in (B.seen b.old)) world
            → IsServedFrom world (B.seen b.old).ledger (B.seen b.new).ledger
            (held_in (B.seen b.new)) }
        ensures between { IsBetweenEvents (B.seen b.new) }
        ensures used { use_of (B.seen b.new).ledger
            ≡ having_answered (B.seen b.new).ledger.answered (use_of (B.seen b.old).ledger) }
        ensures none_waits { (B.seen b.new).ledger.waiting ≡ [] }
        ensures cost { hashes.new ≤ hashes.old + STEP_HASHES * length (B.seen b.old).ledger.waiting }
        ensures loaded { IsLoaded (B.seen b.new).memory }
    {
        let mut device = self;
        'events: while let Some(event) = b.take() {
            let (next, reply) = device.step(alloc, b, &event, hashes);
            b.answer(event, reply);
            device = next;
        }
        device
    }
}
