//! How a device answers orders.

ghost use Rattle.mb_model.specs.declared.event.Event.TheVariants as event;
ghost use Rattle.mb_model.specs.declared.limits.TheConstants.{WRITE_LIMIT};
ghost use Rattle.mb_model.specs.outside.Board.{AreBytes};
ghost use Rattle.mb_board.specs.Calls.{held_in};
ghost use Rattle.mb_device.specs.Calls.{Answers};
ghost use Rattle.mb_device.specs.Sound.{HasSound};
ghost use Rattle.mb_device.specs.declared.step.TheConstants.{STEP_HASHES};

use crate::device::Device;
use mb_board::Board;
use mb_device_orders::obey;
use mb_lms::HashCount;
use mb_model::{Refusal, Reply};
use std::alloc::Global;
use std::sync::ledger::Ledger;

impl Device {
    /// Answers an order. Only layer 1 takes one.
    pub(crate) fn command<B: Board, L: Ledger>(
        self,
        alloc: Global,
        b: &mut B,
        text: &[u8],
        draw: &[u8; 32],
        hashes: &mut HashCount<L>,
    ) -> (Device, Reply)
        requires bytes { AreBytes (B.seen b.old).memory }
        requires sound { HasSound self (held_in (B.seen b.old)) }
        ensures { Answers WRITE_LIMIT STEP_HASHES self (event.Order text.now draw.now) result (B.seen b.old) (B.seen b.new) hashes.old hashes.new }
    {
        match self {
            Device::Off(off) => (Device::Off(off), Refusal::PoweredOff.reply()),
            Device::Dead(dead) => (Device::Dead(dead), Refusal::Zeroised.reply()),
            Device::One(up, running) => {
                let mut running = running;
                match obey(alloc, up, b, &mut running, text, draw, hashes) {
                    Ok((up, reply)) => (Device::One(up, running), reply),
                    Err(off) => (Device::Off(off), Reply::Stopped),
                }
            }
            Device::Two(up, running) => (Device::Two(up, running), Refusal::WrongPhase.reply()),
            Device::Three(up, running) => (Device::Three(up, running), Refusal::WrongPhase.reply()),
        }
    }
}
