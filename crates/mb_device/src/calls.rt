//! How the stored code of a layer is called.

ghost use Rattle.std.specs.Prelude.{◌≡◌, ◌≤◌, IsTrue, length};
ghost use Rattle.mb_format.specs.Format.{IsBytes};
ghost use Rattle.mb_model.specs.declared.event.Event.TheVariants as event;
ghost use Rattle.mb_model.specs.declared.limits.TheConstants.{INPUT_LIMIT};
ghost use Rattle.mb_model.specs.owners.Layers.{is_upper};
ghost use Rattle.mb_board.specs.Calls.{held_in};
ghost use Rattle.mb_device.specs.Calls.{Answers};
ghost use Rattle.mb_device.specs.Sound.{HasSound};
ghost use Rattle.mb_lms.specs.declared.hash_count.TheConstants.{SIGNING_HASHES};

use crate::control::may_run;
use crate::device::Device;
use crate::runs::Runs;
use mb_board::Board;
use mb_device_orders::Running;
use mb_device_regions::{ReachesBoth, call_three, call_two};
use mb_lms::HashCount;
use mb_model::{Bytes, Refusal, Reply};
use mb_ratchet::{R1, R2, R3, Reaches, Three, Up};
use std::alloc::Global;
use std::sync::ledger::Ledger;

/// Answers a call of the code of layer 2 in the state `S`, which reaches both regions.
fn call_two_at<S: ReachesBoth + Runs, B: Board, C: Ledger>(
    alloc: Global,
    s: S,
    running: Running,
    b: &mut B,
    key: Option<u32>,
    input: &Bytes,
    hashes: &mut HashCount<C>,
) -> (Device, Reply)
    requires level { S.stage ≡ S.level }
    requires bytes { IsBytes (B.seen b.old).memory.bbram }
    requires input { length input.now ≤ INPUT_LIMIT }
    requires sound { HasSound (S.holder s running) (held_in (B.seen b.old)) }
    ensures { Answers 3 SIGNING_HASHES (S.holder s running) (event.Call 2 key input.now) result
        (B.seen b.old) (B.seen b.new) hashes.old hashes.new }
{
    let mut running = running;
    if !may_run(&running, 2) {
        return (s.into_device(running), Refusal::WrongLayer.reply());
    }
    match call_two::<S, B, C>(alloc, s, b, key, input, &mut running, hashes) {
        Ok((s, reply)) => (s.into_device(running), reply),
        Err(off) => (Device::Off(off), Reply::Stopped),
    }
}

/// Answers a call of the code of layer 3 in the state `S`, which reaches its region.
fn call_three_at<S: Reaches<Three> + Runs, B: Board, C: Ledger>(
    alloc: Global,
    s: S,
    running: Running,
    b: &mut B,
    key: Option<u32>,
    input: &Bytes,
    hashes: &mut HashCount<C>,
) -> (Device, Reply)
    requires level { S.stage ≡ S.level }
    requires bytes { IsBytes (B.seen b.old).memory.bbram }
    requires input { length input.now ≤ INPUT_LIMIT }
    requires sound { HasSound (S.holder s running) (held_in (B.seen b.old)) }
    ensures { Answers 3 SIGNING_HASHES (S.holder s running) (event.Call 3 key input.now) result
        (B.seen b.old) (B.seen b.new) hashes.old hashes.new }
{
    let mut running = running;
    if !may_run(&running, 3) {
        return (s.into_device(running), Refusal::WrongLayer.reply());
    }
    match call_three::<S, B, C>(alloc, s, b, key, input, &mut running, hashes) {
        Ok((s, reply)) => (s.into_device(running), reply),
        Err(off) => (Device::Off(off), Reply::Stopped),
    }
}

impl Device {
    /// Answers a call of the code of layer 2 or 3. Refuses it if control is past the layer, or if the layer may not run.
    pub(crate) fn call_code<B: Board, C: Ledger>(
        self,
        alloc: Global,
        b: &mut B,
        layer: u8,
        key: Option<u32>,
        input: &Bytes,
        hashes: &mut HashCount<C>,
    ) -> (Device, Reply)
        requires bytes { IsBytes (B.seen b.old).memory.bbram }
        requires layer { IsTrue (is_upper layer) }
        requires input { length input.now ≤ INPUT_LIMIT }
        requires sound { HasSound self (held_in (B.seen b.old)) }
        ensures { Answers 3 SIGNING_HASHES self (event.Call layer key input.now) result
            (B.seen b.old) (B.seen b.new) hashes.old hashes.new }
    {
        match self {
            Device::Off(off) => (Device::Off(off), Refusal::PoweredOff.reply()),
            Device::Dead(dead) => (Device::Dead(dead), Refusal::Zeroised.reply()),
            Device::One(up, running) => {
                if layer == 2 {
                    call_two_at::<Up<R1>, B, C>(alloc, up, running, b, key, input, hashes)
                } else {
                    call_three_at::<Up<R1>, B, C>(alloc, up, running, b, key, input, hashes)
                }
            }
            Device::Two(up, running) => {
                if layer == 2 {
                    call_two_at::<Up<R2>, B, C>(alloc, up, running, b, key, input, hashes)
                } else {
                    call_three_at::<Up<R2>, B, C>(alloc, up, running, b, key, input, hashes)
                }
            }
            Device::Three(up, running) => {
                if layer == 2 {
                    (Device::Three(up, running), Refusal::WrongLayer.reply())
                } else {
                    call_three_at::<Up<R3>, B, C>(alloc, up, running, b, key, input, hashes)
                }
            }
        }
    }
}
