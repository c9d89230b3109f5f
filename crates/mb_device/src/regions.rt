//! How layers use their regions.

ghost use Rattle.std.specs.Prelude.{◌≡◌, Some};
ghost use Rattle.mb_format.specs.Format.{IsBytes};
ghost use Rattle.mb_model.specs.chains.Script.{IsScriptEvent};
ghost use Rattle.mb_model.specs.declared.state.State.{State};
ghost use Rattle.mb_model.specs.machine.LayerEvents.{code_in, takes_calls};
ghost use Rattle.mb_board.specs.Calls.{held_in, IsPowered};
ghost use Rattle.mb_device_orders.specs.Remembering.{CanAnswer, IsRemembered, KnowsCode};
ghost use Rattle.mb_device_regions.specs.Calls.{AnswersIn};
ghost use Rattle.mb_device.specs.Calls.{Answers, SignsIn};
ghost use Rattle.mb_device.specs.Sound.{HasSound};
ghost use Rattle.mb_device.specs.Regions.{IsLayerEvent, region_named, layer_outcome};
ghost use Rattle.mb_lms.specs.declared.hash_count.TheConstants.{SIGNING_HASHES};

use crate::control::may_run;
use crate::device::Device;
use crate::runs::Runs;
use mb_area::takes_calls;
use mb_board::Board;
use mb_device_orders::Running;
use mb_device_regions::{drop_secret, get_secret, put_secret, sign_message};
use mb_lms::HashCount;
use mb_model::{Event, Refusal, Reply};
use mb_ratchet::{Off, R1, R2, R3, Reaches, Three, Two, Up};
use mb_region::Named;
use std::alloc::Global;
use std::sync::ledger::Ledger;

/// Carries out the event in the region of `L`, whose layer may run.
fn ask<S: Reaches<L>, L: Named, B: Board, C: Ledger>(
    alloc: Global,
    s: S,
    running: &mut Running,
    b: &mut B,
    event: &Event,
    hashes: &mut HashCount<C>,
) -> Result<(S, Reply), Off>
    requires can_answer { CanAnswer S.stage running.old.known (B.seen b.old) }
    requires event { IsLayerEvent event.now }
    requires script { IsScriptEvent event.now }
    ensures answers { AnswersIn L.place (layer_outcome L.place event.now) running.old running.new result
        (B.seen b.old) (B.seen b.new) }
    ensures signs { SignsIn L.place event.now (Some running.old.known.trees.value)
        (Some running.new.known.trees.value) result hashes.old hashes.new }
{
    match event {
        Event::Put { name, value, .. } => {
            put_secret::<S, L, B>(alloc, s, b, name, value, running)
        }
        Event::Get { name, .. } => {
            let reply = get_secret::<S, L, B>(alloc, &s, b, name, &mut running.room);
            Ok((s, reply))
        }
        Event::Drop { name, .. } => drop_secret::<S, L, B>(alloc, s, b, name, running),
        Event::Sign { key, message, .. } => {
            sign_message::<S, L, B, C>(alloc, s, b, *key, message, running, hashes)
        }
        _ => unreachable!(),
    }
}

/// Whether the code of `L` takes calls, so that its region is the code's alone. Reads six bytes of the flash.
fn is_sealed<L: Named, B: Board>(running: &Running, b: &B) -> bool
    requires powered { IsPowered (B.seen b.now) }
    requires remembered { IsRemembered running.now.known (B.seen b.now).memory }
    ensures { (state : State) → KnowsCode running.now.known (B.seen b.now).memory.flash state
        → result ≡ takes_calls (code_in state.codes L.place) }
{
    let layer = L::number() as u8;
    takes_calls(b, layer, running.known.slot(layer))
}

/// Answers a use of the region of `L` in the state `S`, which reaches the region.
fn use_at<S: Reaches<L> + Runs, L: Named, B: Board, C: Ledger>(
    alloc: Global,
    s: S,
    running: Running,
    b: &mut B,
    event: &Event,
    hashes: &mut HashCount<C>,
) -> (Device, Reply)
    requires level { S.stage ≡ S.level }
    requires bytes { IsBytes (B.seen b.old).memory.bbram }
    requires event { IsLayerEvent event.now }
    requires region { L.place ≡ region_named event.now }
    requires script { IsScriptEvent event.now }
    requires sound { HasSound (S.holder s running) (held_in (B.seen b.old)) }
    ensures { Answers 3 SIGNING_HASHES (S.holder s running) event.now result
        (B.seen b.old) (B.seen b.new) hashes.old hashes.new }
{
    let mut running = running;
    if !may_run(&running, L::number() as u8) {
        return (s.into_device(running), Refusal::WrongLayer.reply());
    }
    if is_sealed::<L, B>(&running, b) {
        return (s.into_device(running), Refusal::WrongCode.reply());
    }
    match ask::<S, L, B, C>(alloc, s, &mut running, b, event, hashes) {
        Ok((s, reply)) => (s.into_device(running), reply),
        Err(off) => (Device::Off(off), Reply::Stopped),
    }
}

impl Device {
    /// Answers a layer's use of its region. Refuses it if control is past the layer, if the layer may not run, or if its
    /// code takes calls.
    pub(crate) fn use_region<B: Board, C: Ledger>(
        self,
        alloc: Global,
        b: &mut B,
        region: u8,
        event: &Event,
        hashes: &mut HashCount<C>,
    ) -> (Device, Reply)
        requires bytes { IsBytes (B.seen b.old).memory.bbram }
        requires event { IsLayerEvent event.now }
        requires region { region ≡ region_named event.now }
        requires script { IsScriptEvent event.now }
        requires sound { HasSound self (held_in (B.seen b.old)) }
        ensures { Answers 3 SIGNING_HASHES self event.now result
            (B.seen b.old) (B.seen b.new) hashes.old hashes.new }
    {
        match self {
            Device::Off(off) => (Device::Off(off), Refusal::PoweredOff.reply()),
            Device::Dead(dead) => (Device::Dead(dead), Refusal::Zeroised.reply()),
            Device::One(up, running) => {
                if region == 2 {
                    use_at::<Up<R1>, Two, B, C>(alloc, up, running, b, event, hashes)
                } else {
                    use_at::<Up<R1>, Three, B, C>(alloc, up, running, b, event, hashes)
                }
            }
            Device::Two(up, running) => {
                if region == 2 {
                    use_at::<Up<R2>, Two, B, C>(alloc, up, running, b, event, hashes)
                } else {
                    use_at::<Up<R2>, Three, B, C>(alloc, up, running, b, event, hashes)
                }
            }
            Device::Three(up, running) => {
                if region == 2 {
                    (Device::Three(up, running), Refusal::WrongLayer.reply())
                } else {
                    use_at::<Up<R3>, Three, B, C>(alloc, up, running, b, event, hashes)
                }
            }
        }
    }
}
