//! How control passes from one layer to the next.

ghost use Rattle.std.specs.Prelude.{◌≡◌, Ok};
ghost use Rattle.mb_model.specs.declared.event.Event.TheVariants as event;
ghost use Rattle.mb_model.specs.owners.Layers.{is_runnable};
ghost use Rattle.mb_board.specs.Calls.{held_in, IsSwitched};
ghost use Rattle.mb_device.specs.Sound.{HasSound, StepsFrom};
ghost use Rattle.mb_device.specs.Stepping.{stop_told};
ghost use Rattle.mb_device.specs.KeptTrees.{KeepsItsTrees};

use crate::device::Device;
use mb_authority::is_runnable;
use mb_board::Board;
use mb_device_orders::Running;
use mb_model::{Refusal, Reply};

/// Whether the layer may run.
pub(crate) fn may_run(running: &Running, layer: u8) -> bool
    ensures { result ≡ is_runnable running.now.known.figures.layers layer }
{
    is_runnable(&running.known.figures.layers, layer)
}

impl Device {
    /// Answers `go`: the next layer runs, if it may. Only a boot leads back.
    pub(crate) fn go<B: Board>(self, b: &mut B) -> (Device, Reply)
        requires sound { HasSound self (held_in (B.seen b.old)) }
        ensures steps { StepsFrom self (held_in (B.seen b.old)) event.Go result
            (held_in (B.seen b.new)) }
        ensures goes_on { stop_told result.1 ≡ Ok tt }
        ensures trees { KeepsItsTrees self event.Go result.1 result.0 }
        ensures switched { IsSwitched (B.seen b.old) (B.seen b.new) }
    {
        match self {
            Device::Off(off) => (Device::Off(off), Refusal::PoweredOff.reply()),
            Device::Dead(dead) => (Device::Dead(dead), Refusal::Zeroised.reply()),
            Device::One(up, running) => {
                if may_run(&running, 2) {
                    (Device::Two(up.advance(b), running), Reply::At(2))
                } else {
                    (Device::One(up, running), Refusal::WrongLayer.reply())
                }
            }
            Device::Two(up, running) => {
                if may_run(&running, 3) {
                    (Device::Three(up.advance(b), running), Reply::At(3))
                } else {
                    (Device::Two(up, running), Refusal::WrongLayer.reply())
                }
            }
            Device::Three(up, running) => {
                (Device::Three(up, running), Refusal::WrongPhase.reply())
            }
        }
    }
}
