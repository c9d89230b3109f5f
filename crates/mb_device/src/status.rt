//! The status of a device.

ghost use Rattle.std.specs.Prelude.{◌≡◌, ◌≤◌, List, ℕ, Ok};
ghost use Rattle.mb_model.specs.owners.Layers.{layer_standing};
ghost use Rattle.mb_model.specs.machine.Machine.{World, status_event, running_state_in};
ghost use Rattle.mb_model.specs.memories.Valid.{Valid};
ghost use Rattle.mb_device.specs.Sound.{Fits};
ghost use Rattle.mb_device.specs.Stepping.{status_known, stop_told};

use crate::device::Device;
use mb_authority::{is_owned, is_runnable, layer_of};
use mb_device_orders::Running;
use mb_model::{Layers, Refusal, Reply, Standing};

/// How a layer stands.
fn standing(layers: &Layers, layer: u8) -> Standing
    requires least { 1 ≤ layer }
    requires most { layer ≤ 3 }
    ensures { result ≡ layer_standing layers.now layer }
{
    if !is_owned(layers, layer) {
        Standing::Unowned
    } else if !layer_of(layers, layer).reliable {
        Standing::Unreliable
    } else if !is_runnable(layers, layer) {
        Standing::Reliable
    } else {
        Standing::Runnable
    }
}

/// The answer to a status event while a layer runs.
fn running_status(running: &Running) -> Reply
    ensures { result ≡ status_known running.now.known }
{
    let figures = &running.known.figures;
    Reply::Status {
        serial: running.known.serial,
        number: figures.number,
        length: figures.length,
        one: standing(&figures.layers, 1),
        two: standing(&figures.layers, 2),
        three: standing(&figures.layers, 3),
    }
}

impl Device {
    /// Answers `status`, from what the device remembers.
    pub(crate) fn status(&self) -> Reply
        ensures told { (flash : List ℕ) (world : World) → Fits self.now flash world → Valid world.state
            → (result, world) ≡ status_event world (running_state_in world) }
        ensures goes_on { stop_told result ≡ Ok tt }
    {
        match self {
            Device::Off(_) => Refusal::PoweredOff.reply(),
            Device::Dead(_) => Refusal::Zeroised.reply(),
            Device::One(_, running) => running_status(running),
            Device::Two(_, running) => running_status(running),
            Device::Three(_, running) => running_status(running),
        }
    }
}
