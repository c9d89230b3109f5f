//! A device between two events.

ghost use Rattle.std.specs.Prelude.{◌≡◌, false};
ghost use Rattle.mb_model.specs.memories.Acknowledged.{Shows};
ghost use Rattle.mb_model.specs.machine.Machine.{World};
ghost use Rattle.mb_model.specs.memories.Valid.{Valid};
ghost use Rattle.mb_board.specs.Calls.{held_in};
ghost use Rattle.mb_device.specs.Sound.{IsSoundDevice};

use mb_board::Board;
use mb_device_orders::Running;
use mb_ratchet::{Dead, Off, R1, R2, R3, Up};

/// A device between two events: the layer that has control, and what the device remembers.
#[derive(Drop)]
pub enum Device {
    /// Power is off.
    Off(Off),
    /// Power is on, and the device is dead.
    Dead(Dead),
    /// Layer 1 runs.
    One(Up<R1>, Running),
    /// Layer 2 runs.
    Two(Up<R2>, Running),
    /// Layer 3 runs.
    Three(Up<R3>, Running),
}

impl Device {
    /// A device on a board whose power is off.
    pub fn start<B: Board>(b: &B) -> Device
        requires off { (B.seen b.now).power ≡ false }
        ensures started { (world : World) → Shows (held_in (B.seen b.now)) world
            → Valid world.state
            → IsSoundDevice result (held_in (B.seen b.now)) world }
    {
        Device::Off(Off::first(b))
    }
}
