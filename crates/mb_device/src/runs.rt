//! The typed states in which a layer runs.

ghost use Rattle.std.proofs.Common.{refl};
ghost use Rattle.std.specs.Prelude.{◌≡◌, ℕ, List, Some};
ghost use Rattle.mb_model.specs.machine.Machine.{World};
ghost use Rattle.mb_device.specs.declared.device.Device.{Device as Whole};
ghost use Rattle.mb_device.specs.declared.device.Device.TheVariants as device;
ghost use Rattle.mb_device_orders.specs.declared.remembering.Running.{Running as Remembered};
ghost use Rattle.mb_device.specs.Sound.{IsRunning, Fits};
ghost use Rattle.mb_device.specs.KeptTrees.{trees_of};

use crate::device::Device;
use mb_device_orders::Running;
use mb_ratchet::{R1, R2, R3, Up};

/// A typed state in which a layer runs. The trait says which device holds the state, and at which level it stands.
pub(crate) trait Runs {
    /// The level of the state, which is the number of the layer that runs.
    ghost level: { ℕ };

    /// The device that holds the state.
    ghost holder: { Self → Remembered → Whole };

    /// The device that holds the state.
    fn into_device(self, running: Running) -> Device
        ensures { result ≡ holder self running };

    /// The layer runs in each world that the device fits.
    ghost runs: { (state : Self) (running : Remembered) (flash : List ℕ) (world : World)
        → Fits (holder state running) flash world → IsRunning level running flash world };

    /// The device fits each world in which the layer runs.
    ghost fits: { (state : Self) (running : Remembered) (flash : List ℕ) (world : World)
        → IsRunning level running flash world → Fits (holder state running) flash world };

    /// The trees that the device keeps are those that are remembered.
    ghost trees: { (state : Self) (running : Remembered)
        → trees_of (holder state running) ≡ Some running.known.trees.value };
}

impl Runs for Up<R1> {
    ghost level = { 1 };

    ghost holder = { λ state running. device.One state running };

    ghost runs = { λ state running flash world is. is };

    ghost fits = { λ state running flash world is. is };

    ghost trees = { λ state running. refl };

    fn into_device(self, running: Running) -> Device {
        Device::One(self, running)
    }
}

impl Runs for Up<R2> {
    ghost level = { 2 };

    ghost holder = { λ state running. device.Two state running };

    ghost runs = { λ state running flash world is. is };

    ghost fits = { λ state running flash world is. is };

    ghost trees = { λ state running. refl };

    fn into_device(self, running: Running) -> Device {
        Device::Two(self, running)
    }
}

impl Runs for Up<R3> {
    ghost level = { 3 };

    ghost holder = { λ state running. device.Three state running };

    ghost runs = { λ state running flash world is. is };

    ghost fits = { λ state running flash world is. is };

    ghost trees = { λ state running. refl };

    fn into_device(self, running: Running) -> Device {
        Device::Three(self, running)
    }
}
