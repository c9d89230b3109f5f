//! The check that a device can have a state.

ghost use Rattle.std.specs.Prelude.{◌≡◌, ◌↔◌, ◌+◌, ◌*◌, ◌≤◌, ◌-◌, ◌^◌, ◌<◌, length, All, IfOk, IsTrue, Some};
ghost use Rattle.mb_model.specs.records.EntryFormat.{entry_format};
ghost use Rattle.mb_model.specs.owners.Log.{figures_of, entries_of, layers_of, device_of, serial_of};
ghost use Rattle.mb_model.specs.owners.Log.{uses_of_device_key};
ghost use Rattle.mb_model.specs.signatures.Signing.{public_of};
ghost use Rattle.mb_model.specs.memories.Valid.{IsValidState};
ghost use Rattle.mb_model.specs.declared.limits.TheConstants.{KEY_LIMIT};
ghost use Rattle.mb_lms.specs.declared.hash_count.TheConstants.{TREE_HASHES};

use crate::codes::are_named;
use crate::log::figures_of;
use crate::regions::is_valid_region;
use mb_lms::HashCount;
use mb_log::serial_of;
use mb_model::{Figures, NoMemory, PublicKey, SignedEntry, State};
use std::alloc::Global;
use std::sync::ledger::Ledger;

/// Whether a live device can have the state. The layers of the state are those of its log, and `device` is the public
/// key of its device key.
pub(crate) fn is_valid<L: Ledger>(
    alloc: Global,
    state: &State,
    device: &PublicKey,
    hashes: &mut HashCount<L>,
) -> Result<bool, NoMemory>
    requires spelled { All (λ signed. entry_format.Allowed signed.entry) state.now.log }
    requires short { length state.now.log < 2 ^ 32 - 1 }
    requires layers { state.now.layers ≡ layers_of (entries_of state.now.log) }
    requires device { device.now ≡ public_of state.now.device }
    ensures valid { IfOk result (λ valid. IsTrue valid ↔ IsValidState state.now) }
    ensures cost { hashes.new ≤ hashes.old + 2 * TREE_HASHES * KEY_LIMIT }
{
    let log = state.log.as_slice();
    let Some(figures) = figures_of(alloc, log)? else {
        return Ok(false);
    };
    if !is_device(log, &figures, state, device) || !are_named(&state.layers, &state.codes) {
        return Ok(false);
    }
    if !is_valid_region(alloc, log, &figures, 2, &state.two, hashes)? {
        return Ok(false);
    }
    is_valid_region(alloc, log, &figures, 3, &state.three, hashes)
}

/// Whether the serial is that of the birth, the device key the one that the log names last, and its uses those of the
/// log. `figures` are the figures of the log.
fn is_device(log: &[SignedEntry], figures: &Figures, state: &State, device: &PublicKey) -> bool
    requires { figures.now ≡ figures_of (entries_of log.now) }
    ensures { IsTrue result ↔ ((serial_of (entries_of log.now) ≡ Some state.now.serial) × (device_of (entries_of log.now) ≡ Some device.now) × (state.now.uses ≡ uses_of_device_key (entries_of log.now))) }
{
    serial_of(log) == Some(state.serial)
        && figures.device == Some(*device)
        && state.uses == figures.uses
}
