//! The inputs of commands, read one after another, each checked before the next.

ghost use Rattle.std.specs.Prelude.{◌≡◌, ◌≤◌, ℕ, List, length, IfOk, IfErr, OnOk};
ghost use Rattle.mb_format.specs.Format.{IsBytes};
ghost use Rattle.mb_model.specs.declared.limits.TheConstants.{FILE_LIMIT};
ghost use Rattle.mb_model_commands.specs.declared.role.Place.{Place as AtFault};
ghost use Rattle.mb_model_commands.specs.Outside.{read_once};
ghost use Rattle.mb_model_commands.specs.Commands.{HasRead};
ghost use Rattle.mb_console.specs.Ending.{HasInput, StopsAt, ReadStops};
ghost use Rattle.mb_console.specs.Forms.{input_of, IsUnread};

use crate::end::End;
use mb_host::{Host, HostEnd};
use mb_model::NoMemory;
use mb_model_commands::{Place, Role};
use std::alloc::Global;

/// Why bytes were not read in a form.
#[derive(Clone, Copy, Debug, PartialEq, Eq)]
pub enum Unread {
    /// The bytes are at fault at this place.
    At(Place),
    /// An allocation failed.
    NoMemory,
}

impl From<NoMemory> for Unread {
    ghost use Rattle.mb_console.specs.declared.input.Unread.TheVariants.{NoMemory};

    ghost from_gives = { λ _ e. e ≡ NoMemory };

    fn from(_error: NoMemory) -> Unread {
        Unread::NoMemory
    }
}

/// A form of inputs: what the bytes of a file mean, and at which place they are at fault.
pub trait Form: Drop {
    /// What is read from bytes in this form.
    type Value: Drop;

    ghost Meaning: { Type 0 };

    ghost meaning: { Self.Value → Meaning };

    ghost Is: { Self → List ℕ → Meaning → Type 0 };

    ghost FaultyAt: { Self → List ℕ → AtFault → Type 0 };

    ghost Keeps: { Self.Value → Type 0 };

    /// What the bytes mean, at most 4,194,304 of them. Else the place at which they are at fault, or `NoMemory`.
    fn read(self, alloc: Global, bytes: Vec<u8>) -> Result<Self::Value, Unread>
        requires fits { length bytes.items ≤ FILE_LIMIT }
        requires bytes { IsBytes bytes.items }
        ensures read { IfOk result (λ value. Is self bytes.items (meaning value)) }
        ensures keeps { IfOk result Keeps }
        ensures err { IfErr result (IsUnread (FaultyAt self bytes.items)) };
}

/// Reads the input with this role from the file with this name, in a form.
pub fn read_as<F: Form, H: Host>(
    alloc: Global,
    host: &mut H,
    role: Role,
    name: &str,
    form: F,
) -> Result<F::Value, End>
    ensures read { IfOk result (λ value. HasInput (input_of role name.now (F.Is form) (F.FaultyAt form)) (H.outside host.old) (H.outside host.new) (F.meaning value)) }
    ensures keeps { IfOk result F.Keeps }
    ensures err { IfErr result (StopsAt (input_of role name.now (F.Is form) (F.FaultyAt form)) (H.outside host.old) (H.outside host.new)) }
{
    let bytes = read_input(alloc, host, role, name)?;
    match form.read(alloc, bytes) {
        Ok(value) => Ok(value),
        Err(Unread::At(place)) => Err(End::Faulty(role, place)),
        Err(Unread::NoMemory) => Err(End::NoMemory),
    }
}

/// Reads the bytes of an input.
pub fn read_input<H: Host>(
    alloc: Global,
    host: &mut H,
    role: Role,
    name: &str,
) -> Result<Vec<u8>, End>
    ensures read { IfOk result (λ bytes. HasRead (H.outside host.old) name.now bytes.items) }
    ensures counted { OnOk result (H.outside host.new ≡ read_once (H.outside host.old)) }
    ensures err { IfErr result (ReadStops role name.now (H.outside host.old) (H.outside host.new)) }
{
    match host.read(alloc, name) {
        Ok(bytes) => {
            are_bytes(bytes.as_slice());
            Ok(bytes)
        }
        Err(HostEnd::TooLong) => Err(End::TooLong(role)),
        Err(HostEnd::Failed) => Err(End::NotRead(role)),
        Err(HostEnd::NoMemory) => Err(End::NoMemory),
    }
}

/// Shows that each byte of an input is less than 256.
fn are_bytes(bytes: &[u8])
    ensures { IsBytes bytes.now }
{}
