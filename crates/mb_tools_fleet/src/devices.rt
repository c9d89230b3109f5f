//! The command `devices`.

ghost use Rattle.std.specs.Prelude.{◌≡◌, map};
ghost use Rattle.mb_console.specs.Ending.{CarriesOut};
ghost use Rattle.mb_console.specs.Words.{given_argument};
ghost use Rattle.mb_tools_fleet.specs.RegisterCommands.{devices};
ghost use Rattle.mb_tools_fleet.specs.FleetWords.{devices_files, devices_given};

use crate::input::RegisterForm;
use crate::shown::devices_text;
use mb_console::{Arguments, End, file, finish, read_as};
use mb_host::Host;
use mb_model_commands::Role;
use std::alloc::Global;

/// The name of the file of `devices`.
#[derive(Clone, Copy)]
pub struct DevicesNames<'a> {
    pub register: &'a str,
}

impl<'a> DevicesNames<'a> {
    /// The name by its place among the words.
    pub fn of(given: &Arguments<'a>) -> Self
        ensures { devices_files result ≡ devices_given (map given_argument given.now.items) }
    {
        DevicesNames {
            register: file(given, 0),
        }
    }
}

/// Prints each device of a register, with what it has shown last.
pub fn devices<H: Host>(alloc: Global, names: &DevicesNames<'_>, host: &mut H) -> Result<(), End>
    ensures { CarriesOut (devices (devices_files names.now)) (H.outside host.old) result (H.outside host.new) }
{
    let fleet = read_as(alloc, host, Role::Register, names.register, RegisterForm)?;
    match devices_text(alloc, fleet.rows()) {
        Ok(text) => finish(host, &[], &text),
        Err(_) => Err(End::NoMemory),
    }
}
