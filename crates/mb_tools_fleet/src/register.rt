//! The command `register`.

ghost use Rattle.std.specs.Prelude.{◌≡◌, map};
ghost use Rattle.mb_console.specs.Ending.{CarriesOut};
ghost use Rattle.mb_console.specs.Words.{given_argument};
ghost use Rattle.mb_tools_fleet.specs.RegisterCommands.{register};
ghost use Rattle.mb_tools_fleet.specs.FleetWords.{register_files, register_given};

use crate::shown::devices_text;
use mb_console::{Arguments, End, Output, file, finish};
use mb_fleet::Fleet;
use mb_host::Host;
use mb_model_commands::Role;
use std::alloc::Global;

/// The name of the file of `register`.
#[derive(Clone, Copy)]
pub struct RegisterNames<'a> {
    pub out: &'a str,
}

impl<'a> RegisterNames<'a> {
    /// The name by its place among the words.
    pub fn of(given: &Arguments<'a>) -> Self
        ensures { register_files result ≡ register_given (map given_argument given.now.items) }
    {
        RegisterNames {
            out: file(given, 0),
        }
    }
}

/// Writes a register without devices, and prints what it shows.
pub fn register<H: Host>(alloc: Global, names: &RegisterNames<'_>, host: &mut H) -> Result<(), End>
    ensures { CarriesOut (register (register_files names.now)) (H.outside host.old) result (H.outside host.new) }
{
    let fleet = Fleet::new(alloc);
    let mut bytes = Vec::new(alloc);
    let Ok(()) = fleet.write(&mut bytes) else {
        return Err(End::NoMemory);
    };
    let Ok(text) = devices_text(alloc, fleet.rows()) else {
        return Err(End::NoMemory);
    };
    let outputs = [Output {
        role: Role::Out,
        name: names.out,
        bytes: &bytes,
    }];
    finish(host, &outputs, &text)
}
