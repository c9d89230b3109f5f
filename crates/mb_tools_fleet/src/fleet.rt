//! The command `fleet`.

ghost use Rattle.std.specs.Prelude.{◌≡◌, map};
ghost use Rattle.mb_console.specs.Ending.{CarriesOut};
ghost use Rattle.mb_console.specs.Words.{given_argument};
ghost use Rattle.mb_tools_fleet.specs.FleetCommand.{fleet};
ghost use Rattle.mb_tools_fleet.specs.FleetWords.{fleet_files, fleet_given};

use crate::input::{ItemsForm, RegisterForm};
use mb_console::{Arguments, End, Output, file, finish, read_as};
use mb_fleet::serve_items;
use mb_host::Host;
use mb_model_commands::Role;
use mb_tools::PublicKeyForm;
use std::alloc::Global;

/// The names of the files of `fleet`.
#[derive(Clone, Copy)]
pub struct FleetNames<'a> {
    pub root: &'a str,
    pub register: &'a str,
    pub items: &'a str,
}

impl<'a> FleetNames<'a> {
    /// The names by their places among the words.
    pub fn of(given: &Arguments<'a>) -> Self
        ensures { fleet_files result ≡ fleet_given (map given_argument given.now.items) }
    {
        FleetNames {
            root: file(given, 0),
            register: file(given, 1),
            items: file(given, 2),
        }
    }
}

/// Shows a register chains and asks it questions, one item after another: writes the register, and prints the answers.
/// Nothing is written before all answers are there.
pub fn fleet<H: Host>(alloc: Global, names: &FleetNames<'_>, host: &mut H) -> Result<(), End>
    ensures { CarriesOut (fleet (fleet_files names.now)) (H.outside host.old) result (H.outside host.new) }
{
    let root = read_as(alloc, host, Role::Root, names.root, PublicKeyForm)?;
    let mut fleet = read_as(alloc, host, Role::Register, names.register, RegisterForm)?;
    let items = read_as(alloc, host, Role::Items, names.items, ItemsForm)?;
    let text = match serve_items(alloc, &mut fleet, &root, items.as_slice()) {
        Ok(text) => text,
        Err(_) => return Err(End::NoMemory),
    };
    let mut bytes = Vec::new(alloc);
    let Ok(()) = fleet.write(&mut bytes) else {
        return Err(End::NoMemory);
    };
    let outputs = [Output {
        role: Role::Register,
        name: names.register,
        bytes: &bytes,
    }];
    finish(host, &outputs, text.as_slice())
}
