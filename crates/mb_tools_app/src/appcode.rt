//! The command `appcode`.

ghost use Rattle.std.specs.Prelude.{◌≡◌, map};
ghost use Rattle.mb_console.specs.Ending.{CarriesOut};
ghost use Rattle.mb_console.specs.Words.{given_argument};
ghost use Rattle.mb_tools_app.specs.AppcodeCommand.{appcode};
ghost use Rattle.mb_tools_app.specs.Names.{appcode_files, appcode_given};

use crate::app::tell_end;
use crate::trying::try_code;
use mb_console::{Arguments, End, file, number, read_as};
use mb_host::Host;
use mb_model_commands::Role;
use mb_tools::{AnyBytes, CodeForm};
use std::alloc::Global;

/// The names of the files of `appcode`, and its number.
#[derive(Clone, Copy)]
pub struct AppcodeNames<'a> {
    pub code: &'a str,
    pub input: &'a str,
    /// The most instructions that are executed.
    pub steps: u32,
}

impl<'a> AppcodeNames<'a> {
    /// The names by the places of the words.
    pub fn of(given: &Arguments<'a>) -> Self
        ensures { appcode_files result ≡ appcode_given (map given_argument given.now.items) }
    {
        AppcodeNames {
            code: file(given, 0),
            input: file(given, 1),
            steps: number(given, 2),
        }
    }
}

/// Runs a code on an input as layer 3 of a device whose layers may all run and which has no secrets, and reports how it
/// ends. If the host wants a trace, it is told each step.
pub fn appcode<H: Host>(alloc: Global, names: &AppcodeNames<'_>, host: &mut H) -> Result<(), End>
    ensures { CarriesOut (appcode (appcode_files names.now)) (H.outside host.old) result (H.outside host.new) }
{
    let code = read_as(alloc, host, Role::Code, names.code, CodeForm)?;
    let input = read_as(alloc, host, Role::Input, names.input, AnyBytes)?;
    match try_code(alloc, &code, &[], &input, names.steps, host) {
        Ok(ending) => tell_end(alloc, &ending, host),
        Err(_) => Err(End::NoMemory),
    }
}
