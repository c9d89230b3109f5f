//! The command `asm`.

ghost use Rattle.std.specs.Prelude.{◌≡◌, map};
ghost use Rattle.mb_console.specs.Ending.{CarriesOut};
ghost use Rattle.mb_console.specs.Words.{given_argument};
ghost use Rattle.mb_tools_app.specs.AssemblyCommands.{asm};
ghost use Rattle.mb_tools_app.specs.Names.{asm_files, asm_given};

use crate::input::assembly::AssemblyForm;
use crate::output::write_counted;
use mb_console::{Arguments, End, file, read_as};
use mb_host::Host;
use mb_model_commands::Role;
use std::alloc::Global;

/// The names of the files of `asm`.
#[derive(Clone, Copy)]
pub struct AsmNames<'a> {
    pub text: &'a str,
    pub out: &'a str,
}

impl<'a> AsmNames<'a> {
    /// The names by the places of the words.
    pub fn of(given: &Arguments<'a>) -> Self
        ensures { asm_files result ≡ asm_given (map given_argument given.now.items) }
    {
        AsmNames {
            text: file(given, 0),
            out: file(given, 1),
        }
    }
}

/// Assembles a text, writes its code, and prints how many bytes that has.
pub fn asm<H: Host>(alloc: Global, names: &AsmNames<'_>, host: &mut H) -> Result<(), End>
    ensures { CarriesOut (asm (asm_files names.now)) (H.outside host.old) result (H.outside host.new) }
{
    let code = read_as(alloc, host, Role::Text, names.text, AssemblyForm)?;
    let bytes = code.as_slice();
    write_counted(alloc, names.out, bytes, "bytes", bytes.len(), host)
}
