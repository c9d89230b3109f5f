//! The command `disasm`.

ghost use Rattle.std.specs.Prelude.{◌≡◌, ◌==◌, map, count_by};
ghost use Rattle.mb_console.specs.Ending.{CarriesOut};
ghost use Rattle.mb_console.specs.Words.{given_argument};
ghost use Rattle.mb_tools_app.specs.AssemblyCommands.{disasm};
ghost use Rattle.mb_tools_app.specs.Names.{disasm_files, disasm_given};

use crate::input::listing::read_listing;
use crate::output::write_counted;
use mb_console::{Arguments, End, file};
use mb_host::Host;
use std::alloc::Global;

/// The names of the files of `disasm`.
#[derive(Clone, Copy)]
pub struct DisasmNames<'a> {
    pub code: &'a str,
    pub out: &'a str,
}

impl<'a> DisasmNames<'a> {
    /// The names by the places of the words.
    pub fn of(given: &Arguments<'a>) -> Self
        ensures { disasm_files result ≡ disasm_given (map given_argument given.now.items) }
    {
        DisasmNames {
            code: file(given, 0),
            out: file(given, 1),
        }
    }
}

/// Lists a code, writes its text, and prints how many lines that has.
pub fn disasm<H: Host>(alloc: Global, names: &DisasmNames<'_>, host: &mut H) -> Result<(), End>
    ensures { CarriesOut (disasm (disasm_files names.now)) (H.outside host.old) result (H.outside host.new) }
{
    let listing = read_listing(alloc, host, names.code)?;
    let text = listing.as_slice();
    write_counted(alloc, names.out, text, "lines", count_lines(text), host)
}

/// The number of LFs of a text, which is that of its lines if each ends with one.
fn count_lines(text: &[u8]) -> usize
    ensures { result ≡ count_by (λ byte. byte == 10) text.now }
{
    text.iter().filter(|byte| **byte == b'\n').count()
}
