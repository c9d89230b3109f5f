//! The command `showcode`.

ghost use Rattle.std.specs.Prelude.{◌≡◌, map};
ghost use Rattle.mb_console.specs.Ending.{CarriesOut};
ghost use Rattle.mb_console.specs.Words.{given_argument};
ghost use Rattle.mb_tools_app.specs.ShowcodeCommand.{showcode};
ghost use Rattle.mb_tools_app.specs.Names.{showcode_files, showcode_given};

use crate::input::listing::read_labelled_listing;
use mb_console::{Arguments, End, file, finish};
use mb_host::Host;
use std::alloc::Global;

/// The name of the file of `showcode`.
#[derive(Clone, Copy)]
pub struct ShowcodeNames<'a> {
    pub code: &'a str,
}

impl<'a> ShowcodeNames<'a> {
    /// The name by its place among the words.
    pub fn of(given: &Arguments<'a>) -> Self
        ensures { showcode_files result ≡ showcode_given (map given_argument given.now.items) }
    {
        ShowcodeNames {
            code: file(given, 0),
        }
    }
}

/// Lists a code, and prints its text, with labels and places.
pub fn showcode<H: Host>(alloc: Global, names: &ShowcodeNames<'_>, host: &mut H) -> Result<(), End>
    ensures { CarriesOut (showcode (showcode_files names.now)) (H.outside host.old) result (H.outside host.new) }
{
    let listing = read_labelled_listing(alloc, host, names.code)?;
    finish(host, &[], listing.as_slice())
}
