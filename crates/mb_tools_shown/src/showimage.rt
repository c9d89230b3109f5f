//! The command `showimage`.

ghost use Rattle.std.specs.Prelude.{◌+◌, ◌≡◌, ◌≤◌, length, map};
ghost use Rattle.mb_model.specs.declared.limits.TheConstants.{ENTRY_LIMIT};
ghost use Rattle.mb_model.specs.chains.Lines.{text_of};
ghost use Rattle.mb_model_commands.specs.Commands.{print};
ghost use Rattle.mb_console.specs.Ending.{CarriesOut};
ghost use Rattle.mb_console.specs.Words.{given_argument};
ghost use Rattle.mb_image.specs.declared.image.TheConstants.{IMAGE_HASHES};
ghost use Rattle.mb_tools_shown.specs.Names.{showimage_files, showimage_given};
ghost use Rattle.mb_tools_shown.specs.ShowimageCommand.{showimage};
ghost use Rattle.mb_tools_shown.specs.StateShown.{state_shown};

use crate::state::state_text;
use mb_console::{Arguments, End, file, finish, refused};
use mb_host::Host;
use mb_image::has_pending_work;
use mb_lms::HashCount;
use mb_model::State;
use mb_tools::{Image, read_image};
use std::alloc::Global;
use std::sync::ledger::Ledger;

/// The name of the file of `showimage`.
#[derive(Clone, Copy)]
pub struct ShowimageNames<'a> {
    pub image: &'a str,
}

impl<'a> ShowimageNames<'a> {
    /// The name by its place among the arguments of `showimage`.
    pub fn of(given: &Arguments<'a>) -> ShowimageNames<'a>
        ensures { showimage_files result ≡ showimage_given (map given_argument given.now.items) }
    {
        ShowimageNames {
            image: file(given, 0),
        }
    }
}

/// Prints what the image of a live device says of it, without a seed and without the bytes of a secret.
pub fn showimage<H: Host, L: Ledger>(
    alloc: Global,
    names: &ShowimageNames<'_>,
    host: &mut H,
    hashes: &mut HashCount<L>,
) -> Result<(), End>
    ensures carried { CarriesOut (showimage (showimage_files names.now)) (H.outside host.old) result (H.outside host.new) }
    ensures cost { hashes.new ≤ hashes.old + IMAGE_HASHES }
{
    let Image { bytes, state } = read_image(alloc, host, names.image, hashes)?;
    match state {
        Some(state) => show(alloc, has_pending_work(&bytes), &state, host),
        None => Err(refused("zeroised")),
    }
}

/// Prints the lines that show a state, whose memory has pending work or has none.
fn show<H: Host>(alloc: Global, pending: bool, state: &State, host: &mut H) -> Result<(), End>
    requires { length state.now.log ≤ ENTRY_LIMIT }
    ensures { CarriesOut (print (text_of (state_shown pending state.now))) (H.outside host.old) result (H.outside host.new) }
{
    match state_text(alloc, pending, state) {
        Ok(text) => finish(host, &[], &text),
        Err(_) => Err(End::NoMemory),
    }
}
