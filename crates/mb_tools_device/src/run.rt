//! The command `run`.

ghost use Rattle.std.specs.Prelude.{◌+◌, ◌*◌, ◌≡◌, ◌≤◌, length, map};
ghost use Rattle.mb_model_commands.specs.RunCommand.{run};
ghost use Rattle.mb_tools_device.specs.Names.{run_files, run_given};
ghost use Rattle.mb_console.specs.Words.{given_argument};
ghost use Rattle.mb_tools_device.specs.Boards.{IsFresh, CarriesOutOn};
ghost use Rattle.mb_tools_device.specs.Holding.{EndsHolding, IsDone};
ghost use Rattle.mb_device.specs.declared.step.TheConstants.{STEP_HASHES};
ghost use Rattle.mb_image.specs.declared.image.TheConstants.{IMAGE_HASHES};

use crate::replies::write_replies;
use crate::scripts::{ScriptForm, read_draws};
use crate::serving::{held_image, serve_events};
use mb_board::Board;
use mb_console::{Arguments, End, Output, file, finish, read_as};
use mb_host::Host;
use mb_lms::HashCount;
use mb_model_commands::Role;
use mb_tools::read_image;
use std::alloc::Global;
use std::sync::ledger::Ledger;

/// The names of the files of `run`.
#[derive(Clone, Copy)]
pub struct RunNames<'a> {
    pub image: &'a str,
    pub script: &'a str,
    pub noise: &'a str,
}

impl<'a> RunNames<'a> {
    /// The names by their places among the arguments of `run`.
    pub fn of(given: &Arguments<'a>) -> RunNames<'a>
        ensures { run_files result ≡ run_given (map given_argument given.now.items) }
    {
        RunNames {
            image: file(given, 0),
            script: file(given, 1),
            noise: file(given, 2),
        }
    }
}

/// Serves the script on the image, writes the new image over it, and prints the replies.
pub fn run<H: Host, B: Board, L: Ledger>(
    alloc: Global,
    names: &RunNames<'_>,
    host: &mut H,
    board: &mut B,
    hashes: &mut HashCount<L>,
) -> Result<(), End>
    requires fresh { IsFresh (B.seen board.old) }
    ensures carried { CarriesOutOn (run (run_files names.now)) (B.seen board.new) (H.outside host.old)
        result (H.outside host.new) }
    ensures stays { EndsHolding (IsDone result) ⊥ (B.seen board.old) (B.seen board.new) }
    ensures cost { hashes.new ≤ hashes.old + IMAGE_HASHES + STEP_HASHES * length (B.seen board.new).ledger.answered }
{
    let image = read_image(alloc, host, names.image, hashes)?;
    let undrawn = read_as(alloc, host, Role::Script, names.script, ScriptForm)?;
    let events = read_draws(alloc, host, names.noise, undrawn)?;
    match serve_events(alloc, &image, events, board, hashes) {
        Ok(_device) => {}
        Err(_) => return Err(End::NoMemory),
    }
    let Ok(replies) = write_replies(alloc, board.answered()) else {
        return Err(End::NoMemory);
    };
    let held = held_image(board, image.bytes);
    let outputs = [Output {
        role: Role::Image,
        name: names.image,
        bytes: &held,
    }];
    finish(host, &outputs, &replies)
}
