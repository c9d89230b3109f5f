//! The command `cutat`.

ghost use Rattle.std.specs.Prelude.{◌+◌, ◌*◌, ◌≡◌, ◌≤◌, ℕ, List, length, false, map};
ghost use Rattle.mb_model.specs.declared.limits.TheConstants.{CUT_LIMIT, EVENT_LIMIT, IMAGE_LENGTH};
ghost use Rattle.mb_model.specs.outside.Board.{Held, Used, IsLoaded, image_of, use_of};
ghost use Rattle.mb_script.specs.Reading.{IsFill};
ghost use Rattle.mb_console.specs.Words.{given_argument};
ghost use Rattle.mb_console.specs.Ending.{CarriesOutRest};
ghost use Rattle.mb_tools_device.specs.CutCommand.{cutat, tell_cut, tell_state};
ghost use Rattle.mb_tools_device.specs.Boards.{IsFresh, CarriesOutOn};
ghost use Rattle.mb_tools_device.specs.Holding.{EndsHolding, IsDone, IsOutOfMemory};
ghost use Rattle.mb_tools_device.specs.Names.{cut_files, cut_given};
ghost use Rattle.mb_tools_device.specs.TwoRuns.{IsImageLeft};
ghost use Rattle.mb_device.specs.declared.step.TheConstants.{STEP_HASHES};
ghost use Rattle.mb_image.specs.declared.image.TheConstants.{IMAGE_HASHES};

use crate::scripts::{UncutScriptForm, read_draws};
use crate::serving::{held_image, serve_events};
use crate::summary::wants_memory;
use crate::twice::{TwoRuns, last_is_stopped, two_runs};
use mb_board::Board;
use mb_console::{Arguments, End, file, hex, number, print_text, read_as};
use mb_host::Host;
use mb_image::{same_state, stand_for};
use mb_lms::HashCount;
use mb_model_commands::Role;
use mb_tools::read_image;
use std::alloc::Global;
use std::sync::ledger::Ledger;

/// The names of the files of `cutat`, the write that is cut, and the bytes that fill its range.
#[derive(Clone, Copy)]
pub struct CutNames<'a> {
    pub image: &'a str,
    pub script: &'a str,
    pub noise: &'a str,
    /// The number of the write, 1 to 100,000.
    pub count: u32,
    /// What fills the range of the write, 1 to 16 bytes in hexadecimal.
    pub fill: &'a str,
}

impl<'a> CutNames<'a> {
    /// The names by their places among the arguments of `cutat`.
    pub fn of(given: &Arguments<'a>) -> CutNames<'a>
        ensures { cut_files result ≡ cut_given (map given_argument given.now.items) }
    {
        CutNames {
            image: file(given, 0),
            script: file(given, 1),
            noise: file(given, 2),
            count: number(given, 3),
            fill: hex(given, 4),
        }
    }
}

/// Serves a script without its last event, and then all of it with a power loss in that event. Prints whether power
/// failed there, and which state is left. The hashes are bounded by the most events that a script can have, twice: what
/// the first run answered is gone from the board, and the script is read inside the call.
pub fn cutat<H: Host, B: Board, L: Ledger>(
    alloc: Global,
    names: &CutNames<'_>,
    host: &mut H,
    board: &mut B,
    hashes: &mut HashCount<L>,
) -> Result<(), End>
    requires count { (1 ≤ names.now.count) × (names.now.count ≤ CUT_LIMIT) }
    requires fill { (bytes : List ℕ) × IsFill names.now.fill.now bytes }
    requires fresh { IsFresh (B.seen board.old) }
    ensures carried { CarriesOutOn (cutat (cut_files names.now)) (B.seen board.new) (H.outside host.old)
        result (H.outside host.new) }
    ensures stays { EndsHolding (IsDone result) (IsOutOfMemory result) (B.seen board.old) (B.seen board.new) }
    ensures cost { hashes.new ≤ hashes.old + 3 * IMAGE_HASHES + 2 * STEP_HASHES * EVENT_LIMIT }
{
    let image = read_image(alloc, host, names.image, hashes)?;
    let undrawn = read_as(alloc, host, Role::Script, names.script, UncutScriptForm)?;
    let events = read_draws(alloc, host, names.noise, undrawn)?;
    let Ok(runs) = two_runs(alloc, events, names.count, names.fill) else {
        return Err(End::NoMemory);
    };
    let Ok(room) = Vec::from_slice(alloc, &image.bytes) else {
        return Err(End::NoMemory);
    };
    let TwoRuns { first, second } = runs;
    let device = match serve_events(alloc, &image, first, board, hashes) {
        Ok(device) => device,
        Err(_) => return Err(End::NoMemory),
    };
    if wants_memory(board.answered()) {
        return Err(End::NoMemory);
    }
    let before = held_image(board, room);
    device.shut(board);
    match serve_events(alloc, &image, second, board, hashes) {
        Ok(_device) => {}
        Err(_) => return Err(End::NoMemory),
    }
    tell_cut(alloc, image.bytes, &before, host, board, hashes)
}

/// Prints whether power failed in the last event, and which state is left. The bytes of `room` are as many as those of
/// the image that the board holds.
fn tell_cut<H: Host, B: Board, L: Ledger>(
    alloc: Global,
    room: Vec<u8>,
    before: &[u8],
    host: &mut H,
    board: &B,
    hashes: &mut HashCount<L>,
) -> Result<(), End>
    requires loaded { IsLoaded (B.seen board.now).memory }
    requires answered { (B.seen board.now).ledger.standing.memory ≡ (B.seen board.now).memory }
    requires room { length room.items ≡ IMAGE_LENGTH }
    ensures carried { (held : Held) → IsImageLeft held before.now
        → ((last : List ℕ) → last ≡ image_of (B.seen board.now).memory → IsImageLeft (B.seen board.now).ledger.standing last)
        → CarriesOutRest (tell_cut held (B.seen board.now).ledger.answered (B.seen board.now).ledger.standing)
        (record { used = use_of (B.seen board.now).ledger; wrote = false }) (use_of (B.seen board.now).ledger)
        (B.seen board.now).ledger.standing (H.outside host.old) result (H.outside host.new) }
    ensures cost { hashes.new ≤ hashes.old + 2 * IMAGE_HASHES }
{
    let answered = board.answered();
    if wants_memory(answered) {
        return Err(End::NoMemory);
    }
    if !last_is_stopped(answered) {
        return print_text(host, b"unstopped\n");
    }
    let after = held_image(board, room);
    tell_state(alloc, before, &after, host, hashes)
}

/// Prints whether two images mean one state. Each is a board's, so it means a state, and only want of memory keeps it
/// from being read.
fn tell_state<H: Host, L: Ledger>(
    alloc: Global,
    before: &[u8],
    after: &[u8],
    host: &mut H,
    hashes: &mut HashCount<L>,
) -> Result<(), End>
    ensures carried { (held final : Held) (used : Used) → IsImageLeft held before.now → IsImageLeft final after.now
        → CarriesOutRest (tell_state held final) (record { used = used; wrote = false }) used final
        (H.outside host.old) result (H.outside host.new) }
    ensures cost { hashes.new ≤ hashes.old + 2 * IMAGE_HASHES }
{
    let Ok(before) = stand_for(alloc, before, hashes) else {
        return Err(End::NoMemory);
    };
    let Ok(after) = stand_for(alloc, after, hashes) else {
        return Err(End::NoMemory);
    };
    if same_state(&before, &after) {
        print_text(host, b"old\n")
    } else {
        print_text(host, b"new\n")
    }
}
