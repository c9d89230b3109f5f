//! The events of a script, served on an image, and the image that is left.

ghost use Rattle.std.specs.Prelude.{◌+◌, ◌*◌, ◌≡◌, ◌≤◌, false, length, All, None, OnOk, OnErr};
ghost use Rattle.mb_model.specs.declared.limits.TheConstants.{EVENT_LIMIT, IMAGE_LENGTH};
ghost use Rattle.mb_model.specs.outside.Board.{IsLoaded, having_answered, image_of, loaded_once_more, use_of};
ghost use Rattle.mb_model.specs.memories.Meaning.{IsWellFormed};
ghost use Rattle.mb_model.specs.chains.Script.{IsScriptEvent};
ghost use Rattle.mb_model_commands.specs.RunCommand.{IsServed};
ghost use Rattle.mb_device.specs.declared.step.TheConstants.{STEP_HASHES};
ghost use Rattle.mb_tools_device.specs.Holding.{HoldsAnswered};

use mb_board::Board;
use mb_device::Device;
use mb_lms::HashCount;
use mb_model::{Events, NoMemory};
use mb_tools::Image;
use std::alloc::Global;
use std::sync::ledger::Ledger;

/// Loads an image that was read on the board, whose power is off, and serves the events. If there is no memory for the
/// load, the board is left as it was.
pub fn serve_events<B: Board, L: Ledger>(
    alloc: Global,
    image: &Image,
    events: Events,
    board: &mut B,
    hashes: &mut HashCount<L>,
) -> Result<Device, NoMemory>
    requires image { IsWellFormed image.now.bytes.items image.now.state }
    requires count { length events ≤ EVENT_LIMIT }
    requires events { All IsScriptEvent events }
    requires off { (B.seen board.old).power ≡ false }
    requires none_out { (B.seen board.old).ledger.out ≡ None }
    ensures served { OnOk result (IsServed (record { bytes = image.now.bytes.items; state = image.now.state }) events
        (B.seen board.new).ledger.answered (B.seen board.new).ledger.standing) }
    ensures used { OnOk result (use_of (B.seen board.new).ledger ≡ having_answered (B.seen board.new).ledger.answered
        (loaded_once_more image.now.bytes.items (use_of (B.seen board.old).ledger))) }
    ensures holds { OnOk result (HoldsAnswered (Unit {0}) (B.seen board.new)) }
    ensures loaded { OnOk result (IsLoaded (B.seen board.new).memory) }
    ensures failed { OnErr result (B.seen board.new ≡ B.seen board.old) }
    ensures cost { hashes.new ≤ hashes.old + STEP_HASHES * length (B.seen board.new).ledger.answered }
{
    match board.load(alloc, &image.bytes, events) {
        Ok(()) => {}
        Err(_) => return Err(NoMemory),
    }
    let device = Device::start(board).serve(alloc, board, hashes);
    Ok(device)
}

/// The image that the board holds. It is stored in the bytes of another image, which are as many.
pub fn held_image<B: Board>(board: &B, mut room: Vec<u8>) -> Vec<u8>
    requires loaded { IsLoaded (B.seen board.now).memory }
    requires room { length room.items ≡ IMAGE_LENGTH }
    ensures { result.items ≡ image_of (B.seen board.now).memory }
{
    board.copy_image(&mut room);
    room
}
