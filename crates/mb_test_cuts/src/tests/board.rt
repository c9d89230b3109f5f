//! A board on which power will fail.

ghost use Rattle.std.specs.Prelude.{◌≡◌, ◌≤◌, length, IfOk, None, true, false};
ghost use Rattle.mb_model.specs.chains.Script.{IsScriptEvent};
ghost use Rattle.mb_test_cuts.specs.Staged.{HoldsImage};

use mb_board::{Board, SimBoard};
use mb_model::{Event, Events, Tear};
use mb_ratchet::{Off, R1, Up};
use std::alloc::Global;
use std::test::Fail;

/// A board with this image, on which this event waits.
fn loaded_board(alloc: Global, image: &[u8], event: Event) -> Result<SimBoard, Fail>
    requires image { length image.now ≡ 1077248 }
    requires event { IsScriptEvent event }
    ensures image { IfOk result (λ board. HoldsImage image.now board.power board.memory) }
    ensures out { IfOk result (λ board. board.ledger.out ≡ None) }
{
    let mut events = Events::new(alloc);
    events.push(event)?;
    let mut board = SimBoard::new(alloc);
    board.load(alloc, image, events)?;
    Ok(board)
}

/// A board with this image, on which power will fail in write call `count` and leave all bytes of that call as `fill`.
pub fn armed_board(alloc: Global, image: &[u8], count: u32, fill: u8) -> Result<SimBoard, Fail>
    requires image { length image.now ≡ 1077248 }
    requires least { 1 ≤ count }
    requires most { count ≤ 100000 }
    ensures { IfOk result (λ board. HoldsImage image.now board.power board.memory) }
{
    let tear = Tear {
        keep: 0,
        fill: [fill, 0, 0, 0, 0, 0, 0, 0, 0, 0, 0, 0, 0, 0, 0, 0],
        fill_length: 1,
    };
    let mut board = loaded_board(alloc, image, Event::Cut { count, tear })?;
    match board.take() {
        Some(Event::Cut { .. }) => Ok(board),
        _ => Err("no power loss is armed")?,
    }
}

/// Turns power on, and raises the level to 1.
pub fn wake(board: &mut SimBoard) -> Up<R1>
    requires { board.old.power ≡ false }
    ensures power { board.new.power ≡ true }
    ensures level { board.new.level ≡ 1 }
    ensures memory { board.new.memory ≡ board.old.memory }
{
    Off::first(board).power_on(board).advance(board)
}
