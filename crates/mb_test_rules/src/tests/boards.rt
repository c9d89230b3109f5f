//! Power losses, tampering and an answer on the board that simulates a device.

ghost use Rattle.std.specs.Prelude.{◌≡◌, ◌∷◌, ◌≤◌, [], length, true, false, All, IfOk, None};
ghost use Rattle.mb_model.specs.memories.Memory.{IsBlank};
ghost use Rattle.mb_model.specs.outside.Pieces.{part};
ghost use Rattle.mb_model.specs.chains.Script.{IsScriptEvent};
ghost use Rattle.mb_model.specs.outside.Board.{IsLoaded, erased_bytes, image_of, ledger_at_load};
ghost use Rattle.mb_board.specs.Calls.{power_of, level_of};
ghost use Rattle.mb_board.specs.Cuts.{is_armed};

use mb_board::{Board, SimBoard, Stopped};
use mb_model::{Event, Events, FLASH_LENGTH, IMAGE_LENGTH, NoMemory, Reply, Tear};
use mb_ratchet::Register;
use std::alloc::Global;
use std::process::Abort;
use std::test::Fail;

// `count` bytes, all of them `byte`.
fn filled(alloc: Global, byte: u8, count: usize) -> Result<Vec<u8>, NoMemory>
    ensures { IfOk result (λ bytes. (length bytes.items ≡ count) × All (λ item. item ≡ byte) bytes.items) }
{
    Ok(vec![in alloc; byte; count]?)
}

// A board with this image, on which this event waits.
fn loaded_board(alloc: Global, image: &[u8], event: Event) -> Result<SimBoard, NoMemory>
    requires image { length image.now ≡ 1077248 }
    requires event { IsScriptEvent event }
    ensures { IfOk result (λ board. (board.power ≡ false) × IsLoaded board.memory
        × (image_of board.memory ≡ image.now) × (board.ledger ≡ ledger_at_load 1 0 board.memory (event ∷ []))
        × (is_armed board.fuse.cut ≡ false) × (board.fuse.stops ≡ 0)) }
{
    let mut events = Events::new(alloc);
    events.push(event)?;
    let mut board = SimBoard::new(alloc);
    board.load(alloc, image, events)?;
    Ok(board)
}

// A board with only zeros, on which power will fail in the third write call. The first `keep` bytes of that call are
// kept, and the others are 0xAA and 0xBB in turn.
fn armed_board(alloc: Global, keep: u32) -> Result<SimBoard, NoMemory>
    requires { keep ≤ 1048576 }
    ensures { IfOk result (λ board. (board.power ≡ false) × IsLoaded board.memory) }
{
    let tear = Tear {
        keep,
        fill: [0xAA, 0xBB, 0, 0, 0, 0, 0, 0, 0, 0, 0, 0, 0, 0, 0, 0],
        fill_length: 2,
    };
    let image = filled(alloc, 0, IMAGE_LENGTH)?;
    let mut board = loaded_board(alloc, &image, Event::Cut { count: 3, tear })?;
    let _event = board.take();
    Ok(board)
}

// A kind of write call.
#[derive(Clone, Copy)]
enum Kind {
    Erase,
    Program,
    Write,
}

// Whether the flash is erased where the tests program it.
#[tactic(auto, unfolding(mb_model::specs::outside::Board::erased_bytes))]
fn is_erased(board: &SimBoard) -> bool
    requires on { board.now.power ≡ true }
    requires loaded { IsLoaded board.now.memory }
    ensures { result ≡ true → part 4096 5 board.now.memory.flash ≡ erased_bytes 5 }
{
    let mut bytes = [0; 5];
    board.flash_read(4096, &mut bytes);
    bytes == [0xFF; 5]
}

// A write call of this kind; none if it would program flash that is not erased.
fn call(board: &mut SimBoard, kind: Kind) -> Result<(), Stopped>
    requires on { board.old.power ≡ true }
    requires level { board.old.level ≡ 1 }
    requires loaded { IsLoaded board.old.memory }
    ensures power { board.new.power ≡ power_of result }
    ensures level { board.new.level ≡ level_of result 1 }
    ensures loaded { IsLoaded board.new.memory }
{
    match kind {
        Kind::Erase => board.flash_erase(1),
        Kind::Program if is_erased(board) => board.flash_program(4096, &[1, 2, 3, 4, 5]),
        Kind::Program => Ok(()),
        Kind::Write => board.bbram_write(4096, &[1, 2, 3, 4, 5]),
    }
}

// The bytes at the end of the range of a call of this kind, and those after it.
fn read(board: &mut SimBoard, kind: Kind) -> [u8; 6]
    requires off { board.old.power ≡ false }
    requires loaded { IsLoaded board.old.memory }
{
    board.power_on();
    board.raise();
    let mut bytes = [0; 6];
    match kind {
        Kind::Erase => board.flash_read(8188, &mut bytes),
        Kind::Program => board.flash_read(4096, &mut bytes),
        Kind::Write => board.bbram_read(4096, &mut bytes),
    }
    bytes
}

// What the third of these calls leaves, if it is stopped and no other is.
fn third(board: &mut SimBoard, kinds: [Kind; 3]) -> Option<[u8; 6]>
    requires off { board.old.power ≡ false }
    requires loaded { IsLoaded board.old.memory }
{
    board.power_on();
    board.raise();
    if call(board, kinds[0]).is_err() || call(board, kinds[1]).is_err() {
        return None;
    }
    match call(board, kinds[2]) {
        Ok(()) => None,
        Err(Stopped) => Some(read(board, kinds[2])),
    }
}

// How many bytes of the third call are kept, the three calls, and the bytes at the end of its range and after it.
const STOPPED: &[(u16, Kind, Kind, Kind, [u8; 6])] = &[
    (
        2,
        Kind::Erase,
        Kind::Program,
        Kind::Write,
        [1, 2, 0xAA, 0xBB, 0xAA, 0],
    ),
    (
        4,
        Kind::Write,
        Kind::Erase,
        Kind::Program,
        [1, 2, 3, 4, 0xAA, 0xFF],
    ),
    (
        4095,
        Kind::Write,
        Kind::Write,
        Kind::Erase,
        [0xFF, 0xFF, 0xFF, 0xAA, 0, 0],
    ),
    // The whole range is kept.
    (
        5,
        Kind::Erase,
        Kind::Erase,
        Kind::Program,
        [1, 2, 3, 4, 5, 0xFF],
    ),
];

// The third of these calls is stopped, and leaves these bytes.
fn leaves(
    rt: &impl Abort,
    alloc: Global,
    keep: u16,
    kinds: [Kind; 3],
    bytes: [u8; 6],
) -> Result<(), Fail> {
    let mut board = armed_board(alloc, u32::from(keep))?;
    assert_eq!(rt; third(&mut board, kinds), Some(bytes));
    Ok(())
}

#[test]
fn third_call_is_stopped(rt: HostRuntime) -> Result<(), Fail> {
    for (keep, first, second, third, bytes) in STOPPED {
        let kinds = [*first, *second, *third];
        leaves(&rt, rt.alloc(), *keep, kinds, *bytes)?;
    }
    Ok(())
}

// Copies the image if the board hands out that its case was opened. Answers the last byte of the flash, and the first
// and the last byte of the battery-backed memory.
fn copy_tampered(board: &mut SimBoard, out: &mut [u8]) -> Option<[u8; 3]>
    requires out { board.old.ledger.out ≡ None }
    requires loaded { IsLoaded board.old.memory }
    requires room { length out.old ≡ 1077248 }
{
    match board.take() {
        Some(Event::Tamper) => {
            board.copy_image(out);
            Some([
                out[FLASH_LENGTH - 1],
                out[FLASH_LENGTH],
                out[IMAGE_LENGTH - 1],
            ])
        }
        _ => None,
    }
}

#[test]
fn tampering_clears_the_bbram(rt: HostRuntime) -> Result<(), Fail> {
    let alloc = rt.alloc();
    let mut image = filled(alloc, 7, IMAGE_LENGTH)?;
    let mut board = loaded_board(alloc, &image, Event::Tamper)?;
    assert!(rt; copy_tampered(&mut board, &mut image) == Some([7, 0, 0]));
    Ok(())
}

// Takes an event and answers that power is off, on a board whose device is dead. Whether that is the only answer, and
// no event is left.
fn answer_off(board: &mut SimBoard) -> bool
    requires off { board.old.power ≡ false }
    requires loaded { IsLoaded board.old.memory }
    requires unarmed { is_armed board.old.fuse.cut ≡ false }
    requires unstopped { board.old.fuse.stops ≡ 0 }
    requires dead { IsBlank (image_of board.old.memory) }
    requires waits { board.old.ledger ≡ ledger_at_load 1 0 board.old.memory (Event.Off ∷ []) }
{
    match board.take() {
        Some(event) => {
            board.answer(event, Reply::Off);
            board.answered().len() == 1 && board.events_left() == 0
        }
        None => false,
    }
}

#[test]
fn takes_an_answer(rt: HostRuntime) -> Result<(), Fail> {
    let alloc = rt.alloc();
    let image = filled(alloc, 0, IMAGE_LENGTH)?;
    let mut board = loaded_board(alloc, &image, Event::Off)?;
    assert!(rt; answer_off(&mut board));
    Ok(())
}
