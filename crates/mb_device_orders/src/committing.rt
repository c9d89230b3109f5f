//! The commit of an order.

ghost use Rattle.mb_board.specs.Calls.{IsUp};
ghost use Rattle.mb_device_orders.specs.Calls.{Commits};
ghost use Rattle.mb_device_orders.specs.Planning.{HasCommit};

use mb_area::{commit_root, write_public};
use mb_board::Board;
use mb_boot::finish_order;
use mb_layout::Room;
use mb_lms::HashCount;
use mb_model::Root;
use mb_ratchet::{Off, R1, Up};
use mb_signer::Bench;
use std::sync::ledger::Ledger;

/// Commits an order. Writes its code and header, which the room holds, where they do not count yet; makes its root
/// record current, which is when the order counts; and completes the order's pending work, with the trees on the bench.
/// If power fails, the memory means the state before the order or the state after it. No signed entry of the log is
/// written to. There are at most 35 write calls and 70,946 hashes. Takes no memory.
pub fn commit<B: Board, L: Ledger>(
    up: Up<R1>,
    b: &mut B,
    root: &Root,
    room: &mut Room,
    bench: &mut Bench,
    hashes: &mut HashCount<L>,
) -> Result<Up<R1>, Off>
    requires up { IsUp 1 (B.seen b.old) }
    requires commit { HasCommit (B.seen b.old).memory root.now room.old }
    ensures { Commits root.now room.old result (B.seen b.old) (B.seen b.new) bench.old bench.new
        hashes.old hashes.new }
{
    let up = write_public(up, b, 1 - root.area, room)?;
    let unsettled = commit_root(up, b, root, room)?;
    let up = finish_order(unsettled, b, room, bench, hashes)?;
    Ok(up)
}
