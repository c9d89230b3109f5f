//! How an order is answered.

ghost use Rattle.mb_device_orders.specs.Calls.{AnswersOrder};
ghost use Rattle.mb_device_orders.specs.Remembering.{CanAnswer};

use crate::committing::commit;
use crate::judging::judge_text;
use crate::planning::plan_commit;
use crate::remembering::{Running, Trees, note_header};
use mb_board::Board;
use mb_lms::HashCount;
use mb_model::{NoMemory, Reply};
use mb_ratchet::{Off, R1, Up};
use mb_signer::Bench;
use std::alloc::Global;
use std::sync::ledger::Ledger;

/// Answers the bytes of an order: obeys it, or refuses it (bytes that are no order included). New keys are derived from
/// `draw`. A device that has answered is ready and remembers its state. If power fails, the memory means the state
/// before the order or the state after it. No signed entry of the log is written to. Nothing is written for an order
/// that is refused, nor if an allocation fails, which is an answer of its own. There are at most 35 write calls and
/// 139,744 hashes.
///
/// The order's entries are signed with the tree of the device key, if it is kept: then there are at most 34,399 hashes
/// for each key that the order makes, and 2,148 to sign by. Once an order is done, the tree of the device key that is
/// then current is kept, and that of a region's key is dropped. If the order is refused or an allocation fails, the
/// trees stay as they are. How many trees an order builds is said by the entries that it appends (`MakesKeys`). A rule
/// for each kind of order would say what the model says once more; one bound for all orders lets an order that makes no
/// key build a tree. The tree of a region's key is dropped, so that nothing has to be known of the numbers of keys, or
/// of what an order makes of regions. That costs one tree at the next statement; orders are given while layer 1 runs,
/// and statements mostly after.
#[tactic(auto, using(crate::proofs::Answered::has_passed))]
pub fn obey<B: Board, L: Ledger>(
    alloc: Global,
    up: Up<R1>,
    b: &mut B,
    running: &mut Running,
    text: &[u8],
    draw: &[u8; 32],
    hashes: &mut HashCount<L>,
) -> Result<(Up<R1>, Reply), Off>
    requires { CanAnswer 1 running.old.known (B.seen b.old) }
    ensures { AnswersOrder running.old.known running.new.known text.now draw.now result (B.seen b.old)
        (B.seen b.new) hashes.old hashes.new }
{
    let mut bench = Bench::new();
    let judged = match judge_text(alloc, &up, b, running, text, draw, &mut bench, hashes) {
        Ok(judged) => judged,
        Err(reply) => return Ok((up, reply)),
    };
    let device = judged.root.device;
    let planned = match plan_commit(alloc, b, &running.known, judged, &mut running.room) {
        Ok(planned) => planned,
        Err(NoMemory) => return Ok((up, Reply::NoMemory)),
    };
    running.known.lend(&device, &mut bench);
    let up = commit(up, b, &planned.root, &mut running.room, &mut bench, hashes)?;
    let noted = note_header(&up, b, &mut running.room);
    running.known.figures = planned.figures;
    running.known.two = noted.two;
    running.known.three = noted.three;
    *running.known.trees = Trees {
        device: bench.take(&planned.root.device),
        region: None,
    };
    let reply = Reply::Done {
        number: running.known.figures.number,
        length: running.known.figures.length,
    };
    Ok((up, reply))
}
