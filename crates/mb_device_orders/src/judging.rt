//! How the bytes of an order are read and judged.

ghost use Rattle.std.specs.Prelude.{◌≡◌};
ghost use Rattle.mb_format.specs.Format.{Spells};
ghost use Rattle.mb_model.specs.declared.state.State.{State};
ghost use Rattle.mb_model.specs.records.OrderFormat.{order_format};
ghost use Rattle.mb_model.specs.machine.OrderChecks.{view_of};
ghost use Rattle.mb_log.specs.Additions.{IsInRange};
ghost use Rattle.mb_board.specs.Calls.{IsUp};
ghost use Rattle.mb_model_memory.specs.Holding.{IsReady};
ghost use Rattle.mb_area.specs.Roots.{IsOnlyRoot};
ghost use Rattle.mb_device_orders.specs.Calls.{Judges};
ghost use Rattle.mb_device_orders.specs.Remembering.{Knows, IsRemembered, CanAnswer};
ghost use Rattle.mb_device_orders.specs.Planning.{ReadsText, ChecksText};

use crate::remembering::{Known, Running};
use mb_area::read_root;
use mb_board::Board;
use mb_command::{OrderEnd, read_order, signed_prefix};
use mb_layout::Room;
use mb_lms::HashCount;
use mb_model::{NoMemory, Order, Refusal, Reply, Root, View};
use mb_orders::{Plan, check, make_plan};
use mb_ratchet::{R1, Three, Two, Up};
use mb_region::count_stored_keys;
use mb_signer::Bench;
use std::alloc::Global;
use std::sync::ledger::Ledger;

/// An order that passes every check.
#[derive(Drop)]
pub struct Judged {
    pub order: Order,
    /// The order's effect.
    pub plan: Plan,
    /// The current root record.
    pub root: Root,
}

/// Reads the order that the bytes spell. The error is the answer to bytes that spell none.
fn read_text(alloc: Global, text: &[u8]) -> Result<Order, Reply>
    ensures { ReadsText text.now result }
{
    match read_order(alloc, text) {
        Ok(order) => Ok(order),
        Err(OrderEnd::Bad { .. }) => Err(Refusal::BadText.reply()),
        Err(OrderEnd::NoMemory) => Err(Reply::NoMemory),
    }
}

/// Tries every check on the order that the bytes spell. The error is the answer to an order that fails one.
fn check_text(view: &View, order: &Order, text: &[u8]) -> Result<(), Reply>
    requires { Spells order_format text.now order.now }
    ensures { ChecksText view.now order.now result }
{
    match check(view, order, signed_prefix(order, text)) {
        Ok(()) => Ok(()),
        Err(refusal) => Err(Refusal::Order(refusal).reply()),
    }
}

/// The figures of the device's state that an order is judged by.
#[tactic(auto, using(crate::proofs::Judgement::region_two, crate::proofs::Judgement::region_three))]
fn view_now<B: Board>(up: &Up<R1>, b: &B, known: &Known, root: &Root, room: &mut Room) -> View
    requires up { IsUp 1 (B.seen b.now) }
    requires remembered { IsRemembered known.now (B.seen b.now).memory }
    requires root { IsOnlyRoot (B.seen b.now).memory.bbram root.now }
    ensures view { (state : State) → IsReady (B.seen b.now).memory state → Knows known.now state
        → result ≡ view_of state }
    ensures range { IsInRange result }
{
    let keys_two = count_stored_keys::<Two, B>(up, b, room);
    let keys_three = count_stored_keys::<Three, B>(up, b, room);
    View {
        serial: known.serial,
        layers: known.figures.layers,
        length: known.figures.length,
        number: known.figures.number,
        keys_made: known.figures.keys_made,
        device: root.device,
        uses: known.figures.uses,
        keys_two,
        keys_three,
    }
}

/// Reads the order that the bytes spell, and judges it. The error is the answer to an order that is not obeyed; nothing
/// is hashed then. New keys are derived from `draw`, in 34,399 hashes for each key that the order's entries name. The
/// tree of a new device key is on the bench afterwards. A bench that was bare has room for another tree.
#[tactic(auto, using(crate::proofs::Remembered::remembered_root, crate::proofs::Judgement::none_step))]
pub fn judge_text<B: Board, L: Ledger>(
    alloc: Global,
    up: &Up<R1>,
    b: &B,
    running: &mut Running,
    text: &[u8],
    draw: &[u8; 32],
    bench: &mut Bench,
    hashes: &mut HashCount<L>,
) -> Result<Judged, Reply>
    requires { CanAnswer 1 running.old.known (B.seen b.now) }
    ensures { Judges (B.seen b.now).memory running.old.known running.new.known text.now draw.now
        result bench.old bench.new hashes.old hashes.new }
{
    let order = read_text(alloc, text)?;
    let root = read_root(b, &mut running.room);
    let view = view_now(up, b, &running.known, &root, &mut running.room);
    check_text(&view, &order, text)?;
    match make_plan(alloc, &view, &order, draw, bench, hashes) {
        Ok(plan) => Ok(Judged { order, plan, root }),
        Err(NoMemory) => Err(Reply::NoMemory),
    }
}
