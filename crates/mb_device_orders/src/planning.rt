//! The commit of an order, planned in full before anything is written.

ghost use Rattle.std.specs.Prelude.{◌≡◌, ℕ, ◌≤◌, ◌+◌, ◌-◌, ◌++◌, List, length, IfOk};
ghost use Rattle.mb_format.specs.Format.{IsBytes};
ghost use Rattle.mb_model.specs.declared.entry.Entry.{Entry};
ghost use Rattle.mb_model.specs.declared.order.Order.{Order};
ghost use Rattle.mb_model.specs.declared.state.State.{State};
ghost use Rattle.mb_model.specs.memories.Clean.{root_of};
ghost use Rattle.mb_model.specs.machine.OrderChecks.{view_of};
ghost use Rattle.mb_model.specs.machine.OrderEffects.{state_after_order};
ghost use Rattle.mb_model.specs.owners.Log.{figures_of, entries_of};
ghost use Rattle.mb_board.specs.Calls.{IsPowered};
ghost use Rattle.mb_orders.specs.Judging.{plan_by};
ghost use Rattle.mb_model_memory.specs.Commits.{root_for};
ghost use Rattle.mb_model_memory.specs.Holding.{IsReady};
ghost use Rattle.mb_device_orders.specs.Remembering.{Knows};
ghost use Rattle.mb_device_orders.specs.Planning.{PassesAs, HasPassed, IsCommit};

use crate::header::{put_code, put_header};
use crate::judging::Judged;
use crate::remembering::Known;
use mb_area::read_header;
use mb_board::Board;
use mb_layout::Room;
use mb_log::add_entry;
use mb_model::{Entry, Figures, NoMemory, Pending, Root};
use mb_orders::Plan;
use std::alloc::Global;

/// The commit of an order, for the header and the code that the room holds.
#[derive(Drop)]
pub struct Planned {
    /// The root record that commits the order.
    pub root: Root,
    /// The figures of the log once the order is done.
    pub figures: Figures,
}

/// The root record that commits the plan. It names the header area that is not current.
fn next_root(root: &Root, plan: &Plan) -> Root
    requires area { root.now.area ≤ 1 }
    requires few { length plan.now.bodies.entries ≤ 2 }
    ensures { (state : State) (order : Order) (draw : List ℕ)
        → root.now ≡ root_of state root.now.area
        → plan.now ≡ plan_by (view_of state) order draw
        → result ≡ root_for state order draw (1 - root.now.area) }
{
    let pending = Pending {
        unsigned: plan.bodies.entries.as_slice().len() as u8,
        outgoing: plan.bodies.outgoing,
        two: plan.two,
        three: plan.three,
    };
    Root {
        area: 1 - root.area,
        serial: root.serial,
        device: plan.bodies.device,
        uses: plan.bodies.uses,
        pending: Some(pending),
    }
}

/// The figures of the log once these entries are appended.
fn figures_with(known: &Figures, entries: &[Entry]) -> Figures
    ensures { (log : List Entry) → length log + length entries.now ≤ 1000
        → known.now ≡ figures_of log
        → result ≡ figures_of (log ++ entries.now) }
{
    let mut figures = *known;
    for entry in entries {
        add_entry(&mut figures, entry);
    }
    figures
}

/// Plans the commit of the order, and leaves its header and its code in the room. Takes all memory that the order
/// needs, and writes nothing. The decoded header is freed here: what is written stands in the room.
pub fn plan_commit<B: Board>(
    alloc: Global,
    b: &B,
    known: &Known,
    judged: Judged,
    room: &mut Room,
) -> Result<Planned, NoMemory>
    requires powered { IsPowered (B.seen b.now) }
    requires bytes { IsBytes (B.seen b.now).memory.bbram }
    requires passed { HasPassed (B.seen b.now).memory judged }
    ensures commit { (state : State) (text : List ℕ) (draw : List ℕ)
        → IsReady (B.seen b.now).memory state
        → PassesAs state text draw judged
        → IfOk result (λ planned. IsCommit (B.seen b.now).memory planned.root room.new
        state judged.order draw) }
    ensures figures { (state : State) (text : List ℕ) (draw : List ℕ)
        → IsReady (B.seen b.now).memory state
        → Knows known.now state → PassesAs state text draw judged
        → IfOk result (λ planned. planned.figures
        ≡ figures_of (entries_of (state_after_order state judged.order draw).log)) }
{
    let Judged { order, plan, root } = judged;
    read_header(b, root.area, room);
    let entries = plan.bodies.entries.as_slice();
    put_header(alloc, &order, entries, room)?;
    put_code(&order, room);
    Ok(Planned {
        root: next_root(&root, &plan),
        figures: figures_with(&known.figures, entries),
    })
}
