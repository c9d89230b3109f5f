//! Whether the log and a region have room for what an order adds.

ghost use Rattle.std.specs.Prelude.{◌≡◌, ◌↔◌, IsTrue};
ghost use Rattle.mb_model.specs.machine.OrderChecks.{region_keys, LogHasRoom, RegionHasRoom};

use mb_authority::{change_by, renews};
use mb_log::needed_with;
use mb_model::{Act, ENTRY_LIMIT, KEY_LIMIT, Order, View};

/// Whether the log has room for the order's entries.
pub fn log_has_room(view: &View, order: &Order) -> bool
    ensures { IsTrue result ↔ LogHasRoom view.now order.now }
{
    let renews = renews(change_by(order), order.layer);
    view.length <= ENTRY_LIMIT as u32 - needed_with(view.uses, renews)
}

/// How many keys the layer's region has; only layers 2 and 3 have one.
fn keys_in(view: &View, layer: u8) -> u32
    ensures { result ≡ region_keys view.now layer }
{
    match layer {
        2 => view.keys_two,
        3 => view.keys_three,
        _ => 0,
    }
}

/// Whether the layer's region has room for the key that the order makes; true for an order that makes none.
pub fn region_has_room(view: &View, order: &Order) -> bool
    ensures { IsTrue result ↔ RegionHasRoom view.now order.now.layer order.now.act }
{
    match &order.act {
        Act::NewKey { .. } => keys_in(view, order.layer) < KEY_LIMIT as u32,
        Act::Establish { .. } | Act::Surrender | Act::Load(_) | Act::Emergency(_) => true,
    }
}
