//! The kinds and forms of orders, and the byte of each form.

ghost use Rattle.std.specs.Prelude.{◌≡◌, ◌≤◌};
ghost use Rattle.std.specs.Int.{w8};
ghost use Rattle.mb_format.specs.Combinators.{listed};
ghost use Rattle.mb_model.specs.owners.Rules.{kind_of, least_layer};
ghost use Rattle.mb_model.specs.records.OrderFormat.{order_byte, form_byte, form, form_rows, differs_in, form_of, countersignature_limit};
ghost use Rattle.mb_bytes.specs.Reads.{bad_at, Reads};

use mb_bytes::Cursor;
use mb_model::{Act, BadRecord, OrderForm, OrderKind};

/// The form of orders of this kind.
fn form(kind: OrderKind, differs: bool) -> OrderForm
    ensures { result ≡ form kind differs }
{
    OrderForm { kind, differs }
}

/// Reads the form of an order, in a byte.
pub fn form_at(cursor: &mut Cursor) -> Result<OrderForm, BadRecord>
    ensures { Reads bad_at (listed w8 form_rows form_byte) cursor.old result cursor.new }
{
    let at = cursor.offset();
    match cursor.take_u8()? {
        1 => Ok(form(OrderKind::Establish, false)),
        2 => Ok(form(OrderKind::Surrender, false)),
        3 => Ok(form(OrderKind::Load, false)),
        4 => Ok(form(OrderKind::Emergency, false)),
        5 => Ok(form(OrderKind::NewKey, false)),
        17 => Ok(form(OrderKind::Establish, true)),
        19 => Ok(form(OrderKind::Load, true)),
        20 => Ok(form(OrderKind::Emergency, true)),
        _ => Err(BadRecord { at }),
    }
}

/// Whether the act gives its layer two trusts that differ.
fn differs_in(act: &Act) -> bool
    ensures { result ≡ differs_in act.now }
{
    match act {
        Act::Establish { trust, .. } => !trust.are_equal(),
        Act::Load(payload) | Act::Emergency(payload) => !payload.trust.are_equal(),
        Act::Surrender | Act::NewKey { .. } => false,
    }
}

/// The form of an order with this act.
pub fn form_of(act: &Act) -> OrderForm
    ensures { result ≡ form_of act.now }
{
    form(kind_of(act), differs_in(act))
}

/// The kind of what an order does.
pub fn kind_of(act: &Act) -> OrderKind
    ensures { result ≡ kind_of act.now }
{
    match act {
        Act::Establish { .. } => OrderKind::Establish,
        Act::Surrender => OrderKind::Surrender,
        Act::Load { .. } => OrderKind::Load,
        Act::Emergency { .. } => OrderKind::Emergency,
        Act::NewKey { .. } => OrderKind::NewKey,
    }
}

/// The byte of a form.
pub fn form_byte(form: OrderForm) -> u8
    ensures { result ≡ form_byte form }
{
    if form.differs {
        16 + kind_number(form.kind)
    } else {
        kind_number(form.kind)
    }
}

/// The byte of a kind, in orders that do not give two trusts.
fn kind_number(kind: OrderKind) -> u8
    ensures number { result ≡ order_byte kind }
    ensures most { result ≤ 5 }
{
    match kind {
        OrderKind::Establish => 1,
        OrderKind::Surrender => 2,
        OrderKind::Load => 3,
        OrderKind::Emergency => 4,
        OrderKind::NewKey => 5,
    }
}

/// The lowest layer that an order of the kind may be for: layer 1 takes its own loads alone.
pub fn least_layer(kind: OrderKind) -> u8
    ensures least { result ≡ least_layer kind }
    ensures positive { 1 ≤ result }
{
    match kind {
        OrderKind::Load => 1,
        OrderKind::Establish | OrderKind::Surrender | OrderKind::Emergency | OrderKind::NewKey => 2,
    }
}

/// How many countersignatures an order of the kind for the layer may have: one of each layer above, for loads.
pub fn countersignature_limit(kind: OrderKind, layer: u8) -> u8
    requires { layer ≤ 3 }
    ensures { result ≡ countersignature_limit kind layer }
{
    match kind {
        OrderKind::Load | OrderKind::Emergency => 3 - layer,
        OrderKind::Establish | OrderKind::Surrender | OrderKind::NewKey => 0,
    }
}
