//! The part of an order that its owner signs.

ghost use Rattle.std.specs.Prelude.{◌≡◌, ◌≤◌, length, take, IfOk};
ghost use Rattle.mb_model.specs.declared.limits.TheConstants.{TARGET_LIMIT};
ghost use Rattle.mb_model.specs.records.OrderFormat.{body_by, body_format, body_of, order_body, order_format};
ghost use Rattle.mb_bytes.specs.Reads.{ReadsAs};
ghost use Rattle.mb_bytes.specs.Puts.{Puts};
ghost use Rattle.mb_bytes.specs.Ends.{end_at};
ghost use Rattle.mb_command.specs.Parts.{body_in, HasLayer};
ghost use Rattle.mb_command.specs.Writing.{HasShortCode};

use crate::act::{act_at, act_length, put_act};
use crate::end::OrderEnd;
use crate::kind::{form_at, form_byte, form_of, least_layer};
use crate::targets::{put_targets, targets_at, targets_length};
use mb_bytes::{Cursor, put_u8, u8_between};
use mb_model::{Act, NoMemory, Order, OrderForm, Targets};
use std::alloc::Global;

/// The part of an order that its owner signs.
#[derive(Drop)]
pub struct SignedPart {
    /// The layer that the order is for, 1 to 3.
    pub layer: u8,
    pub targets: Targets,
    pub act: Act,
}

fn after_form_at(
    alloc: Global,
    cursor: &mut Cursor,
    form: OrderForm,
) -> Result<SignedPart, OrderEnd>
    ensures reads { ReadsAs body_in end_at (body_by form) cursor.old result cursor.new }
    ensures layer { IfOk result HasLayer }
{
    let layer = u8_between(cursor, least_layer(form.kind), 3)?;
    let targets = targets_at(alloc, cursor)?;
    let act = act_at(alloc, cursor, form)?;
    Ok(SignedPart {
        layer,
        targets,
        act,
    })
}

/// Reads the signed part of an order.
#[tactic(auto, unfolding(mb_model::specs::records::OrderFormat::body_format))]
pub fn body_at(alloc: Global, cursor: &mut Cursor) -> Result<SignedPart, OrderEnd>
    ensures reads { ReadsAs body_in end_at body_format cursor.old result cursor.new }
    ensures layer { IfOk result HasLayer }
{
    let form = form_at(cursor)?;
    after_form_at(alloc, cursor, form)
}

/// Appends the signed part of an order.
#[tactic(auto, unfolding(mb_model::specs::records::OrderFormat::body_format))]
pub fn put_body(out: &mut Vec<u8>, order: &Order) -> Result<(), NoMemory>
    requires targets { length order.now.targets ≤ TARGET_LIMIT }
    requires code { HasShortCode order.now.act }
    ensures { Puts (body_format.spelling (body_of order.now)) out.old result out.new }
{
    put_u8(out, form_byte(form_of(&order.act)))?;
    put_u8(out, order.layer)?;
    put_targets(out, &order.targets)?;
    put_act(out, &order.act)
}

/// The length of the signed part of an order, in bytes. The order has a spelling, which begins with that part.
pub fn body_length(order: &Order) -> u32
    requires { order_format.Allowed order.now }
    ensures length { result ≡ length (order_body order.now) }
    ensures first { take result (order_format.spelling order.now) ≡ order_body order.now }
{
    2 + targets_length(&order.targets) + act_length(&order.act)
}
