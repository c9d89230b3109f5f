//! Whole orders.

ghost use Rattle.std.specs.Prelude.{◌≤◌, IfErr, IfSome};
ghost use Rattle.mb_command.specs.declared.order.TheConstants.{ORDER_LIMIT};
ghost use Rattle.mb_model.specs.records.OrderFormat.{order_format};
ghost use Rattle.mb_bytes.specs.Reads.{ReadsWhole};
ghost use Rattle.mb_bytes.specs.Puts.{Puts, Writes};
ghost use Rattle.mb_bytes.specs.Ends.{end_at};
ghost use Rattle.mb_command.specs.Writing.{IsSizedOrder};

use crate::body::{body_at, put_body};
use crate::countersignatures::{
    countersignatures_at, put_countersignatures, put_signature, signature_at,
};
use crate::end::OrderEnd;
use crate::reader::OrderReader;
use mb_bytes::{Cursor, Field, WriteField, write_field};
use mb_model::{NoMemory, Order};
use std::alloc::Global;

/// A length that no order reaches, in bytes: no more than this many are read of a text.
pub const ORDER_LIMIT: usize = 65_536;

/// An order.
pub struct OrderField;

#[tactic(auto, unfolding(mb_model::specs::records::OrderFormat::order_format))]
impl Field for OrderField {
    ghost use Rattle.mb_model.specs.records.OrderFormat.{order_format};
    ghost use Rattle.mb_model.proofs.OrderFormatLaws.{order_exact};

    type Value = Order;

    type Needs = Global;

    type End = OrderEnd;

    ghost format = { order_format };

    fn read_at(alloc: Global, cursor: &mut Cursor<'_>) -> Result<Order, OrderEnd> {
        let body = body_at(alloc, cursor)?;
        let signature = signature_at(alloc, cursor)?;
        let countersignatures = countersignatures_at(alloc, cursor, &body)?;
        Ok(Order {
            layer: body.layer,
            targets: body.targets,
            act: body.act,
            signature,
            countersignatures,
        })
    }

    ghost exact = { order_exact };
}

impl WriteField for OrderField {
    ghost use Rattle.mb_command.specs.Writing.{IsSizedOrder};

    ghost Fits = { IsSizedOrder };

    fn put(order: &Order, out: &mut Vec<u8>) -> Result<(), NoMemory> {
        put_order(out, order)
    }
}

/// Reads the order that the whole of the bytes spells. The bytes may be more than any order has.
///
/// Errors: `Bad` with the offset of the first field that lacks bytes or is not allowed, or of the first byte after
/// the last field, at most `ORDER_LIMIT`; and `NoMemory`.
pub fn read_order(alloc: Global, bytes: &[u8]) -> Result<Order, OrderEnd>
    ensures reads { ReadsWhole end_at order_format bytes.now result }
    ensures near { IfErr result (λ end. IfSome (end_at end) (λ at. at ≤ ORDER_LIMIT)) }
{
    let mut reader = OrderReader::new(alloc);
    reader.feed(bytes)?;
    reader.finish(alloc)
}

#[tactic(auto, unfolding(mb_model::specs::records::OrderFormat::order_format))]
fn put_order(out: &mut Vec<u8>, order: &Order) -> Result<(), NoMemory>
    requires { IsSizedOrder order.now }
    ensures { Puts (order_format.spelling order.now) out.old result out.new }
{
    put_body(out, order)?;
    put_signature(out, &order.signature)?;
    put_countersignatures(out, &order.countersignatures)
}

/// Appends the spelling of an order, which has one, or leaves `out` as it was. `Ok` if the capacity of `out` holds the
/// spelling.
#[tactic(auto, using(crate::proofs::Sizes::sized_of))]
pub fn write_order(order: &Order, out: &mut Vec<u8>) -> Result<(), NoMemory>
    requires { order_format.Allowed order.now }
    ensures { Writes (order_format.spelling order.now) out.old result out.new }
{
    write_field::<OrderField>(order, out)
}
