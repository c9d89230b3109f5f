//! The forms of the orders among the inputs: the draft of an order, and the line of one.

use mb_console::{Form, Unread};
use mb_model::Order;
use mb_model_commands::Place;
use mb_officer::{DraftEnd, OrderLineEnd, read_draft, read_order_line};
use std::alloc::Global;

/// The draft of an order.
#[derive(Clone, Copy)]
pub struct DraftForm;

impl Form for DraftForm {
    ghost use Rattle.std.specs.Prelude.{[]};
    ghost use Rattle.mb_model.specs.declared.order.Order.{Order};
    ghost use Rattle.mb_model.specs.records.OrderFormat.{order_format};
    ghost use Rattle.mb_model_commands.specs.Inputs.{draft_input};

    type Value = Order;

    ghost Meaning = { Order };

    ghost meaning = { λ order. order };

    ghost Is = { λ form. (draft_input []).Is };

    ghost FaultyAt = { λ form. (draft_input []).FaultyAt };

    ghost Keeps = { order_format.Allowed };

    fn read(self, alloc: Global, bytes: Vec<u8>) -> Result<Order, Unread> {
        match read_draft(alloc, &bytes) {
            Ok(order) => Ok(order),
            Err(DraftEnd::BadLine { line }) => Err(Unread::At(Place::Line(line))),
            Err(DraftEnd::NoMemory) => Err(Unread::NoMemory),
        }
    }
}

/// The line of an order that was signed.
#[derive(Clone, Copy)]
pub struct OrderLine;

impl Form for OrderLine {
    ghost use Rattle.std.specs.Prelude.{[]};
    ghost use Rattle.mb_model.specs.declared.order.Order.{Order};
    ghost use Rattle.mb_model.specs.records.OrderFormat.{order_format};
    ghost use Rattle.mb_model_commands.specs.Inputs.{order_input};

    type Value = Order;

    ghost Meaning = { Order };

    ghost meaning = { λ order. order };

    ghost Is = { λ form. (order_input []).Is };

    ghost FaultyAt = { λ form. (order_input []).FaultyAt };

    ghost Keeps = { order_format.Allowed };

    fn read(self, alloc: Global, bytes: Vec<u8>) -> Result<Order, Unread> {
        match read_order_line(alloc, &bytes) {
            Ok(order) => Ok(order),
            Err(OrderLineEnd::BadLine { line }) => Err(Unread::At(Place::Line(line))),
            Err(OrderLineEnd::NoMemory) => Err(Unread::NoMemory),
        }
    }
}
