//! Lines of orders, against bytes that are written out.

ghost use Rattle.std.specs.Prelude.{◌≡◌, IsTrue};
ghost use Rattle.mb_model.specs.records.OrderFormat.{order_format};

use mb_model::{Act, Order};
use mb_officer::{OrderLineEnd, read_order_line, write_order_line};
use std::alloc::Global;

/// Replaces the order by the one that is read from its line, and answers whether there is one.
pub fn hand_on(alloc: Global, order: &mut Order) -> bool
    requires { order_format.Allowed order.old }
    ensures { IsTrue result → order_format.Allowed order.new }
{
    match write_order_line(alloc, order) {
        Ok(line) => match read_order_line(alloc, line.as_slice()) {
            Ok(read) => {
                *order = read;
                true
            }
            Err(_) => false,
        },
        Err(_) => false,
    }
}

/// How many bytes of code, targets and countersignatures the order has.
pub fn sizes_of(order: &Order) -> [usize; 3] {
    let code = match &order.act {
        Act::Load(payload) => payload.code.as_slice().len(),
        _ => 0,
    };
    [
        code,
        order.targets.as_slice().len(),
        order.countersignatures.as_slice().len(),
    ]
}

/// Whether the order is written as this line.
fn has_line(alloc: Global, order: &Order, line: &[u8]) -> bool
    requires { order_format.Allowed order.now }
{
    match write_order_line(alloc, order) {
        Ok(written) => written.as_slice() == line,
        Err(_) => false,
    }
}

/// Whether the line is read as an order of these sizes, and that order is written as the other line.
pub fn goes_both_ways(alloc: Global, line: &[u8], sizes: [usize; 3], written: &[u8]) -> bool {
    match read_order_line(alloc, line) {
        Ok(order) => sizes_of(&order) == sizes && has_line(alloc, &order, written),
        Err(_) => false,
    }
}

#[test]
fn the_line_of_an_order_is_read_and_written(rt: HostRuntime) {
    let line = b"command 0202010200000007000000\n";
    assert!(rt; goes_both_ways(rt.alloc(), &line[..30], [0, 1, 0], line));
}

/// Texts that are no line of an order, and the first wrong line of each.
const WRONG: &[(&str, u32)] = &[
    ("", 1),
    ("\ncommand 0202010200000007000000", 1),
    ("command 02020102000000070000000\n", 1),
    ("command 02020102000000070000\n\n", 1),
    ("command 0202010200000007000000\n\n", 2),
    ("command 0202010200000007000000\nboot", 2),
];

/// The first wrong line of the text, or 0.
fn first_wrong(alloc: Global, text: &[u8]) -> u32 {
    match read_order_line(alloc, text) {
        Err(OrderLineEnd::BadLine { line }) => line,
        _ => 0,
    }
}

#[test]
fn other_texts_are_refused(rt: HostRuntime) {
    for (text, line) in WRONG {
        assert!(rt; first_wrong(rt.alloc(), text.as_bytes()) == *line, "{text}");
    }
}
