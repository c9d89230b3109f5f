//! The line of an order, read and written: the form in which officers hand it on.

ghost use Rattle.std.specs.Prelude.{◌≡◌, ◌∷◌, [], IfOk};
ghost use Rattle.mb_format.specs.Format.{Spells};
ghost use Rattle.mb_model.specs.outside.Texts.{line_with_lf};
ghost use Rattle.mb_model.specs.records.OrderFormat.{order_format};
ghost use Rattle.mb_model.specs.chains.OrderLines.{IsOrderLine, order_line};
ghost use Rattle.mb_words.specs.Words.{Finds, ReadsTextOf};

use mb_command::{OrderEnd, read_order, write_order};
use mb_model::{NoMemory, Order};
use mb_words::{NotSaid, TextEnd, after_word, read_hex, split_line};
use std::alloc::Global;

/// Why the line of an order was not read: line 1 is not that of an order, or is not there, or line 2 follows it; or an
/// allocation failed.
pub type OrderLineEnd = TextEnd;

/// Reads the order of a text whose one line is `command HEX`. The line may lack its LF.
///
/// Errors: `BadLine` with 1 if there is no line or the first is not that of an order, and with 2 if another line, even
/// an empty one, follows; and `NoMemory`.
pub fn read_order_line(alloc: Global, text: &[u8]) -> Result<Order, OrderLineEnd>
    ensures read { ReadsTextOf IsOrderLine text.now result }
    ensures spelled { IfOk result (λ order. order_format.Allowed order) }
{
    if text.is_empty() {
        return Err(OrderLineEnd::BadLine { line: 1 });
    }
    let (line, rest) = split_line(text);
    match order_in(alloc, line) {
        Ok(order) => {
            if rest.is_empty() {
                Ok(order)
            } else {
                Err(OrderLineEnd::BadLine { line: 2 })
            }
        }
        Err(NotSaid::Form) => Err(OrderLineEnd::BadLine { line: 1 }),
        Err(NotSaid::NoMemory) => Err(OrderLineEnd::NoMemory),
    }
}

/// Reads the order of a line.
fn order_in(alloc: Global, line: &[u8]) -> Result<Order, NotSaid>
    ensures { Finds (IsOrderLine (line.now ∷ [])) result }
{
    let Some(word) = after_word(line, b"command ") else {
        return Err(NotSaid::Form);
    };
    let bytes = read_hex(alloc, word)?;
    order_of(alloc, bytes.as_slice())
}

/// Reads the order that the bytes spell.
fn order_of(alloc: Global, bytes: &[u8]) -> Result<Order, NotSaid>
    ensures { Finds (Spells order_format bytes.now) result }
{
    match read_order(alloc, bytes) {
        Ok(order) => Ok(order),
        Err(OrderEnd::Bad { .. }) => Err(NotSaid::Form),
        Err(OrderEnd::NoMemory) => Err(NotSaid::NoMemory),
    }
}

/// The line of an order, which has a spelling, with its LF.
pub fn write_order_line(alloc: Global, order: &Order) -> Result<Vec<u8>, NoMemory>
    requires { order_format.Allowed order.now }
    ensures { IfOk result (λ text. text.items ≡ line_with_lf (order_line order.now)) }
{
    let mut bytes = Vec::new(alloc);
    write_order(order, &mut bytes)?;
    let word = hex::encode(alloc, bytes.as_slice())?;
    Ok(format!(in alloc; "command {word}\n")?.into_bytes())
}
