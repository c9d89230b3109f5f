//! An order that is read in pieces.

ghost use Rattle.std.specs.Prelude.{◌≡◌, ◌≤◌, ◌++◌, List, ℕ, ◌-◌, take, [], Err, IfOk};
ghost use Rattle.mb_model.specs.records.OrderFormat.{order_format};
ghost use Rattle.mb_bytes.specs.Reads.{ReadsWhole};
ghost use Rattle.mb_command.specs.declared.order.TheConstants.{ORDER_LIMIT};
ghost use Rattle.mb_bytes.specs.declared.end.ReadEnd.{ReadEnd};
ghost use Rattle.mb_command.specs.declared.reader.Taken.TheVariants.{Ended};
ghost use Rattle.mb_bytes.specs.Ends.{end_at};
ghost use Rattle.mb_command.specs.Feeding.{Feeds, IsKeptOf, WasFed, HasEnded};

use crate::begun::Begun;
use crate::end::OrderEnd;
use crate::order::{ORDER_LIMIT, OrderField};
use crate::survey::failing_offset;
use mb_bytes::read_whole;
use mb_model::Order;
use std::alloc::Global;

/// What is kept of the bytes so far.
#[derive(Drop)]
enum Taken {
    /// All of the bytes.
    Begun(Begun),
    /// The error that answers the bytes, whatever bytes follow.
    Ended(OrderEnd),
}

/// An order that is read while its bytes come in pieces. The bytes are kept, and surveyed anew at each piece: that
/// takes no memory, skips the bytes of keys, code and signatures, and costs some forty steps for the largest order. A
/// state for each field would need a relation between each state and the rest of the format.
#[derive(Drop)]
pub struct OrderReader {
    taken: Taken,
}

/// A prefix of a piece: as many bytes as are looked at beside the `there` bytes that are kept.
fn looked_at(piece: &[u8], there: usize) -> &[u8]
    requires { there ≤ ORDER_LIMIT }
    ensures { result.now ≡ take (ORDER_LIMIT - there) piece.now }
{
    match piece.get(..ORDER_LIMIT - there) {
        Some(first) => first,
        None => piece,
    }
}

impl Begun {
    /// No bytes.
    fn none(alloc: Global) -> Begun
        ensures { result.text.items ≡ [] }
    {
        Begun {
            text: Vec::new(alloc),
        }
    }

    /// Takes in a piece: what is kept then, and how the piece is answered.
    fn take_in(self, piece: &[u8]) -> (Taken, Result<(), OrderEnd>)
        ensures keeps { IsKeptOf result.0 (self.text.items ++ piece.now) }
        ensures answers { Feeds (self.text.items ++ piece.now) result.1 }
        ensures ends { (end : ReadEnd) → result.1 ≡ Err end → result.0 ≡ Ended end }
    {
        let Begun { mut text } = self;
        let there = text.len();
        match text.extend_from_slice(looked_at(piece, there)) {
            Err(_) => ended(OrderEnd::NoMemory),
            Ok(()) => match failing_offset(&text) {
                None => (Taken::Begun(Begun { text }), Ok(())),
                Some(at) => ended(OrderEnd::Bad { at }),
            },
        }
    }
}

/// What is kept after this error, and the error.
fn ended(end: OrderEnd) -> (Taken, Result<(), OrderEnd>)
    ensures keeps { result.0 ≡ Ended end }
    ensures answers { result.1 ≡ Err end }
{
    (Taken::Ended(end), Err(end))
}

/// What is kept after one more piece, and how the piece is answered.
fn after(taken: Taken, piece: &[u8]) -> (Taken, Result<(), OrderEnd>)
    ensures keeps { (fed : List ℕ) → IsKeptOf taken fed → IsKeptOf result.0 (fed ++ piece.now) }
    ensures answers { (fed : List ℕ) → IsKeptOf taken fed → Feeds (fed ++ piece.now) result.1 }
    ensures stays { (end : ReadEnd) → taken ≡ Ended end → result.1 ≡ Err end }
    ensures ends { (end : ReadEnd) → result.1 ≡ Err end → result.0 ≡ Ended end }
{
    match taken {
        Taken::Begun(begun) => begun.take_in(piece),
        Taken::Ended(end) => ended(end),
    }
}

impl OrderReader {
    /// A reader that was fed no bytes yet.
    pub fn new(alloc: Global) -> OrderReader
        ensures { WasFed result [] }
    {
        OrderReader {
            taken: Taken::Begun(Begun::none(alloc)),
        }
    }

    /// Takes the next piece of the order's bytes.
    ///
    /// Errors: `Bad` exactly if the pieces so far fail as an order at this offset whatever bytes follow; and
    /// `NoMemory`. After an error each later call answers the same error. A field fails at its beginning as soon as its
    /// first bytes settle that it fails; if whole fields were waited for, the answer would depend on how the bytes are
    /// cut.
    pub fn feed(&mut self, piece: &[u8]) -> Result<(), OrderEnd>
        ensures answers { (fed : List ℕ) → WasFed self.old fed → Feeds (fed ++ piece.now) result }
        ensures takes { (fed : List ℕ) → WasFed self.old fed → WasFed self.new (fed ++ piece.now) }
        ensures stays { (end : ReadEnd) → HasEnded self.old end → result ≡ Err end }
        ensures ends { (end : ReadEnd) → result ≡ Err end → HasEnded self.new end }
    {
        let nothing = Taken::Ended(OrderEnd::NoMemory);
        let (taken, answer) = after(std::mem::replace(&mut self.taken, nothing), piece);
        self.taken = taken;
        answer
    }

    /// The order that the pieces spell together, as `read_order` reads it.
    ///
    /// Errors: the error of an earlier `feed`; else `Bad` with the offset of the first field that lacks bytes or is
    /// not allowed, or of the first byte after the last field; and `NoMemory`.
    pub fn finish(self, alloc: Global) -> Result<Order, OrderEnd>
        ensures reads { (fed : List ℕ) → WasFed self fed → ReadsWhole end_at order_format fed result }
        ensures allowed { IfOk result (λ order. order_format.Allowed order) }
        ensures stays { (end : ReadEnd) → HasEnded self end → result ≡ Err end }
    {
        match self.taken {
            Taken::Begun(begun) => read_whole::<OrderField>(alloc, &begun.text),
            Taken::Ended(end) => Err(end),
        }
    }
}
