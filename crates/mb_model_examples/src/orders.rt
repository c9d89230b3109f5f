//! Orders: for which check each is refused, and what an order that passes does.

ghost use Rattle.std.specs.Prelude.{List, ℕ};
ghost use Rattle.mb_model_examples.specs.SignedOrder.{VerifiedOrders};
ghost use Rattle.mb_model_examples.specs.OrderExamples.{RefusedOrders, LaterRefusals, ObeyedOrders, LeavingExamples, SuccessionExamples};

/// For which check an order is refused: the first that it fails.
pub fn refused_orders()
    ensures first { (signature : List ℕ) → RefusedOrders signature }
    ensures later { (signature by_owner : List ℕ) → LaterRefusals signature by_owner }
{}

/// How an order that passes is answered, and what it leaves of regions and layers.
pub fn obeyed_orders()
    ensures answered { (signature by_owner : List ℕ) → ObeyedOrders signature by_owner }
    ensures left { (signature by_owner draw : List ℕ) → LeavingExamples signature by_owner draw }
{}

/// What the last index of a device key may sign, and what the last entry of the log may be.
pub fn succession_examples()
    ensures { (signature by_owner : List ℕ) → SuccessionExamples signature by_owner }
{}

/// An order whose signature the checker verifies is obeyed, and refused if one bit of the signature is flipped.
pub fn verified_orders()
    ensures { (signature draw : List ℕ) → VerifiedOrders signature draw }
{}
