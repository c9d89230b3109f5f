//! Laws of orders that the right officers signed.

ghost use Rattle.mb_model_runs.specs.OfficerLaws.{RightSignaturesPass, RightCountersignaturesPass, RightOrdersAreObeyed, SignedOrdersPass, CountersigningKeepsTheSignature, CountersignedOrdersPass};

/// What the key of the owner in charge signs of an order, at each of its 32 indices, passes as the signature. What the
/// key of a layer's owner signs of it passes as that layer's countersignature. An order with such signatures is obeyed
/// while layer 1 runs, if it passes the other checks.
pub fn right_officers_are_obeyed()
    ensures signed { RightSignaturesPass }
    ensures countersigned { RightCountersignaturesPass }
    ensures obeyed { RightOrdersAreObeyed }
{}

/// Orders that officers' tools leave pass, if the right keys are used: the signature, which stays valid when the order
/// is countersigned, and the countersignatures.
pub fn tools_make_right_orders()
    ensures signed { SignedOrdersPass }
    ensures stays { CountersigningKeepsTheSignature }
    ensures countersigned { CountersignedOrdersPass }
{}
