//! Laws of targets, and of the room that a log has.

ghost use Rattle.mb_model_histories.specs.TargetLaws.{LengthTargetsCountOnce, BoundOrdersPassOnce, SerialTargetsNameTheDevice, NamedLoadsPass, OrdersAreFew, FullLogsObeyNothing, PlainLoadsAreFree, FreeLoadsPassAgain, OneFreeLoadFillsTheLog};

/// Of the orders that demand one length of the log, a device obeys at most one ever, and such an order does not pass
/// again. An order that demands a serial is obeyed only by the device that had it from the start.
pub fn targets_bind_orders()
    ensures once { LengthTargetsCountOnce }
    ensures again { BoundOrdersPassOnce }
    ensures serial { SerialTargetsNameTheDevice }
    ensures named { NamedLoadsPass }
{}

/// No more orders are answered `done` in a history than the log has room for entries, and none is obeyed once it is
/// full.
pub fn logs_have_room()
    ensures few { OrdersAreFew }
    ensures full { FullLogsObeyNothing }
{}

/// A load without targets that was obeyed passes again with the same signatures, as long as the log has room: whoever
/// holds one can fill the log with it.
pub fn free_loads_come_again()
    ensures plain { PlainLoadsAreFree }
    ensures again { FreeLoadsPassAgain }
    ensures fill { OneFreeLoadFillsTheLog }
{}
