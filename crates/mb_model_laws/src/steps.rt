//! Laws of the machine: a device whose state is valid stays so.

ghost use Rattle.mb_model_laws.specs.StepLaws.{StepsStayValid, RunsStayValid, OrdersAppendTheirEntry};

/// Each step from a valid state leads to a valid state, whatever the event and its reply, and so does a run.
pub fn states_stay_valid()
    ensures step { StepsStayValid }
    ensures run { RunsStayValid }
{}

/// An order that is obeyed appends one entry of its own, after that of a succession if one is needed.
pub fn orders_append_their_entry()
    ensures { OrdersAppendTheirEntry }
{}
