//! Laws of the machine's answers.

ghost use Rattle.mb_model_lemmas.specs.RefusalLaws.{RefusalsLeave, NoMemoryLeaves, MachineIsWhole, OneFailure, PassesFailNothing, PassesOrFails, OneOrderStep, MachineIsFunction, MachineAnswers, PhasesStayPhases};

/// A refused event leaves the state, and the phase unless a dead device is booted. An event for which no memory is
/// found changes nothing. The machine's own answer is never that memory is lacking, or that power failed.
pub fn refusals_leave_all()
    ensures refused { RefusalsLeave }
    ensures no_memory { NoMemoryLeaves }
    ensures whole { MachineIsWhole }
{}

/// An order passes, or fails one check: never both, never neither, and never two checks. Its bytes have one answer, and
/// lead to one state.
pub fn orders_fail_one_check()
    ensures failure { OneFailure }
    ensures passing { PassesFailNothing }
    ensures either { PassesOrFails }
    ensures step { OneOrderStep }
{}

/// An event has one answer of the machine, and leads to one world. If the layer that runs is 1, 2 or 3, as each step
/// leaves it, no event is without an answer.
pub fn the_machine_is_a_function()
    ensures one { MachineIsFunction }
    ensures some { MachineAnswers }
    ensures phase { PhasesStayPhases }
{}
