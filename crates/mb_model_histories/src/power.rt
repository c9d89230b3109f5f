//! Laws of power losses and of want of memory.

ghost use Rattle.mb_model_histories.specs.PowerLaws.{PowerLossesReachNothingNew, ArmedWorldsAreNotReached, RunsAreDetermined, MemoryIsNotDetermined, OneChoiceACut, EitherIsLeft};

/// Power losses bring a device nowhere where it could not come without them: each is as if power had been switched off
/// in the ordinary way, before or after the event.
pub fn power_losses_reach_nothing_new()
    ensures smooth { PowerLossesReachNothingNew }
    ensures armed { ArmedWorldsAreNotReached }
{}

/// Events have one list of answers, and lead to one world, as long as memory is found and power holds. Where power
/// fails, one choice is left: whether the event has happened.
pub fn runs_are_determined()
    ensures runs { RunsAreDetermined }
    ensures memory { MemoryIsNotDetermined }
    ensures cuts { OneChoiceACut }
    ensures either { EitherIsLeft }
{}
