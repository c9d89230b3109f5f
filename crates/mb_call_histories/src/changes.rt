//! Laws of what calls change.

ghost use Rattle.mb_call_histories.specs.CallChangeLaws.{CallsCountWholly, CalledIsWhatCodeSays, SealedRegionsChangeByCalls, SealedRegionsAnswerNothing, OpenRegionsAreAnybodys, CallsReachNothingNew, OutputsAreBytes};

/// Wherever power fails, a call leaves the state as it was, or with all that its code asked for. What is answered
/// without a key is what the code answered.
pub fn calls_count_wholly()
    ensures wholly { CallsCountWholly }
    ensures called { CalledIsWhatCodeSays }
{}

/// The region of a layer whose code takes calls changes by calls of it and by orders that are obeyed, and by nothing
/// else, and no `get` tells a value of it. An open region is anybody's.
pub fn sealed_regions_change_by_calls()
    ensures change { SealedRegionsChangeByCalls }
    ensures tell { SealedRegionsAnswerNothing }
    ensures unsealed { OpenRegionsAreAnybodys }
{}

/// Where a call leads, puts and drops of its own region, one signature and power lead too, in a device without code.
/// What code emits is bytes.
pub fn calls_reach_nothing_new()
    ensures reach { CallsReachNothingNew }
    ensures bytes { OutputsAreBytes }
{}
