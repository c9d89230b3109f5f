//! Laws of what is out of sight.

ghost use Rattle.mb_model_histories.specs.SightLaws.{WhatIsBeneathIsOutOfSight, OutOfSightInRuns, LayerTwoSeesItsRegion, HiddenValuesAreNotSeen, HiddenValuesAreNotSeenInRuns, HiddenValuesChangeNoAnswer, AskedValuesAreSeen, ChainsTellOfTheLogAlone, ChainsTellOfTheWholeLog};

/// While layer 3 is in control, each answer is one that would come if region 2 were empty, and the region is left as it
/// is. While layer 2 is in control, a `get` of it, if it is open, is answered from the region.
pub fn what_is_beneath_is_out_of_sight()
    ensures beneath { WhatIsBeneathIsOutOfSight }
    ensures runs { OutOfSightInRuns }
    ensures seen { LayerTwoSeesItsRegion }
{}

/// The values of secrets change no answer but that of a `get` of their own name, and that of a `call` of code that may
/// read them.
pub fn hidden_values_are_not_seen()
    ensures steps { HiddenValuesAreNotSeen }
    ensures runs { HiddenValuesAreNotSeenInRuns }
    ensures answers { HiddenValuesChangeNoAnswer }
    ensures asked { AskedValuesAreSeen }
{}

/// What `chain` does depends on the device's log alone, and tells all of it: a chain holds no secret and no code.
pub fn chains_tell_of_the_log_alone()
    ensures alone { ChainsTellOfTheLogAlone }
    ensures whole { ChainsTellOfTheWholeLog }
{}
