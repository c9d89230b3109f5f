//! Laws of what can be stored.

ghost use Rattle.mb_model_memory.specs.StorableLaws.{StoredStatesAreStorable, OldStatesAreStorable, BornStatesAreStorable, ObeyedStatesAreStorable, StepsKeepStorable, RunsKeepStorable, RestingRootsAreAllowed, CommittedRootsAreAllowed, RestingPublicsAreAllowed, CommittedPublicsAreAllowed, StorableRegionsCanBeWritten, StorableStatesFitImages, RootsHaveRoom, PublicsHaveRoom};

/// A valid state that a memory means can be stored again, also if the flash has the earlier form. The state of a new
/// device can be stored.
pub fn stored_states_are_storable()
    ensures stands { StoredStatesAreStorable }
    ensures stood { OldStatesAreStorable }
    ensures born { BornStatesAreStorable }
{}

/// Each step of an event that a script can give leads from a valid state that can be stored to one that can be stored. So
/// does a run of such events, and an order that passes.
pub fn steps_keep_states_storable()
    ensures order { ObeyedStatesAreStorable }
    ensures step { StepsKeepStorable }
    ensures run { RunsKeepStorable }
{}

/// What can be stored has its records. The root and the public record have spellings, when nothing is pending and when
/// an order is committed, and each region can be written. All of these have room, also in an image that is written from
/// nothing.
pub fn storable_states_have_records()
    ensures root { RestingRootsAreAllowed }
    ensures committed_root { CommittedRootsAreAllowed }
    ensures public_record { RestingPublicsAreAllowed }
    ensures committed_public { CommittedPublicsAreAllowed }
    ensures region { StorableRegionsCanBeWritten }
    ensures image { StorableStatesFitImages }
    ensures root_room { RootsHaveRoom }
    ensures public_room { PublicsHaveRoom }
{}
