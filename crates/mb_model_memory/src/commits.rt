//! Laws of what a memory holds while the work of an order is done.

ghost use Rattle.mb_model_memory.specs.CommitLaws.{CommitsMeanTheirOrder, CommitsAreCounted, CommitsHaveAnIndex, CommittedMemoriesStand, TwoDoneMeansTheSame, ThreeDoneMeansTheSame, BothDoneMeansTheSame, WorkUnderWayStands, WorkEndsTheSame, SettledMeansTheSame, RestMeansItsState, RestingMemoriesStand, NothingPendingIsRest, CleanMemoriesAreAtRest, AgreeingMemoriesStandForOne, AgreementGoesBothWays, DeadFlashIsAny, TwoIsReplaced, ThreeIsReplaced, RootIsReplaced, OtherFlashIsFree, OrderIsCommitted, WorkIsFinished};

/// What an order commits means the state after it: the root with its pending work, the new entries unsigned, and both
/// regions as they were. A memory that holds it means that state.
pub fn commits_mean_their_order()
    ensures means { CommitsMeanTheirOrder }
    ensures counted { CommitsAreCounted }
    ensures index { CommitsHaveAnIndex }
    ensures stands { CommittedMemoriesStand }
{}

/// Contents mean the same at each step of the pending work: once what is to be done to either region is done, and once
/// each entry is signed and nothing is pending. So a memory means one state however far the work has come, and work
/// that is done again from there ends where it would have ended.
pub fn work_keeps_the_meaning()
    ensures two { TwoDoneMeansTheSame }
    ensures three { ThreeDoneMeansTheSame }
    ensures both { BothDoneMeansTheSame }
    ensures settled { SettledMeansTheSame }
    ensures stands { WorkUnderWayStands }
    ensures ends { WorkEndsTheSame }
{}

/// What is stored of a state with nothing pending means that state, so that a memory that holds it means the state. A
/// clean memory that means a state holds nothing else.
pub fn rest_means_its_state()
    ensures means { RestMeansItsState }
    ensures stands { RestingMemoriesStand }
    ensures only { NothingPendingIsRest }
    ensures clean { CleanMemoriesAreAtRest }
{}

/// Memories with the same bytes in the current areas mean the same state, whatever else they hold.
pub fn memories_are_known_by_what_is_in_force()
    ensures same { AgreeingMemoriesStandForOne }
    ensures turned { AgreementGoesBothWays }
    ensures dead { DeadFlashIsAny }
{}

/// If the current area of one slot changes alone, the piece that stands there is replaced, and nothing else. What is
/// written to the flash area that the root does not name changes nothing.
pub fn pieces_are_replaced_alone()
    ensures two { TwoIsReplaced }
    ensures three { ThreeIsReplaced }
    ensures root { RootIsReplaced }
    ensures flash { OtherFlashIsFree }
{}

/// An order begins with one root and ends with another. The first makes a memory at rest hold what is committed. The
/// second, once the work on both regions is done, puts it at rest again.
pub fn orders_begin_and_end_with_a_root()
    ensures begins { OrderIsCommitted }
    ensures ends { WorkIsFinished }
{}
