//! Laws of `endorse` and `endorsed`.

ghost use Rattle.mb_top_laws.specs.EndorsementLaws.{EndorsementsAreAccepted, EmptyFilesAreRefused, EndorsingUsesUpItsNumber, DoneCallsUseNumbers, NumbersInTurnDiffer, OldMakersEndorseAgain};

/// What `endorse` leaves in OUT, if it is done, is accepted by `endorsed` under the public key of that maker, for that
/// root key. An empty file is refused.
pub fn endorsements_are_accepted()
    ensures accepted { EndorsementsAreAccepted }
    ensures empty { EmptyFilesAreRefused }
{}

/// A call of `endorse` leaves KEY as it was and endorses nothing, or uses up one number before the endorsement is
/// written, or could not write KEY. So no two calls, each over the KEY that the one before left, use one number.
pub fn makers_endorse_once()
    ensures number { EndorsingUsesUpItsNumber }
    ensures done { DoneCallsUseNumbers }
    ensures turn { NumbersInTurnDiffer }
    ensures old { OldMakersEndorseAgain }
{}
