//! Laws of accepted statements of calls.

ghost use Rattle.mb_call_histories.specs.AcceptedCallLaws.{AcceptedCallsWereMade, InputsOfOneHashHaveOneText, CallsCanBeMade, HaltingCodeAnswersNothing, StatementsKeepTheirBytes, CallsHaveOtherBytes};

/// If nothing was forged, a call's statement that is accepted was made by the code that the chain lists for the layer:
/// run on an input with the statement's hash, with the secrets as they then stood, it gave this answer. Of the input the
/// statement tells its hash alone.
pub fn accepted_calls_were_made()
    ensures made { AcceptedCallsWereMade }
    ensures hashes { InputsOfOneHashHaveOneText }
{}

/// A device comes from a factory's image to a statement of a call, whose chain is accepted, so that what
/// `accepted_calls_were_made` asks for can be met. Code that halts at once answers nothing.
pub fn calls_can_be_made()
    ensures shown { CallsCanBeMade }
    ensures silent { HaltingCodeAnswersNothing }
{}

/// A statement of a message has the bytes that it had before there were calls, and no statement of a call has them.
pub fn statements_keep_their_bytes()
    ensures keep { StatementsKeepTheirBytes }
    ensures apart { CallsHaveOtherBytes }
{}
