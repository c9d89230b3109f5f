//! Laws of the statements that keys of regions sign.

ghost use Rattle.mb_model_runs.specs.StatementLaws.{StatementsAreOfKeys, StatementsAreAccepted, AnswersStayAccepted, ForeignStatementsAreNotAccepted};

/// A statement that answers an event is signed by the key that the event names, at that key's next index.
pub fn statements_are_of_keys()
    ensures { StatementsAreOfKeys }
{}

/// The statement of a key is accepted with the chain of the device, then and at any later time while the device lives.
/// A statement that the key did not sign is not accepted.
pub fn statements_are_accepted()
    ensures stated { StatementsAreAccepted }
    ensures answered { AnswersStayAccepted }
    ensures foreign { ForeignStatementsAreNotAccepted }
{}
