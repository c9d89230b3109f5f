//! A device in use: what the other laws ask for can be met.

ghost use Rattle.mb_model_histories.specs.UseLaws.{KeysCanBeMade, StatementsCanBeMade};

/// A device comes from its birth to a key of layer 2, and from a factory's image to a statement of whatever message,
/// whose chain is accepted, if the code of layer 2 takes no calls. So what `accepted_statements_were_made` asks for can be met.
pub fn devices_can_be_used()
    ensures keys { KeysCanBeMade }
    ensures statements { StatementsCanBeMade }
{}
