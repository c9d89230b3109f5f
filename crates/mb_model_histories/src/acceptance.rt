//! Laws of statements that are accepted.

ghost use Rattle.mb_model_histories.specs.AcceptanceLaws.{AcceptedStatementsWereMade, StatementsMayBeMadeElsewhere};

/// If nothing was forged, a statement that is accepted was made by the device whose chain it stands in, at a `sign` of
/// its message or a `call` that gave its answer, in the last configuration that the report lists, while the layers up to
/// the key's own were reliable and none above it was in control.
pub fn accepted_statements_were_made()
    ensures made { AcceptedStatementsWereMade }
    ensures elsewhere { StatementsMayBeMadeElsewhere }
{}
