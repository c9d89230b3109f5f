//! What the definitions give.

ghost use Rattle.mb_library.specs.Laws.{LmsAnswersAreDetermined, ChainAnswersAreDetermined, SaidAnswersAreDetermined, TrustAnswersAreDetermined};

/// The bytes that a call is given determine what it answers and writes, unless an allocation fails.
pub fn answers_are_determined()
    ensures lms { LmsAnswersAreDetermined }
    ensures chains { ChainAnswersAreDetermined }
    ensures said { SaidAnswersAreDetermined }
    ensures trust { TrustAnswersAreDetermined }
{}
