//! Laws of the definitions, the definitions at work, and the numbers of the code, as the contracts of functions that do
//! nothing.

ghost use Rattle.mb_policy.specs.Laws.{PoliciesAreClear, JudgementsAreClear};
ghost use Rattle.mb_policy.specs.NumberLaws.{PolicyNumbersAre};
ghost use Rattle.mb_policy.specs.Examples.{PolicyExamples, PolicyCounterExamples};
ghost use Rattle.mb_policy.specs.Examples.{JudgementExamples, JudgementCounterExamples};

/// A text says one policy, or one line of it is the first that is wrong; never two of either, never both.
pub fn policies_are_clear()
    ensures { PoliciesAreClear }
{}

/// A policy comes to one judgement for each report.
pub fn judgements_are_clear()
    ensures { JudgementsAreClear }
{}

/// Lines that say a policy.
pub fn policy_examples()
    ensures { PolicyExamples }
{}

/// Lines that say no policy.
pub fn policy_counter_examples()
    ensures { PolicyCounterExamples }
{}

/// What small policies come to.
pub fn judgement_examples()
    ensures { JudgementExamples }
{}

/// What small policies do not come to.
pub fn judgement_counter_examples()
    ensures { JudgementCounterExamples }
{}

/// The limits of a policy are these numbers.
pub fn numbers_are()
    ensures { PolicyNumbersAre }
{}
