//! Laws of a relying party with a policy.

ghost use Rattle.mb_policy_histories.specs.TrustLaws.{DoneTrustAllows, AllowedStatementsWereMade, ShownStatementsCanBeAllowed, DeniedStatementsAreNotAllowed};
ghost use Rattle.mb_policy_histories.specs.CodeLaws.{AllowedCallsTellTheCode, CodePoliciesAskForCode, MessagesAreNoAnswers};
ghost use Rattle.mb_policy_histories.specs.ShorteningLaws.{ShortenedReportsStayAllowed, ShortenedChainsShortenReports, EndsMatter, ShorteningCanAllow};

/// At status 0 `trust` has read a maker's key, a chain that is accepted under it, and a policy that allows each
/// configuration of its report. If the chain has a statement and nothing was forged, the device made it, in one of
/// these configurations.
pub fn allowed_statements_were_made()
    ensures read { DoneTrustAllows }
    ensures made { AllowedStatementsWereMade }
    ensures shown { ShownStatementsCanBeAllowed }
    ensures denied { DeniedStatementsAreNotAllowed }
{}

/// If each rule of a policy that allows asks for a call, and for code of the key's layer out of a set, and nothing was
/// forged, the statement of a chain that `trust` allows has an answer that code of this set gave.
pub fn allowed_calls_tell_the_code()
    ensures code { AllowedCallsTellTheCode }
    ensures asks { CodePoliciesAskForCode }
    ensures messages { MessagesAreNoAnswers }
{}

/// What a policy allows by a chain it allows by each shortened one, if no test looks at the chain's end. A host can have
/// a key allowed by leaving out a configuration that is denied.
pub fn shortened_chains_stay_allowed()
    ensures reports { ShortenedReportsStayAllowed }
    ensures chains { ShortenedChainsShortenReports }
    ensures ends { EndsMatter }
    ensures allows { ShorteningCanAllow }
{}
