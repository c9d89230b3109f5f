//! Laws of chains and of the verdicts on them.

ghost use Rattle.mb_model_laws.specs.ChainLaws.{NeverBoth, NeverNeither, OneRefusal, OneReport, AcceptedIsRuled, AcceptedFollows, HonestIsPrefix, VerdictsAreAudits};

/// Bytes are either accepted or refused as a chain, never both and never neither; they are refused for one thing at most,
/// and say one thing at most of a key.
pub fn chains_have_one_verdict()
    ensures both { NeverBoth }
    ensures neither { NeverNeither }
    ensures refusal { OneRefusal }
    ensures report { OneReport }
{}

/// The entries of an accepted chain obey the rules of the log, and each follows from those before it.
pub fn accepted_chains_obey_the_rules()
    ensures ruled { AcceptedIsRuled }
    ensures follows { AcceptedFollows }
{}

/// An accepted chain without a forged entry is a prefix of its device's log. A verdict on a chain is what an audit of
/// the device finds.
pub fn honest_chains_tell_of_their_device()
    ensures prefix { HonestIsPrefix }
    ensures audited { VerdictsAreAudits }
{}
