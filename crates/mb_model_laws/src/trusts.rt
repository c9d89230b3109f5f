//! Laws of the two trusts of a layer: which changes each decides, and how logs and orders spell them.

ghost use Rattle.mb_model_laws.specs.TrustLaws.{EqualTrustsAreOneTrust, TrustInTwoLeavesOne, TrustInOneLeavesTwo, VersionsOnlyRise, VersionOneHasEqualTrusts, TrustsCanBeGiven, TrustsHaveOneForm};

/// Layers 1 and 2 are trusted separately. What layer 3 trusts in changes of one decides nothing about changes of the
/// other. If its trusts are equal, it admits a change of layer 1 exactly if it would admit the same change of layer 2.
pub fn each_layer_is_trusted_by_itself()
    ensures one { TrustInTwoLeavesOne }
    ensures two { TrustInOneLeavesTwo }
    ensures equal { EqualTrustsAreOneTrust }
{}

/// In a log that obeys the rules, no birth or change of version 1 stands after an entry of version 2.
pub fn versions_only_rise()
    ensures { VersionsOnlyRise }
{}

/// No bytes spell a layer of version 1 whose trusts differ.
pub fn version_one_has_equal_trusts()
    ensures { VersionOneHasEqualTrusts }
{}

/// Each pair of trusts is given by an order in one form: equal trusts by one byte, others by two.
pub fn trusts_are_given_in_one_form()
    ensures some { TrustsCanBeGiven }
    ensures one { TrustsHaveOneForm }
{}
