//! Laws of what is shown, as the contracts of functions that do nothing.

ghost use Rattle.mb_tools_shown.specs.HistoryLaws.{HistoriesTellEntries, SignersAreAccepted, RefusalsAreThoseOfVerify};
ghost use Rattle.mb_tools_shown.specs.ShownLaws.{SecretsAreNotShown, LengthsAreShown};

/// Images of two devices that differ in seeds and in the bytes of secrets alone are shown alike. The length of a
/// secret's value is shown.
pub fn images_tell_no_secrets()
    ensures secrets { SecretsAreNotShown }
    ensures lengths { LengthsAreShown }
{}

/// Two chains whose histories are one text have the same entries, but for what a history does not tell; or two owners'
/// keys in them have one hash.
pub fn histories_tell_entries()
    ensures { HistoriesTellEntries }
{}

/// `history` accepts a chain with a statement where `verify` accepts it for the key that signed, and refuses a chain
/// for a reason of `verify`.
pub fn refusals_are_those_of_verify()
    ensures signers { SignersAreAccepted }
    ensures refusals { RefusalsAreThoseOfVerify }
{}
