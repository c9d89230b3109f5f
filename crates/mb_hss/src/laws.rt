//! Laws of a maker's keys: what the definitions of their formats and of signing give; and the limit of levels, tied to
//! its number.

ghost use Rattle.mb_format.specs.Format.{IsClearWhole};
ghost use Rattle.mb_hss.specs.HssKeyFormat.{hss_key_format};
ghost use Rattle.mb_hss.specs.MakerFormat.{maker_format};
ghost use Rattle.mb_hss.specs.MakerLaws.{MakersSignaturesVerify, NumbersCountUp, IndicesServeOneText};
ghost use Rattle.mb_hss.specs.NumberLaws.{HssNumbersAre};

/// What a maker signs verifies under its public key.
pub fn makers_signatures_verify()
    ensures { MakersSignaturesVerify }
{}

/// Over any list of calls of `sign`, the numbers count up by one, and each call gives the one signature of its number.
pub fn numbers_count_up()
    ensures { NumbersCountUp }
{}

/// Over any list of calls of `sign`, two calls that use one index of one key at a level sign the same text there. The
/// level is then not the last: there no two calls use one index of one key.
pub fn indices_serve_one_text()
    ensures { IndicesServeOneText }
{}

/// The bytes of a public key and of a maker's file spell one value, or fail at one offset; never two of either, never
/// both.
pub fn keys_are_clear()
    ensures public { IsClearWhole hss_key_format }
    ensures maker { IsClearWhole maker_format }
{}

/// The limit of levels is this number.
pub fn numbers_are()
    ensures { HssNumbersAre }
{}
