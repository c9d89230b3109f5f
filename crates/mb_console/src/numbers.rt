//! The limit of words, tied to its number.

ghost use Rattle.mb_console.specs.NumberLaws.{WordNumbersAre};

/// The limit of words is this number.
pub fn numbers_are()
    ensures { WordNumbersAre }
{}
