//! The limits and the separators of the code, each tied to its number.

ghost use Rattle.mb_model.specs.NumberLaws.{LimitsAre, SeparatorsAre};

/// The limits and the separators are these numbers.
pub fn numbers_are()
    ensures limits { LimitsAre }
    ensures separators { SeparatorsAre }
{}
