//! The limit of a workload, tied to its number.

ghost use Rattle.mb_generate.specs.NumberLaws.{WorkloadNumbersAre};

/// The limit of rounds is this number.
pub fn numbers_are()
    ensures { WorkloadNumbersAre }
{}
