//! Values for which the definition of `cutat` does not hold.

ghost use Rattle.mb_tools_device.specs.CutCounterExamples.{CutCounterExamples};

/// Scripts that `cutat` cannot cut, runs that are not its own, and answers that are not those of a power loss.
pub fn cut_counter_examples()
    ensures { CutCounterExamples }
{}
