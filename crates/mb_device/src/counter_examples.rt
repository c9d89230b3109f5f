//! Values for which the definitions of kept trees do not hold.

ghost use Rattle.mb_device.specs.TreeCounterExamples.{TreeCounterExamples};

/// Trees that are forgotten though they could have been kept, and trees that are no use.
pub fn tree_counter_examples()
    ensures { TreeCounterExamples }
{}
