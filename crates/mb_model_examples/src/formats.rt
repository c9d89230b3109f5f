//! The formats at work: values and their bytes, and bytes that fail.

ghost use Rattle.mb_model_examples.specs.FormatExamples.{SpellingExamples, FailingExamples};

/// How keys and the bodies of orders are spelled.
pub fn spelling_examples()
    ensures { SpellingExamples }
{}

/// Where bytes that spell no order, region or chain fail.
pub fn failing_examples()
    ensures { FailingExamples }
{}
