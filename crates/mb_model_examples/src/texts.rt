//! Texts and the generated workload at work.

ghost use Rattle.mb_model_examples.specs.TextExamples.{LineExamples, ScriptExamples, DrawExamples, ReplyExamples, DraftExamples, OrderLineExamples, ListingExamples};
ghost use Rattle.mb_model_examples.specs.WorkloadExamples.{WorkloadExamples};

/// Which lines texts have, what some scripts and drafts mean and where they fail, and lines that are printed.
pub fn text_examples()
    ensures lines { LineExamples }
    ensures scripts { ScriptExamples }
    ensures draws { DrawExamples }
    ensures replies { ReplyExamples }
    ensures drafts { DraftExamples }
    ensures orders { OrderLineExamples }
    ensures listings { ListingExamples }
{}

/// What comes out of the generator: its first words, who signs how often, and how many events there are.
pub fn workload_examples()
    ensures { WorkloadExamples }
{}
