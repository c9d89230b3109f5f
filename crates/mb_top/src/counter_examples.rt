//! Values for which the definition of the program's ends does not hold.

ghost use Rattle.std.specs.Prelude.{List, ℕ};
ghost use Rattle.mb_model_commands.specs.Commands.{Ended};
ghost use Rattle.mb_top.specs.EndCounterExamples.{EndCounterExamples};

/// Ends that the program does not have: without a command its status is 2, and it answers no event.
pub fn end_counter_examples()
    ensures { (words : List (List ℕ)) (e : Ended) → EndCounterExamples words e }
{}
