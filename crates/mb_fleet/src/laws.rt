//! Laws of the definitions, the definitions at work, and the numbers of the code, as the contracts of functions that do
//! nothing.

ghost use Rattle.mb_format.specs.Format.{IsClearWhole};
ghost use Rattle.mb_fleet.specs.RegisterFormat.{register_format};
ghost use Rattle.mb_fleet.specs.Examples.{FleetBytesExamples, FleetBytesCounterExamples, ShownExamples};
ghost use Rattle.mb_fleet.specs.Examples.{ShownCounterExamples, QuestionExamples, QuestionCounterExamples};
ghost use Rattle.mb_fleet.specs.Laws.{FleetInputsAreClear, ItemsAreClear, RowsHaveOneAnswer, ChainsHaveOneAnswer};
ghost use Rattle.mb_fleet.specs.NumberLaws.{RegisterNumbersAre};

/// Bytes as a whole spell one register, or fail at one offset; never two of either, never both, always one.
pub fn registers_are_clear()
    ensures { IsClearWhole register_format }
{}

/// Bytes are the items of one list, or fail at one offset; never two of either, never both.
pub fn items_are_clear()
    ensures { ItemsAreClear }
{}

/// No file of a register or of items both means a value and is at fault.
pub fn fleet_inputs_are_clear()
    ensures { FleetInputsAreClear }
{}

/// A row that meets rows in ascending serials comes to one answer, and to one list of rows afterwards.
pub fn rows_have_one_answer()
    ensures { RowsHaveOneAnswer }
{}

/// A chain that is shown to a register comes to one answer, and to one list of rows afterwards.
pub fn chains_have_one_answer()
    ensures { ChainsHaveOneAnswer }
{}

/// Bytes that are a register or items, or fail at an offset.
pub fn fleet_bytes_examples()
    ensures { FleetBytesExamples }
{}

/// Bytes, rows and items that do not belong together.
pub fn fleet_bytes_counter_examples()
    ensures { FleetBytesCounterExamples }
{}

/// What a register of two small rows answers to another row, and to bytes that are no chain.
pub fn shown_examples()
    ensures { ShownExamples }
{}

/// What a register of two small rows does not answer.
pub fn shown_counter_examples()
    ensures { ShownCounterExamples }
{}

/// What a register of two small rows answers to questions.
pub fn question_examples()
    ensures { QuestionExamples }
{}

/// What a register of two small rows does not answer to questions.
pub fn question_counter_examples()
    ensures { QuestionCounterExamples }
{}

/// The limits of a register and of its answers are these numbers.
pub fn numbers_are()
    ensures { RegisterNumbersAre }
{}
