//! Laws of texts: what their lines mean.

ghost use Rattle.mb_model.specs.chains.Script.{IsScript};
ghost use Rattle.mb_model.specs.chains.Drafts.{IsDraft};
ghost use Rattle.mb_model.specs.chains.OrderLines.{IsOrderLine, IsStatementLine};
ghost use Rattle.mb_model_laws.specs.NumberLaws.{CallNumbersAre};
ghost use Rattle.mb_model_laws.specs.TextLaws.{IsClearText, SomeLines, OneListOfLines, WordsAreReadBack, ScriptsGiveScriptEvents, ScriptEventsAreSaid, DrawsKeepScriptEvents, DrawsInTurn, DrawsKeepCount, TooManyEvents, SecondOrderLine, SecondStatementLine, FirstOrderLine, RepliesDiffer, RefusalsHaveWords, OneWorkload};

/// Each text has one list of lines.
pub fn texts_have_lines()
    ensures some { SomeLines }
    ensures one { OneListOfLines }
{}

/// A text means one list of events as a script, or one line of it is the first that is wrong: never two of either,
/// never both, never neither.
pub fn scripts_are_clear()
    ensures { IsClearText IsScript }
{}

/// A text means one order as a draft, or one line of it is the first that is wrong: never two of either, never both,
/// never neither.
pub fn drafts_are_clear()
    ensures { IsClearText IsDraft }
{}

/// A text means one order as an order line, or one line of it is the first that is wrong, and likewise for a statement
/// line. A line after such a line, even an empty one, is wrong: it is line 2. A first line that is no order line is
/// wrong, whatever follows it.
pub fn order_lines_are_clear()
    ensures order { IsClearText IsOrderLine }
    ensures statement { IsClearText IsStatementLine }
    ensures second { SecondOrderLine }
    ensures second_statement { SecondStatementLine }
    ensures first { FirstOrderLine }
{}

/// The line of the 65,537th event of a script is wrong.
pub fn events_are_bounded()
    ensures { TooManyEvents }
{}

/// Bytes that are written in hexadecimal are read back as these bytes.
pub fn words_are_read_back()
    ensures { WordsAreReadBack }
{}

/// No two replies have one line.
pub fn replies_differ()
    ensures { RepliesDiffer }
{}

/// Each refusal of the machine has a line.
pub fn refusals_have_words()
    ensures { RefusalsHaveWords }
{}

/// Each event that a script gives is one that a line can give, and stays one with its draw. Each event that a line can
/// give, and that holds bytes, is said by some line.
pub fn script_events()
    ensures given { ScriptsGiveScriptEvents }
    ensures said { ScriptEventsAreSaid }
    ensures drawn { DrawsKeepScriptEvents }
{}

/// Each event gets its draw in turn, and none is left out.
pub fn draws_in_turn()
    ensures turn { DrawsInTurn }
    ensures count { DrawsKeepCount }
{}

/// The number of a workload and the number of its rounds determine what is drawn for it.
pub fn one_workload()
    ensures { OneWorkload }
{}

/// The byte 129 marks the statement of a call, and the byte 0x06 what is signed for one.
pub fn call_numbers_are()
    ensures { CallNumbersAre }
{}
