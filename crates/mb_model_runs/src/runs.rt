//! Laws of runs of the machine.

ghost use Rattle.mb_model_runs.specs.RunLaws.{LogsOnlyGrow, LogsGrowOverRuns, RunsAreSound, StatementsOfRunsStayAccepted, AnswersLeaveClean};

/// Whatever happens, power losses included, a log only grows and a dead device stays dead.
pub fn logs_only_grow()
    ensures each { LogsOnlyGrow }
    ensures ends { LogsGrowOverRuns }
{}

/// Each world of a run from a valid state is valid, its regions hold the keys that are alive, and no device key signs
/// two entries of its log with one index. No key of a region signs two statements of the run with one index, nor with
/// one that was used before the run. If a script can give the events and the first state can be stored, each statement
/// that is answered is accepted with the log of each later world.
pub fn runs_are_sound()
    ensures sound { RunsAreSound }
    ensures accepted { StatementsOfRunsStayAccepted }
{}

/// What a board holds at each of its answers is clean, if no power loss has stopped the device since it last booted or
/// was tampered with.
pub fn answers_leave_clean()
    ensures { AnswersLeaveClean }
{}
