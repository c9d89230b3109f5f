//! Laws of whole histories: of runs of one device one after another, with migrations between them.

ghost use Rattle.mb_model_histories.specs.HistoryLaws.{HistoriesStayValid, LogsGrowOverHistories, HistoriesSignOnce, HistoriesHaveWorlds, WorldsHaveHistories, HistoriesAreRuns, RunsLeadWhereHistoriesDo, BornOfTheirMaker, BirthsMayBeUnsigned, AllStatementsStayAccepted, ServedImagesAreRead, TurnsAreHistories, ReplayedImagesSignAgain};

/// Over any number of runs, a device stays one that there can be, its log only grows, and no key of a region signs two
/// statements with one index.
pub fn histories_are_sound()
    ensures valid { HistoriesStayValid }
    ensures logs { LogsGrowOverHistories }
    ensures once { HistoriesSignOnce }
{}

/// A history of a device that is alive at its end is one run, in which power went off before each run of the history.
/// Wherever a live device comes, a run leads. So the laws of runs are laws of histories.
pub fn histories_are_runs()
    ensures worlds { HistoriesHaveWorlds }
    ensures histories { WorldsHaveHistories }
    ensures whole { HistoriesAreRuns }
    ensures part { RunsLeadWhereHistoriesDo }
{}

/// From the factory on, the maker's key signed the birth in the device's log, and each statement that was ever answered
/// is accepted under that key with the log, as long as the device is alive.
pub fn histories_begin_at_a_birth()
    ensures maker { BornOfTheirMaker }
    ensures unsigned { BirthsMayBeUnsigned }
    ensures accepted { AllStatementsStayAccepted }
{}

/// The image that the program writes after a run is read again with the state in which the run ended. Calls of the
/// program one after another, with migrations between them, are a history.
pub fn calls_make_a_history()
    ensures read { ServedImagesAreRead }
    ensures history { TurnsAreHistories }
{}

/// From one state a key of an open region signs whatever message at its next index. So two runs from one image can have it sign two
/// messages with one index: `histories_are_sound` says nothing of an image that is used again.
pub fn replayed_images_sign_again()
    ensures { ReplayedImagesSignAgain }
{}
