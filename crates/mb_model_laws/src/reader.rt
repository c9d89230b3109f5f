//! Laws of what a log says of one key, entry by entry, as a reader meets them.

ghost use Rattle.mb_model_lemmas.specs.ReaderLaws.{NoLivesUnmade, FirstSight, FirstLife, FirstAlive, StaysMade, StaysAlive, LivesOn, MadeKeysStandInTheLog, FlaggedKeysLive, LivingKeysAreFlagged};

/// Until an entry makes a key, a log says nothing of it. The log with that entry says what the entry says: the key,
/// which is alive, and its first configuration.
pub fn a_key_is_met_once()
    ensures none { NoLivesUnmade }
    ensures key { FirstSight }
    ensures lives { FirstLife }
    ensures alive { FirstAlive }
{}

/// One more entry, in a log that obeys the rules, says nothing else of a key that is made. The key is alive until an
/// entry ends it, and lives in what entries open until then, so that one pass with a flag finds everything.
pub fn a_key_lives_on()
    ensures key { StaysMade }
    ensures alive { StaysAlive }
    ensures lives { LivesOn }
{}

/// A key that is made stands in the log, and it is flagged exactly if it is alive.
pub fn the_flag_is_life()
    ensures stands { MadeKeysStandInTheLog }
    ensures flagged { FlaggedKeysLive }
    ensures living { LivingKeysAreFlagged }
{}
