//! Laws of the keys that are alive by a log, and of the configurations in which they lived, entry by entry.

ghost use Rattle.mb_model_lemmas.specs.AliveLaws.{NoKeyAtFirst, AliveAfterOneMore, LivingKeysAreListed, ListedKeysLive, AliveNumbersIncrease, AliveNumbersAreBelowTheNext, HighNumbersAreUnmade, UnmadeKeysHaveNoLives, LivesOfANewKey, LivesAfterOneMore, AliveKeysLiveNow};

/// Which keys are alive by a log, entry by entry: none at first, and then those that the entry does not end, with the
/// one that it makes after them.
pub fn alive_keys_follow_the_log()
    ensures first { NoKeyAtFirst }
    ensures more { AliveAfterOneMore }
{}

/// The list `alive_keys` has exactly the keys that are alive.
pub fn alive_keys_are_alive()
    ensures listed { LivingKeysAreListed }
    ensures living { ListedKeysLive }
{}

/// In a log that obeys the rules, the numbers of a layer's keys that are alive increase, and the next key's number is
/// above them. No entry has made a key with that number, or with one above.
pub fn key_numbers_increase()
    ensures increase { AliveNumbersIncrease }
    ensures below { AliveNumbersAreBelowTheNext }
    ensures unmade { HighNumbersAreUnmade }
{}

/// The configurations of a key, entry by entry: none before its own entry, which gives the first, and then those that
/// entries open until one ends the key.
pub fn lives_follow_the_log()
    ensures none { UnmadeKeysHaveNoLives }
    ensures first { LivesOfANewKey }
    ensures more { LivesAfterOneMore }
{}

/// In a log that obeys the rules, a key that is alive lives in the layers that stand.
pub fn alive_keys_live_now()
    ensures { AliveKeysLiveNow }
{}
