//! Laws of the chain that a device hands out.

ghost use Rattle.mb_model_runs.specs.BirthLaws.{LogsAreGood, BornKeysAreAccepted, DeviceChainsAreWhole};

/// If the maker signed the birth, a verifier finds no fault in the log of a valid state, and accepts its chain for each
/// key of a region that was born in it. The chain of the log is what a device hands out.
pub fn device_chains_are_accepted()
    ensures good { LogsAreGood }
    ensures accepted { BornKeysAreAccepted }
    ensures whole { DeviceChainsAreWhole }
{}
