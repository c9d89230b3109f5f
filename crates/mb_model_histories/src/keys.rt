//! Laws of keys: of the noise that they are derived from, and of the file of an officer's key.

ghost use Rattle.mb_model_histories.specs.KeyFileLaws.{SigningUsesUpItsIndex, CountersigningUsesUpItsIndex, CosigningSignsTheDraft, NothingIsSignedWithoutAnIndex, IndicesInTurnDiffer, OldKeysSignAgain};
ghost use Rattle.mb_model_histories.specs.KeyLaws.{DeviceKeysDiffer, OfficersKeysDiffer, KeysOfDevicesAreNoOfficers, OneNoiseMakesOneKey, KeysAreDerived, KeysOfOneDeviceDiffer};

/// Keys differ if what they were derived from does, or else the two texts that were hashed for them have one hash: those
/// of devices, those of officers, and a device's from an officer's. So two keys in regions of one device differ, if their
/// numbers do. Two devices that are made of one noise have one key.
pub fn keys_differ()
    ensures device { DeviceKeysDiffer }
    ensures officer { OfficersKeysDiffer }
    ensures apart { KeysOfDevicesAreNoOfficers }
    ensures noise { OneNoiseMakesOneKey }
    ensures derived { KeysAreDerived }
    ensures regions { KeysOfOneDeviceDiffer }
{}

/// A call of `sign`, `countersign` or `cosign` leaves KEY as it was and signs nothing, or uses up one index before the
/// signature is written, or could not write KEY. What `cosign` signs is the body of DRAFT. So in any list of calls, each
/// over the KEY that the one before left, no two sign at one index, if KEY holds an old or a new key whenever a write
/// failed.
pub fn key_files_sign_once()
    ensures sign { SigningUsesUpItsIndex }
    ensures countersign { CountersigningUsesUpItsIndex }
    ensures cosign { CosigningSignsTheDraft }
    ensures unused { NothingIsSignedWithoutAnIndex }
    ensures turn { IndicesInTurnDiffer }
    ensures old { OldKeysSignAgain }
{}
