//! Laws of the regions: each stays one that a device can have, whatever is done, and what is to be done to one is a fate.

ghost use Rattle.mb_model_lemmas.specs.RegionLaws.{ChangesKeepRegionsValid, NewKeysKeepRegionsValid, OtherKeysKeepRegionsValid, SuccessionsKeepRegionsValid, OtherEntriesKeepRegionsValid, PutsKeepRegionsValid, DropsKeepRegionsValid, UsesKeepRegionsValid, ValidLogsAreRuled, RegionsOfValidStates, StatesWithAnotherRegion, PutsKeepStatesValid, GetsKeepStatesValid, DropsKeepStatesValid, SignsKeepStatesValid, SuccessionsKeepBothValid, ChangesKeepBothValid, NewKeysKeepBothValid, RegionNumbersIncrease, HighNumbersAreNotThere, KeysAreFoundByNumber, KeysAreUsedByNumber, TwiceFatedIsFated, KeptIsAsBefore, ChangesAreFates, NewKeysAreFates, ChangedStatesAreFated, KeyedStatesAreFated, RegionKeysLive, LivingKeysStand};

/// A region that a device with some log can have stays one over each further entry: a change, a new key of its layer or
/// of another, a succession, and any other that neither changes a layer nor makes a key of its layer.
pub fn regions_stay_valid()
    ensures change { ChangesKeepRegionsValid }
    ensures new_key { NewKeysKeepRegionsValid }
    ensures other_key { OtherKeysKeepRegionsValid }
    ensures succession { SuccessionsKeepRegionsValid }
    ensures other { OtherEntriesKeepRegionsValid }
{}

/// A region that a device can have stays one over what its layer does, if that may run: it puts a secret, drops one, or
/// uses a key.
pub fn layers_keep_regions_valid()
    ensures put { PutsKeepRegionsValid }
    ensures drop { DropsKeepRegionsValid }
    ensures used { UsesKeepRegionsValid }
{}

/// The log of a valid state obeys the rules, each of its regions is valid, and the state stays valid with another valid
/// region.
pub fn valid_states_have_valid_regions()
    ensures log { ValidLogsAreRuled }
    ensures region { RegionsOfValidStates }
    ensures another { StatesWithAnotherRegion }
{}

/// Whatever a layer does with region 2 or 3 leads from a valid state to a valid state.
pub fn layers_keep_states_valid()
    ensures put { PutsKeepStatesValid }
    ensures get { GetsKeepStatesValid }
    ensures drop { DropsKeepStatesValid }
    ensures sign { SignsKeepStatesValid }
{}

/// Whatever an order does leaves both regions valid: the device key gives way to the next, a layer is changed, a key is
/// made.
pub fn orders_keep_regions_valid()
    ensures succession { SuccessionsKeepBothValid }
    ensures change { ChangesKeepBothValid }
    ensures new_key { NewKeysKeepBothValid }
{}

/// The keys of a region stand in the order of their numbers, which are below the next key's, so that a number names one
/// key.
pub fn region_keys_have_numbers()
    ensures increase { RegionNumbersIncrease }
    ensures high { HighNumbersAreNotThere }
    ensures found { KeysAreFoundByNumber }
    ensures used { KeysAreUsedByNumber }
{}

/// What is to be done to a region is one of four fates. A fate that is done twice leaves what it leaves when done once.
pub fn fates_are_done_once()
    ensures twice { TwiceFatedIsFated }
    ensures kept { KeptIsAsBefore }
    ensures change { ChangesAreFates }
    ensures new_key { NewKeysAreFates }
{}

/// What an order leaves of each region is what one of four fates leaves of it.
pub fn orders_are_fates()
    ensures changed { ChangedStatesAreFated }
    ensures keyed { KeyedStatesAreFated }
{}

/// A key stands in a valid region exactly if it is alive by the log.
pub fn region_keys_are_alive()
    ensures standing { RegionKeysLive }
    ensures living { LivingKeysStand }
{}
