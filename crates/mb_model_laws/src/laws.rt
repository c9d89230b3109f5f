//! Laws of the layers, their rules and the log: what the definitions give.

ghost use Rattle.std.specs.Prelude.{◌≤◌, List, length, ◌≢◌, []};
ghost use Rattle.mb_model.specs.owners.Layers.{IsLayers};
ghost use Rattle.mb_model.specs.owners.Log.{number_of, layers_of, uses_of_device_key, keys_made_by, RuledLog};
ghost use Rattle.mb_model_laws.specs.LayerLaws.{RunnableLayersAreReliable, ReliableLayersRun, OrdersPlaceWhatEntriesShow, EntriesShowWhatOrdersPlace, LayersStayLayers, UnreliableRegionsAreEmpty, LastLayersCount, LastDeviceCounts, UsedAfterTheLast, ChangesKeepRightly, NewKeysKeepRightly, OtherEntriesKeepRightly, NowIsAdmitted};
ghost use Rattle.mb_model.specs.declared.entry.Entry.{Entry};

/// A layer may run exactly if it and all beneath it are reliable.
pub fn runs_over_reliable()
    ensures each { RunnableLayersAreReliable }
    ensures all { ReliableLayersRun }
{}

/// What orders put in place is what log entries may show, except for the code: an entry shows only its name.
pub fn orders_and_entries_agree()
    ensures order { OrdersPlaceWhatEntriesShow }
    ensures entry { EntriesShowWhatOrdersPlace }
{}

/// After each change that is allowed, layer 1 has an owner and is reliable, and an unowned layer has no code, is not
/// reliable, and trusts never.
pub fn layers_stay_layers()
    ensures { LayersStayLayers }
{}

/// By each log that obeys the rules and has an entry, layer 1 has an owner and is reliable, and an unowned layer has no
/// code, is not reliable, and trusts never.
pub fn ruled_logs_have_layers()
    ensures { (log : List Entry) → RuledLog log → log ≢ [] → IsLayers (layers_of log) }
{}

/// The region of a layer that is not reliable is empty after each change, if that was so before.
pub fn unreliable_regions_are_empty()
    ensures { UnreliableRegionsAreEmpty }
{}

/// The layers of a log are those of the last entry that names layers. The device key is that of the last entry that
/// names one, and it has signed the entries after that.
pub fn the_last_counts()
    ensures layers { LastLayersCount }
    ensures device { LastDeviceCounts }
    ensures used { UsedAfterTheLast }
{}

/// A log that obeys the rules leaves its device key an index to sign with. No log counts more changes or more keys than
/// it has entries.
pub fn ruled_logs_are_bounded()
    ensures index { (log : List Entry) → RuledLog log → uses_of_device_key log ≤ 31 }
    ensures changes { (log : List Entry) → number_of log ≤ length log }
    ensures keys { (log : List Entry) → keys_made_by log ≤ length log }
{}

/// Forward and back agree. A region that was kept rightly is so after a change, with a new key, and over an entry that
/// is no change. What is put with the present number was admitted at each change since.
pub fn regions_stay_kept_rightly()
    ensures change { ChangesKeepRightly }
    ensures new_key { NewKeysKeepRightly }
    ensures other { OtherEntriesKeepRightly }
    ensures now { NowIsAdmitted }
{}
