//! Laws of what owners can always do.

ghost use Rattle.mb_model_histories.specs.RepairLaws.{EachLiveDeviceComesToLayerOne, BootsCanBeTriedAgain, DeadDevicesNeverBoot, LayerOneCanAlwaysBeLoaded, LayersCanAlwaysBeRecovered, LayersCanAlwaysBeGiven, OneEntryIsNotEnough, OnlyTheOwnerBeneathRecovers};

/// Wherever a live device is, `off` and `boot` lead to layer 1. A boot that finds no memory, or at which power fails,
/// leaves the device as it was, to be booted again.
pub fn live_devices_come_to_layer_one()
    ensures comes { EachLiveDeviceComesToLayerOne }
    ensures boots { BootsCanBeTriedAgain }
    ensures dead { DeadDevicesNeverBoot }
{}

/// As long as the log has room, the owner of layer 1 can load it, and the owner beneath layer 2 or 3 can load that
/// layer in an emergency, or give it an owner if it has none, wherever the device is. For layers 2 and 3 one entry may
/// be too little room. Only the owner beneath can repair a layer that is not reliable.
pub fn owners_beneath_can_always_act()
    ensures load { LayerOneCanAlwaysBeLoaded }
    ensures recover { LayersCanAlwaysBeRecovered }
    ensures give { LayersCanAlwaysBeGiven }
    ensures room { OneEntryIsNotEnough }
    ensures alone { OnlyTheOwnerBeneathRecovers }
{}
