//! Laws of the indices of device keys in a log.

ghost use Rattle.mb_model_runs.specs.IndexLaws.{EachHasInCharge, IndicesCountEntries, NoIndexSignsTwice};

/// Each entry of a valid state's log but the birth has a device key in charge, which an entry before it names. The
/// index of its signature counts the entries between the two, so that no two entries have one key and one index.
pub fn device_indices_are_used_once()
    ensures charge { EachHasInCharge }
    ensures index { IndicesCountEntries }
    ensures once { NoIndexSignsTwice }
{}
