//! Demands of code, done on the secrets of a region.

ghost use Rattle.std.specs.Prelude.{All};
ghost use Rattle.mb_appvm.specs.Asking.{demand_of, demands_of};
ghost use Rattle.mb_model.specs.machine.Actions.{demand_format};
ghost use Rattle.mb_device_regions.specs.Demands.{shown_secrets, AreKept, MeetsDemand, MeetsDemands};

use crate::listed::{Listed, Shown, discard, keep};
use mb_appvm::{Demand, Demands};

/// Does what is demanded at this configuration number; false if there is no room for it.
fn meet<'a>(listed: &mut Listed<'a>, demand: Demand<'a>, number: u32) -> bool
    requires kept { AreKept (shown_secrets listed.old.items) }
    requires demand { demand_format.Allowed (demand_of demand) }
    ensures { MeetsDemand number (demand_of demand.entry) (shown_secrets listed.old.items) result
        (shown_secrets listed.new.items) }
{
    match demand {
        Demand::Keep { name, value } => keep(
            listed,
            Shown {
                name,
                value,
                born: number,
            },
        ),
        Demand::Drop { name } => {
            discard(listed, name);
            true
        }
    }
}

/// Does all that is demanded at this configuration number, in its order; false if there is no room for it.
pub fn meet_all<'a>(listed: &mut Listed<'a>, demands: Demands<'a>, number: u32) -> bool
    requires kept { AreKept (shown_secrets listed.old.items) }
    requires demands { All demand_format.Allowed (demands_of demands) }
    ensures { MeetsDemands number (demands_of demands.entry) (shown_secrets listed.old.items) result
        (shown_secrets listed.new.items) }
{
    let mut demands = demands;
    while let Some(demand) = demands.take() {
        if !meet(listed, demand, number) {
            return false;
        }
    }
    true
}
