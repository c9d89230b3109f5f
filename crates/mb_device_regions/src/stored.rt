//! The stored region of a device that is ready.

ghost use Rattle.std.specs.Prelude.{◌≡◌, ◌<◌, ◌⊎◌, OnOk, IfOk};
ghost use Rattle.mb_format.specs.Format.{IsBytes};
ghost use Rattle.mb_layout.specs.Plans.{SamePlans};
ghost use Rattle.mb_layout_edits.specs.Edits.{region_with_use};
ghost use Rattle.mb_model.specs.declared.state.State.{State};
ghost use Rattle.mb_model.specs.owners.Regions.{region_of, with_region};
ghost use Rattle.mb_model.specs.memories.Valid.{IsValidState};
ghost use Rattle.mb_board.specs.Calls.{IsUp};
ghost use Rattle.mb_model_memory.specs.Holding.{IsReady, HasReady};
ghost use Rattle.mb_model.specs.records.RegionFormat.{CanBeWritten};
ghost use Rattle.mb_outbound.specs.Binding.{AreKeysInOrder, HasUnspentKey, IsBound};
ghost use Rattle.mb_device_regions.specs.Secrets.{IsKeptRegion};
ghost use Rattle.mb_device_regions.specs.Calls.{Replaces};

use mb_board::Board;
use mb_layout::Room;
use mb_model::{KeySeed, NoMemory, Region};
use mb_outbound::{bind_region, put_region};
use mb_ratchet::{Off, Reaches};
use mb_region::{Named, read_stored};
use mb_signer::OneUse;
use std::alloc::Global;

/// Reads the stored region.
pub(crate) fn load<S: Reaches<L>, L: Named, B: Board>(
    alloc: Global,
    s: &S,
    b: &B,
    room: &mut Room,
) -> Result<Region, NoMemory>
    requires up { IsUp S.stage (B.seen b.now) }
    requires ready { HasReady (B.seen b.now).memory }
    ensures region { (state : State) → IsReady (B.seen b.now).memory state
        → IfOk result (λ region. region ≡ region_of state L.place) }
    ensures kept { IfOk result (λ region. IsKeptRegion region) }
    ensures plans { SamePlans room.old room.new }
{
    read_stored::<S, L, B>(alloc, s, b, room)
}

/// Makes this the region of the state that the memory means. If power fails, the memory means the state with the old
/// region or with this one. There are at most three write calls; if power does not fail, two if the old region was empty,
/// else three.
pub(crate) fn replace<S: Reaches<L>, L: Named, B: Board>(
    s: S,
    b: &mut B,
    region: &Region,
    room: &mut Room,
) -> Result<S, Off>
    requires up { IsUp S.stage (B.seen b.old) }
    requires bytes { IsBytes (B.seen b.old).memory.bbram }
    requires stored { CanBeWritten region.now }
    ensures { Replaces L.place region.now room.old room.new result (B.seen b.old) (B.seen b.new) }
{
    put_region::<S, L, B>(s, b, region, room)
}

/// Makes this region, with one more use of the key of this number, the region of the state that the memory means, and
/// returns the right to the key's next index, and its seed. If power fails, the memory means the state with the old
/// region or with the new one. There are at most three write calls; if power does not fail, two if the old region was
/// empty, else three.
pub(crate) fn rebind<S: Reaches<L>, L: Named, B: Board>(
    s: S,
    b: &mut B,
    key: u32,
    region: &mut Region,
    room: &mut Room,
) -> Result<(S, OneUse, KeySeed), Off>
    requires up { IsUp S.stage (B.seen b.old) }
    requires bytes { IsBytes (B.seen b.old).memory.bbram }
    requires ordered { AreKeysInOrder region.old }
    requires can_sign { HasUnspentKey region.old key }
    requires stored { CanBeWritten region.old }
    ensures bound { IfOk result (λ bound. IsBound region.old key bound.1 bound.2) }
    ensures replaces { Replaces L.place (region_with_use key region.old) room.old room.new result (B.seen b.old)
        (B.seen b.new) }
{
    bind_region::<S, L, B>(s, b, key, region, room)
}
