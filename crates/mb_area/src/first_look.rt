//! The first look at a device that comes up: which work is left in it.

ghost use Rattle.std.specs.Prelude.{◌≡◌};
ghost use Rattle.mb_layout.specs.Plans.{SamePlans};
ghost use Rattle.mb_model.specs.declared.stored.Root.{Root};
ghost use Rattle.mb_model.specs.memories.Memory.{inactive_area_of_slot};
ghost use Rattle.mb_model.specs.memories.Meaning.{RootIn};
ghost use Rattle.mb_board.specs.Calls.{IsUp};
ghost use Rattle.mb_area.specs.Roots.{HasSomeRoot};
ghost use Rattle.mb_area.specs.Look.{IsLooked};

use crate::root::{ROOT_SLOT, read_root};
use crate::state::{Unsettled, Unwiped, unsettled_by};
use mb_board::Board;
use mb_layout::Room;
use mb_ratchet::{R1, Up};
use mb_slot::is_other_blank;

/// The work that is left in a device.
pub enum Looked {
    /// Nothing is pending, and the root's inactive area is all zero.
    Settled(Up<R1>),
    /// The root record, which comes with it, says that work is pending.
    Unsettled(Unsettled),
    /// Nothing is pending, and the root's inactive area is not all zero.
    Unwiped(Unwiped),
}

/// Finds the work that is left, by the current root record and the root's inactive area. Writes nothing and takes no
/// memory.
pub fn look<B: Board>(up: Up<R1>, b: &mut B, room: &mut Room) -> Looked
    requires up { IsUp 1 (B.seen b.old) }
    requires root { HasSomeRoot (B.seen b.old).memory }
    ensures looked { (root : Root) → RootIn (B.seen b.old).memory.bbram root
        → IsLooked result root (inactive_area_of_slot (B.seen b.old).memory.bbram 1) }
    ensures same { B.seen b.new ≡ B.seen b.old }
    ensures plans { SamePlans room.old room.new }
{
    let root = read_root(b, room);
    if root.pending.is_some() {
        return Looked::Unsettled(unsettled_by(up, &root));
    }
    if is_other_blank(b, ROOT_SLOT) {
        return Looked::Settled(up);
    }
    Looked::Unwiped(Unwiped { up })
}
