//! The root record in its slot.

ghost use Rattle.std.specs.Prelude.{◌≡◌, ◌≤◌, length, vec_capacity};
ghost use Rattle.mb_format.specs.Format.{IsBytes, Spells};
ghost use Rattle.mb_layout.specs.Plans.{SamePlans};
ghost use Rattle.mb_model.specs.declared.limits.TheConstants.{AREA_LENGTH, RECORD_LIMIT};
ghost use Rattle.mb_model.specs.declared.stored.Root.{Root};
ghost use Rattle.mb_model.specs.records.RootFormat.{root_format};
ghost use Rattle.mb_model.specs.memories.Memory.{HoldsRecord};
ghost use Rattle.mb_board.specs.Calls.{IsUp};
ghost use Rattle.mb_slot.specs.Slots.{CanUse};
ghost use Rattle.mb_area.specs.Roots.{HoldsSomeRoot, HasSomeRoot, IsOnlyRoot, settled_root};
ghost use Rattle.mb_area.specs.Calls.{StoresRoot, MakesRootCurrent, FinishesRoot, WipesRoot};

use crate::state::{Unsettled, Unwiped, Working, unsettled_by};
use mb_board::{Board, Stopped};
use mb_layout::{Room, fill_area, make_area, root_in, write_root};
use mb_model::Root;
use mb_ratchet::{Off, One, R1, Reaches, Up};
use mb_slot::{commit, read_current, wipe_other};

/// The number of the root's slot.
pub(crate) const ROOT_SLOT: u16 = 1;

/// The root record that the area holds.
fn held_root(area: &[u8]) -> Root
    requires { HoldsSomeRoot area.now }
    ensures holds { HoldsRecord root_format area.now result }
    ensures only { (root : Root) → HoldsRecord root_format area.now root → root ≡ result }
{
    let Some(root) = root_in(area) else {
        unreachable!()
    };
    root
}

/// Reads the current root record.
pub fn read_root<B: Board>(b: &B, room: &mut Room) -> Root
    requires can_use { CanUse (B.seen b.now) 1 }
    requires root { HasSomeRoot (B.seen b.now).memory }
    ensures current { IsOnlyRoot (B.seen b.now).memory.bbram result }
    ensures area { result.area ≤ 1 }
    ensures plans { SamePlans room.old room.new }
{
    make_area(&mut room.area);
    read_current(b, ROOT_SLOT, &mut room.area);
    held_root(&room.area)
}

/// Replaces `out` by the bytes of the root record.
fn root_bytes(root: &Root, out: &mut Vec<u8>)
    requires allowed { root_format.Allowed root.now }
    requires room { AREA_LENGTH ≤ vec_capacity out.old }
    ensures spelled { Spells root_format out.new.items root.now }
    ensures bytes { IsBytes out.new.items }
    ensures short { length out.new.items ≤ RECORD_LIMIT }
    ensures capacity { vec_capacity out.old ≤ vec_capacity out.new }
{
    out.clear();
    let _ = write_root(root, out);
}

/// Makes this root record the current one. If power fails, this one or the one before is current. There are at most two
/// write calls.
fn store_root<B: Board>(b: &mut B, root: &Root, room: &mut Room) -> Result<(), Stopped>
    requires can_use { CanUse (B.seen b.old) 1 }
    requires allowed { root_format.Allowed root.now }
    ensures { StoresRoot root.now room.old room.new result (B.seen b.old) (B.seen b.new) }
{
    root_bytes(root, &mut room.other);
    make_area(&mut room.area);
    fill_area(&room.other, &mut room.area);
    commit(b, ROOT_SLOT, &room.area)
}

/// Commits the root record that an order leaves; the header area that it names holds the header after the order. If
/// power fails, this root record or the one before is current. There are at most two write calls.
pub fn commit_root<B: Board>(
    up: Up<R1>,
    b: &mut B,
    root: &Root,
    room: &mut Room,
) -> Result<Unsettled, Off>
    requires up { IsUp 1 (B.seen b.old) }
    requires allowed { root_format.Allowed root.now }
    ensures { MakesRootCurrent root.now room.old room.new result (B.seen b.old) (B.seen b.new) }
{
    match store_root(b, root, room) {
        Ok(()) => Ok(unsettled_by(up, root)),
        Err(Stopped) => Err(Reaches::<One>::lost(up, b)),
    }
}

/// The root record of the same device with nothing pending, and with its header in the other header area.
fn settled_root(root: &Root) -> Root
    requires { root.now.area ≤ 1 }
    ensures { result ≡ settled_root root.now }
{
    Root {
        area: 1 - root.area,
        serial: root.serial,
        device: root.device,
        uses: root.uses,
        pending: None,
    }
}

/// Commits the root record that says that nothing is pending. `root` is the current one. Both fates have been applied,
/// and the inactive header area counts every entry as signed. If power fails, this root record or the one before is
/// current. There are at most two write calls. Its condition is a premise of its clauses (`Finishes`), and no
/// `requires`: so it stands once, and a caller shows it where it uses them.
pub fn finish_root<B: Board>(
    w: Working,
    b: &mut B,
    root: &Root,
    room: &mut Room,
) -> Result<Unwiped, Off>
    requires up { IsUp 1 (B.seen b.old) }
    requires root { IsOnlyRoot (B.seen b.old).memory.bbram root.now }
    ensures { FinishesRoot room.old room.new result (B.seen b.old) (B.seen b.new) }
{
    match store_root(b, &settled_root(root), room) {
        Ok(()) => Ok(unwiped(w)),
        Err(Stopped) => Err(Reaches::<One>::lost(w, b)),
    }
}

/// The state after the last of the work is done.
fn unwiped(w: Working) -> Unwiped {
    let Working { up } = w;
    Unwiped { up }
}

/// Sets each byte of the root's inactive area to zero, and writes nothing if each is zero already. There is at most one
/// write call.
pub fn wipe_root<B: Board>(w: Unwiped, b: &mut B) -> Result<Up<R1>, Off>
    requires up { IsUp 1 (B.seen b.old) }
    ensures { WipesRoot result (B.seen b.old) (B.seen b.new) }
{
    let Unwiped { up } = w;
    match wipe_other(b, ROOT_SLOT) {
        Ok(()) => Ok(up),
        Err(Stopped) => Err(Reaches::<One>::lost(up, b)),
    }
}
