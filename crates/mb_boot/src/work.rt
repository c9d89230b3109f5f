//! The pending work of an order.

ghost use Rattle.std.specs.Prelude.{◌≡◌, ◌≤◌, ◌+◌, IsSome, OnOk, ◌*◌};
ghost use Rattle.mb_model.specs.declared.stored.Header.{Header};
ghost use Rattle.mb_model.specs.memories.Flash.{sector, HoldsHeader};
ghost use Rattle.mb_model.specs.memories.Sectors.{header_sector};
ghost use Rattle.mb_model.specs.memories.StoredLog.{signer_of};
ghost use Rattle.mb_board.specs.Calls.{RanOnBbram};
ghost use Rattle.mb_model_memory.specs.Holding.{KeepsMeaning};
ghost use Rattle.mb_area.specs.Roots.{IsOnlyRoot};
ghost use Rattle.mb_boot.specs.Calls.{DoesWork, SignsOnce, UsesTrees, WritesBeside};
ghost use Rattle.mb_boot.specs.Completions.{text_at_place};
ghost use Rattle.mb_boot.specs.Settling.{IsLiveWith, AppliesBoth, AddsToLog, CompletesLog, CountsLog, SignsRecord, Settles};
ghost use Rattle.mb_boot.specs.Signers.{HasSigner};
ghost use Rattle.mb_lms.specs.declared.hash_count.TheConstants.{SIGNING_HASHES};

use crate::pending::{settle_header, sign_next};
use mb_area::{Unsettled, Unwiped, Working, finish_root, read_header, write_log, write_public};
use mb_board::Board;
use mb_layout::Room;
use mb_lms::HashCount;
use mb_model::Root;
use mb_ratchet::{Off, Three, Two};
use mb_region::apply_fate;
use mb_signer::Bench;
use std::sync::ledger::Ledger;

/// Applies the fates that are pending for both regions.
#[tactic(auto, using(crate::proofs::Settled::two_is_pending, crate::proofs::Settled::keeps))]
fn apply_fates<B: Board>(
    w: Working,
    b: &mut B,
    root: &Root,
    room: &mut Room,
) -> Result<Working, Off>
    requires { IsLiveWith (B.seen b.old) root.now }
    ensures done { OnOk result (AppliesBoth (B.seen b.old).memory (B.seen b.new).memory) }
    ensures meaning { KeepsMeaning (B.seen b.old).memory (B.seen b.new).memory }
    ensures root { IsOnlyRoot (B.seen b.new).memory.bbram root.now }
    ensures ran { RanOnBbram 4 result (B.seen b.old) (B.seen b.new) }
{
    let w = apply_fate::<Working, Two, B>(w, b, &root.fate_of_two(), room)?;
    let w = apply_fate::<Working, Three, B>(w, b, &root.fate_of_three(), room)?;
    Ok(w)
}

/// Signs the unsigned entry at a place of the current header, 0 or 1, and writes it to its sector of the log, in at
/// most two write calls. Nothing is written if there is no entry at the place. `room.header` holds the current header
/// area.
fn write_entry<B: Board, L: Ledger>(
    w: Working,
    b: &mut B,
    root: &Root,
    place: u32,
    room: &mut Room,
    bench: &mut Bench,
    hashes: &mut HashCount<L>,
) -> Result<Working, Off>
    requires root { IsLiveWith (B.seen b.old) root.now }
    requires place { place ≤ 1 }
    requires header { room.old.header.items
        ≡ sector (B.seen b.old).memory.flash (header_sector root.now.area) }
    ensures written { WritesBeside (AddsToLog place) root.now.area 2 result (B.seen b.old)
        (B.seen b.new) }
    ensures header { room.new.header ≡ room.old.header }
    ensures kept { (header : Header)
        → HoldsHeader (B.seen b.old).memory.flash root.now.area header
        → IsSome (text_at_place header place) → HasSigner bench.new root.now place }
    ensures signing { SignsOnce (signer_of root.now place).key bench.old bench.new hashes.old
        hashes.new }
{
    let Some(position) = sign_next(root, place, room, bench, hashes) else {
        return Ok(w);
    };
    let w = write_log(w, b, position, room)?;
    Ok(w)
}

/// Signs each unsigned entry once, and writes it to its sector of the log. The current header area is left in
/// `room.header`. There are at most four write calls.
fn write_entries<B: Board, L: Ledger>(
    w: Working,
    b: &mut B,
    root: &Root,
    room: &mut Room,
    bench: &mut Bench,
    hashes: &mut HashCount<L>,
) -> Result<Working, Off>
    requires { IsLiveWith (B.seen b.old) root.now }
    ensures written { WritesBeside CompletesLog root.now.area 4 result (B.seen b.old)
        (B.seen b.new) }
    ensures header { room.new.header.items
        ≡ sector (B.seen b.new).memory.flash (header_sector root.now.area) }
    ensures trees { UsesTrees (B.seen b.old).memory.flash root.now result bench.old bench.new
        hashes.old hashes.new }
    ensures cost { hashes.new ≤ hashes.old + 2 * SIGNING_HASHES }
{
    read_header(b, root.area, room);
    let w = write_entry(w, b, root, 0, room, bench, hashes)?;
    let w = write_entry(w, b, root, 1, room, bench, hashes)?;
    Ok(w)
}

/// Writes the header that counts each entry as signed to the inactive header area, in at most two write calls.
/// `room.header` holds the current header area.
fn write_settled<B: Board>(
    w: Working,
    b: &mut B,
    root: &Root,
    room: &mut Room,
) -> Result<Working, Off>
    requires root { IsLiveWith (B.seen b.old) root.now }
    requires header { room.old.header.items
        ≡ sector (B.seen b.old).memory.flash (header_sector root.now.area) }
    ensures { WritesBeside CountsLog root.now.area 2 result (B.seen b.old) (B.seen b.new) }
{
    settle_header(room);
    let w = write_public(w, b, root.area, room)?;
    Ok(w)
}

/// Signs each unsigned entry once into the log, and counts it as signed in the inactive header area. There are at most
/// six write calls.
fn write_signed<B: Board, L: Ledger>(
    w: Working,
    b: &mut B,
    root: &Root,
    room: &mut Room,
    bench: &mut Bench,
    hashes: &mut HashCount<L>,
) -> Result<Working, Off>
    requires { IsLiveWith (B.seen b.old) root.now }
    ensures written { WritesBeside SignsRecord root.now.area 6 result (B.seen b.old)
        (B.seen b.new) }
    ensures trees { UsesTrees (B.seen b.old).memory.flash root.now result bench.old bench.new
        hashes.old hashes.new }
    ensures cost { hashes.new ≤ hashes.old + 2 * SIGNING_HASHES }
{
    let w = write_entries(w, b, root, room, bench, hashes)?;
    let w = write_settled(w, b, root, room)?;
    Ok(w)
}

/// Does the pending work: applies the fates of the regions, and signs each unsigned entry once. The memory has to mean
/// a state that a device can have, and the root record is the current one. The memory means the same state wherever
/// power fails, and afterwards nothing is pending. The sectors of the log that the header before counts keep their
/// bytes. There are at most 12 write calls, and 70,946 hashes. Not public: `boot` and `finish_order` alone call it, and
/// their clauses say what is left.
pub(crate) fn settle<B: Board, L: Ledger>(
    u: Unsettled,
    b: &mut B,
    room: &mut Room,
    bench: &mut Bench,
    hashes: &mut HashCount<L>,
) -> Result<Unwiped, Off>
    requires { IsLiveWith (B.seen b.old) u.root }
    ensures work { DoesWork Settles 12 result (B.seen b.old) (B.seen b.new) hashes.old hashes.new }
    ensures trees { UsesTrees (B.seen b.old).memory.flash u.root result bench.old bench.new
        hashes.old hashes.new }
{
    let Unsettled { working, root } = u;
    let w = apply_fates(working, b, &root, room)?;
    let w = write_signed(w, b, &root, room, bench, hashes)?;
    let unwiped = finish_root(w, b, &root, room)?;
    Ok(unwiped)
}
