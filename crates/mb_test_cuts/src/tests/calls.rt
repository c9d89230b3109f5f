//! The calls that are stopped.

ghost use Rattle.std.specs.Prelude.{◌≡◌, ◌<◌, ◌≤◌, length, IfOk, false};
ghost use Rattle.mb_model.specs.outside.Board.{IsLoaded};
ghost use Rattle.mb_model.specs.memories.Memory.{area_of_slot};
ghost use Rattle.mb_model.specs.records.RootFormat.{root_format};
ghost use Rattle.mb_model.specs.records.RegionFormat.{CanBeWritten};
ghost use Rattle.mb_region.specs.Regions.{HoldsSomeRegion};
ghost use Rattle.mb_boot.specs.Booting.{StandsForValid};
ghost use Rattle.mb_test_cuts.specs.Staged.{IsLiveImage, IsReadyForCalls};

use super::board::{armed_board, wake};
use super::states::{Device, is_clean, read};
use mb_area::{Unsettled, commit_root};
use mb_board::{Board, SimBoard};
use mb_boot::{BootEnd, boot};
use mb_layout::{ReadEnd, Room, region_of_bytes, root_of_bytes};
use mb_lms::HashCount;
use mb_model::{Items, Region, Root};
use mb_outbound::{BindEnd, bind, bind_region, check_key, put_region};
use mb_ratchet::{Off, One, R1, Reaches, Register, Three, Two, Up};
use mb_region::{Named, read_stored};
use mb_signer::sign;
use std::alloc::Global;
use std::marker::Brand;
use std::sync::ledger::{Blank, Ledger};
use std::test::Fail;

/// A call that writes. Records are in hexadecimal.
#[derive(Clone, Copy)]
pub enum Call {
    /// The device comes up.
    Boot,
    /// The key of this number is bound, in region 2.
    BindTwo(u32),
    BindThree(u32),
    /// The key of this number is bound in the region of this record, which becomes region 2.
    BindGivenTwo(u32, &'static str),
    BindGivenThree(u32, &'static str),
    /// The region of this record is stored.
    StoreTwo(&'static str),
    StoreThree(&'static str),
    /// The root of this record is made current.
    PutRoot(&'static str),
}

/// What a call left.
#[derive(Drop)]
pub struct After {
    /// Whether power failed in it.
    pub stopped: bool,
    pub is_clean: bool,
    pub device: Box<Device>,
}

/// The region that the record spells.
pub fn region_of(alloc: Global, record: &str) -> Result<Region, Fail>
    ensures { IfOk result CanBeWritten }
{
    let bytes = hex::decode(alloc, record)?;
    if bytes.len() > 4094 {
        return Err("the record is long")?;
    }
    match region_of_bytes(alloc, &bytes) {
        Ok(region) => Ok(region),
        Err(_) => Err("no region")?,
    }
}

/// The root that the record spells.
fn root_of(alloc: Global, record: &str) -> Result<Root, Fail>
    ensures { IfOk result (λ root. root_format.Allowed root) }
{
    let bytes = hex::decode(alloc, record)?;
    if bytes.len() > 4094 {
        return Err("the record is long")?;
    }
    match root_of_bytes(&bytes) {
        Ok(root) => Ok(root),
        Err(_) => Err("no root")?,
    }
}

/// Boots the device, and answers whether power failed.
#[tactic(auto, using(crate::proofs::Staging::still_loaded))]
fn come_up<L: Ledger>(
    alloc: Global,
    board: &mut SimBoard,
    hashes: &mut HashCount<L>,
) -> Result<bool, Fail>
    requires off { board.old.power ≡ false }
    requires stands { StandsForValid board.old.memory }
    ensures loaded { IsLoaded board.new.memory }
{
    match boot(alloc, Off::first(board), board, hashes) {
        Ok((_up, _room)) => Ok(false),
        Err(BootEnd::Stopped(_off)) => Ok(true),
        Err(_) => Err("the device does not come up")?,
    }
}

/// Binds a key of a region and signs a message with it, and answers whether power failed.
fn bind_key<P: Named, L: Ledger>(
    alloc: Global,
    board: &mut SimBoard,
    key: u32,
    hashes: &mut HashCount<L>,
) -> Result<bool, Fail>
    requires off { board.old.power ≡ false }
    requires loaded { IsLoaded board.old.memory }
    requires held { HoldsSomeRegion (area_of_slot board.old.memory.bbram P.place) }
    ensures loaded { IsLoaded board.new.memory }
{
    let mut room = Room::new(alloc)?;
    let up = wake(board);
    let region = read_stored::<Up<R1>, P, SimBoard>(alloc, &up, board, &mut room)?;
    if region.keys.as_slice().len() > 1 {
        return Err("the region has several keys")?;
    }
    match bind::<Up<R1>, P, SimBoard>(up, board, key, &mut room) {
        Ok((_up, right, seed)) => {
            sign(right, &seed, &[], &[], &mut [0; 2348], hashes);
            Ok(false)
        }
        Err(BindEnd::Stopped(_off)) => Ok(true),
        Err(BindEnd::NoKey(_up) | BindEnd::Spent(_up)) => Err("the key is not bound")?,
    }
}

/// Binds a key of a region that is given and takes the stored one's place, signs a message with it, and answers whether
/// power failed.
#[tactic(auto, using(crate::proofs::Staging::can_sign))]
fn bind_given<P: Named, L: Ledger>(
    alloc: Global,
    board: &mut SimBoard,
    key: u32,
    record: &str,
    hashes: &mut HashCount<L>,
) -> Result<bool, Fail>
    requires off { board.old.power ≡ false }
    requires loaded { IsLoaded board.old.memory }
    ensures loaded { IsLoaded board.new.memory }
{
    let mut room = Room::new(alloc)?;
    let mut region = region_of(alloc, record)?;
    if region.keys.as_slice().len() > 1 {
        return Err("the region has several keys")?;
    }
    let Ok(Some(_key)) = check_key(&region, Some(key)) else {
        return Err("the key is not bound")?;
    };
    let up = wake(board);
    match bind_region::<Up<R1>, P, SimBoard>(up, board, key, &mut region, &mut room) {
        Ok((_up, right, seed)) => {
            sign(right, &seed, &[], &[], &mut [0; 2348], hashes);
            Ok(false)
        }
        Err(_off) => Ok(true),
    }
}

/// Stores a region and wipes the one before it, and answers whether power failed.
fn store_region<P: Named>(alloc: Global, board: &mut SimBoard, record: &str) -> Result<bool, Fail>
    requires off { board.old.power ≡ false }
    requires loaded { IsLoaded board.old.memory }
    ensures loaded { IsLoaded board.new.memory }
{
    let mut room = Room::new(alloc)?;
    let region = region_of(alloc, record)?;
    let up = wake(board);
    Ok(put_region::<Up<R1>, P, SimBoard>(up, board, &region, &mut room).is_err())
}

/// Makes a root current, and answers whether power failed.
fn put_root(alloc: Global, board: &mut SimBoard, record: &str) -> Result<bool, Fail>
    requires off { board.old.power ≡ false }
    requires loaded { IsLoaded board.old.memory }
    ensures loaded { IsLoaded board.new.memory }
{
    let mut room = Room::new(alloc)?;
    let root = root_of(alloc, record)?;
    let up = wake(board);
    match commit_root(up, board, &root, &mut room) {
        Ok(unsettled) => {
            board.power_off();
            let Unsettled {
                working,
                root: _root,
            } = unsettled;
            let _off = Reaches::<One>::lost(working, board);
            Ok(false)
        }
        Err(_off) => Ok(true),
    }
}

/// Makes the call, and answers whether power failed in it.
fn make<L: Ledger>(
    alloc: Global,
    call: Call,
    board: &mut SimBoard,
    hashes: &mut HashCount<L>,
) -> Result<bool, Fail>
    requires off { board.old.power ≡ false }
    requires ready { IsReadyForCalls board.old.memory }
    ensures { IsLoaded board.new.memory }
{
    match call {
        Call::Boot => come_up(alloc, board, hashes),
        Call::BindTwo(key) => bind_key::<Two, L>(alloc, board, key, hashes),
        Call::BindThree(key) => bind_key::<Three, L>(alloc, board, key, hashes),
        Call::BindGivenTwo(key, record) => bind_given::<Two, L>(alloc, board, key, record, hashes),
        Call::BindGivenThree(key, record) => {
            bind_given::<Three, L>(alloc, board, key, record, hashes)
        }
        Call::StoreTwo(record) => store_region::<Two>(alloc, board, record),
        Call::StoreThree(record) => store_region::<Three>(alloc, board, record),
        Call::PutRoot(record) => put_root(alloc, board, record),
    }
}

/// Makes the call on a board with this image, with a power loss armed for write `count`, and answers whether power
/// failed.
#[tactic(auto, using(crate::proofs::Staging::live_length))]
fn make_on<L: Ledger>(
    alloc: Global,
    image: &mut [u8],
    call: Call,
    count: u32,
    fill: u8,
    hashes: &mut HashCount<L>,
) -> Result<bool, Fail>
    requires live { IsLiveImage image.old }
    requires least { 1 ≤ count }
    requires most { count ≤ 100000 }
{
    let mut board = armed_board(alloc, image, count, fill)?;
    let stopped = make(alloc, call, &mut board, hashes)?;
    board.copy_image(image);
    Ok(stopped)
}

#[tactic(auto, using(crate::proofs::Staging::live_length))]
fn stopped_counted<L: Ledger>(
    alloc: Global,
    image: &[u8],
    call: Call,
    count: u32,
    fill: u8,
    blank: Blank,
) -> Result<After, Fail>
    requires name { blank.name ≡ L.name }
    requires parts { blank.parts ≡ L.parts }
    requires some { 0 < blank.parts }
    requires live { IsLiveImage image.now }
    requires least { 1 ≤ count }
    requires most { count ≤ 100000 }
    ensures { IfOk result (λ after. IsLiveImage after.device.value.image.items) }
{
    let mut hashes = HashCount::<L>::begin(alloc, blank);
    let mut image = Vec::from_slice(alloc, image)?;
    let stopped = make_on(alloc, &mut image, call, count, fill, &mut hashes)?;
    let device = read(alloc, image, &mut hashes)?;
    let is_clean = is_clean(&device.image);
    Ok(After {
        stopped,
        is_clean,
        device,
    })
}

/// What a call leaves of an image if power fails in write `count` of the call and leaves all bytes of that write as
/// `fill`.
pub fn stopped(alloc: Global, image: &[u8], call: Call, count: u32, fill: u8) -> Result<After, Fail>
    requires live { IsLiveImage image.now }
    requires least { 1 ≤ count }
    requires most { count ≤ 100000 }
    ensures { IfOk result (λ after. IsLiveImage after.device.value.image.items) }
{
    stopped_counted::<Brand>(alloc, image, call, count, fill, Blank::new(1))
}
