//! A device that comes up, stopped at each of its writes.

ghost use Rattle.std.specs.Prelude.{◌≤◌};
ghost use Rattle.mb_test_cuts.specs.Staged.{IsLiveImage};

use super::calls::{After, Call, stopped};
use super::images::{BORN, ENTRY, Left, NEW_KEY, RENEWAL, SUCCESSION, device_of};
use super::states::{Device, is_same};
use hex::FromHex;
use mb_image::has_pending_work;
use mb_model::State;
use sha2::{Digest, Sha256};
use std::alloc::Global;
use std::process::Abort;
use std::test::Fail;

/// The bytes that fill a write in which power fails.
pub const FILLS: &[u8] = &[0, 0xff, 0x7e, 1];

/// More writes than any call makes.
pub const MANY: u32 = 300;

fn signatures_of(state: &State) -> [u8; 32] {
    let mut hasher = Sha256::new();
    for signed in state.log.as_slice() {
        hasher.update(&signed.signature);
    }
    hasher.finalize()
}

/// The state has the numbers of entries, uses and items, and the signatures, that the other program says.
fn expect_state(rt: &impl Abort, state: &State, left: &Left) -> Result<(), Fail> {
    let items = [
        state.two.secrets.as_slice().len(),
        state.two.keys.as_slice().len(),
        state.three.secrets.as_slice().len(),
        state.three.keys.as_slice().len(),
    ];
    assert_eq!(rt; state.log.as_slice().len(), left.entries.len());
    assert_eq!(rt; state.uses, left.uses);
    assert_eq!(rt; items, left.items);
    assert_eq!(rt;
        signatures_of(state),
        <[u8; 32] as FromHex>::from_hex(left.signatures)?
    );
    Ok(())
}

/// Whether a boot left this state, and, if power did not fail in it, a clean memory.
fn keeps(after: &After, like: &State) -> bool {
    (after.stopped || after.is_clean) && is_same(&after.device.state, like)
}

fn is_up(after: &After, like: &State) -> bool {
    !after.stopped && keeps(after, like)
}

/// The device comes up with its memory clean, and has this state.
fn comes_up(rt: &impl Abort, alloc: Global, image: &[u8], like: &State) -> Result<(), Fail>
    requires { IsLiveImage image.now }
{
    let after = stopped(alloc, image, Call::Boot, MANY, 0)?;
    assert!(rt; is_up(&after, like));
    Ok(())
}

/// The device keeps its state if power fails in write `count` of a boot, and once it is up after that. Answers whether
/// power failed.
fn fails_coming_up(
    rt: &impl Abort,
    alloc: Global,
    device: &Device,
    count: u32,
    fill: u8,
) -> Result<bool, Fail>
    requires live { IsLiveImage device.now.image.items }
    requires least { 1 ≤ count }
    requires most { count ≤ 100000 }
{
    let after = stopped(alloc, &device.image, Call::Boot, count, fill)?;
    assert!(rt; keeps(&after, &device.state));
    if after.stopped {
        comes_up(rt, alloc, &after.device.image, &device.state)?;
    }
    Ok(after.stopped)
}

/// The device keeps its state wherever power fails in a boot, and once it is up. Answers how many writes the boot
/// makes.
pub fn comes_up_at_last(
    rt: &impl Abort,
    alloc: Global,
    device: &Device,
    fill: u8,
) -> Result<u32, Fail>
    requires { IsLiveImage device.now.image.items }
{
    for count in 1..MANY {
        if !fails_coming_up(rt, alloc, device, count, fill)? {
            return Ok(count - 1);
        }
    }
    panic!(rt; "the writes do not end");
}

fn expect_writes(
    rt: &impl Abort,
    alloc: Global,
    device: &Device,
    fill: u8,
    writes: u32,
) -> Result<(), Fail>
    requires { IsLiveImage device.now.image.items }
{
    let found = comes_up_at_last(rt, alloc, device, fill)?;
    assert_eq!(rt; found, writes);
    Ok(())
}

/// The device keeps the state that the other program says wherever power fails in a boot, and once it is up. A boot
/// makes two writes for each region with pending work, two for each entry that is not signed, two for the header, two
/// for the root, and one for each area that is left with old bytes.
fn expect(rt: &impl Abort, alloc: Global, left: &Left, writes: u32) -> Result<(), Fail> {
    let device = device_of(alloc, left, None)?;
    expect_state(rt, &device.state, left)?;
    assert_eq!(rt; has_pending_work(&device.image), writes > 0);
    for fill in FILLS {
        expect_writes(rt, alloc, &device, *fill, writes)?;
    }
    Ok(())
}

#[test]
fn new_device_writes_nothing(rt: HostRuntime) -> Result<(), Fail> {
    expect(&rt, rt.alloc(), &BORN, 0)
}

#[test]
fn one_entry_is_signed(rt: HostRuntime) -> Result<(), Fail> {
    expect(&rt, rt.alloc(), &ENTRY, 10)
}

#[test]
fn next_device_key_is_signed(rt: HostRuntime) -> Result<(), Fail> {
    expect(&rt, rt.alloc(), &RENEWAL, 13)
}

#[test]
fn new_key_is_stored(rt: HostRuntime) -> Result<(), Fail> {
    expect(&rt, rt.alloc(), &NEW_KEY, 10)
}

#[test]
fn succession_is_signed(rt: HostRuntime) -> Result<(), Fail> {
    expect(&rt, rt.alloc(), &SUCCESSION, 13)
}
