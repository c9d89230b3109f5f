//! A root that is made current, with a selector that held zero.

ghost use Rattle.std.specs.Prelude.{◌≤◌};
ghost use Rattle.mb_test_cuts.specs.Staged.{IsLiveImage};

use super::boots::comes_up_at_last;
use super::calls::{Call, stopped};
use super::images::{BORN, Next, device_of};
use super::states::Device;
use mb_model::State;
use std::alloc::Global;
use std::process::Abort;
use std::test::Fail;

/// The header, in the second header area, of the device of `BORN` once layer 2 has an owner, and the entry of that
/// change.
const NEXT: Next = Next {
    header: "4d424831010000000f00000000000000000000000200",
    entry: "01000000010000000101020000070000000005000000035fbf6e19e56a012089bf1ee10e30e07dc43caf0ed4b61d72dc\
        82c678bbb59b85f770acbdd748edd0b30b8ed1543afdbf3cdc5a15226b47b541482fdb80594d173303cdde06a5cf5212\
        0227461d1ba1ed0000000101000000000500000003d7fa2bbf985c7c1b2fcd5493f0d0ab60e05304e71bd5429fe4a75a\
        367036f41aff327c57e5a17d8e9f94ae177816f284000100",
};

/// The root of the device of `NEXT`, which names the second header area.
const NEXT_ROOT: &str =
    "01010144b1defcf7561087015f8d830d65b1e4f1a113ee7ce457619d3d0d324c363a9340c5a93a0446d41683fa018ee7055348\
    4f9ac0794cd0c20074f6d1e05dddd00100";

/// Whether the state is the one that the next root means.
fn is_next(state: &State) -> bool {
    state.log.as_slice().len() == 2
}

/// Power fails in write `count` of the call that makes the next root current. The next root is then current exactly if
/// `is_put`, and the device keeps that state when it comes up.
fn expect_torn(
    rt: &impl Abort,
    alloc: Global,
    device: &Device,
    count: u32,
    fill: u8,
    is_put: bool,
) -> Result<(), Fail>
    requires live { IsLiveImage device.now.image.items }
    requires least { 1 ≤ count }
    requires most { count ≤ 100000 }
{
    let after = stopped(alloc, &device.image, Call::PutRoot(NEXT_ROOT), count, fill)?;
    assert!(rt; after.stopped);
    assert!(rt; is_next(&after.device.state) == is_put);
    comes_up_at_last(rt, alloc, &after.device, fill)?;
    Ok(())
}

/// Checks which root is current after a power loss in write `count`, for each fill.
fn expect(rt: &impl Abort, alloc: Global, count: u32, rows: &[(u8, bool)]) -> Result<(), Fail>
    requires least { 1 ≤ count }
    requires most { count ≤ 100000 }
{
    let device = device_of(alloc, &BORN, Some(&NEXT))?;
    for (fill, is_put) in rows {
        expect_torn(rt, alloc, &device, count, *fill, *is_put)?;
    }
    Ok(())
}

/// Fills of a torn root, which is never current.
const ROOT: &[(u8, bool)] = &[(0, false), (0xff, false), (0x7e, false), (1, false)];

/// Fills of a torn selector, which counts by its parity: 0 and 0x7e leave the old root current, 0xff and 1 make the
/// next one current.
const SELECTOR: &[(u8, bool)] = &[(0, false), (0xff, true), (0x7e, false), (1, true)];

#[test]
fn torn_root_is_not_in_force(rt: HostRuntime) -> Result<(), Fail> {
    expect(&rt, rt.alloc(), 1, ROOT)
}

#[test]
fn torn_selector_is_the_one_or_the_other(rt: HostRuntime) -> Result<(), Fail> {
    expect(&rt, rt.alloc(), 2, SELECTOR)
}
