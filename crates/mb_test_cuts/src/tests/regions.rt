//! Calls that replace a region, and a boot, stopped at each of their writes, as are the boots that follow.

ghost use Rattle.std.specs.Prelude.{◌≤◌, IfOk};
ghost use Rattle.mb_test_cuts.specs.Staged.{IsLiveImage};

use super::boots::{FILLS, MANY, comes_up_at_last};
use super::calls::{After, Call, region_of, stopped};
use super::images::{ENTRY, device_of};
use super::states::{Device, is_like, is_same};
use mb_model::Region;
use std::alloc::Global;
use std::process::Abort;
use std::test::Fail;

/// Region 2 of a device that has done what an order left, in version 1: a secret, and key 1.
const TWO: &str =
    "01010370696e043132333400000004010000000101bb85e69f768b454548412a965c3436199a21ceb74d969db602db1cb46e\
    4a5eefe94cd49a7cafd9830ae5d03bf0a7862d00";

/// Region 3 of the device of `TWO`: key 2.
const THREE: &str =
    "01000100000002002b98f80d867125f7622b17092bb5aec0baef31f723051f380f1ce09412fd2358fc74211fc5054269b941\
    06e0d3ee50f200";

/// Regions 2 and 3 after one more use of the key, in version 2.
const TWO_USED: &str =
    "02010370696e043132333400000004010000000101bb85e69f768b454548412a965c3436199a21ceb74d969db602db1c\
    b46e4a5eefe94cd49a7cafd9830ae5d03bf0a7862d01";

const THREE_USED: &str =
    "02000100000002002b98f80d867125f7622b17092bb5aec0baef31f723051f380f1ce09412fd2358fc74211fc50542\
    69b94106e0d3ee50f201";

/// Region 2 with another value of its secret, and region 3 with a secret.
const TWO_PUT: &str =
    "02010370696e043536373800000004010000000101bb85e69f768b454548412a965c3436199a21ceb74d969db602db1cb\
    46e4a5eefe94cd49a7cafd9830ae5d03bf0a7862d00";

const THREE_PUT: &str = "02010370696e043132333400000004010000000\
    2002b98f80d867125f7622b17092bb5aec0baef31f723051f380f1ce09412fd2358fc74211fc5054269b94106e0d3ee50f200";

/// Regions 2 and 3 with these secrets, after one more use of the key.
const TWO_PUT_USED: &str =
    "02010370696e043536373800000004010000000101bb85e69f768b454548412a965c3436199a21ceb74d969db602db1cb\
    46e4a5eefe94cd49a7cafd9830ae5d03bf0a7862d01";

const THREE_PUT_USED: &str = "02010370696e043132333400000004010000000\
    2002b98f80d867125f7622b17092bb5aec0baef31f723051f380f1ce09412fd2358fc74211fc5054269b94106e0d3ee50f201";

/// A call, the records of both regions after it, the number of its writes, and the bytes that fill a torn one.
struct Row {
    call: Call,
    two: &'static str,
    three: &'static str,
    writes: u32,
    fills: &'static [u8],
}

/// The device before a call, and the regions that the call leaves it.
#[derive(Drop)]
struct Wanted {
    before: Box<Device>,
    two: Region,
    three: Region,
}

/// The device that is to make the call: what an order left, or one that has done that.
fn before(alloc: Global, call: Call) -> Result<Box<Device>, Fail>
    ensures { IfOk result (λ device. IsLiveImage device.value.image.items) }
{
    let left = device_of(alloc, &ENTRY, None)?;
    match call {
        Call::Boot => Ok(left),
        _ => Ok(stopped(alloc, &left.image, Call::Boot, MANY, 0)?.device),
    }
}

fn wanted_of(alloc: Global, row: &Row) -> Result<Wanted, Fail>
    ensures { IfOk result (λ wanted. IsLiveImage wanted.before.value.image.items) }
{
    Ok(Wanted {
        before: before(alloc, row.call)?,
        two: region_of(alloc, row.two)?,
        three: region_of(alloc, row.three)?,
    })
}

/// Whether a call left the state before it, or that state with the wanted regions. If power did not fail, it left the
/// latter and a clean memory.
fn is_wanted(after: &After, wanted: &Wanted) -> bool {
    let state = &after.device.state;
    let like = &wanted.before.state;
    if is_like(state, like, &wanted.two, &wanted.three) {
        after.stopped || after.is_clean
    } else {
        after.stopped && is_same(state, like)
    }
}

/// Power fails in write `count` of a call: the device is as wanted, and keeps its state wherever power fails in the
/// boots that follow. Answers whether power failed in the call.
fn fails_in(
    rt: &impl Abort,
    alloc: Global,
    call: Call,
    wanted: &Wanted,
    count: u32,
    fill: u8,
) -> Result<bool, Fail>
    requires live { IsLiveImage wanted.now.before.value.image.items }
    requires least { 1 ≤ count }
    requires most { count ≤ 100000 }
{
    let after = stopped(alloc, &wanted.before.image, call, count, fill)?;
    assert!(rt; is_wanted(&after, wanted));
    comes_up_at_last(rt, alloc, &after.device, fill)?;
    Ok(after.stopped)
}

/// The device is as wanted wherever power fails in a call, and after it. Answers how many writes the call makes.
fn ends_at(
    rt: &impl Abort,
    alloc: Global,
    call: Call,
    wanted: &Wanted,
    fill: u8,
) -> Result<u32, Fail>
    requires { IsLiveImage wanted.now.before.value.image.items }
{
    for count in 1..MANY {
        if !fails_in(rt, alloc, call, wanted, count, fill)? {
            return Ok(count - 1);
        }
    }
    panic!(rt; "the writes do not end");
}

fn expect_writes(
    rt: &impl Abort,
    alloc: Global,
    row: &Row,
    wanted: &Wanted,
    fill: u8,
) -> Result<(), Fail>
    requires { IsLiveImage wanted.now.before.value.image.items }
{
    let found = ends_at(rt, alloc, row.call, wanted, fill)?;
    assert_eq!(rt; found, row.writes);
    Ok(())
}

/// The call makes its writes, and leaves the regions of these records.
fn expect(rt: &impl Abort, alloc: Global, row: &Row) -> Result<(), Fail> {
    let wanted = wanted_of(alloc, row)?;
    for fill in row.fills {
        expect_writes(rt, alloc, row, &wanted, *fill)?;
    }
    Ok(())
}

/// The device comes up, which replaces no region.
const COMES_UP: Row = Row {
    call: Call::Boot,
    two: TWO,
    three: THREE,
    writes: 10,
    fills: &[0xff],
};

/// Key 1 of region 2 is bound. The last of the three writes wipes the region before, as in each row that replaces one.
const BINDS_TWO: Row = Row {
    call: Call::BindTwo(1),
    two: TWO_USED,
    three: THREE,
    writes: 3,
    fills: FILLS,
};

/// Key 2 of region 3 is bound.
const BINDS_THREE: Row = Row {
    call: Call::BindThree(2),
    two: TWO,
    three: THREE_USED,
    writes: 3,
    fills: FILLS,
};

/// Region 2 takes another value and key 1 is bound, in one.
const BINDS_GIVEN_TWO: Row = Row {
    call: Call::BindGivenTwo(1, TWO_PUT),
    two: TWO_PUT_USED,
    three: THREE,
    writes: 3,
    fills: FILLS,
};

/// Region 3 takes a secret and key 2 is bound, in one.
const BINDS_GIVEN_THREE: Row = Row {
    call: Call::BindGivenThree(2, THREE_PUT),
    two: TWO,
    three: THREE_PUT_USED,
    writes: 3,
    fills: FILLS,
};

/// Another region 2 is stored.
const STORES_TWO: Row = Row {
    call: Call::StoreTwo(TWO_PUT),
    two: TWO_PUT,
    three: THREE,
    writes: 3,
    fills: FILLS,
};

/// Another region 3 is stored.
const STORES_THREE: Row = Row {
    call: Call::StoreThree(THREE_PUT),
    two: TWO,
    three: THREE_PUT,
    writes: 3,
    fills: FILLS,
};

#[test]
fn boot_after_a_stop_is_stopped_too(rt: HostRuntime) -> Result<(), Fail> {
    expect(&rt, rt.alloc(), &COMES_UP)
}

#[test]
fn key_of_region_two_is_bound(rt: HostRuntime) -> Result<(), Fail> {
    expect(&rt, rt.alloc(), &BINDS_TWO)
}

#[test]
fn key_of_region_three_is_bound(rt: HostRuntime) -> Result<(), Fail> {
    expect(&rt, rt.alloc(), &BINDS_THREE)
}

#[test]
fn key_is_bound_as_region_two_changes(rt: HostRuntime) -> Result<(), Fail> {
    expect(&rt, rt.alloc(), &BINDS_GIVEN_TWO)
}

#[test]
fn key_is_bound_as_region_three_changes(rt: HostRuntime) -> Result<(), Fail> {
    expect(&rt, rt.alloc(), &BINDS_GIVEN_THREE)
}

#[test]
fn region_two_is_stored(rt: HostRuntime) -> Result<(), Fail> {
    expect(&rt, rt.alloc(), &STORES_TWO)
}

#[test]
fn region_three_is_stored(rt: HostRuntime) -> Result<(), Fail> {
    expect(&rt, rt.alloc(), &STORES_THREE)
}
