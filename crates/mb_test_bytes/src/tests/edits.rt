//! Edits of stored bytes.

use super::spelled::bytes_of;
use super::values::KEY_NINE;
use super::vectors;
use mb_layout_edits::{NotUsed, fate_record, use_in_record};
use mb_model::{Fate, REGION_LIMIT, RegionKey};
use std::alloc::Global;
use std::process::Abort;
use std::test::Fail;

/// The fate turns the record `text` into `expected`.
fn fate_gives(
    rt: &impl Abort,
    alloc: Global,
    text: &str,
    fate: &Fate,
    expected: &str,
) -> Result<(), Fail> {
    let bytes = bytes_of(alloc, text)?;
    let wanted = bytes_of(alloc, expected)?;
    let mut out = Vec::with_capacity(alloc, REGION_LIMIT)?;
    fate_record(bytes.as_slice(), fate, &mut out);
    assert!(rt; out.as_slice() == wanted.as_slice());
    Ok(())
}

/// The region of the vectors without its configuration key, in version 2.
const EPOCH_ALONE: &str = "02020370696e043132333400000102017400000000030100000002\
    005757575757575757575757575757575758585858585858585858585858585858585858585858585858\
    5858585858585820";

/// Regions, their fates, and what they become, in version 2.
const FATES: &[(&str, Fate, &str)] = &[
    (vectors::OLD_REGION, Fate::Keep, vectors::REGION),
    (vectors::OLD_REGION, Fate::DropConfiguration, EPOCH_ALONE),
    (vectors::OLD_LONE_KEY, Fate::DropConfiguration, ""),
    (
        vectors::OLD_LONE_KEY,
        Fate::AddKey(KEY_NINE),
        vectors::LONE_KEY,
    ),
    (vectors::REGION, Fate::Keep, vectors::REGION),
    (vectors::REGION, Fate::Empty, ""),
    (vectors::REGION, Fate::DropConfiguration, EPOCH_ALONE),
    (vectors::LONE_KEY, Fate::DropConfiguration, ""),
    (EPOCH_ALONE, Fate::AddKey(KEY_NINE), vectors::REGION),
    (vectors::REGION, Fate::AddKey(UNUSED), vectors::REGION),
    ("", Fate::AddKey(KEY_NINE), vectors::LONE_KEY),
];

/// Key 9 before its first use.
const UNUSED: RegionKey = RegionKey {
    uses: 0,
    ..KEY_NINE
};

/// Each fate turns its region into the expected one, and leaves the expected one as it is.
#[test]
fn regions_take_their_fates(rt: HostRuntime) -> Result<(), Fail> {
    for (text, fate, expected) in FATES {
        fate_gives(&rt, rt.alloc(), text, fate, expected)?;
        fate_gives(&rt, rt.alloc(), expected, fate, expected)?;
    }
    Ok(())
}

/// Using key `number` answers `expected`. The record afterwards has version 2 and ends with `last`, or is empty if
/// `last` is empty.
fn using_gives(
    rt: &impl Abort,
    alloc: Global,
    text: &str,
    number: u32,
    expected: Result<RegionKey, NotUsed>,
    last: &[u8],
) -> Result<(), Fail> {
    let bytes = bytes_of(alloc, text)?;
    let mut out = Vec::with_capacity(alloc, REGION_LIMIT)?;
    let used = use_in_record(bytes.as_slice(), number, &mut out);
    assert!(rt; used == expected);
    assert!(rt; out.as_slice().ends_with(last) && out.is_empty() == last.is_empty());
    assert!(rt; out.is_empty() || out.starts_with(&[2]));
    Ok(())
}

/// Regions, the number of a key, what using it answers, and the last byte of the record afterwards.
const USES: &[(&str, u32, Result<RegionKey, NotUsed>, &[u8])] = &[
    (vectors::OLD_REGION, 9, Ok(KEY_NINE), &[4]),
    (vectors::REGION, 9, Ok(KEY_NINE), &[4]),
    (vectors::OLD_LONE_KEY, 9, Ok(KEY_NINE), &[4]),
    (vectors::LONE_KEY, 9, Ok(KEY_NINE), &[4]),
    (vectors::REGION, 2, Err(NotUsed::Spent), &[]),
    (vectors::REGION, 3, Err(NotUsed::NoKey), &[]),
    ("", 9, Err(NotUsed::NoKey), &[]),
];

#[test]
fn a_key_is_used(rt: HostRuntime) -> Result<(), Fail> {
    for (text, number, expected, last) in USES {
        using_gives(&rt, rt.alloc(), text, *number, *expected, last)?;
    }
    Ok(())
}
