//! What a maker signs.

use super::{HEAD, endorse, maker_at, public_of, root_bytes};
use hex::FromHex;
use mb_hss::{HssEnd, read_maker, verify};
use sha2::{Digest, Sha256};
use std::alloc::Global;
use std::test::Fail;

/// Levels and a number, and the length and the hash of the signature of the root that a maker makes with them.
const SIGNATURES: &[(u8, u64, usize, &str)] = &[
    (
        1,
        0,
        2_352,
        "d8f435db690e98cdd3ad2c0c6a37ccf727352d40bc3fa48254338b1fb21c2d70",
    ),
    (
        1,
        31,
        2_352,
        "14a8b77f54850feb4d76764c73d3e75a85493818b1043132465074a646ef839b",
    ),
    (
        2,
        0,
        4_756,
        "5eb74066695326036d2df3d2d460354ab19466e8274193cb3aee25d72ae1c550",
    ),
    (
        2,
        31,
        4_756,
        "9096521d0f2a2e17a619cc93f646f8216addbee9896bca2d6396546918796b02",
    ),
    (
        2,
        32,
        4_756,
        "b1a832c0cf1baad8c1815835aabf5db4c67fcaf2a89379dceefde9facd61cbc2",
    ),
    (
        2,
        1_023,
        4_756,
        "55de945555871f2a4aab69e1cc1ec6b4ac10aed8d79b2821624d6b5abd5ec16b",
    ),
    (
        3,
        32_767,
        7_160,
        "2bedbf62937f0d91f221829ddc8f9efe9272fa097efac0e842c67f9b5706ae35",
    ),
    (
        8,
        1_099_511_627_775,
        19_180,
        "9adc90623c4d5682d205187648b0ce5dfc760ac0df6a4a4beba1dd2ea879af39",
    ),
];

/// Files of makers that have no number left.
const SPENT: &[&str] = &[
    "4d424b3201000102030405060708090a0b0c0d0e0f101112131415161718191a1b1c1d1e1f0000000000000020",
    "4d424b3208000102030405060708090a0b0c0d0e0f101112131415161718191a1b1c1d1e1f0000010000000000",
];

/// Whether the signature of the root with the number has this length and this hash, and verifies.
fn is_signed(
    alloc: Global,
    levels: u8,
    number: u64,
    length: usize,
    hash: &str,
) -> Result<bool, Fail> {
    if levels < 1 || levels > 8 || number == u64::MAX {
        return Ok(false);
    }
    let mut maker = maker_at(levels, number)?;
    let key = public_of(alloc, &maker);
    let root = root_bytes()?;
    let mut out = Vec::new(alloc);
    Ok(
        endorse(alloc, &mut maker, &root, &mut out) == Ok(number)
            && maker.next == number + 1
            && out.len() == length
            && Sha256::digest(out.as_slice()) == <[u8; 32] as FromHex>::from_hex(hash)?
            && key.levels == levels
            && verify(&key, &HEAD, &root, &out),
    )
}

/// Whether the maker of this file has no number left, and appends nothing.
fn is_spent(alloc: Global, file: &str) -> Result<bool, Fail> {
    let file = <[u8; 45] as FromHex>::from_hex(file)?;
    let mut maker = read_maker(&file)?;
    let root = root_bytes()?;
    let mut out = Vec::new(alloc);
    Ok(
        endorse(alloc, &mut maker, &root, &mut out) == Err(HssEnd::Spent)
            && out.is_empty()
            && maker == read_maker(&file)?,
    )
}

#[test]
fn makers_sign(rt: HostRuntime) -> Result<(), Fail> {
    for (levels, number, length, hash) in SIGNATURES {
        assert!(rt;
            is_signed(rt.alloc(), *levels, *number, *length, hash)?,
            "{levels} {number}"
        );
    }
    Ok(())
}

#[test]
fn makers_with_no_number_left(rt: HostRuntime) -> Result<(), Fail> {
    for file in SPENT {
        assert!(rt; is_spent(rt.alloc(), file)?, "{file}");
    }
    Ok(())
}
