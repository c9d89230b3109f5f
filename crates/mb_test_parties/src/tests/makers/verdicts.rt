//! Endorsements that verify, and some that do not.

ghost use Rattle.std.specs.Prelude.{◌≡◌, ◌≤◌, IfOk};

use super::{HEAD, root_bytes};
use crate::tests::pieces::bytes_of;
use Change::{Byte, First, Longer, Nothing};
use hex::FromHex;
use mb_hss::{HssKey, parse, verify};
use mb_test_plays::{FOREIGN_ENDORSEMENT, FOREIGN_KEY};
use std::alloc::Global;
use std::test::Fail;

/// What is changed in the endorsement.
#[derive(Clone, Copy)]
enum Change {
    /// Nothing is changed.
    Nothing,
    /// A byte is appended.
    Longer,
    /// The endorsement ends after this many bytes.
    First(usize),
    /// The byte at this offset is this one.
    Byte(usize, u8),
}

/// What each row shows, the number of levels of the key, what is changed, and whether the endorsement then verifies.
const VERDICTS: &[(&str, u8, Change, bool)] = &[
    ("under two levels", 2, Nothing, true),
    ("under three levels", 3, Nothing, false),
    ("under one level", 1, Nothing, false),
    ("a byte longer", 2, Longer, false),
    ("no bytes", 2, First(0), false),
    ("the first 3 bytes", 2, First(3), false),
    ("the first 1,296 bytes", 2, First(1296), false),
    ("the first 2,803 bytes", 2, First(2803), false),
    ("no signed key", 2, Byte(3, 0), false),
    ("two signed keys", 2, Byte(3, 2), false),
    ("another byte at 1,299", 2, Byte(1299, 0x0a), false),
    ("another byte at 1,303", 2, Byte(1303, 0x00), false),
    ("another byte at 1,316", 2, Byte(1316, 0xea), false),
    ("another byte at 1,392", 2, Byte(1392, 0xbd), false),
];

/// The key of the first level, in a key with this number of levels.
fn key_of(levels: u8) -> Result<HssKey, Fail>
    ensures { IfOk result (λ key. key.levels ≡ levels) }
{
    let bytes = <[u8; 60] as FromHex>::from_hex(FOREIGN_KEY)?;
    let key = parse(&bytes).ok_or("no key")?;
    Ok(HssKey { levels, ..key })
}

/// Whether the signature is one of the root under a key with this number of levels.
fn endorses(levels: u8, sig: &[u8]) -> Result<bool, Fail>
    requires least { 1 ≤ levels }
    requires most { levels ≤ 8 }
{
    Ok(verify(&key_of(levels)?, &HEAD, &root_bytes()?, sig))
}

/// Changes the endorsement, if it has what is changed.
fn apply(sig: &mut Vec<u8>, change: Change) -> Result<(), Fail> {
    match change {
        Nothing => (),
        Longer => sig.push(0)?,
        First(length) if length < sig.len() => sig.truncate(length),
        First(_) => return Err("it is no longer")?,
        Byte(at, byte) => {
            let place = sig.get_mut(at).ok_or("no such byte")?;
            *place = byte;
        }
    }
    Ok(())
}

/// Whether the endorsement verifies under a key of 1 to 8 levels, once it is changed.
fn verifies(alloc: Global, levels: u8, change: Change) -> Result<bool, Fail> {
    if levels < 1 || levels > 8 {
        return Err("no such key")?;
    }
    let mut sig = bytes_of(alloc, FOREIGN_ENDORSEMENT)?;
    apply(&mut sig, change)?;
    endorses(levels, &sig)
}

#[test]
fn endorsements_verify_or_not(rt: HostRuntime) -> Result<(), Fail> {
    for (shown, levels, change, expected) in VERDICTS {
        let found = verifies(rt.alloc(), *levels, *change)?;
        assert!(rt; found == *expected, "{shown}");
    }
    Ok(())
}
