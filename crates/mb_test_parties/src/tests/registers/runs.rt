//! Items that are served one file after another, checked against values of another program.

ghost use Rattle.std.specs.Prelude.{◌≤◌, vec_len, IfOk};

use super::entries::{
    FIRST, FIRST_OF_OTHER, FOURTH, NEXT_OF_OTHER, NEXT_TWO, OTHER_FOURTH, UNRULED_BIRTH,
};
use crate::tests::pieces::bytes_of;
use Ask::{Codes, Cut, Find, Show};
use hex::FromHex;
use mb_bytes::{put_slice, put_u16, put_u32, read_public_key};
use mb_fleet::{Fleet, read_items, serve_items};
use std::alloc::Global;
use std::test::Fail;

/// The maker's key.
pub const ROOT: &str =
    "00000005000000036eddf2c6eb4a342405043d3f908fa7c6b2d8509c74fc5e0b54060d6218945725f67a168b109bc038dec\
     738c6cda77a12";

/// The key of the other maker.
const OTHER_ROOT: &str =
    "0000000500000003abc79a08451338fa701ede4a2dce0108536f6628cdae7a4a1b32657c5bc5a7f2186341c948daa70955a\
     08dfd899cde3a";

/// The register of no devices.
const EMPTY: &str = "4d4246310000";

/// The register with one device.
const ONE: &str =
    "4d4246310001e77cff2486ff16314c9990f68ac68f9000000002017692c3ad3540bb803c020b3aee66cd8887123234ea0c6e\
     7143c0add73ff431ed01ba7816bf8f01cfea414140de5dae2223b00361a396177a9cb410ff61f20015ad0000039141fb7ffba5f026cad5e009\
     be05f2b71176d9b6d9bed4251481ac2edb3b2262add24b2d3823f611a3bb5391bfe2eda1c8928e33359b114d6ac44d07553fa1619de479e298\
     b8dc612c961f4b3075c4dc9e1518a4bc0f9794f871b1f22e2cd742";

/// The register with two devices.
const TWO: &str =
    "4d4246310002e77cff2486ff16314c9990f68ac68f9000000002017692c3ad3540bb803c020b3aee66cd8887123234ea0c6e\
     7143c0add73ff431ed01ba7816bf8f01cfea414140de5dae2223b00361a396177a9cb410ff61f20015ad0000039141fb7ffba5f026cad5e009\
     be05f2b71176d9b6d9bed4251481ac2edb3b2262add24b2d3823f611a3bb5391bfe2eda1c8928e33359b114d6ac44d07553fa1619de479e298\
     b8dc612c961f4b3075c4dc9e1518a4bc0f9794f871b1f22e2cd742ee97a4b1a03a19da6b2deb5cd34e16df00000002017692c3ad3540bb803c\
     020b3aee66cd8887123234ea0c6e7143c0add73ff431ed01ba7816bf8f01cfea414140de5dae2223b00361a396177a9cb410ff61f20015ad00\
     00034503a2c53af454e852c96f6ceabeafa67a85e646009e6818c1d0f9767d6321c95bad9e23f15d9da99f7fdbf05c751d331d50b10eb1b408\
     918ff0ce88ddc4662cc62497041b13f9eba2e930abd3db884ebf35b71d6a3a1cdf4ea948efb3c56265";

/// The register after the first device has shown one more entry.
const LONGER: &str =
    "4d4246310002e77cff2486ff16314c9990f68ac68f9000000003017692c3ad3540bb803c020b3aee66cd8887123234ea0\
     c6e7143c0add73ff431ed01d9298a10d1b0735837dc4bd85dac641b0f3cef27a47e5d53a54f2f3f5b2fcffa0000049141fb7ffba5f026cad5e\
     009be05f2b71176d9b6d9bed4251481ac2edb3b2262add24b2d3823f611a3bb5391bfe2eda1c8928e33359b114d6ac44d07553fa1619de479e\
     298b8dc612c961f4b3075c4dc9e1518a4bc0f9794f871b1f22e2cd742b5df159ba1a9afdaec1745a6309c4b10071f2171e42e5faa008e06fc3\
     0cfab7eee97a4b1a03a19da6b2deb5cd34e16df00000002017692c3ad3540bb803c020b3aee66cd8887123234ea0c6e7143c0add73ff431ed0\
     1ba7816bf8f01cfea414140de5dae2223b00361a396177a9cb410ff61f20015ad0000034503a2c53af454e852c96f6ceabeafa67a85e646009\
     e6818c1d0f9767d6321c95bad9e23f15d9da99f7fdbf05c751d331d50b10eb1b408918ff0ce88ddc4662cc62497041b13f9eba2e930abd3db8\
     84ebf35b71d6a3a1cdf4ea948efb3c56265";

/// The hash of the code of layer 2.
const CODE: &str = "ba7816bf8f01cfea414140de5dae2223b00361a396177a9cb410ff61f20015ad";

/// The hash of the code of layer 1.
const FIRST_CODE: &str = "7692c3ad3540bb803c020b3aee66cd8887123234ea0c6e7143c0add73ff431ed";

/// The answers to the first file of items.
const ANSWERS_1: &str = "codes 0\n\
    added e77cff2486ff16314c9990f68ac68f90 1\n\
    extended e77cff2486ff16314c9990f68ac68f90 3\n\
    codes 1\n\
    code ba7816bf8f01cfea414140de5dae2223b00361a396177a9cb410ff61f20015ad 1\n\
    found 1\n\
    serial e77cff2486ff16314c9990f68ac68f90\n";

/// The answers to the second file of items.
const ANSWERS_2: &str = "added ee97a4b1a03a19da6b2deb5cd34e16df 3\n\
    found 2\n\
    serial e77cff2486ff16314c9990f68ac68f90\n\
    serial ee97a4b1a03a19da6b2deb5cd34e16df\n\
    found 2\n\
    serial e77cff2486ff16314c9990f68ac68f90\n\
    serial ee97a4b1a03a19da6b2deb5cd34e16df\n\
    found 0\n\
    refused 31 older e77cff2486ff16314c9990f68ac68f90 3\n\
    same e77cff2486ff16314c9990f68ac68f90 3\n";

/// The answers to the third file of items.
const ANSWERS_3: &str = "extended e77cff2486ff16314c9990f68ac68f90 4\n\
    found 1\n\
    serial ee97a4b1a03a19da6b2deb5cd34e16df\n\
    codes 2\n\
    code ba7816bf8f01cfea414140de5dae2223b00361a396177a9cb410ff61f20015ad 1\n\
    code d9298a10d1b0735837dc4bd85dac641b0f3cef27a47e5d53a54f2f3f5b2fcffa 1\n\
    codes 1\n\
    code 7692c3ad3540bb803c020b3aee66cd8887123234ea0c6e7143c0add73ff431ed 2\n\
    refused 30 fork e77cff2486ff16314c9990f68ac68f90 3\n";

/// The answers to the fourth file of items.
const ANSWERS_4: &str = "refused 20 0\n\
    refused 21 0\n\
    refused 20 2528\n";

/// An item of a file. Entries, hashes and bytes are in hexadecimal.
#[derive(Clone, Copy)]
pub enum Ask {
    /// A chain of this many entries is shown.
    Show(u16, &'static [&'static str]),
    /// The beginning of a chain of one entry is shown, this many bytes of it, and then bytes.
    Cut(&'static str, usize, &'static str),
    /// Which devices have this code in the layer?
    Find(u8, &'static str),
    /// Which codes does the layer have?
    Codes(u8),
}

/// A device is shown, and then more of it.
const FILE_1: &[Ask] = &[
    Codes(2),
    Show(1, &[FIRST]),
    Show(3, &[FIRST, NEXT_TWO]),
    Codes(2),
    Find(2, CODE),
];

/// Another device is shown, and the first one again.
const FILE_2: &[Ask] = &[
    Show(3, &[FIRST_OF_OTHER, NEXT_OF_OTHER]),
    Find(2, CODE),
    Find(1, FIRST_CODE),
    Find(3, CODE),
    Show(1, &[FIRST]),
    Show(3, &[FIRST, NEXT_TWO]),
];

/// The first device is shown with a fourth entry, and with another one.
const FILE_3: &[Ask] = &[
    Show(4, &[FIRST, NEXT_TWO, FOURTH]),
    Find(2, CODE),
    Codes(2),
    Codes(1),
    Show(4, &[FIRST, NEXT_TWO, OTHER_FOURTH]),
];

/// No bytes, a signature with other bytes at its end, and a chain without its last byte.
const FILE_4: &[Ask] = &[
    Cut("", 0, ""),
    Cut(FIRST_OF_OTHER, 2_526, "2bba00"),
    Cut(FIRST_OF_OTHER, 2_528, ""),
];

/// An entry with position 3 stands where the one with position 1 has to.
const FILE_5: &[Ask] = &[Show(2, &[FIRST, FOURTH])];

/// A birth that breaks the rules of the log.
const FILE_6: &[Ask] = &[Show(1, &[UNRULED_BIRTH])];

/// Appends the bytes of a hexadecimal word.
fn append(alloc: Global, out: &mut Vec<u8>, word: &str) -> Result<(), Fail> {
    let bytes = hex::decode(alloc, word)?;
    put_slice(out, bytes.as_slice())?;
    Ok(())
}

/// A chain of this many entries, which are given in hexadecimal.
fn chain_of(alloc: Global, count: u16, entries: &[&str]) -> Result<Vec<u8>, Fail> {
    let mut chain = Vec::from_slice(alloc, b"MBC1")?;
    put_u16(&mut chain, count)?;
    for entry in entries {
        append(alloc, &mut chain, entry)?;
    }
    put_slice(&mut chain, &[0])?;
    Ok(chain)
}

/// Appends an item that shows these bytes as a chain.
fn show(out: &mut Vec<u8>, chain: &[u8]) -> Result<(), Fail> {
    put_slice(out, &[1])?;
    put_u32(out, u32::try_from(chain.len()).unwrap_or(u32::MAX))?;
    put_slice(out, chain)?;
    Ok(())
}

/// Appends an item that shows the beginning of a chain of one entry, and then bytes.
fn show_cut(
    alloc: Global,
    out: &mut Vec<u8>,
    entry: &str,
    length: usize,
    end: &str,
) -> Result<(), Fail> {
    let mut chain = chain_of(alloc, 1, &[entry])?;
    chain.truncate(length);
    append(alloc, &mut chain, end)?;
    show(out, chain.as_slice())
}

/// Appends an item.
fn put_item(alloc: Global, out: &mut Vec<u8>, item: Ask) -> Result<(), Fail> {
    match item {
        Show(count, entries) => show(out, chain_of(alloc, count, entries)?.as_slice()),
        Cut(entry, length, end) => show_cut(alloc, out, entry, length, end),
        Find(layer, hash) => {
            put_slice(out, &[2, layer])?;
            append(alloc, out, hash)
        }
        Codes(layer) => Ok(put_slice(out, &[3, layer])?),
    }
}

/// The bytes of a file of items.
pub fn items_of(alloc: Global, asked: &[Ask]) -> Result<Vec<u8>, Fail>
    ensures { IfOk result (λ items. vec_len items ≤ 100000) }
{
    let mut items = Vec::new(alloc);
    for item in asked {
        put_item(alloc, &mut items, *item)?;
    }
    items.truncate(100_000);
    Ok(items)
}

/// Whether items are served from one register to the next, with these answers.
fn serves(
    alloc: Global,
    root: &str,
    register: &str,
    asked: &[Ask],
    answers: &str,
    after: &str,
) -> Result<bool, Fail> {
    let root = read_public_key(&<[u8; 56] as FromHex>::from_hex(root)?)?;
    let register = bytes_of(alloc, register)?;
    let mut fleet = Fleet::read(alloc, register.as_slice())?;
    let items = read_items(alloc, items_of(alloc, asked)?.as_slice())?;
    let text = serve_items(alloc, &mut fleet, &root, items.as_slice())?;
    let mut written = Vec::new(alloc);
    fleet.write(&mut written)?;
    let after = bytes_of(alloc, after)?;
    Ok(text.as_slice() == answers.as_bytes() && written.as_slice() == after.as_slice())
}

#[test]
fn a_device_is_added_and_extended(rt: HostRuntime) -> Result<(), Fail> {
    assert!(rt; serves(rt.alloc(), ROOT, EMPTY, FILE_1, ANSWERS_1, ONE)?);
    Ok(())
}

#[test]
fn another_device_has_the_same_code(rt: HostRuntime) -> Result<(), Fail> {
    assert!(rt; serves(rt.alloc(), ROOT, ONE, FILE_2, ANSWERS_2, TWO)?);
    Ok(())
}

#[test]
fn a_fork_is_caught(rt: HostRuntime) -> Result<(), Fail> {
    assert!(rt; serves(rt.alloc(), ROOT, TWO, FILE_3, ANSWERS_3, LONGER)?);
    Ok(())
}

#[test]
fn chains_are_refused(rt: HostRuntime) -> Result<(), Fail> {
    assert!(rt; serves(rt.alloc(), ROOT, LONGER, FILE_4, ANSWERS_4, LONGER)?);
    Ok(())
}

#[test]
fn an_entry_with_another_position_is_refused(rt: HostRuntime) -> Result<(), Fail> {
    assert!(rt; serves(rt.alloc(), ROOT, LONGER, FILE_5, "refused 22 1\n", LONGER)?);
    Ok(())
}

#[test]
fn a_birth_against_the_rules_is_refused(rt: HostRuntime) -> Result<(), Fail> {
    assert!(rt;
        serves(
            rt.alloc(),
            OTHER_ROOT,
            LONGER,
            FILE_6,
            "refused 23 0\n",
            LONGER
        )?
    );
    Ok(())
}
