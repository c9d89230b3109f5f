//! Records of a device both ways, against bytes of another program.

ghost use Rattle.std.specs.Prelude.{◌≡◌, ◌≤◌, ◌⊎◌, length, vec_len, IfOk};
ghost use Rattle.mb_model.specs.declared.limits.TheConstants.{REGION_VERSION};
ghost use Rattle.mb_model.specs.records.RegionFormat.{region_format};

use super::spelled::bytes_of;
use super::values::{
    BIRTH, BIRTH_OF_TWO, CHANGE, CHANGE_OF_TWO, EMERGENCY, EMPTYING, KEY_NINE, KEY_TWO, LOADED,
    LOADED_APART, NEW_KEY, OWNED, OWNED_APART, OWNED_COUNTERSIGNED, PENDING, RELIABLE,
    RELIABLE_APART, SETTLED, SUCCESSION, UNOWNED,
};
use super::{trusts, vectors};
use mb_bytes::Cursor;
use mb_layout::{
    ReadEnd, Root, fill_area, read_entry, read_layer, read_region, read_root, record_in, region_in,
    region_of_bytes, root_in, root_of_bytes, write_entry, write_layer, write_region, write_root,
};
use mb_model::{Entry, Layer, NoMemory, Region, RegionKey, Secret};
use sha2::{Digest, Sha256};
use std::alloc::Global;
use std::process::Abort;
use std::test::Fail;

/// What a record spells.
enum Value {
    /// A layer of an entry of version 1.
    OldLayer(Layer),
    /// A layer of an entry of version 2.
    Layer(Layer),
    Entry(Entry),
    Root(Root),
}

/// Whether the expected layer, of an entry of this version, is read at the cursor. Appends the bytes of the layer read.
fn is_layer(
    cursor: &mut Cursor,
    expected: &Layer,
    out: &mut Vec<u8>,
    version: u8,
) -> Result<bool, Fail>
    requires { (version ≡ 1) ⊎ (version ≡ 2) }
{
    let layer = read_layer(cursor, version)?;
    write_layer(&layer, out, version)?;
    Ok(layer == *expected)
}

/// Whether the bytes are read up to their end as the expected value. Appends the bytes of the value read.
fn is_read(bytes: &[u8], expected: &Value, out: &mut Vec<u8>) -> Result<bool, Fail>
    requires { length bytes.now ≤ 4000 }
{
    let mut cursor = Cursor::new(bytes);
    let is_same = match expected {
        Value::OldLayer(expected) => is_layer(&mut cursor, expected, out, 1)?,
        Value::Layer(expected) => is_layer(&mut cursor, expected, out, 2)?,
        Value::Entry(expected) => {
            let entry = read_entry(&mut cursor)?;
            write_entry(&entry, out)?;
            entry == *expected
        }
        Value::Root(expected) => {
            let root = read_root(&mut cursor)?;
            write_root(&root, out)?;
            root == *expected && root_of_bytes(bytes) == Ok(root)
        }
    };
    Ok(is_same && cursor.left() == 0)
}

/// The text is read as the value, and the value is written as the text.
fn goes_both_ways(
    rt: &impl Abort,
    alloc: Global,
    expected: &Value,
    text: &str,
) -> Result<(), Fail> {
    let bytes = bytes_of(alloc, text)?;
    let mut out = Vec::new(alloc);
    assert!(rt; is_read(bytes.as_slice(), expected, &mut out)?);
    assert!(rt; out.as_slice() == bytes.as_slice());
    Ok(())
}

/// Layers, entries and roots, and their records.
const VALUES: &[(Value, &str)] = &[
    (Value::OldLayer(RELIABLE), vectors::RELIABLE_LAYER),
    (Value::OldLayer(LOADED), vectors::LOADED_LAYER),
    (Value::OldLayer(OWNED), vectors::OWNED_LAYER),
    (Value::OldLayer(UNOWNED), vectors::UNOWNED_LAYER),
    (Value::Layer(RELIABLE), trusts::RELIABLE_LAYER),
    (Value::Layer(RELIABLE_APART), trusts::RELIABLE_LAYER_APART),
    (Value::Layer(LOADED), trusts::LOADED_LAYER),
    (Value::Layer(LOADED_APART), trusts::LOADED_LAYER_APART),
    (Value::Layer(OWNED_COUNTERSIGNED), trusts::OWNED_LAYER),
    (Value::Layer(OWNED_APART), trusts::OWNED_LAYER_APART),
    (Value::Layer(UNOWNED), trusts::UNOWNED_LAYER),
    (Value::Entry(BIRTH_OF_TWO), trusts::BIRTH),
    (Value::Entry(CHANGE_OF_TWO), trusts::CHANGE),
    (Value::Entry(BIRTH), vectors::BIRTH),
    (Value::Entry(CHANGE), vectors::CHANGE),
    (Value::Entry(EMERGENCY), vectors::EMERGENCY),
    (Value::Entry(NEW_KEY), vectors::NEW_KEY),
    (Value::Entry(SUCCESSION), vectors::SUCCESSION),
    (Value::Root(SETTLED), vectors::SETTLED_ROOT),
    (Value::Root(PENDING), vectors::PENDING_ROOT),
    (Value::Root(EMPTYING), vectors::EMPTYING_ROOT),
];

#[test]
fn layers_entries_and_roots_go_both_ways(rt: HostRuntime) -> Result<(), Fail> {
    for (expected, text) in VALUES {
        goes_both_ways(&rt, rt.alloc(), expected, text)?;
    }
    Ok(())
}

fn is_secret(secret: &Secret, name: &[u8], value: &[u8], born: u32) -> bool {
    secret.name.as_slice() == name && secret.value.as_slice() == value && secret.born == born
}

/// Whether the region is that of the vectors.
fn is_expected(region: &Region) -> bool {
    let [pin, empty] = region.secrets.as_slice() else {
        return false;
    };
    is_secret(pin, b"pin", b"1234", 258)
        && is_secret(empty, b"t", b"", 3)
        && region.keys.as_slice() == [KEY_TWO, KEY_NINE].as_slice()
}

/// Whether the region of the vectors is read at a cursor.
fn is_read_at_cursor(alloc: Global, bytes: &[u8]) -> Result<bool, ReadEnd>
    requires { length bytes.now ≤ 4000 }
{
    let region = read_region(alloc, &mut Cursor::new(bytes))?;
    Ok(is_expected(&region))
}

/// The record of the region, of version 2.
fn written(alloc: Global, region: &Region) -> Result<Vec<u8>, Fail>
    requires { region_format.Allowed (REGION_VERSION, region.now) }
{
    let mut out = Vec::new(alloc);
    write_region(region, &mut out)?;
    Ok(out)
}

/// A region is read from a record of either version, and written in version 2.
#[tactic(auto, using(mb_model::proofs::RegionWriting::later_version))]
#[test]
fn a_region_goes_both_ways(rt: HostRuntime) -> Result<(), Fail> {
    let alloc = rt.alloc();
    let wanted = bytes_of(alloc, vectors::REGION)?;
    for text in [vectors::OLD_REGION, vectors::REGION] {
        let bytes = bytes_of(alloc, text)?;
        let region = region_of_bytes(alloc, bytes.as_slice())?;
        assert!(rt; is_expected(&region));
        assert!(rt; is_read_at_cursor(alloc, bytes.as_slice()) == Ok(true));
        assert!(rt; written(alloc, &region)?.as_slice() == wanted.as_slice());
    }
    Ok(())
}

/// The record of a region of `count` secrets and key 9. Secret n is named `s` and two digits, has n bytes of n, and was
/// put at configuration number n.
fn numbered(alloc: Global, count: u8) -> Result<Vec<u8>, Fail>
    ensures { IfOk result (λ bytes. vec_len bytes ≤ 4000) }
{
    let mut bytes = Vec::new(alloc);
    bytes.extend_from_slice(&[2, count])?;
    for number in 0..count {
        bytes.extend_from_slice(&[3, b's', b'0' + number / 10, b'0' + number % 10, number])?;
        for _i in 0..number {
            bytes.push(number)?;
        }
        bytes.extend_from_slice(&[0, 0, 0, number])?;
    }
    bytes.push(1)?;
    let key = bytes_of(alloc, &vectors::LONE_KEY[6..])?;
    bytes.extend_from_slice(key.as_slice())?;
    bytes.truncate(4_000);
    Ok(bytes)
}

/// How many secrets a region has, and the length and the hash of its record.
const NUMBERED: &[(u8, usize, &str)] = &[
    (
        17,
        346,
        "a83f12c3088ad3960513d7d5922030c1dbc4ee6dd218138ee9e78428b71102a7",
    ),
    (
        22,
        486,
        "a2bfca17c8ce6843a32bdbd1972c9b5b940c133e29667f9e9bd8a45a6bab3f25",
    ),
];

#[tactic(auto, using(mb_model::proofs::RegionWriting::later_version))]
#[test]
fn regions_of_many_secrets_go_both_ways(rt: HostRuntime) -> Result<(), Fail> {
    let alloc = rt.alloc();
    for (count, length, hash) in NUMBERED {
        let bytes = numbered(alloc, *count)?;
        let region = region_of_bytes(alloc, bytes.as_slice())?;
        assert!(rt; region.secrets.as_slice().len() == usize::from(*count));
        let out = written(alloc, &region)?;
        assert!(rt; out.len() == *length);
        assert!(rt; Sha256::digest(&out).as_slice() == bytes_of(alloc, hash)?.as_slice());
    }
    Ok(())
}

/// Whether the area holds a region of these keys and of no secrets.
fn holds_keys(alloc: Global, area: &[u8], keys: &[RegionKey]) -> Result<bool, NoMemory>
    requires { length area.now ≡ 4096 }
{
    match region_in(alloc, area)? {
        Some(region) => Ok(region.secrets.as_slice().is_empty() && region.keys.as_slice() == keys),
        None => Ok(false),
    }
}

#[test]
fn an_area_holds_a_record(rt: HostRuntime) -> Result<(), Fail> {
    let alloc = rt.alloc();
    let bytes = bytes_of(alloc, vectors::OLD_LONE_KEY)?;
    let start = bytes_of(alloc, vectors::AREA_START)?;
    let mut area = [0xAA; 4096];
    fill_area(bytes.as_slice(), &mut area);
    assert!(rt; area.starts_with(start.as_slice()) && area[64..] == [0; 4032]);
    assert!(rt; holds_keys(alloc, &area, &[KEY_NINE]) == Ok(true));
    assert!(rt; root_in(&area) == None);
    area[4_095] = 1;
    assert!(rt; record_in(&area).is_none());
    Ok(())
}

#[test]
fn an_area_holds_a_root_or_an_empty_region(rt: HostRuntime) -> Result<(), Fail> {
    let alloc = rt.alloc();
    let bytes = bytes_of(alloc, vectors::PENDING_ROOT)?;
    let mut area = [0xAA; 4096];
    fill_area(bytes.as_slice(), &mut area);
    assert!(rt; root_in(&area) == Some(PENDING));
    fill_area(b"", &mut area);
    assert!(rt; holds_keys(alloc, &area, &[]) == Ok(true));
    Ok(())
}
