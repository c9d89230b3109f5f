//! The public record of a flash that is not divided into segments, against bytes of another program.

ghost use Rattle.std.specs.Prelude.{◌≤◌, length};

use super::spelled::{bytes_of, joined};
use super::values::{BIRTH, NEW_KEY, SUCCESSION};
use super::vectors;
use hex::FromHex;
use mb_bytes::{Cursor, ReadEnd};
use mb_migrate::{
    public_at_start, public_of_bytes, read_public, record_at_start, write_public_record,
};
use mb_model::{Bytes, NoMemory, Public};
use sha2::{Digest, Sha256};
use std::alloc::Global;
use std::test::Fail;

/// The codes, and the number of three entries.
const CODES_OF_THREE: &str = "0101000000010a0001000000036162630003";

/// The record of the vectors: a birth and a new key, both signed, and a succession that is not.
const STORED: &[(&str, usize)] = &[
    (CODES_OF_THREE, 1),
    (vectors::BIRTH, 1),
    ("01", 1),
    ("61", 2_348),
    (vectors::NEW_KEY, 1),
    ("01", 1),
    ("62", 2_348),
    (vectors::SUCCESSION, 1),
    ("00", 1),
];

/// The start of the record of the vectors, and its SHA-256.
const START: &str =
    "0101000000010a000100000003616263000300414141414141414141414141414141410000000500";

const HASH: &str = "3ce78f80c5a0a40976859be0da701d1a2f3c8937c3a4651e34fc67eeb0df5315";

fn is_code(code: &Option<Bytes>, expected: &[u8]) -> bool {
    match code {
        Some(bytes) => bytes.as_slice() == expected,
        None => false,
    }
}

/// Whether these are the codes and entries of the vectors.
fn is_stored(public: &Public) -> bool {
    let codes = is_code(&public.codes.one, b"\x0a")
        && public.codes.two.is_none()
        && is_code(&public.codes.three, b"abc");
    match public.entries.as_slice() {
        [first, second, third] => {
            codes
                && first.entry == BIRTH
                && second.entry == NEW_KEY
                && third.entry == SUCCESSION
                && first.signature.is_some()
                && second.signature.is_some()
                && third.signature.is_none()
        }
        _ => false,
    }
}

/// Whether the bytes are as many as the other program's, begin as they do, and have their hash.
fn is_spelled(alloc: Global, bytes: &[u8]) -> Result<bool, Fail>
    requires { length bytes.now ≤ 100000 }
{
    let start = bytes_of(alloc, START)?;
    let mut hasher = Sha256::new();
    hasher.update(bytes);
    let hash = <[u8; 32] as FromHex>::from_hex(HASH)?;
    Ok(
        bytes.len() == 5_020
            && bytes.starts_with(start.as_slice())
            && hasher.finalize().as_slice() == hash.as_slice(),
    )
}

/// Whether the codes and entries of the vectors are read at a cursor.
fn is_read_at_cursor(alloc: Global, bytes: &[u8]) -> Result<bool, ReadEnd>
    requires { length bytes.now ≤ 100000 }
{
    let public = read_public(alloc, &mut Cursor::new(bytes))?;
    Ok(is_stored(&public))
}

#[test]
fn a_public_record_goes_both_ways(rt: HostRuntime) -> Result<(), Fail> {
    let alloc = rt.alloc();
    let bytes = joined(alloc, STORED)?;
    assert!(rt; is_spelled(alloc, bytes.as_slice())?);
    assert!(rt; is_read_at_cursor(alloc, bytes.as_slice()) == Ok(true));
    let public = public_of_bytes(alloc, bytes.as_slice())?;
    assert!(rt; is_stored(&public));
    let mut out = Vec::new(alloc);
    write_public_record(&public, &mut out)?;
    assert!(rt; out.as_slice() == bytes.as_slice());
    Ok(())
}

fn starts_with(area: &[u8], bytes: &[u8]) -> bool {
    match record_at_start(area) {
        Some(found) => found == bytes,
        None => false,
    }
}

/// Whether the public record of the vectors is read at the start of the area.
fn holds_public(alloc: Global, area: &[u8]) -> Result<bool, NoMemory> {
    match public_at_start(alloc, area)? {
        Some(public) => Ok(is_stored(&public)),
        None => Ok(false),
    }
}

/// A flash area: the length of the record of the vectors, the record, and erased bytes.
const AREA: &[(&str, usize)] = &[
    ("0000139c", 1),
    (CODES_OF_THREE, 1),
    (vectors::BIRTH, 1),
    ("01", 1),
    ("61", 2_348),
    (vectors::NEW_KEY, 1),
    ("01", 1),
    ("62", 2_348),
    (vectors::SUCCESSION, 1),
    ("00", 1),
    ("ff", 100),
];

#[test]
fn a_flash_area_begins_with_a_public_record(rt: HostRuntime) -> Result<(), Fail> {
    let alloc = rt.alloc();
    let bytes = joined(alloc, STORED)?;
    let mut area = joined(alloc, AREA)?;
    assert!(rt; starts_with(area.as_slice(), bytes.as_slice()));
    assert!(rt; holds_public(alloc, area.as_slice()) == Ok(true));
    area.truncate(5_023);
    assert!(rt; record_at_start(area.as_slice()).is_none());
    Ok(())
}
