//! Headers and sectors of a flash in segments, by bytes of another program, and the numbers of sectors.

ghost use Rattle.std.specs.Prelude.{◌≤◌, length, vec_len, IfOk};
ghost use Rattle.mb_model.specs.declared.limits.TheConstants.{SECTOR_LENGTH};

use super::spelled::joined;
use hex::FromHex;
use mb_model::{SECTOR_LENGTH, SIGNATURE_LENGTH};
use mb_segments::{
    Header, ReadEnd, Slot, StoredHeader, code_sector, header_at, header_sector, log_at, log_sector,
    put_log, read_header, write_header,
};
use sha2::{Digest, Sha256};
use std::alloc::Global;
use std::test::Fail;

/// The fields of a header; an unsigned entry is in hexadecimal, or `-` if there is none.
#[derive(Clone, Copy)]
struct Fields {
    one: Slot,
    two: Slot,
    three: Slot,
    signed: u32,
    first: &'static str,
    second: &'static str,
}

/// No code.
const NONE: Slot = Slot {
    which: 0,
    length: 0,
};

/// Nine bytes of code, in slot 1.
const NINE: Slot = Slot {
    which: 1,
    length: 9,
};

/// An entry: a new key of layer 3.
const NEW_KEY: &str = "\
    020000000700000005000000090301000000050000000347474747474747474747474747474747484848\
    4848484848484848484848484848484848484848484848484848484848";

/// An entry: a succession.
const SUCCESSION: &str = "\
    03000000080000000500000003494949494949494949494949494949494a4a4a4a4a4a4a4a4a4a4a4a4a\
    4a4a4a4a4a4a4a4a4a4a4a4a4a4a4a4a4a4a4a";

/// An entry: a surrender of layer 3.
const CHANGE: &str = "\
    010000000900000006020300010700000000050000000311111111111111111111111111111111121212\
    121212121212121212121212121212121212121212121212121212121213131313131313131313131313\
    13131313131313131313131313131313131313000001020001000100";

/// Whether this is the entry that the text spells; no entry is `-`.
fn is_text(alloc: Global, text: Option<&[u8]>, expected: &str) -> Result<bool, Fail> {
    match text {
        Some(text) => Ok(hex::decode(alloc, expected)?.as_slice() == text),
        None => Ok(expected == "-"),
    }
}

/// Whether the header has these fields.
fn has_fields(alloc: Global, header: &StoredHeader<'_>, fields: &Fields) -> Result<bool, Fail> {
    Ok(
        header.one == fields.one
            && header.two == fields.two
            && header.three == fields.three
            && header.signed == fields.signed
            && is_text(alloc, header.first, fields.first)?
            && is_text(alloc, header.second, fields.second)?,
    )
}

/// The header, with its entries borrowed.
fn borrowed(header: &Header) -> StoredHeader<'_> {
    StoredHeader {
        one: header.one,
        two: header.two,
        three: header.three,
        signed: header.signed,
        first: header.first.as_ref().map(|text| text.as_slice()),
        second: header.second.as_ref().map(|text| text.as_slice()),
    }
}

/// Headers as pieces, and their fields.
const HEADERS: &[(&[(&str, usize)], Fields)] = &[
    (
        &[("4d424831010000000900000000000000000000000100", 1)],
        Fields {
            one: NINE,
            two: NONE,
            three: NONE,
            signed: 1,
            first: "-",
            second: "-",
        },
    ),
    (
        &[("4d424831020000800001000000000200001001008000", 1)],
        Fields {
            one: Slot {
                which: 2,
                length: 32_768,
            },
            two: Slot {
                which: 1,
                length: 0,
            },
            three: Slot {
                which: 2,
                length: 4_097,
            },
            signed: 128,
            first: "-",
            second: "-",
        },
    ),
    (
        &[
            ("4d4248310100000009000000000000000000000007010047", 1),
            (NEW_KEY, 1),
        ],
        Fields {
            one: NINE,
            two: NONE,
            three: NONE,
            signed: 7,
            first: NEW_KEY,
            second: "-",
        },
    ),
    (
        &[
            ("4d424831010000000900000000000000000000000802003d", 1),
            (SUCCESSION, 1),
            ("0070", 1),
            (CHANGE, 1),
        ],
        Fields {
            one: NINE,
            two: NONE,
            three: NONE,
            signed: 8,
            first: SUCCESSION,
            second: CHANGE,
        },
    ),
];

/// The offset at which a sector fails, and the bytes that it has before the entry of a new key.
const BAD_HEADERS: &[(u32, &str)] = &[
    // another word
    (0, "4d4248320100000009000000000000000000000007010047"),
    // slot 3
    (4, "4d4248310300000009000000000000000000000007010047"),
    // slot 0 with a length
    (10, "4d4248310100000009000000000100000000000007010047"),
    // 32,769 bytes of code
    (5, "4d4248310100008001000000000000000000000007010047"),
    // none signed
    (19, "4d4248310100000009000000000000000000000000010047"),
    // 129 signed
    (19, "4d4248310100000009000000000000000000000081010047"),
    // 3 unsigned
    (21, "4d4248310100000009000000000000000000000007030047"),
    // 128 signed and 1 unsigned
    (21, "4d4248310100000009000000000000000000000080010047"),
    // an entry of no bytes
    (22, "4d4248310100000009000000000000000000000007010000"),
    // an entry of 401 bytes
    (22, "4d4248310100000009000000000000000000000007010191"),
];

/// A sector that begins with these bytes, and is 0xFF after them.
fn sector_of(alloc: Global, bytes: &[u8]) -> Result<Vec<u8>, Fail>
    ensures { IfOk result (λ sector. vec_len sector ≤ SECTOR_LENGTH) }
{
    let mut sector = Vec::from_slice(alloc, bytes)?;
    sector.resize(SECTOR_LENGTH, 0xFF)?;
    sector.truncate(SECTOR_LENGTH);
    Ok(sector)
}

/// Whether the sector begins with a header of these fields.
fn begins_with(alloc: Global, sector: &[u8], fields: &Fields) -> Result<bool, Fail>
    requires { length sector.now ≤ SECTOR_LENGTH }
{
    match header_at(sector) {
        Some(stored) => has_fields(alloc, &stored, fields),
        None => Ok(false),
    }
}

/// Whether a sector of the pieces begins with the header of these fields, and writing this header gives the pieces.
fn is_header(alloc: Global, pieces: &[(&str, usize)], fields: &Fields) -> Result<bool, Fail> {
    let bytes = joined(alloc, pieces)?;
    let sector = sector_of(alloc, bytes.as_slice())?;
    let header = read_header(alloc, sector.as_slice())?;
    let mut out = Vec::new(alloc);
    write_header(&header, &mut out)?;
    Ok(
        has_fields(alloc, &borrowed(&header), fields)?
            && out.as_slice() == bytes.as_slice()
            && begins_with(alloc, sector.as_slice(), fields)?,
    )
}

/// Whether a sector of these bytes and the entry of a new key begins with no header, and fails at the offset.
fn is_no_header(alloc: Global, at: u32, bytes: &str) -> Result<bool, Fail> {
    let bytes = joined(alloc, &[(bytes, 1), (NEW_KEY, 1)])?;
    let sector = sector_of(alloc, bytes.as_slice())?;
    Ok(
        read_header(alloc, sector.as_slice()).err() == Some(ReadEnd::Bad { at })
            && header_at(sector.as_slice()).is_none(),
    )
}

#[test]
fn headers_go_both_ways(rt: HostRuntime) -> Result<(), Fail> {
    for (pieces, fields) in HEADERS {
        assert!(rt; is_header(rt.alloc(), pieces, fields)?, "{}", fields.signed);
    }
    Ok(())
}

#[test]
fn sectors_that_begin_with_no_header(rt: HostRuntime) -> Result<(), Fail> {
    for (at, bytes) in BAD_HEADERS {
        assert!(rt; is_no_header(rt.alloc(), *at, bytes)?, "{bytes}");
    }
    Ok(())
}

/// An entry: a birth.
const BIRTH: &str = "\
    004141414141414141414141414141414100000005000000034343434343434343434343434343434344\
    444444444444444444444444444444444444444444444444444444444444440700000000050000000311\
    111111111111111111111111111111121212121212121212121212121212121212121212121212121212\
    121212121213131313131313131313131313131313131313131313131313131313131313130000010200\
    010001";

/// The first bytes of a sector of the log that holds the birth with a signature of bytes 0x61.
const START: &str =
    "00ab0041414141414141414141414141414141000000050000000343434343434343434343434343";

/// The SHA-256 of the bytes of that sector up to the end of the signature.
const HASH: &str = "9f340373a0885fd3421fe2e978467988e0a014796e510fb169e1e5cc8f74a15d";

/// A signature of bytes 0x61.
const SIGNATURE: [u8; SIGNATURE_LENGTH] = [0x61; SIGNATURE_LENGTH];

#[test]
fn a_sector_of_the_log_holds_an_entry_until_it_is_erased(rt: HostRuntime) -> Result<(), Fail> {
    let birth = <[u8; 171] as FromHex>::from_hex(BIRTH)?;
    let mut out = Vec::new(rt.alloc());
    put_log(&birth, &SIGNATURE, &mut out)?;
    let start = <[u8; 40] as FromHex>::from_hex(START)?;
    assert!(rt; out.len() == 2_521);
    assert!(rt; out.as_slice().starts_with(&start));
    assert!(rt; Sha256::digest(out.as_slice()) == <[u8; 32] as FromHex>::from_hex(HASH)?);
    let sector = sector_of(rt.alloc(), out.as_slice())?;
    match log_at(sector.as_slice()) {
        Some(stored) => assert!(rt;
            stored.text == birth.as_slice() && stored.signature == SIGNATURE
        ),
        None => assert!(rt; false),
    }
    let erased = sector_of(rt.alloc(), &[])?;
    assert!(rt; log_at(erased.as_slice()).is_none());
    Ok(())
}

#[test]
fn sectors_have_their_numbers(rt: HostRuntime) {
    assert!(rt; [header_sector(0), header_sector(1)] == [0, 1]);
    assert!(rt; [code_sector(1, 1), code_sector(1, 2)] == [2, 10]);
    assert!(rt; [code_sector(2, 1), code_sector(2, 2)] == [18, 26]);
    assert!(rt; [code_sector(3, 1), code_sector(3, 2)] == [34, 42]);
    assert!(rt; [log_sector(0), log_sector(1), log_sector(127)] == [64, 65, 191]);
}
