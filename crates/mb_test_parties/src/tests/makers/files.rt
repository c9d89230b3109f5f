//! Makers' files, and public keys.

use super::public_of;
use crate::tests::pieces::bytes_of;
use hex::FromHex;
use mb_hss::{hss_key_bytes, make_maker, parse, read_hss_key, read_maker, write_maker};
use mb_model::BadRecord;
use std::alloc::Global;
use std::test::Fail;

/// Noise and a number of levels, and the file and the public key of the maker that they make.
const MAKERS: &[(&str, u8, &str, &str)] = &[
    (
        "000102030405060708090a0b0c0d0e0f101112131415161718191a1b1c1d1e1f",
        1,
        "4d424b3201136b8c60f7349e4e452847a2b564f20a1e0642410e09d0ba9ae7a13915d483190000000000000000",
        "000000010000000500000003ec1b77804d0b7d73e6b29b7af6b8498a1b15cc212083944aeacb532a50b5fbe9951a6555c1e02060c0570115138b9a32",
    ),
    (
        "000102030405060708090a0b0c0d0e0f101112131415161718191a1b1c1d1e1f",
        2,
        "4d424b3202136b8c60f7349e4e452847a2b564f20a1e0642410e09d0ba9ae7a13915d483190000000000000000",
        "000000020000000500000003ec1b77804d0b7d73e6b29b7af6b8498a1b15cc212083944aeacb532a50b5fbe9951a6555c1e02060c0570115138b9a32",
    ),
    (
        "000102030405060708090a0b0c0d0e0f101112131415161718191a1b1c1d1e1f",
        8,
        "4d424b3208136b8c60f7349e4e452847a2b564f20a1e0642410e09d0ba9ae7a13915d483190000000000000000",
        "000000080000000500000003ec1b77804d0b7d73e6b29b7af6b8498a1b15cc212083944aeacb532a50b5fbe9951a6555c1e02060c0570115138b9a32",
    ),
    (
        "0000000000000000000000000000000000000000000000000000000000000000",
        3,
        "4d424b3203ae8896961cb11eab8333610414a7cd5ca1ad38c7a076a143f2aa079e9d2d03f90000000000000000",
        "00000003000000050000000369a33de96f86cbe7b711e5b5cf5e3e82d42172539884e4d4db5a86b349e8ee2507f99c38ccbec16d48ac4b2297473476",
    ),
];

/// Bytes that are no maker's file, and the offset of the first field that fails.
const BAD_MAKERS: &[(u32, &str)] = &[
    (0, ""),
    (
        0,
        "4d424b3102136b8c60f7349e4e452847a2b564f20a1e0642410e09d0ba9ae7a13915d483190000000000000000",
    ),
    (
        4,
        "4d424b3200136b8c60f7349e4e452847a2b564f20a1e0642410e09d0ba9ae7a13915d483190000000000000000",
    ),
    (
        4,
        "4d424b3209136b8c60f7349e4e452847a2b564f20a1e0642410e09d0ba9ae7a13915d483190000000000000000",
    ),
    (5, "4d424b3202136b8c60f7349e4e452847a2b564f2"),
    (
        37,
        "4d424b3202136b8c60f7349e4e452847a2b564f20a1e0642410e09d0ba9ae7a13915d483190000000000000401",
    ),
    (
        37,
        "4d424b3202136b8c60f7349e4e452847a2b564f20a1e0642410e09d0ba9ae7a13915d4831900000000000000",
    ),
    (
        45,
        "4d424b3202136b8c60f7349e4e452847a2b564f20a1e0642410e09d0ba9ae7a13915d48319000000000000000000",
    ),
];

/// Bytes that are no public key, and the offset of the first field that fails.
const BAD_KEYS: &[(u32, &str)] = &[
    (0, "000000"),
    (
        0,
        "000000000000000500000003ec1b77804d0b7d73e6b29b7af6b8498a1b15cc212083944aeacb532a50b5fbe9951a6555c1e02060c0570115138b9a32",
    ),
    (
        0,
        "000000090000000500000003ec1b77804d0b7d73e6b29b7af6b8498a1b15cc212083944aeacb532a50b5fbe9951a6555c1e02060c0570115138b9a32",
    ),
    (
        4,
        "000000020000000400000003ec1b77804d0b7d73e6b29b7af6b8498a1b15cc212083944aeacb532a50b5fbe9951a6555c1e02060c0570115138b9a32",
    ),
    (
        8,
        "000000020000000500000005ec1b77804d0b7d73e6b29b7af6b8498a1b15cc212083944aeacb532a50b5fbe9951a6555c1e02060c0570115138b9a32",
    ),
    (12, "000000020000000500000003ec1b77804d0b7d73e6b29b7af6b849"),
    (
        28,
        "000000020000000500000003ec1b77804d0b7d73e6b29b7af6b8498a1b15cc212083944aeacb532a50b5fbe9951a6555c1e02060c0570115138b9a",
    ),
    (
        60,
        "000000020000000500000003ec1b77804d0b7d73e6b29b7af6b8498a1b15cc212083944aeacb532a50b5fbe9951a6555c1e02060c0570115138b9a3200",
    ),
];

/// Whether the maker of the noise has this file and this public key, and both are read back.
fn is_made(alloc: Global, noise: &str, levels: u8, file: &str, key: &str) -> Result<bool, Fail> {
    if levels < 1 || levels > 8 {
        return Ok(false);
    }
    let maker = make_maker(&<[u8; 32] as FromHex>::from_hex(noise)?, levels);
    let file = <[u8; 45] as FromHex>::from_hex(file)?;
    let bytes = <[u8; 60] as FromHex>::from_hex(key)?;
    let key = public_of(alloc, &maker);
    Ok(
        write_maker(&maker) == file
            && read_maker(&file)? == maker
            && hss_key_bytes(&key) == bytes
            && parse(&bytes) == Some(key)
            && read_hss_key(&bytes)? == key,
    )
}

/// Whether the bytes are no maker's file, and fail at the offset.
fn is_no_maker(alloc: Global, at: u32, word: &str) -> Result<bool, Fail> {
    let bytes = bytes_of(alloc, word)?;
    Ok(read_maker(&bytes).err() == Some(BadRecord { at }))
}

/// Whether the bytes are a public key, if there are 60 of them.
fn is_parsed(bytes: &[u8]) -> bool {
    match bytes.first_chunk::<60>() {
        Some(whole) => bytes.len() == 60 && parse(whole) != None,
        None => false,
    }
}

/// Whether the bytes are no public key, and fail at the offset.
fn is_no_key(alloc: Global, at: u32, word: &str) -> Result<bool, Fail> {
    let bytes = bytes_of(alloc, word)?;
    Ok(read_hss_key(&bytes).err() == Some(BadRecord { at }) && !is_parsed(&bytes))
}

#[test]
fn makers_and_their_keys(rt: HostRuntime) -> Result<(), Fail> {
    for (noise, levels, file, key) in MAKERS {
        assert!(rt; is_made(rt.alloc(), noise, *levels, file, key)?, "{file}");
    }
    Ok(())
}

#[test]
fn bad_makers(rt: HostRuntime) -> Result<(), Fail> {
    for (at, word) in BAD_MAKERS {
        assert!(rt; is_no_maker(rt.alloc(), *at, word)?, "{word}");
    }
    Ok(())
}

#[test]
fn bad_keys(rt: HostRuntime) -> Result<(), Fail> {
    for (at, word) in BAD_KEYS {
        assert!(rt; is_no_key(rt.alloc(), *at, word)?, "{word}");
    }
    Ok(())
}
