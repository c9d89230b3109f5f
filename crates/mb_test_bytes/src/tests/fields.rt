//! Each field read and written, against bytes that are written out.

use mb_bytes::example::{Example, read_example, read_whole_example, write_example};
use mb_bytes::{
    Cursor, ReadEnd, Short, bytes_after_u8, bytes_after_u16, bytes_after_u32, flag_at, key_kind_at,
    key_seed_at, public_key_at, put_after_u8, put_after_u16, put_after_u32, put_at, put_flag,
    put_key_kind, put_key_seed, put_public_key, put_slice, put_trust, put_u8, put_u16, put_u32,
    trust_at, u8_between, u16_between, u32_between,
};
use mb_model::{BadRecord, Chains, Items, KeyKind, KeySeed, NoMemory, PublicKey, Tree, Trust};
use std::test::Fail;

const FIELDS: [u8; 12] = [7, 1, 2, 0xDE, 0xAD, 0xBE, 0xEF, b'a', b'b', 9, 8, 7];

const EXAMPLE: [u8; 11] = *b"\0\0\0\x01name\x01\x0A\x0B";

#[test]
fn fields_are_read(rt: HostRuntime) -> Result<(), Fail> {
    let mut cursor = Cursor::new(FIELDS.as_slice());
    assert!(rt; cursor.take_u8() == Ok(7) && cursor.take_u16() == Ok(0x0102));
    assert!(rt; cursor.take_u32() == Ok(0xDEAD_BEEF) && cursor.take_array() == Ok(*b"ab"));
    assert!(rt; cursor.take_u32() == Err(Short { at: 9 }));
    assert!(rt; cursor.offset() == 9 && cursor.left() == 3);
    assert!(rt; cursor.take_slice(3) == Ok([9, 8, 7].as_slice()) && cursor.left() == 0);
    Ok(())
}

#[test]
fn an_example_is_written(rt: HostRuntime) -> Result<(), Fail> {
    let mut values = Items::new(rt.alloc());
    values.push(0x0A0B)?;
    let example = Example {
        number: 1,
        name: *b"name",
        values,
    };
    let mut out = Vec::new(rt.alloc());
    write_example(&mut out, &example)?;
    assert!(rt; out.as_slice() == EXAMPLE.as_slice());
    Ok(())
}

#[test]
fn an_example_is_read(rt: HostRuntime) -> Result<(), Fail> {
    let mut cursor = Cursor::new(EXAMPLE.as_slice());
    let is_read = match read_example(rt.alloc(), &mut cursor) {
        Ok(example) => example.number == 1 && example.values.as_slice() == [0x0A0B].as_slice(),
        Err(_) => false,
    };
    assert!(rt; is_read && cursor.left() == 0);
    let at = match read_whole_example(rt.alloc(), &EXAMPLE[..10]) {
        Ok(_) | Err(ReadEnd::NoMemory) => 0,
        Err(ReadEnd::Bad { at }) => at,
    };
    assert!(rt; at == 9);
    Ok(())
}

#[test]
fn bounds_are_kept(rt: HostRuntime) -> Result<(), Fail> {
    let mut cursor = Cursor::new(FIELDS.as_slice());
    assert!(rt; u8_between(&mut cursor, 7, 7) == Ok(7));
    assert!(rt; u16_between(&mut cursor, 0, 0x0102) == Ok(0x0102));
    let mut ahead = cursor;
    assert!(rt; u32_between(&mut ahead, 0, 0xDEAD_BEEE) == Err(BadRecord { at: 3 }));
    assert!(rt; u32_between(&mut cursor, 0, 0xDEAD_BEEF) == Ok(0xDEAD_BEEF));
    assert!(rt; flag_at(&mut cursor) == Err(BadRecord { at: 7 }));
    Ok(())
}

#[test]
fn wrong_choices_are_refused(rt: HostRuntime) {
    let mut cursor = Cursor::new(b"\x02\x01\x03");
    assert!(rt; cursor.take_u16() == Ok(0x0201));
    assert!(rt; trust_at(&mut cursor) == Err(BadRecord { at: 2 }));
    let swapped = b"\0\0\0\x05\0\0\0\x05";
    assert!(rt; public_key_at(&mut Cursor::new(swapped)) == Err(BadRecord { at: 4 }));
}

/// A field that is read and written.
enum Field {
    U8(u8),
    U16(u16),
    U32(u32),
    Five([u8; 5]),
    AfterU8([u8; 2]),
    AfterU16([u8; 2]),
    AfterU32([u8; 1]),
    Flag(bool),
    Key(PublicKey),
    Seed(KeySeed),
    Trust(Trust),
    Kind(KeyKind),
}

/// Whether this value was read.
fn is_read<T: PartialEq + Drop, E: Drop>(found: Result<T, E>, value: T) -> bool {
    match found {
        Ok(found) => found == value,
        Err(_) => false,
    }
}

/// Whether the field is read at the cursor.
fn is_next(cursor: &mut Cursor, field: &Field) -> bool {
    match field {
        Field::U8(value) => is_read(cursor.take_u8(), *value),
        Field::U16(value) => is_read(cursor.take_u16(), *value),
        Field::U32(value) => is_read(cursor.take_u32(), *value),
        Field::Five(bytes) => is_read(cursor.take_slice(5), bytes.as_slice()),
        Field::AfterU8(bytes) => is_read(bytes_after_u8(cursor, 0, 2), bytes.as_slice()),
        Field::AfterU16(bytes) => is_read(bytes_after_u16(cursor, 0, 2), bytes.as_slice()),
        Field::AfterU32(bytes) => is_read(bytes_after_u32(cursor, 0, 1), bytes.as_slice()),
        Field::Flag(value) => is_read(flag_at(cursor), *value),
        Field::Key(key) => is_read(public_key_at(cursor), *key),
        Field::Seed(seed) => is_read(key_seed_at(cursor), *seed),
        Field::Trust(trust) => is_read(trust_at(cursor), *trust),
        Field::Kind(kind) => is_read(key_kind_at(cursor), *kind),
    }
}

/// Appends the field.
fn put(out: &mut Vec<u8>, field: &Field) -> Result<(), NoMemory> {
    match field {
        Field::U8(value) => put_u8(out, *value),
        Field::U16(value) => put_u16(out, *value),
        Field::U32(value) => put_u32(out, *value),
        Field::Five(bytes) => put_slice(out, bytes),
        Field::AfterU8(bytes) => put_after_u8(out, bytes),
        Field::AfterU16(bytes) => put_after_u16(out, bytes),
        Field::AfterU32(bytes) => put_after_u32(out, bytes),
        Field::Flag(value) => put_flag(out, *value),
        Field::Key(key) => put_public_key(out, key),
        Field::Seed(seed) => put_key_seed(out, seed),
        Field::Trust(trust) => put_trust(out, *trust),
        Field::Kind(kind) => put_key_kind(out, *kind),
    }
}

/// The fields that `SPELLED` spells.
const WRITTEN: &[Field] = &[
    Field::U8(7),
    Field::U16(0x0102),
    Field::U32(0xDEAD_BEEF),
    Field::Five(*b"ab\x09\x08\x07"),
    Field::AfterU8(*b"ab"),
    Field::AfterU16(*b"cd"),
    Field::AfterU32(*b"e"),
    Field::Flag(true),
    Field::Flag(false),
    Field::Key(PublicKey {
        tree: Tree::H5,
        chains: Chains::W4,
        identifier: *b"an identifier 16",
        root: *b"the root of a tree with 32 bytes",
    }),
    Field::Seed(KeySeed {
        identifier: *b"an identifier 16",
        seed: *b"the root of a tree with 32 bytes",
    }),
    Field::Trust(Trust::Countersigned),
    Field::Kind(KeyKind::Configuration),
];

/// The spelling of `WRITTEN`: numbers and bytes, bytes after their lengths, a key of types 5 and 3, a seed, and
/// choices.
const SPELLED: &[u8] = b"\x07\x01\x02\xDE\xAD\xBE\xEFab\x09\x08\x07\
    \x02ab\0\x02cd\0\0\0\x01e\x01\0\
    \0\0\0\x05\0\0\0\x03an identifier 16the root of a tree with 32 bytes\
    an identifier 16the root of a tree with 32 bytes\x02\x01";

#[test]
fn fields_go_both_ways(rt: HostRuntime) -> Result<(), Fail> {
    let mut cursor = Cursor::new(SPELLED);
    let mut out = Vec::new(rt.alloc());
    for field in WRITTEN {
        assert!(rt; is_next(&mut cursor, field));
        put(&mut out, field)?;
    }
    assert!(rt; cursor.left() == 0 && out.as_slice() == SPELLED);
    Ok(())
}

#[test]
fn pieces_are_put_in_place(rt: HostRuntime) {
    let mut out = *b"abcdef";
    put_at(&mut out, 2, b"xy");
    assert!(rt; out == *b"abxyef");
}
