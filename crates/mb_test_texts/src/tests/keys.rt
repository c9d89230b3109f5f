//! Keys made, written and read, against values of another program.

use hex::FromHex;
use mb_officer::{BadRecord, make_key, read_keyfile, write_keyfile};
use std::process::Abort;

/// Whether the key that is made from the noise has this file, and is read from it again.
fn has_file(noise: &[u8; 32], file: &[u8; 56]) -> bool {
    let key = make_key(noise);
    key.next.number() == 0 && write_keyfile(&key) == *file && read_keyfile(file) == Ok(key)
}

/// The key that is made from the noise has this file, and is read from it again.
fn makes(rt: &impl Abort, noise: &str, file: &str) {
    let made = match (FromHex::from_hex(noise), FromHex::from_hex(file)) {
        (Ok(noise), Ok(file)) => has_file(&noise, &file),
        _ => false,
    };
    assert!(rt; made);
}

#[test]
fn a_key_of_zeros(rt: HostRuntime) {
    makes(
        &rt,
        "0000000000000000000000000000000000000000000000000000000000000000",
        "4d424b31415f9f8fc3e618dd8524180f3db6a7c9eb495b20b522240648df79d22ec304c592f6d73c19b49bf70f19f34f7288\
        8b1a00000000",
    );
}

/// How many bytes are read of a key's file, the next index in the file, and the offset that is wrong.
const BROKEN: &[(usize, u8, u32)] = &[
    (0, 0, 0),
    (3, 0, 0),
    (19, 0, 4),
    (51, 0, 20),
    (55, 0, 52),
    (57, 32, 56),
    (56, 33, 52),
];

/// Whether the first `length` bytes of a key's file with this next index, followed by a zero, are wrong at offset `at`.
fn is_wrong(length: usize, next: u8, at: u32) -> bool {
    let mut file = [0; 57];
    file[..56].copy_from_slice(&write_keyfile(&make_key(&[0; 32])));
    file[55] = next;
    length <= 57 && read_keyfile(&file[..length]) == Err(BadRecord { at })
}

#[test]
fn broken_files_are_refused(rt: HostRuntime) {
    for (length, next, at) in BROKEN {
        assert!(rt; is_wrong(*length, *next, *at), "{length} {next} {at}");
    }
}
