//! Words and lines, against bytes that are written out.

use super::pieces::text_of;
use mb_words::{NotSaid, after_word, read_array, read_hex, read_number, split_at_byte, split_line};
use std::alloc::Global;
use std::process::Abort;

/// Words, the most that each may say, and the number that it says.
const NUMBERS: &[(&str, u32, Option<u32>)] = &[
    ("0", 0, Some(0)),
    ("4294967295", u32::MAX, Some(u32::MAX)),
    ("100", 100, Some(100)),
    ("", u32::MAX, None),
    ("00", u32::MAX, None),
    ("01", u32::MAX, None),
    ("1 ", u32::MAX, None),
    ("1a", u32::MAX, None),
    ("+1", u32::MAX, None),
    ("101", 100, None),
    ("4294967296", u32::MAX, None),
    ("10000000000", u32::MAX, None),
];

#[test]
fn numbers_alone_are_read(rt: HostRuntime) {
    for (word, most, number) in NUMBERS {
        assert!(rt; read_number(word.as_bytes(), *most) == *number, "{word}");
    }
}

/// Words, and the bytes of those that are hexadecimal.
const WORDS: &[(&str, Option<&[u8]>)] = &[
    ("-", Some(b"")),
    ("0aFF", Some(b"\x0A\xFF")),
    ("", None),
    ("0", None),
    ("0g", None),
    ("--", None),
];

/// Whether the word is read as these bytes, or, if none are given, is not hexadecimal.
fn is_hex(alloc: Global, word: &str, bytes: Option<&[u8]>) -> bool {
    match read_hex(alloc, word.as_bytes()) {
        Ok(read) => match bytes {
            Some(bytes) => read.as_slice() == bytes,
            None => false,
        },
        Err(error) => bytes.is_none() && error == NotSaid::Form,
    }
}

#[test]
fn bytes_are_read(rt: HostRuntime) {
    for (word, bytes) in WORDS {
        assert!(rt; is_hex(rt.alloc(), word, *bytes), "{word}");
    }
}

/// Whether a word of `count` bytes is read.
fn is_read(alloc: Global, count: usize) -> bool {
    match text_of(alloc, &[("0a", count)]) {
        Ok(word) => match read_hex(alloc, word.as_slice()) {
            Ok(bytes) => bytes.as_slice().len() == count,
            Err(_) => false,
        },
        Err(_) => false,
    }
}

#[test]
fn long_words_are_read(rt: HostRuntime) {
    assert!(rt; is_read(rt.alloc(), 32_768));
    assert!(rt; is_read(rt.alloc(), 61_034));
}

#[test]
fn arrays_are_read(rt: HostRuntime) {
    assert!(rt; read_array(b"0aFF") == Some([0x0A, 0xFF]));
    assert!(rt; read_array::<2>(b"0a").is_none());
    assert!(rt; read_array::<1>(b"-").is_none());
}

/// The text is divided into these two parts, or not at all.
fn is_cut(rt: &impl Abort, found: Option<(&[u8], &[u8])>, parts: Option<(&[u8], &[u8])>) {
    assert!(rt; found == parts, "{parts:?}");
}

#[test]
fn texts_are_cut(rt: HostRuntime) {
    is_cut(
        &rt,
        Some(split_line(b"boot\noff\n")),
        Some((b"boot", b"off\n")),
    );
    is_cut(&rt, Some(split_line(b"\noff")), Some((b"", b"off")));
    is_cut(&rt, Some(split_line(b"off")), Some((b"off", b"")));
    is_cut(&rt, split_at_byte(b"a b c", b' '), Some((b"a", b"b c")));
    is_cut(&rt, split_at_byte(b"abc", b' '), None);
}

#[test]
fn words_are_taken_off(rt: HostRuntime) {
    assert!(rt; after_word(b"code 00", b"code ") == Some(b"00".as_slice()));
    assert!(rt; after_word(b"code", b"code ").is_none());
}
