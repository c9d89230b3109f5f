//! Drafts that are read, and the first wrong lines of others.

use mb_officer::{DraftEnd, read_draft};
use std::alloc::Global;

/// Texts, and the first wrong line of each that is no draft.
const DRAFTS: &[(&str, Option<u32>)] = &[
    ("order surrender 2\n", None),
    ("order surrender 2", None),
    ("order surrender 2\n\n", Some(2)),
    ("", Some(1)),
    ("order establish 2\n", Some(2)),
    ("order load 3\nversion 258\ntrust never\n", Some(4)),
    ("\norder surrender 2", Some(1)),
    ("order surrender 1", Some(1)),
    ("order newkey 2", Some(1)),
    ("order load 4", Some(1)),
    ("order  load 3", Some(1)),
    ("order surrender 2\ntrust never", Some(2)),
    (
        "order newkey 2 epoch\ntarget length 7\ntarget serial 00",
        Some(3),
    ),
    ("order load 3\nversion 0258\n", Some(2)),
    ("order load 3\nversion 4294967296\n", Some(2)),
    ("order load 3\nversion 1\ntrust none", Some(3)),
    ("order load 3\nversion 1\ntrust always never\ncode -", None),
    ("order load 3\nversion 1\ntrust never never\ncode -", None),
    ("order load 3\nversion 1\ntrust always none", Some(3)),
    ("order load 3\nversion 1\ntrust none always", Some(3)),
    ("order load 3\nversion 1\ntrust always never never", Some(3)),
    ("order load 3\nversion 1\ntrust always never ", Some(3)),
    ("order load 3\nversion 1\ntrust  always", Some(3)),
    ("order load 3\nversion 1\ntrust always  never", Some(3)),
    ("order load 3\nversion 1\ntrust always ", Some(3)),
    (
        "order load 3\nversion 1\ntrust always\ntrust never",
        Some(4),
    ),
    ("order load 3\nversion 1\ntrust never\ncode 6g", Some(4)),
    (
        "order load 3\nversion 1\ntrust never\ncode -\ncode -",
        Some(5),
    ),
    (
        "order surrender 2\ntarget length 1\ntarget length 2\ntarget length 3\n\
            target length 4\ntarget length 5\ntarget length 6\ntarget length 7\ntarget length 8\n\
            target length 9\n",
        Some(10),
    ),
];

/// The first wrong line of the text, or none.
fn first_wrong(alloc: Global, text: &[u8]) -> Option<u32> {
    if text.len() > 1_000 {
        return Some(u32::MAX);
    }
    match read_draft(alloc, text) {
        Ok(_) => None,
        Err(DraftEnd::BadLine { line }) => Some(line),
        Err(DraftEnd::NoMemory) => Some(0),
    }
}

#[test]
fn first_wrong_lines_are_named(rt: HostRuntime) {
    for (text, line) in DRAFTS {
        assert!(rt; first_wrong(rt.alloc(), text.as_bytes()) == *line, "{text}");
    }
}
