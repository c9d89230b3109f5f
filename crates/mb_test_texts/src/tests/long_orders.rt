//! If there is memory, the largest order is drafted, read from a line and written as one, and an order of each kind is
//! signed and handed on.

use super::order_lines::{goes_both_ways, hand_on, sizes_of};
use super::orders::{is_signed, order_of};
use super::pieces::text_of;
use std::alloc::Global;

/// The draft of a load with eight targets, two trusts and 32,768 bytes of code.
const LONGEST_DRAFT: &[(&str, usize)] = &[
    ("order load 1\n", 1),
    ("target length 7\n", 8),
    ("version 2\ntrust never always\ncode ", 1),
    ("ab", 32_768),
];

/// Whether the draft of these pieces says an order of these sizes.
fn is_drafted(alloc: Global, draft: &[(&str, usize)], sizes: [usize; 3]) -> bool {
    match text_of(alloc, draft) {
        Ok(draft) => match order_of(alloc, draft.as_slice()) {
            Some(order) => sizes_of(&order) == sizes,
            None => false,
        },
        Err(_) => false,
    }
}

#[test]
fn the_largest_order_is_drafted(rt: HostRuntime) {
    assert!(rt; is_drafted(rt.alloc(), LONGEST_DRAFT, [32_768, 8, 0]));
}

/// The line of a load with eight targets, two trusts, 32,768 bytes of code, a signature and two countersignatures. A
/// signature has 9,324 bytes, after its length.
const LONGEST_LINE: &[(&str, usize)] = &[
    ("command 130108", 1),
    ("0200000007", 8),
    ("00000002020100008000", 1),
    ("ab", 32_768),
    ("246c", 1),
    ("c1", 9_324),
    ("0202246c", 1),
    ("c2", 9_324),
    ("03246c", 1),
    ("c3", 9_324),
    ("\n", 1),
];

/// Whether the line of these pieces is read as an order of these sizes, and written again.
fn is_line(alloc: Global, line: &[(&str, usize)], sizes: [usize; 3]) -> bool {
    match text_of(alloc, line) {
        Ok(line) => goes_both_ways(alloc, line.as_slice(), sizes, line.as_slice()),
        Err(_) => false,
    }
}

#[test]
fn the_longest_line_goes_both_ways(rt: HostRuntime) {
    assert!(rt; is_line(rt.alloc(), LONGEST_LINE, [32_768, 8, 2]));
}

/// Whether the order of the draft is handed on as a line, signed, and handed on again.
fn is_handled(alloc: Global, draft: &str) -> bool {
    match order_of(alloc, draft.as_bytes()) {
        Some(mut order) => {
            hand_on(alloc, &mut order) && is_signed(alloc, &mut order) && hand_on(alloc, &mut order)
        }
        None => false,
    }
}

/// A draft of each kind of order, with one trust and with two.
const KINDS: &[&str] = &[
    "order establish 2\ntarget length 1\n\
        owner 0000000500000003111111111111111111111111111111112222222222222222222222222222222222222222222222222222222222222222\n\
        trust countersigned\n",
    "order establish 3\n\
        owner 0000000500000003111111111111111111111111111111112222222222222222222222222222222222222222222222222222222222222222\n\
        trust countersigned never\n",
    "order surrender 2\n",
    "order load 3\nversion 1\ntrust never\ncode -\n",
    "order load 3\nversion 1\ntrust never always\ncode -\n",
    "order emergency 3\nversion 1\ntrust never\ncode 00\n",
    "order emergency 3\nversion 1\ntrust never countersigned\ncode 00\n",
    "order newkey 2 epoch\n",
    "order newkey 3 configuration\n",
];

#[test]
fn each_kind_of_order_is_handled(rt: HostRuntime) {
    for draft in KINDS {
        assert!(rt; is_handled(rt.alloc(), draft), "{draft}");
    }
}
