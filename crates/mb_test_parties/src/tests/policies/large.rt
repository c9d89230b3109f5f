//! Policies at their limits.

use super::judgements::{SETS, is_policy};
use super::reports::Expected::{Allowed, Denied, Line};
use super::reports::{Expected, comes_to, report};
use mb_model::Report;
use std::alloc::Global;
use std::test::Fail;

/// A hash, and the space before it.
const HASH: &str = " 0000000000000000000000000000000000000000000000000000000000000000";

/// Appends lines `allow xN alive` for N below `count`.
fn append_rules(alloc: Global, out: &mut Vec<u8>, count: u32) -> Result<(), Fail> {
    for number in 0..count {
        let line = format!(in alloc; "allow x{number} alive\n")?;
        out.extend_from_slice(line.as_bytes())?;
    }
    Ok(())
}

/// Whether a policy of this many rules comes to this.
fn are_rules(alloc: Global, report: &Report, count: u32, expected: Expected) -> Result<bool, Fail> {
    let mut text = Vec::new(alloc);
    append_rules(alloc, &mut text, count)?;
    text.truncate(100_000);
    comes_to(alloc, report, text.as_slice(), expected)
}

#[test]
fn a_policy_has_256_lines(rt: HostRuntime) -> Result<(), Fail> {
    let report = report(rt.alloc())?;
    assert!(rt; are_rules(rt.alloc(), &report, 256, Allowed)?);
    assert!(rt; are_rules(rt.alloc(), &report, 257, Line(257))?);
    Ok(())
}

/// A test of four tests of owners and codes.
const FOUR: &str = "or or owner 1 a code 2 a or owner 2 a code 3 a ";

/// Large policies: what each has, its pieces, and what it comes to. The tests of the first are nested, after three sets.
/// The rule of the last allows by an `or` of 64 tests of owners and codes, none of which holds, and a last test.
const LARGE: &[(&str, &[(&str, usize)], Expected)] = &[
    (
        "31 words not, and a test that fails",
        &[(SETS, 1), ("allow r ", 1), ("not ", 31), ("statement\n", 1)],
        Allowed,
    ),
    (
        "30 words not, and a test that holds",
        &[(SETS, 1), ("allow r ", 1), ("not ", 30), ("alive\n", 1)],
        Allowed,
    ),
    (
        "32 words not",
        &[(SETS, 1), ("allow r ", 1), ("not ", 32), ("alive\n", 1)],
        Line(4),
    ),
    (
        "31 words and",
        &[
            (SETS, 1),
            ("allow r ", 1),
            ("and ", 31),
            ("alive ", 31),
            ("alive\n", 1),
        ],
        Allowed,
    ),
    (
        "a set of 64 hashes",
        &[("set wide", 1), (HASH, 64), ("\nallow a alive\n", 1)],
        Allowed,
    ),
    (
        "a set of 65 hashes",
        &[("set wide", 1), (HASH, 65), ("\nallow a alive\n", 1)],
        Line(1),
    ),
    (
        "64 tests, and a last that fails",
        &[
            ("set a", 1),
            (HASH, 64),
            ("\nallow r ", 1),
            ("or ", 16),
            (FOUR, 16),
            ("statement\n", 1),
        ],
        Denied(4, "default"),
    ),
    (
        "64 tests, and a last that holds first",
        &[
            ("set a", 1),
            (HASH, 64),
            ("\nallow r ", 1),
            ("or ", 16),
            (FOUR, 16),
            ("first\n", 1),
        ],
        Denied(5, "default"),
    ),
    (
        "64 tests, and a last that holds",
        &[
            ("set a", 1),
            (HASH, 64),
            ("\nallow r ", 1),
            ("or ", 16),
            (FOUR, 16),
            ("alive\n", 1),
        ],
        Allowed,
    ),
];

#[test]
fn large_policies_come_to_what_is_expected(rt: HostRuntime) -> Result<(), Fail> {
    let report = report(rt.alloc())?;
    for (large, pieces, expected) in LARGE {
        let is_right = is_policy(rt.alloc(), &report, pieces, *expected)?;
        assert!(rt; is_right, "{large}");
    }
    Ok(())
}
