//! Policies, and what each comes to for a report of `reports`.

use super::reports::Expected::{Allowed, Denied, Line};
use super::reports::Whose::{Called, Configured, Ended, Hashed, Living};
use super::reports::{Expected, Whose, comes_to, report_on};
use crate::tests::pieces::text_of;
use mb_model::Report;
use std::alloc::Global;
use std::process::Abort;
use std::test::Fail;

/// Three sets: the first code of layer 1, the owner of layer 2, and the later code of all layers.
pub const SETS: &str = "set one f191e625176e7514249870c60bc24622131b04927a418001d1969c9cecd260f1\n\
                    set two af4100871c517431c0e948ce1c92b19f2413ee26e0524ecdeed3495e34fc7430\n\
                    set abc ba7816bf8f01cfea414140de5dae2223b00361a396177a9cb410ff61f20015ad\n";

/// Lines after the three sets, and what the policy comes to for the key that is alive.
const OF_LIVING: &[(&str, Expected)] = &[
    ("allow r first\n", Denied(5, "default")),
    ("allow r last\n", Denied(4, "default")),
    ("allow r number 4 5\n", Denied(6, "default")),
    ("allow r number 5 4\n", Denied(4, "default")),
    ("allow r number 6 9\n", Denied(4, "default")),
    ("allow r alive\n", Allowed),
    ("allow r statement\n", Denied(4, "default")),
    (
        "allow r or called or input abc answer abc\n",
        Denied(4, "default"),
    ),
    ("allow r kind epoch\n", Allowed),
    ("allow r kind configuration\n", Denied(4, "default")),
    ("allow r version 3 1 1\n", Allowed),
    ("allow r version 3 2 9\n", Denied(4, "default")),
    ("allow r reliable 3\n", Allowed),
    ("allow r trust 3 1 countersigned\n", Allowed),
    ("allow r trust 3 2 always\n", Denied(4, "default")),
    ("allow r trust 1 2 always\n", Denied(5, "default")),
    ("allow r code 1 one\n", Denied(5, "default")),
    ("allow r code 1 abc\n", Denied(4, "default")),
    ("allow r code 2 abc\n", Allowed),
    ("allow r owner 2 two\n", Allowed),
    ("allow r owner 3 two\n", Denied(4, "default")),
    ("allow r not first\n", Denied(4, "default")),
    ("allow r or first last\n", Denied(5, "default")),
    ("allow r and number 4 5 number 5 6\n", Denied(4, "default")),
    (
        "allow r or number 4 4 and alive number 5 5\n",
        Denied(6, "default"),
    ),
    ("allow r reliable 4\n", Line(4)),
    ("allow r reliable 0\n", Line(4)),
    ("allow r owner 3 absent\n", Line(4)),
    ("allow r trust 3 3 always\n", Line(4)),
    ("allow r trust 3 1 Always\n", Line(4)),
    ("allow r number 01 2\n", Line(4)),
    ("allow r number 1 4294967296\n", Line(4)),
    ("allow r number 1\n", Line(4)),
    ("allow r alive alive\n", Line(4)),
    ("allow r and alive\n", Line(4)),
    ("allow r not\n", Line(4)),
    ("allow r kind epoch \n", Line(4)),
    ("allow r  alive\n", Line(4)),
    ("allow r xor alive alive\n", Line(4)),
    ("allow r kind alive\n", Line(4)),
    ("allow r version 1 2 3 4\n", Line(4)),
];

/// Whole policies, and what each comes to for the key that is alive.
const WHOLE: &[(&str, Expected)] = &[
    ("allow any kind epoch\n", Allowed),
    (
        "deny early number 4 4\nallow any alive\n",
        Denied(4, "early"),
    ),
    ("allow late number 5 9\n", Denied(4, "default")),
    ("", Denied(4, "default")),
    ("\n# nothing\n", Denied(4, "default")),
    ("allow a code 3 good\n", Line(1)),
    (
        "set good 0000000000000000000000000000000000000000000000000000000000000000\nallow a code 3 good\n",
        Denied(4, "default"),
    ),
    ("allow a alive\nallow a alive\n", Line(2)),
    (
        "set a 0000000000000000000000000000000000000000000000000000000000000000\nset a 0000000000000000000000000000000000000000000000000000000000000000\n",
        Line(2),
    ),
    (
        "set a 0000000000000000000000000000000000000000000000000000000000000000\nallow a alive\n",
        Allowed,
    ),
    ("allow default alive\n", Line(1)),
    (
        "set default 0000000000000000000000000000000000000000000000000000000000000000\n",
        Denied(4, "default"),
    ),
    (
        "set a 00000000000000000000000000000000000000000000000000000000000000\n",
        Line(1),
    ),
    ("set a -\n", Line(1)),
    ("set a\n", Line(1)),
    ("allow a\n", Line(1)),
    ("deny x not alive\nallow y alive\n", Allowed),
    ("allow nnnnnnnnnnnnnnnnnnnnnnnnnnnnnnnn alive\n", Allowed),
    ("allow nnnnnnnnnnnnnnnnnnnnnnnnnnnnnnnnn alive\n", Line(1)),
    ("permit a alive\n", Line(1)),
];

/// Whole policies with bad lines at other places: the words of a set, a set that stands after its use, and a name that
/// only a rule has. And policies whose last line lacks its LF.
const OTHER_LINES: &[(&str, Expected)] = &[
    ("allow a code 3 b\nset b 00\n", Line(1)),
    ("allow a alive\nallow b code 3 a\n", Line(2)),
    ("# first\n\nallow a alive\n\nallow a alive\n", Line(5)),
    ("allow a alive\nset\n", Line(2)),
    ("allow a alive\n \n", Line(2)),
    ("allow a alive\nallow b trust 3 0 never\n", Line(2)),
    ("allow a alive\nallow b version 4 1 1\n", Line(2)),
    ("allow a alive\nallow b not and alive\n", Line(2)),
    ("allow a alive", Allowed),
    ("deny a last\nallow b alive", Denied(6, "a")),
    (
        "deny a and last not first\nallow b or first alive",
        Denied(6, "a"),
    ),
    (
        "allow a first\ndeny b reliable 2\nallow c alive",
        Denied(5, "b"),
    ),
];

/// Lines after the three sets, and what the policy comes to for the key that has ended. By the definitions, what a test
/// asks of the code or the owner of a layer without is false; only the trust of a layer without an owner is one, `never`.
const OF_ENDED: &[(&str, Expected)] = &[
    ("allow r alive\n", Denied(7, "default")),
    ("allow r not alive\n", Allowed),
    ("allow r kind epoch\n", Allowed),
    ("allow r kind configuration\n", Denied(7, "default")),
    ("allow r first\n", Denied(8, "default")),
    ("deny r last\nallow s not alive\n", Denied(9, "r")),
    ("allow r reliable 2\n", Denied(7, "default")),
    ("allow r not reliable 2\n", Allowed),
    ("allow r and reliable 1 reliable 3\n", Allowed),
    ("allow r code 2 abc\n", Denied(8, "default")),
    (
        "deny r not code 2 abc\nallow s owner 2 two\n",
        Denied(8, "r"),
    ),
    ("allow r version 2 0 4294967295\n", Denied(8, "default")),
    ("allow r or version 2 1 1 number 8 9\n", Allowed),
    ("allow r owner 2 two\n", Denied(9, "default")),
    (
        "deny r not owner 2 two\nallow s not alive\n",
        Denied(9, "r"),
    ),
    ("allow r trust 2 1 countersigned\n", Denied(9, "default")),
    ("allow r trust 2 1 never\n", Denied(7, "default")),
    (
        "deny r trust 2 1 never\nallow s not statement\n",
        Denied(9, "r"),
    ),
];

/// Lines after the three sets, and what the policy comes to for the configuration key. By the definitions, what a test
/// asks of a layer that is not listed is false.
const OF_CONFIGURED: &[(&str, Expected)] = &[
    ("allow r kind configuration\n", Allowed),
    ("allow r kind epoch\n", Denied(5, "default")),
    ("allow r and alive statement\n", Allowed),
    ("allow r and first last\n", Allowed),
    ("allow r number 5 5\n", Allowed),
    ("allow r and reliable 1 reliable 2\n", Allowed),
    ("allow r and code 1 abc owner 2 two\n", Allowed),
    ("allow r reliable 3\n", Denied(5, "default")),
    ("allow r not reliable 3\n", Allowed),
    ("allow r trust 3 1 never\n", Denied(5, "default")),
    ("allow r not trust 3 1 never\n", Allowed),
    (
        "deny r not trust 3 2 never\nallow s alive\n",
        Denied(5, "r"),
    ),
    ("allow r version 3 0 4294967295\n", Denied(5, "default")),
    ("allow r or owner 3 two code 3 abc\n", Denied(5, "default")),
];

/// Four sets: the hash of the call's input, the hash of another input, the SHA-256 of `abc`, and both inputs.
const CALL_SETS: &str = "set now 4fddb6e92a8333684779335007eda9426ddd8ea849ce4ab7c8340016d9d9d89a\n\
                         set past 9779765541c59829a4e2196d1f3de1e33ac57753ef039737273b11af7734d7ac\n\
                         set abc ba7816bf8f01cfea414140de5dae2223b00361a396177a9cb410ff61f20015ad\n\
                         set any 9779765541c59829a4e2196d1f3de1e33ac57753ef039737273b11af7734d7ac 4fddb6e92a8333684779335007eda9426ddd8ea849ce4ab7c8340016d9d9d89a\n";

/// Lines after the sets of calls, and what the policy comes to if the statement is one of a call.
const OF_CALLED: &[(&str, Expected)] = &[
    ("allow r statement\n", Allowed),
    ("allow r called\n", Allowed),
    ("deny r called\nallow s alive\n", Denied(5, "r")),
    ("allow r input now\n", Allowed),
    ("allow r input past\n", Denied(5, "default")),
    ("allow r input any\n", Allowed),
    ("allow r input abc\n", Denied(5, "default")),
    ("allow r answer abc\n", Allowed),
    ("allow r answer now\n", Denied(5, "default")),
    ("allow r not answer now\n", Allowed),
    (
        "allow fresh and called and last and code 2 abc input now\n",
        Allowed,
    ),
    ("allow r input 2 now\n", Line(5)),
    ("allow r input\n", Line(5)),
    ("allow r input later\n", Line(5)),
    ("allow r answer\n", Line(5)),
    ("allow r answer abc abc\n", Line(5)),
    ("allow r called now\n", Line(5)),
    ("allow r call\n", Line(5)),
];

/// Lines after the sets of calls, and what the policy comes to if the statement is a message of the bytes of the hash.
const OF_HASHED: &[(&str, Expected)] = &[
    ("allow r statement\n", Allowed),
    ("allow r called\n", Denied(5, "default")),
    ("allow r not called\n", Allowed),
    ("allow r input now\n", Denied(5, "default")),
    ("allow r or input any answer abc\n", Denied(5, "default")),
];

/// Policies that are judged for the report on a key: which key that is, the lines with which each begins, and its other
/// lines.
const POLICIES: &[(&str, Whose, &str, &[(&str, Expected)])] = &[
    ("alive", Living, SETS, OF_LIVING),
    ("alive", Living, "", WHOLE),
    ("alive", Living, "", OTHER_LINES),
    ("ended", Ended, SETS, OF_ENDED),
    ("configuration", Configured, SETS, OF_CONFIGURED),
    ("called", Called, CALL_SETS, OF_CALLED),
    ("hashed", Hashed, CALL_SETS, OF_HASHED),
];

/// Whether the policy of the pieces comes to this.
pub fn is_policy(
    alloc: Global,
    report: &Report,
    pieces: &[(&str, usize)],
    expected: Expected,
) -> Result<bool, Fail> {
    let text = text_of(alloc, pieces)?;
    comes_to(alloc, report, text.as_slice(), expected)
}

/// Whether the policy of these lines after the lines `first` comes to this.
fn is_after(
    alloc: Global,
    report: &Report,
    first: &str,
    lines: &str,
    expected: Expected,
) -> Result<bool, Fail> {
    is_policy(alloc, report, &[(first, 1), (lines, 1)], expected)
}

/// Each policy comes to what its row says, for the report on the key.
fn expect_all(
    rt: &impl Abort,
    alloc: Global,
    (key, whose, first, rows): &(&str, Whose, &str, &[(&str, Expected)]),
) -> Result<(), Fail> {
    let report = report_on(alloc, *whose)?;
    for (lines, expected) in *rows {
        let is_right = is_after(alloc, &report, first, lines, *expected)?;
        assert!(rt; is_right, "{key}: {lines}");
    }
    Ok(())
}

#[test]
fn policies_come_to_what_is_expected(rt: HostRuntime) -> Result<(), Fail> {
    for policies in POLICIES {
        expect_all(&rt, rt.alloc(), policies)?;
    }
    Ok(())
}
