//! Keys that are judged by a policy: what `trust` answers for the chain of a life, and each of its other ends. The
//! listing of the chain is that of an independent program (`ITS_LISTING`).

use super::births::owned;
use super::{
    A_NEW_DEVICE, A_WHOLE_LIFE, Content, Given, ITS_CHAIN, Part, Step, ends, file_of, go_on,
    go_through, host_with, store,
};
use mb_host::MemoryHost;
use std::test::Fail;

/// Policies, the status of each for key 1, and what is printed. The key lived in configurations 4, 5 and 6.
const JUDGED: &[(&str, u8, &str)] = &[
    ("allow any kind epoch\n", 0, "allowed\n"),
    (
        "deny early number 4 4\nallow any alive\n",
        7,
        "denied 4 early\n",
    ),
    ("allow late number 5 9\n", 7, "denied 4 default\n"),
    ("", 7, "denied 4 default\n"),
    ("allow r first", 7, "denied 5 default\n"),
    ("allow r number 4 5\n", 7, "denied 6 default\n"),
    ("allow r statement\n", 7, "denied 4 default\n"),
    ("allow r trust 3 1 countersigned\n", 0, "allowed\n"),
    (
        "allow r version 3 1 1\ndeny nnnnnnnnnnnnnnnnnnnnnnnnnnnnnnnn last\n",
        7,
        "denied 6 nnnnnnnnnnnnnnnnnnnnnnnnnnnnnnnn\n",
    ),
    (
        "set known f191e625176e7514249870c60bc24622131b04927a418001d1969c9cecd260f1 \
            7692c3ad3540bb803c020b3aee66cd8887123234ea0c6e7143c0add73ff431ed\n\
            allow r code 1 known\n",
        0,
        "allowed\n",
    ),
    (
        "set known f191e625176e7514249870c60bc24622131b04927a418001d1969c9cecd260f1\n\
            allow r code 1 known\n",
        7,
        "denied 5 default\n",
    ),
    (
        "set owner 68cd35f6dc5234d9a7e9df889d48ec8302912dee6f7c9fe17efeffa7bf970b63\n\
            allow r owner 2 owner\n",
        0,
        "allowed\n",
    ),
    ("allow a code 3 good\n", 3, "input policy line 1\n"),
    (
        "allow nnnnnnnnnnnnnnnnnnnnnnnnnnnnnnnnn alive\n",
        3,
        "input policy line 1\n",
    ),
    (
        "# first\n\nallow a alive\n\nallow a alive\n",
        3,
        "input policy line 5\n",
    ),
];

/// Each other end, in the order of the inputs. A policy at fault comes before a chain that is not accepted.
const OTHER_ENDS: &[Step] = &[
    Step::Ends("trust public0 chain 1", 2, "words\n"),
    Step::Ends("trust public0 chain policy", 2, "words\n"),
    Step::Ends("trust public0 chain 01 policy", 2, "words\n"),
    Step::Ends("trust public0 chain 4294967296 policy", 2, "words\n"),
    Step::Ends("trust public0 chain 1 ", 2, "words\n"),
    Step::Ends("trust public0 chain 1 policy policy", 2, "words\n"),
    Step::Gives(Given {
        name: "longest",
        content: Content::Sevens(4_194_304),
    }),
    Step::Gives(Given {
        name: "longer",
        content: Content::Sevens(4_194_305),
    }),
    Step::Gives(Given {
        name: "policy",
        content: Content::Text("allow any kind epoch\n"),
    }),
    Step::Gives(Given {
        name: "stated",
        content: Content::Text("allow any and statement first\n"),
    }),
    Step::Gives(Given {
        name: "bad",
        content: Content::Text("allow any kind epoch\nallow"),
    }),
    Step::Ends("trust missing missing 1 missing", 4, "read failed root\n"),
    Step::Ends("trust longer missing 1 missing", 3, "input root too long\n"),
    Step::Ends("trust chain missing 1 missing", 3, "input root at 0\n"),
    Step::Ends("trust public0 missing 1 missing", 4, "read failed chain\n"),
    Step::Ends(
        "trust public0 longer 1 missing",
        3,
        "input chain too long\n",
    ),
    Step::Ends("trust public0 longest 1 missing", 4, "read failed policy\n"),
    Step::Ends(
        "trust public0 longest 1 longer",
        3,
        "input policy too long\n",
    ),
    Step::Ends(
        "trust public0 longest 1 longest",
        3,
        "input policy line 1\n",
    ),
    Step::Ends("trust public0 longest 1 bad", 3, "input policy line 2\n"),
    Step::Ends("trust public0 longest 1 policy", 7, "refused 20 0\n"),
    Step::Ends("trust public1 chain 1 policy", 7, "refused 21 0\n"),
    Step::Ends("trust public0 chain 4294967295 policy", 7, "refused 24\n"),
    Step::Ends("attach chain statement attached", 0, "entries 6\n"),
    Step::Ends("trust public0 attached 1 stated", 0, "allowed\n"),
    Step::Writes(
        "late",
        &[
            Part::Slice("chain", 0, 20_649),
            Part::Slice("attached", 15_299, 17_658),
        ],
    ),
    Step::Ends("trust public0 late 1 policy", 7, "refused 26\n"),
];

/// A policy that allows the key, and one that denies it.
const POLICIES: &[Given] = &[
    Given {
        name: "policy",
        content: Content::Text("allow any kind epoch\n"),
    },
    Given {
        name: "denies",
        content: Content::Text(""),
    },
];

/// The calls of a host that fail, from 2 on, the words, the status and what is printed. If a line cannot be printed,
/// the status is the same.
const CALLS_FAIL: &[(&[u64], &str, u8, &str)] = &[
    (&[5, 6], "trust public0 chain 1 policy", 5, ""),
    (&[5], "trust public0 chain 1 denies", 7, ""),
    (
        &[6],
        "trust public0 chain 1 denies",
        7,
        "denied 4 default\n",
    ),
];

/// Under this policy, `trust` has this status and prints these lines for key 1 of the chain.
fn is_judged(
    rt: &impl AllocGlobal,
    host: &mut MemoryHost,
    policy: &str,
    status: u8,
    lines: &str,
) -> Result<(), Fail> {
    store(host, "policy", policy.as_bytes())?;
    ends(rt, host, "trust public0 chain 1 policy", status, lines)
}

/// The words end with this status and these lines on a host that has the maker's public key and the chain of the host
/// given, and whose calls of these numbers fail. The first two calls of that host write these two files.
fn calls_fail(
    rt: &impl AllocGlobal,
    host: &MemoryHost,
    failing: &[u64],
    words: &str,
    status: u8,
    lines: &str,
) -> Result<(), Fail> {
    let mut other = host_with(rt.alloc(), POLICIES, failing)?;
    store(&mut other, "public0", file_of(host, "public0")?)?;
    store(&mut other, "chain", file_of(host, "chain")?)?;
    ends(rt, &mut other, words, status, lines)
}

#[test]
fn keys_are_judged_by_policies(rt: HostRuntime) -> Result<(), Fail> {
    let mut host = owned(&rt)?;
    go_through(&rt, &mut host, &[A_NEW_DEVICE, A_WHOLE_LIFE, ITS_CHAIN])?;
    for (policy, status, lines) in JUDGED {
        is_judged(&rt, &mut host, policy, *status, lines)?;
    }
    for (failing, words, status, lines) in CALLS_FAIL {
        calls_fail(&rt, &host, failing, words, *status, lines)?;
    }
    go_on(&rt, &mut host, OTHER_ENDS)
}
