//! The command `run` over a host that prints nothing.

use super::devices::{KEY, OTHER_OWNER};
use super::{Content, Given, Play, SERIAL, Step, perform};
use std::test::Fail;

const FILES: &[Given] = &[
    Given {
        name: "noise3",
        content: Content::Hex(
            "12d71d7255b6325df7487678010fc9dbb905c6d5af1a7d986e75ecdfdc39dfbec10b471ceff881272aa5ed819fd9a0e0",
        ),
    },
    Given {
        name: "code",
        content: Content::Text("layer one"),
    },
    Given {
        name: "first",
        content: Content::Hex(KEY),
    },
    Given {
        name: "other",
        content: Content::Hex(OTHER_OWNER),
    },
    Given {
        name: "boot",
        content: Content::Text("boot\n"),
    },
    Given {
        name: "tampered",
        content: Content::Text("boot\ntamper\nboot\nstatus\n"),
    },
    Given {
        name: "noise",
        content: Content::Sevens(32),
    },
];

/// Neither the replies nor the line that reports this can be printed: the image is the new one.
const NOTHING_IS_PRINTED: &[Play] = &[Play {
    failing: &[11, 12],
    steps: &[
        Step::Ends("factory noise3 first other code image", 0, SERIAL),
        Step::Ends("run image tampered noise", 5, ""),
        Step::Ends("run image boot noise", 0, "refused 3 zeroised\n"),
    ],
}];

#[test]
fn nothing_is_printed(rt: HostRuntime) -> Result<(), Fail> {
    perform(&rt, FILES, NOTHING_IS_PRINTED)
}
