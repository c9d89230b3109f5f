//! The command `showcode`: codes with labels and places, against values of an independent program.

use super::{Content, Given, Play, Step, perform};
use std::test::Fail;

/// Codes, whole and not.
const FILES: &[Given] = &[
    Given {
        name: "nothing",
        content: Content::Text(""),
    },
    // counts from 3 down to 0
    Given {
        name: "counts",
        content: Content::Hex("0100000003010000000111032100122000050000"),
    },
    // jumps into an operand, calls the end, and jumps past it if zero
    Given {
        name: "strays",
        content: Content::Hex("20000122000a21ffff00"),
    },
    // jumps to itself, which the instructions after it jump to and call
    Given {
        name: "itself",
        content: Content::Hex("200000210000220000"),
    },
    // calls the instruction behind a secret's name
    Given {
        name: "token",
        content: Content::Hex("22000a4305746f6b656e23"),
    },
    // a name that begins as a comment does
    Given {
        name: "semicolon",
        content: Content::Hex("43023b3b00"),
    },
    Given {
        name: "short",
        content: Content::Hex("2000050001000000"),
    },
    Given {
        name: "unknown",
        content: Content::Hex("00ff"),
    },
    Given {
        name: "unnamed",
        content: Content::Hex("4302610a"),
    },
    Given {
        name: "halts",
        content: Content::Laid(&[("", 32_768, 0)]),
    },
    Given {
        name: "more",
        content: Content::Laid(&[("", 32_769, 0)]),
    },
    Given {
        name: "long",
        content: Content::Sevens(4_194_305),
    },
];

/// Codes are shown.
const SHOWN: &[Step] = &[
    Step::Ends("showcode nothing", 0, ""),
    Step::Ends(
        "showcode counts",
        0,
        "push 3 ; 0\nlabel at_5\npush 1 ; 5\nsub ; 10\ndup ; 11\njumpzero at_18 ; 12\njump at_5 ; 15\nlabel at_18\nhalt ; 18\nhalt ; 19\n",
    ),
    Step::Ends(
        "showcode strays",
        0,
        "jump 1 ; 0\ncall 10 ; 3\njumpzero 65535 ; 6\nhalt ; 9\n",
    ),
    Step::Ends(
        "showcode itself",
        0,
        "label at_0\njump at_0 ; 0\njumpzero at_0 ; 3\ncall at_0 ; 6\n",
    ),
    Step::Ends(
        "showcode token",
        0,
        "call at_10 ; 0\nget token ; 3\nlabel at_10\nreturn ; 10\n",
    ),
    Step::Ends("showcode semicolon", 0, "get ;; ; 0\nhalt ; 4\n"),
    Step::Ends("showcode halts", 0, "halt ; 0\nhalt ; 1\n**"),
];

/// Words that are no command, and files that are no code.
const NOT_SHOWN: &[Step] = &[
    Step::Ends("showcode", 2, "words\n"),
    Step::Ends("showcode counts out", 2, "words\n"),
    Step::Ends("showcode short", 3, "input code at 4\n"),
    Step::Ends("showcode unknown", 3, "input code at 1\n"),
    Step::Ends("showcode unnamed", 3, "input code at 0\n"),
    Step::Ends("showcode more", 3, "input code length\n"),
    Step::Ends("showcode long", 3, "input code too long\n"),
    Step::Ends("showcode missing", 4, "read failed code\n"),
];

#[test]
fn codes_are_shown(rt: HostRuntime) -> Result<(), Fail> {
    perform(
        &rt,
        FILES,
        &[
            Play {
                failing: &[],
                steps: SHOWN,
            },
            Play {
                failing: &[],
                steps: NOT_SHOWN,
            },
        ],
    )
}
