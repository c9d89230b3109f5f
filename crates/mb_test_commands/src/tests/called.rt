//! The command `callcode`: what codes do with the secrets of a text, against values of an independent program.

use super::{Content, Given, Play, Step, perform};
use std::test::Fail;

/// Codes, secrets and inputs, and files that are not in their forms.
const FILES: &[Given] = &[
    Given {
        name: "nothing",
        content: Content::Text(""),
    },
    // keeps 07 under `c`, and answers 09
    Given {
        name: "keeps",
        content: Content::Hex(
            "014d42583102010000000142010000000142010000000142010000006342010000000142010000000742010000000142\
            01000000094200",
        ),
    },
    // drops `c`, and answers nothing
    Given {
        name: "drops",
        content: Content::Hex("01000000014201000000004201000000014201000000634201000000004200"),
    },
    // answers the value of `c`
    Given {
        name: "tells",
        content: Content::Hex(
            "01000000000100000003430163020100000000420100000001420100000000304200",
        ),
    },
    // keeps no byte under `c`, and 08 under `d`
    Given {
        name: "two",
        content: Content::Hex(
            "010000000242010000000142010000000142010000006342010000000042010000000142010000000142010000006442\
            01000000014201000000084201000000004200",
        ),
    },
    Given {
        name: "emits",
        content: Content::Hex("01000000414200"),
    },
    Given {
        name: "divides",
        content: Content::Hex("010000000101000000001300"),
    },
    Given {
        name: "loops",
        content: Content::Hex("200000"),
    },
    Given {
        name: "secrets",
        content: Content::Text("# before\n\nsecret a 0102\nsecret c 06\nsecret e -"),
    },
    Given {
        name: "full",
        content: Content::Text(
            "secret a -\nsecret b -\nsecret e -\nsecret f -\nsecret g -\nsecret h -\nsecret i -\n\
                secret j -\nsecret k -\nsecret l -\nsecret m -\nsecret n -\nsecret o -\nsecret p -\n\
                secret q -\nsecret r -\nsecret s -\nsecret t -\nsecret u -\nsecret v -\nsecret w -\n\
                secret c 06\n",
        ),
    },
    Given {
        name: "other",
        content: Content::Text("secret a 0\n"),
    },
    Given {
        name: "twice",
        content: Content::Text("secret a 00\n# between\nsecret a 01\n"),
    },
    Given {
        name: "many",
        content: Content::Text(
            "secret a -\nsecret b -\nsecret e -\nsecret f -\nsecret g -\nsecret h -\nsecret i -\n\
                secret j -\nsecret k -\nsecret l -\nsecret m -\nsecret n -\nsecret o -\nsecret p -\n\
                secret q -\nsecret r -\nsecret s -\nsecret t -\nsecret u -\nsecret v -\nsecret w -\n\
                secret c 06\nsecret x -\n",
        ),
    },
    Given {
        name: "longer",
        content: Content::Laid(&[("", 32_769, 0)]),
    },
];

/// A code is called on no secrets, and on what it has kept.
const KEPT: &[Step] = &[
    Step::Ends("callcode keeps nothing nothing next", 0, "called 09\n"),
    Step::Holds("next", "73656372657420632030370a"),
    Step::Ends("callcode tells next nothing other_next", 0, "called 07\n"),
    Step::Matches("next", "other_next"),
    // a known name keeps its place, a new one goes last; comments are not written again
    Step::Ends("callcode two secrets nothing next", 0, "called -\n"),
    Step::Holds(
        "next",
        "736563726574206120303130320a7365637265742063202d0a7365637265742065202d0a736563726574206420\
            30380a",
    ),
    // the text may be replaced, and what is not there is not dropped
    Step::Ends("callcode drops next nothing next", 0, "called -\n"),
    Step::Ends("callcode drops next nothing next", 0, "called -\n"),
    Step::Holds(
        "next",
        "736563726574206120303130320a7365637265742065202d0a73656372657420642030380a",
    ),
    Step::Ends("callcode keeps full nothing next", 0, "called 09\n"),
];

/// What a device hides is told, and nothing is written.
const TOLD: &[Step] = &[
    Step::Ends("callcode emits nothing nothing next", 7, "no action at 1\n"),
    Step::Ends("callcode nothing nothing nothing next", 7, "trap 1 0 -\n"),
    Step::Ends("callcode divides nothing nothing next", 7, "trap 5 10 -\n"),
    Step::Ends("callcode loops nothing nothing next", 7, "out of steps -\n"),
    Step::Ends("callcode two full nothing next", 7, "full\n"),
    Step::IsMissing("next"),
];

/// Words that are no command, and files that are not in their forms.
const NOT_READ: &[Step] = &[
    Step::Ends("callcode keeps nothing nothing", 2, "words\n"),
    Step::Ends(
        "callcode longer missing missing next",
        3,
        "input code length\n",
    ),
    Step::Ends(
        "callcode keeps other missing next",
        3,
        "input text line 1\n",
    ),
    Step::Ends(
        "callcode keeps twice missing next",
        3,
        "input text line 3\n",
    ),
    Step::Ends(
        "callcode keeps many missing next",
        3,
        "input text line 23\n",
    ),
    Step::Ends(
        "callcode keeps missing missing next",
        4,
        "read failed text\n",
    ),
    Step::Ends(
        "callcode keeps nothing missing next",
        4,
        "read failed input\n",
    ),
    Step::IsMissing("next"),
];

#[test]
fn codes_are_called(rt: HostRuntime) -> Result<(), Fail> {
    perform(
        &rt,
        FILES,
        &[
            Play {
                failing: &[],
                steps: TOLD,
            },
            Play {
                failing: &[],
                steps: NOT_READ,
            },
            Play {
                failing: &[],
                steps: KEPT,
            },
        ],
    )
}
