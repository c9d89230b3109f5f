//! The command `appcode`: how codes run before they are signed, against values of an independent program.

use super::births::owned_device_goes_through;
use super::{Content, Given, Part, Play, Step, perform};
use std::test::Fail;

/// Codes, inputs, and files that are not in their forms.
const FILES: &[Given] = &[
    Given {
        name: "nothing",
        content: Content::Text(""),
    },
    Given {
        name: "nine",
        content: Content::Hex("09"),
    },
    Given {
        name: "emits",
        content: Content::Hex("01000000414200"),
    },
    Given {
        name: "echoes",
        content: Content::Hex("0100000000404200"),
    },
    Given {
        name: "divides",
        content: Content::Hex("010000000101000000001300"),
    },
    Given {
        name: "loops",
        content: Content::Hex("200000"),
    },
    Given {
        name: "asks",
        content: Content::Hex("010000000001000000034305746f6b656e4200"),
    },
    Given {
        name: "beneath",
        content: Content::Hex("010000000001000000024305746f6b656e4200"),
    },
    Given {
        name: "many",
        content: Content::Hex("010000004142200000"),
    },
    Given {
        name: "unknown",
        content: Content::Text("def"),
    },
    Given {
        name: "halts",
        content: Content::Laid(&[("", 32_768, 0)]),
    },
    Given {
        name: "more",
        content: Content::Laid(&[("", 32_769, 0)]),
    },
    Given {
        name: "most",
        content: Content::Sevens(4_194_304),
    },
    Given {
        name: "long",
        content: Content::Sevens(4_194_305),
    },
];

/// Codes halt, trap, or go on as long as they may. Region 3 has no secret, and region 2 may not be read.
const ENDS: &[Step] = &[
    Step::Ends("appcode emits nothing 1", 7, "out of steps -\n"),
    Step::Ends("appcode emits nothing 2", 7, "out of steps 41\n"),
    Step::Ends("appcode emits nothing 3", 0, "halted 3 41\n"),
    Step::Ends("appcode emits most 10000000", 0, "halted 3 41\n"),
    Step::WasCalled(8, 0, 4),
    Step::Ends("appcode echoes nine 1000", 0, "halted 4 09\n"),
    Step::Ends("appcode divides nine 1000", 7, "trap 5 10 -\n"),
    Step::Ends("appcode loops nine 1000", 7, "out of steps -\n"),
    Step::Ends("appcode asks nothing 1000", 0, "halted 5 ff\n"),
    Step::Ends("appcode beneath nothing 1000", 7, "trap 6 10 -\n"),
    Step::Ends("appcode many nine 12290", 7, "trap 7 5 41414141*\n"),
    Step::Ends("appcode many nine 12289", 7, "out of steps 41414141*\n"),
    Step::Ends("appcode nothing nothing 1", 7, "trap 1 0 -\n"),
    Step::Ends("appcode halts nothing 1", 0, "halted 1 -\n"),
];

/// The first input that is wrong is reported.
const OTHER_ENDS: &[Step] = &[
    Step::Ends("appcode emits nothing 0", 2, "words\n"),
    Step::Ends("appcode emits nothing 03", 2, "words\n"),
    Step::Ends("appcode emits nothing 10000001", 2, "words\n"),
    Step::Ends("appcode emits nothing", 2, "words\n"),
    Step::Ends("appcode emits 3 nothing 3", 2, "words\n"),
    Step::Ends("appcode more missing 3", 3, "input code length\n"),
    Step::Ends("appcode long missing 3", 3, "input code too long\n"),
    Step::Ends("appcode emits long 3", 3, "input input too long\n"),
    Step::Ends("appcode missing long 3", 4, "read failed code\n"),
    Step::Ends("appcode emits missing 3", 4, "read failed input\n"),
];

const TRIALS: &[Play] = &[
    Play {
        failing: &[],
        steps: ENDS,
    },
    Play {
        failing: &[],
        steps: OTHER_ENDS,
    },
    // a code that does not halt ends with its status even if its line cannot be printed
    Play {
        failing: &[2],
        steps: &[Step::Ends("appcode loops nine 2", 7, "")],
    },
];

#[test]
fn codes_are_tried(rt: HostRuntime) -> Result<(), Fail> {
    perform(&rt, FILES, TRIALS)
}

/// A code is tried, and then loaded: it ends as it did. Once region 3 has the secret that it asks for, it ends otherwise.
const TRIED_AND_LOADED: &[Step] = &[
    Step::Gives(Given {
        name: "asks",
        content: Content::Hex("010000000001000000034305746f6b656e4200"),
    }),
    Step::Ends("appcode asks nothing 1000", 0, "halted 5 ff\n"),
    Step::Writes(
        "third",
        &[Part::Text(
            "order load 3\nversion 2\ntrust countersigned\n\
            code 010000000001000000034305746f6b656e4200\n",
        )],
    ),
    Step::Ends("sign officer3 third load3", 0, "index 3\n"),
    Step::Serves(
        &[
            Part::Text("boot\n"),
            Part::File("load3"),
            Part::Text("off\n"),
        ],
        "noise",
        "booted\ndone 5 7\noff\n",
    ),
    Step::Ends("app image 3 nothing 1000", 0, "halted 5 ff\n"),
    Step::Serves(
        &[Part::Text("boot\ngo\ngo\nput 3 token 00ff\noff\n")],
        "nothing",
        "booted\nat 2\nat 3\nkept\noff\n",
    ),
    Step::Ends("app image 3 nothing 1000", 0, "halted 5 02\n"),
];

#[test]
fn a_tried_code_is_loaded(rt: HostRuntime) -> Result<(), Fail> {
    owned_device_goes_through(&rt, &[TRIED_AND_LOADED])
}
