//! Words that are no command, and inputs of `run` that are too long, not in their form or not there.

use super::devices::{KEY, OTHER_OWNER};
use super::{Content, Given, Play, SERIAL, Step, perform};
use mb_model::IMAGE_LENGTH;
use std::test::Fail;

/// Inputs in their forms, and inputs that are too long or not in their forms. None has the name `missing`.
const FILES: &[Given] = &[
    Given {
        name: "birth",
        content: Content::Hex(
            "12d71d7255b6325df7487678010fc9dbb905c6d5af1a7d986e75ecdfdc39dfbec10b471ceff881272aa5ed819fd9a0e0",
        ),
    },
    Given {
        name: "key",
        content: Content::Hex(KEY),
    },
    Given {
        name: "owner",
        content: Content::Hex(OTHER_OWNER),
    },
    Given {
        name: "code",
        content: Content::Text(""),
    },
    Given {
        name: "erased",
        content: Content::Laid(&[("", IMAGE_LENGTH, 0xFF)]),
    },
    Given {
        name: "less",
        content: Content::Laid(&[("", IMAGE_LENGTH - 1, 0xFF)]),
    },
    Given {
        name: "script",
        content: Content::Text("boot\ncommand 00\noff\n"),
    },
    Given {
        name: "jump",
        content: Content::Text("boot\njump\noff\n"),
    },
    Given {
        name: "few",
        content: Content::Sevens(31),
    },
    Given {
        name: "long",
        content: Content::Sevens(4_194_305),
    },
];

/// Reading stops at the first input that is not right.
const REFUSED: &[Play] = &[Play {
    failing: &[],
    steps: &[
        Step::Ends("", 2, "words\n"),
        Step::Ends("run image script", 2, "words\n"),
        Step::Ends("run image  few", 2, "words\n"),
        Step::Ends("run image script few few", 2, "words\n"),
        Step::Ends("go image script few", 2, "words\n"),
        Step::Ends("keygen few key ", 2, "words\n"),
        Step::WasCalled(0, 0, 6),
        Step::Ends("factory birth key owner code image", 0, SERIAL),
        Step::WasCalled(4, 2, 7),
        Step::Ends("run long script few", 3, "input image too long\n"),
        Step::Ends("run less script few", 3, "input image length\n"),
        Step::Ends("run erased script few", 3, "input image root\n"),
        Step::Ends("run image long few", 3, "input script too long\n"),
        Step::Ends("run image jump few", 3, "input script line 2\n"),
        Step::Ends("run image script few", 3, "input noise length\n"),
        Step::Ends("run image missing few", 4, "read failed script\n"),
        Step::Ends("run less missing long", 3, "input image length\n"),
        Step::Ends("run missing jump long", 4, "read failed image\n"),
        Step::WasCalled(18, 2, 16),
    ],
}];

#[test]
fn other_words_and_faulty_inputs_are_refused(rt: HostRuntime) -> Result<(), Fail> {
    perform(&rt, FILES, REFUSED)
}
