//! The commands `app`, `asm` and `disasm`: how codes of layers run, and the texts of codes, against values of an
//! independent program and by the rules of the machine.

use super::births::owned_device_goes_through;
use super::devices::KEY;
use super::{Content, Given, OWNER, Part, Play, SERIAL, Step, go_through, host_with, perform};
use mb_model::{FLASH_LENGTH, IMAGE_LENGTH};
use std::test::Fail;

/// Layers 2 and 3 have the code that answers with the secret `token` of region 3. The secret was put before.
const A_SECRET_IS_READ: &[Step] = &[
    Step::Serves(
        &[Part::Text("boot\ngo\nput 2 pin 31323334\ngo\nput 3 token 00ff\noff\n")],
        "nothing",
        "booted\nat 2\nkept\nat 3\nkept\noff\n",
    ),
    Step::Writes(
        "third",
        &[Part::Text(
            "order load 3\nversion 2\ntrust countersigned\n\
            code 010000000001000000034305746f6b656e02010000000030420100000001304200\n",
        )],
    ),
    Step::Writes(
        "second",
        &[Part::Text(
            "order load 2\nversion 2\ntrust countersigned\n\
            code 010000000001000000034305746f6b656e02010000000030420100000001304200\n",
        )],
    ),
    Step::Ends("sign officer3 third load3", 0, "index 3\n"),
    Step::Ends("sign officer2 second alone2", 0, "index 3\n"),
    Step::Ends("countersign officer3 3 alone2 load2", 0, "index 4\n"),
    Step::Serves(
        &[
            Part::Text("boot\n"),
            Part::File("load3"),
            Part::File("load2"),
            Part::Text("off\n"),
        ],
        "noise",
        "booted\ndone 5 7\ndone 6 8\noff\n",
    ),
    Step::Writes("before", &[Part::File("image")]),
    Step::Ends("app image 3 nothing 1000", 0, "halted 11 00ff\n"),
    Step::Ends("app image 2 nothing 1000", 0, "halted 11 00ff\n"),
    Step::Ends("app image 3 nothing 11", 0, "halted 11 00ff\n"),
    Step::Ends("app image 3 nothing 10", 7, "out of steps 00ff\n"),
    Step::Matches("image", "before"),
];

/// Layer 3 did not agree to the load of layer 2, and is not reliable: its region may not be read, and it may not run.
const A_SECRET_IS_NOT_READ: &[Step] = &[
    Step::Writes("image", &[Part::File("keyed")]),
    Step::Serves(
        &[
            Part::Text("boot\ngo\ngo\nput 3 token 00ff\noff\nboot\n"),
            Part::File("alone2"),
            Part::Text("off\n"),
        ],
        "noise",
        "booted\nat 2\nat 3\nkept\noff\nbooted\ndone 5 7\noff\n",
    ),
    Step::Ends("app image 2 nothing 1000", 7, "trap 6 10 -\n"),
    Step::Ends("app image 3 nothing 1000", 7, "refused 4 layer\n"),
];

/// Layers 2 and 3 have the code that answers with the secret `k` of region 2, which is below layer 3.
const A_REGION_BELOW: &[Step] = &[
    Step::Writes("image", &[Part::File("keyed")]),
    Step::Writes(
        "third",
        &[Part::Text(
            "order load 3\nversion 2\ntrust countersigned\n\
            code 01000003fe010000000243016b4201000003ff304200\n",
        )],
    ),
    Step::Writes(
        "second",
        &[Part::Text(
            "order load 2\nversion 2\ntrust countersigned\n\
            code 01000003fe010000000243016b4201000003ff304200\n",
        )],
    ),
    Step::Ends("sign officer3 third load3", 0, "index 5\n"),
    Step::Ends("sign officer2 second load2", 0, "index 4\n"),
    Step::Ends("countersign officer3 3 load2 load2", 0, "index 6\n"),
    Step::Serves(
        &[
            Part::Text("boot\n"),
            Part::File("load3"),
            Part::File("load2"),
            Part::Text("go\nput 2 k 0708\noff\n"),
        ],
        "noise",
        "booted\ndone 5 7\ndone 6 8\nat 2\nkept\noff\n",
    ),
    Step::Ends("app image 2 nothing 1000", 0, "halted 8 0208\n"),
    Step::Ends("app image 3 nothing 1000", 7, "trap 6 10 -\n"),
];

#[test]
fn codes_read_the_secrets_of_their_layers(rt: HostRuntime) -> Result<(), Fail> {
    owned_device_goes_through(
        &rt,
        &[A_SECRET_IS_READ, A_SECRET_IS_NOT_READ, A_REGION_BELOW],
    )
}

/// The files that make a device whose layer 2 has code, and inputs that are too long or not in their forms.
const FILES: &[Given] = &[
    Given {
        name: "noise1",
        content: Content::Hex("d95321bdf284c2032c7a5209b847eae96c3080c86bfc2585312e15361179d1ac"),
    },
    Given {
        name: "birth",
        content: Content::Hex(
            "12d71d7255b6325df7487678010fc9dbb905c6d5af1a7d986e75ecdfdc39dfbec10b471ceff881272aa5ed819fd9a0e0",
        ),
    },
    Given {
        name: "key",
        content: Content::Hex(KEY),
    },
    Given {
        name: "code",
        content: Content::Text("layer one"),
    },
    Given {
        name: "establish",
        content: Content::Text(
            "order establish 2\nowner 0000000500000003456f47e33661bea750d0d7834df1866ee01637b5c1d8b439\
                b648b48180b105614fe7f19f31e54ccdcdab1be127d73256\ntrust countersigned\n",
        ),
    },
    Given {
        name: "emergency",
        content: Content::Text(
            "order emergency 2\nversion 1\ntrust countersigned\ncode 01000000414200\n",
        ),
    },
    Given {
        name: "noise",
        content: Content::Sevens(4_096),
    },
    Given {
        name: "nothing",
        content: Content::Text(""),
    },
    Given {
        name: "nine",
        content: Content::Hex("09"),
    },
    Given {
        name: "dead",
        content: Content::Laid(&[("", FLASH_LENGTH, 0xFF), ("", IMAGE_LENGTH, 0)]),
    },
    Given {
        name: "most",
        content: Content::Sevens(4_194_304),
    },
    Given {
        name: "long",
        content: Content::Sevens(4_194_305),
    },
];

/// The device is made, and its layer 2 has the code `push 65`, `emit`, `halt`. It takes the host's calls 0 to 27.
const LAYER_TWO_HAS_CODE: &[Step] = &[
    Step::Ends("keygen noise1 officer owner", 0, OWNER),
    Step::Ends("factory birth key owner code fresh", 0, SERIAL),
    Step::Ends("sign officer establish order1", 0, "index 0\n"),
    Step::Ends("sign officer emergency order2", 0, "index 1\n"),
    Step::Writes("image", &[Part::File("fresh")]),
    Step::Serves(
        &[
            Part::Text("boot\n"),
            Part::File("order1"),
            Part::File("order2"),
            Part::Text("off\n"),
        ],
        "noise",
        "booted\ndone 1 2\ndone 2 3\noff\n",
    ),
];

/// A host on which that device is made, and whose calls of these numbers fail, goes through the parts.
fn coded_device_goes_through(
    rt: &impl AllocGlobal,
    failing: &[u64],
    parts: &[&[Step]],
) -> Result<(), Fail> {
    let mut host = host_with(rt.alloc(), FILES, failing)?;
    go_through(rt, &mut host, &[LAYER_TWO_HAS_CODE])?;
    go_through(rt, &mut host, parts)
}

/// The code runs for as many steps as it is given.
const STEPS_ARE_COUNTED: &[Step] = &[
    Step::Ends("app image 2 nothing 1", 7, "out of steps -\n"),
    Step::Ends("app image 2 nothing 2", 7, "out of steps 41\n"),
    Step::Ends("app image 2 nothing 3", 0, "halted 3 41\n"),
    Step::Ends("app image 2 most 10000000", 0, "halted 3 41\n"),
    Step::WasCalled(20, 11, 9),
];

/// Words that are no command, and inputs that are not right: the first wrong one is reported, and then a dead device
/// before a layer that may not run.
const OTHER_ENDS: &[Step] = &[
    Step::Ends("app image 1 nothing 3", 2, "words\n"),
    Step::Ends("app image 4 nothing 3", 2, "words\n"),
    Step::Ends("app image 2 nothing 0", 2, "words\n"),
    Step::Ends("app image 2 nothing 03", 2, "words\n"),
    Step::Ends("app image 2 nothing 10000001", 2, "words\n"),
    Step::Ends("app image 2 nothing", 2, "words\n"),
    Step::Ends("app image 2 nothing 3 3", 2, "words\n"),
    Step::Ends("app image 3 nothing 3", 7, "refused 4 layer\n"),
    Step::Ends("app fresh 2 nothing 3", 7, "refused 4 layer\n"),
    Step::Ends("app dead 2 nothing 3", 7, "zeroised\n"),
    Step::Ends("app dead 3 nothing 3", 7, "zeroised\n"),
    Step::Ends("app dead 2 missing 3", 4, "read failed input\n"),
    Step::Ends("app dead 2 long 3", 3, "input input too long\n"),
    Step::Ends("app image 3 long 3", 3, "input input too long\n"),
    Step::Ends("app missing 2 long 3", 4, "read failed image\n"),
    Step::Ends("app long 2 missing 3", 3, "input image too long\n"),
    Step::Ends("app nine 2 missing 3", 3, "input image length\n"),
];

#[test]
fn the_stored_code_runs(rt: HostRuntime) -> Result<(), Fail> {
    coded_device_goes_through(&rt, &[], &[STEPS_ARE_COUNTED, OTHER_ENDS])
}

/// A code that does not halt ends with its status even if its line cannot be printed.
const NOT_PRINTED: &[Step] = &[Step::Ends("app image 2 nothing 2", 7, "")];

#[test]
fn an_end_is_not_printed(rt: HostRuntime) -> Result<(), Fail> {
    coded_device_goes_through(&rt, &[30], &[NOT_PRINTED])
}

/// Layer 2 is given one code after another: each runs as the other program says, on the byte 9.
const CODES: &[Step] = &[
    Step::Writes(
        "emergency",
        &[Part::Text("order emergency 2\nversion 1\ntrust countersigned\ncode 0100000000404200\n")],
    ),
    Step::Ends("sign officer emergency order", 0, "index 2\n"),
    Step::Serves(
        &[Part::Text("boot\n"), Part::File("order")],
        "noise",
        "booted\ndone 3 4\n",
    ),
    Step::Ends("app image 2 nine 1000", 0, "halted 4 09\n"),
    Step::Writes(
        "emergency",
        &[Part::Text(
            "order emergency 2\nversion 1\ntrust countersigned\ncode 0100000001010000000013\n",
        )],
    ),
    Step::Ends("sign officer emergency order", 0, "index 3\n"),
    Step::Serves(
        &[Part::Text("boot\n"), Part::File("order")],
        "noise",
        "booted\ndone 4 5\n",
    ),
    Step::Ends("app image 2 nine 1000", 7, "trap 5 10 -\n"),
    Step::Writes(
        "emergency",
        &[Part::Text("order emergency 2\nversion 1\ntrust countersigned\ncode 200000\n")],
    ),
    Step::Ends("sign officer emergency order", 0, "index 4\n"),
    Step::Serves(
        &[Part::Text("boot\n"), Part::File("order")],
        "noise",
        "booted\ndone 5 6\n",
    ),
    Step::Ends("app image 2 nine 1000", 7, "out of steps -\n"),
];

/// A code that always emits a byte stops when 4,096 are there, and its line is long.
const MUCH_IS_EMITTED: &[Step] = &[
    Step::Writes(
        "emergency",
        &[Part::Text(
            "order emergency 2\nversion 1\ntrust countersigned\ncode 010000004142200000\n",
        )],
    ),
    Step::Ends("sign officer emergency order", 0, "index 5\n"),
    Step::Serves(
        &[Part::Text("boot\n"), Part::File("order")],
        "noise",
        "booted\ndone 6 7\n",
    ),
    Step::Ends("app image 2 nine 12290", 7, "trap 7 5 41414141*\n"),
    Step::Ends("app image 2 nine 12289", 7, "out of steps 41414141*\n"),
    Step::Ends("app image 2 nine 9", 7, "out of steps 414141\n"),
];

#[test]
fn codes_end_as_they_do_elsewhere(rt: HostRuntime) -> Result<(), Fail> {
    coded_device_goes_through(&rt, &[], &[CODES, MUCH_IS_EMITTED])
}

/// Texts and codes, and inputs that are too long.
const TEXTS: &[Given] = &[
    Given {
        name: "empty",
        content: Content::Text(""),
    },
    Given {
        name: "labels",
        content: Content::Text("label a\nlabel b\njump a\njump b\n"),
    },
    Given {
        name: "forward",
        content: Content::Text("call end\npush 7\nlabel end\nreturn"),
    },
    Given {
        name: "largest",
        content: Content::Text("push 4294967295\n"),
    },
    Given {
        name: "secret",
        content: Content::Text("get a\n"),
    },
    Given {
        name: "twice",
        content: Content::Text("label a\nlabel a\n"),
    },
    Given {
        name: "nowhere",
        content: Content::Text("jump b\nbad\n"),
    },
    Given {
        name: "behind",
        content: Content::Text("jump b\nbad\nlabel b\n"),
    },
    Given {
        name: "blank",
        content: Content::Text("\n"),
    },
    Given {
        name: "emits",
        content: Content::Hex("01000000414200"),
    },
    Given {
        name: "jumps",
        content: Content::Hex("20000c200000"),
    },
    Given {
        name: "token",
        content: Content::Hex("4305746f6b656e"),
    },
    Given {
        name: "short",
        content: Content::Hex("0001000000"),
    },
    Given {
        name: "unknown",
        content: Content::Hex("00ff"),
    },
    Given {
        name: "unnamed",
        content: Content::Hex("4302610a"),
    },
    Given {
        name: "halts",
        content: Content::Laid(&[("", 32_768, 0)]),
    },
    Given {
        name: "more",
        content: Content::Laid(&[("", 32_769, 0)]),
    },
    Given {
        name: "long",
        content: Content::Sevens(4_194_305),
    },
];

/// Texts are assembled, and their first bad lines reported.
const ASSEMBLED: &[Step] = &[
    Step::Ends("asm empty out", 0, "bytes 0\n"),
    Step::Holds("out", ""),
    Step::Ends("asm labels out", 0, "bytes 6\n"),
    Step::Holds("out", "200000200000"),
    Step::Ends("asm forward out", 0, "bytes 9\n"),
    Step::Holds("out", "220008010000000723"),
    Step::Ends("asm largest out", 0, "bytes 5\n"),
    Step::Holds("out", "01ffffffff"),
    Step::Ends("asm secret out", 0, "bytes 3\n"),
    Step::Holds("out", "430161"),
    Step::WasCalled(5, 5, 5),
    Step::Ends("asm twice none", 3, "input text line 2\n"),
    Step::Ends("asm nowhere none", 3, "input text line 1\n"),
    Step::Ends("asm behind none", 3, "input text line 2\n"),
    Step::Ends("asm blank none", 3, "input text line 1\n"),
    Step::Ends("asm long none", 3, "input text too long\n"),
    Step::Ends("asm missing none", 4, "read failed text\n"),
    Step::Ends("asm empty", 2, "words\n"),
    Step::WasCalled(11, 5, 12),
    Step::IsMissing("none"),
];

/// Codes are listed, and the offset at which no whole instruction stands is reported.
const LISTED: &[Step] = &[
    Step::Ends("disasm empty out", 0, "lines 0\n"),
    Step::Holds("out", ""),
    Step::Ends("disasm emits out", 0, "lines 3\n"),
    Step::Holds("out", "707573682036350a656d69740a68616c740a"),
    Step::Ends("disasm jumps out", 0, "lines 2\n"),
    Step::Holds("out", "6a756d702031320a6a756d7020300a"),
    Step::Ends("disasm token out", 0, "lines 1\n"),
    Step::Holds("out", "67657420746f6b656e0a"),
    Step::Ends("disasm halts out", 0, "lines 32768\n"),
    Step::Ends("asm out again", 0, "bytes 32768\n"),
    Step::Matches("again", "halts"),
    Step::Ends("disasm short none", 3, "input code at 1\n"),
    Step::Ends("disasm unknown none", 3, "input code at 1\n"),
    Step::Ends("disasm unnamed none", 3, "input code at 0\n"),
    Step::Ends("disasm more none", 3, "input code length\n"),
    Step::Ends("disasm long none", 3, "input code too long\n"),
    Step::Ends("disasm missing none", 4, "read failed code\n"),
    Step::IsMissing("none"),
];

/// Texts and codes are as another program has them.
const TEXTS_AND_CODES: &[Play] = &[
    Play {
        failing: &[],
        steps: ASSEMBLED,
    },
    Play {
        failing: &[],
        steps: LISTED,
    },
];

#[test]
fn texts_are_assembled_and_codes_listed(rt: HostRuntime) -> Result<(), Fail> {
    perform(&rt, TEXTS, TEXTS_AND_CODES)
}
