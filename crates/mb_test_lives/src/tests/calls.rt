//! Code that is called: a PIN check with three tries, a counter whose answers are signed, and code that asks for what
//! its input spells. Codes, replies and chains are those of an independent program.

use super::births::owned_device_goes_through;
use super::{Content, Given, Part, Step, TwoCuts};
use std::test::Fail;

/// A PIN check. An input that begins with 0 sets a PIN and a secret once; any other is a guess. Three wrong guesses in
/// a row lock it.
const A_PIN_IS_SET: &[Step] = &[
    Step::Writes(
        "draft",
        &[Part::Text(
            "order emergency 3\nversion 2\ntrust countersigned\ncode \
                014d42583102010000000040210106010000000001000000034301740100000001182100f30100000000302100e001000000\
                2001000000034301700201000000000301000000041821004e20006b03010000002010300501000000011040182100b00100\
                0000011020004101000000014222018201000000034201000000094201000000014201000000400100000003430173020100\
                000040030100000048182100a400033042010000000110200099010000000142220182010000000030010000000111420100\
                0000024201000000024201000000003001000000011142000100000000420100000001420100000000420001000000004201\
                000000014201000000ff42000100000000010000000343017401ffffffff182100f301000000034222018201000000034201\
                00000001420100000001420100000070420100000004420100000001010000000522019b0100000001420100000001420100\
                000073420100000008420100000005010000000d22019b010000000142010000000142000100000001420100000001420100\
                00007442010000000142230505192101af054042040100000001100420019b020223\n",
        )],
    ),
    Step::Ends("sign officer2 draft pin", 0, "index 3\n"),
    Step::Writes("image", &[Part::File("keyless")]),
    Step::Serves(
        &[Part::Text("boot\n"), Part::File("pin"), Part::Text("off\n")],
        "noise",
        "booted\ndone 5 6\noff\n",
    ),
    Step::Writes("unset", &[Part::File("image")]),
    Step::Serves(
        &[Part::Text("boot\ncall 3 - 00343037315345435245542121\noff\n")],
        "nothing",
        "booted\ncalled 01\noff\n",
    ),
    Step::Writes("set", &[Part::File("image")]),
];

/// Wrong guesses are counted over boots, until a right one, and whichever layer runs.
const THREE_TRIES: &[Step] = &[
    Step::Serves(
        &[Part::Text(
            "boot\ncall 3 - 0131313131\ncall 3 - 0131313131\ngo\ncall 3 - 0134303731\ngo\n\
            call 3 - 0131313131\ncall 3 - 0131313131\noff\nboot\ncall 3 - 0131313131\n\
            call 3 - 0134303731\noff\n",
        )],
        "nothing",
        "booted\ncalled 0202\ncalled 0201\nat 2\ncalled 015345435245542121\nat 3\n\
        called 0202\ncalled 0201\noff\nbooted\ncalled 0200\ncalled 00\noff\n",
    ),
    Step::Writes("locked", &[Part::File("image")]),
];

/// Nobody else reaches the region, and a refused call writes nothing.
const ITS_REGION_IS_ITS_OWN: &[Step] = &[
    Step::Serves(
        &[Part::Text(
            "boot\nput 3 t 03\nget 3 p\ndrop 3 t\nsign 3 1 -\ncall 2 - -\ncall 3 9 -\ngo\ngo\n\
            put 3 t 03\ncall 2 - -\noff\n",
        )],
        "nothing",
        "booted\nrefused 8 code\nrefused 8 code\nrefused 8 code\nrefused 8 code\nrefused 8 code\n\
        refused 6 key\nat 2\nat 3\nrefused 8 code\nrefused 4 layer\noff\n",
    ),
    Step::Matches("image", "locked"),
];

/// A wrong guess, a right one, and one that asks for no change write as often. Two writes store the region, and one
/// more wipes what was stored before, if anything was.
const WRITES_TELL_NOTHING: &[Step] = &[
    Step::Writes(
        "first",
        &[Part::Text("boot\ncall 3 - 00343037315345435245542121\n")],
    ),
    Step::Writes("wrong", &[Part::Text("boot\ncall 3 - 0131313131\n")]),
    Step::Writes("right", &[Part::Text("boot\ncall 3 - 0134303731\n")]),
    Step::Ends("cutat unset first nothing 1 00", 0, "old\n"),
    Step::Ends("cutat unset first nothing 3 00", 0, "unstopped\n"),
    Step::Ends("cutat set wrong nothing 3 00", 0, "new\n"),
    Step::Ends("cutat set wrong nothing 4 00", 0, "unstopped\n"),
    Step::Ends("cutat set right nothing 3 00", 0, "old\n"),
    Step::Ends("cutat set right nothing 4 00", 0, "unstopped\n"),
    Step::Ends("cutat locked right nothing 3 00", 0, "old\n"),
    Step::Ends("cutat locked right nothing 4 00", 0, "unstopped\n"),
];

/// A guess counts wholly or not at all.
const A_GUESS_IS_CUT: &[Step] = &[Step::IsCutTwice(&TwoCuts {
    image: "set",
    noise: "nothing",
    before: "boot\ngo\ngo\n",
    opened: "booted\nat 2\nat 3\n",
    event: &[Part::Text("call 3 - 0131313131\n")],
    asks: "call 3 - 0131313131\n",
    old: "called 0202\n",
    new: "called 0201\n",
})];

/// A counter that looks at no input, and a key that signs its answers. A rehearsal tells none of them.
const A_COUNTER_COUNTS: &[Step] = &[
    Step::Writes(
        "draft",
        &[Part::Text(
            "order emergency 3\nversion 2\ntrust countersigned\ncode \
                014d425831020100000000010000000343016302010000000030010000010012010000000130100100000100120100000002\
                3010010000010012010000000330100301ffffffff1821004c00010000000110010000000142010000000142010000000142\
                0100000063420100000004420322007e01000000044222007e00030101000000134203010001000013420301000001001342\
                4223\n",
        )],
    ),
    Step::Ends("sign officer2 draft counter", 0, "index 3\n"),
    Step::Writes("image", &[Part::File("keyless")]),
    Step::Serves(
        &[
            Part::Text("boot\n"),
            Part::File("counter"),
            Part::File("order5"),
            Part::Text("call 3 - -\ncall 3 1 616263\noff\n"),
        ],
        "noise",
        "booted\ndone 5 6\ndone 5 7\ncalled 00000001\n\
        signed 1 0 0000000581ba7816bf8f01cfea414140de5dae2223b00361a396177a9cb410ff61f20015ad0400000002\
        0000000000000003*\noff\n",
    ),
    Step::KeepsStatement("statement"),
    Step::Writes("script", &[Part::Text("boot\ncall 3 - -\ncall 3 1 -\n")]),
    Step::Ends(
        "rehearse image script nothing",
        0,
        "booted\ncalled -\nsigned 1 1 -\n",
    ),
    Step::Serves(
        &[Part::Text("boot\ncut 3 fill 00\ncall 3 1 616263\nboot\ncall 3 - -\ncall 3 1 -\noff\n")],
        "nothing",
        "booted\narmed\nstopped\nbooted\ncalled 00000004\n\
        signed 1 2 0000000581e3b0c44298fc1c149afbf4c8996fb92427ae41e4649b934ca495991b7852b8550400000005\
        0000000200000003*\noff\n",
    ),
    Step::Writes("counted", &[Part::File("image")]),
];

/// The chain with the statement says which code answered, to which input and what.
const ITS_STATEMENT: &[Step] = &[
    Step::Ends("chain image chain", 0, "entries 7\n"),
    Step::Ends("attach chain statement attached", 0, "entries 7\n"),
    Step::HasHash(
        "attached",
        "17a37cd40fc1281f01c9e0a2c8e4679bfbc5ef27641fa774b955b33db761cd9f",
    ),
    Step::Ends(
        "verify public0 attached 1",
        0,
        "key 1 epoch layer 3 alive\n\
        configuration 5\n\
        layer 1 *\n\
        layer 2 *\n\
        layer 3 b3cee4b09ec5e77e7b1285231704c0e8fcdcd7b721946b5bac2437e157b6bae1 \
        a6ead0f6669a23cb585bb7a8e6eeadbc72490787f6914e61510b76235175b0e0 2 reliable countersigned\n\
        called ba7816bf8f01cfea414140de5dae2223b00361a396177a9cb410ff61f20015ad 00000002\n",
    ),
    Step::Ends("audit image public0 attached 1", 0, "agrees\n"),
];

/// A signed call is wholly done or not at all, with its count and the use of its key.
const A_SIGNED_CALL_IS_CUT: &[Step] = &[Step::IsCutTwice(&TwoCuts {
    image: "counted",
    noise: "nothing",
    before: "boot\n",
    opened: "booted\n",
    event: &[Part::Text("call 3 1 -\n")],
    asks: "call 3 1 -\n",
    old: "signed 1 3 0000000581e3b0c44298fc1c149afbf4c8996fb92427ae41e4649b934ca495991b7852b8550400000006*\n",
    new: "signed 1 4 0000000581e3b0c44298fc1c149afbf4c8996fb92427ae41e4649b934ca495991b7852b8550400000007*\n",
})];

/// A key that is spent is missed before the code runs, so nothing is counted. Calls without a key go on.
const ITS_KEY_IS_SPENT: &[Step] = &[
    Step::Writes("image", &[Part::File("counted")]),
    Step::Gives(Given {
        name: "many",
        content: Content::Repeats("call 3 1 -\n", 29),
    }),
    Step::Serves(
        &[Part::Text("boot\n"), Part::File("many")],
        "nothing",
        "booted\nsigned 1 3 *\n**",
    ),
    Step::Serves(
        &[Part::Text("boot\ncall 3 1 -\ncall 3 - -\n")],
        "nothing",
        "booted\nrefused 7 spent\ncalled 00000023\n",
    ),
];

/// An ordinary load leaves key and region to other code, which also takes calls. The chain lists both codes, and the
/// statement of the first is refused at the end of the other's configuration.
const OTHER_CODE_IS_LOADED: &[Step] = &[
    Step::Writes(
        "draft",
        &[Part::Text(
            "order load 3\nversion 3\ntrust countersigned\ncode \
                014d4258310201000000004001000000fe1821001820001501000000004001000000ff182100280201000000000341192100\
                3f03404201000000011020002d00\n",
        )],
    ),
    Step::Ends("sign officer3 draft echo", 0, "index 3\n"),
    Step::Writes("image", &[Part::File("counted")]),
    Step::Serves(
        &[
            Part::Text("boot\n"),
            Part::File("echo"),
            Part::Text("call 3 1 000155\nget 3 c\noff\n"),
        ],
        "noise",
        "booted\ndone 6 8\n\
        signed 1 3 00000006819184089c2c7fe2f12874575da31cf5d15ea91a3b7b5e41e910d4ccf935bf0a760155\
        0000000300000003*\nrefused 8 code\noff\n",
    ),
    Step::Ends("chain image later", 0, "entries 8\n"),
    Step::Ends(
        "verify public0 later 1",
        0,
        "key 1 epoch layer 3 alive\n\
        configuration 5\n\
        layer 1 *\n\
        layer 2 *\n\
        layer 3 b3cee4b09ec5e77e7b1285231704c0e8fcdcd7b721946b5bac2437e157b6bae1 \
        a6ead0f6669a23cb585bb7a8e6eeadbc72490787f6914e61510b76235175b0e0 2 reliable countersigned\n\
        configuration 6\n\
        layer 1 *\n\
        layer 2 *\n\
        layer 3 b3cee4b09ec5e77e7b1285231704c0e8fcdcd7b721946b5bac2437e157b6bae1 \
        836fbde131fd4a2a752742786cf719dd2d04d6ff68acc22cbc0b06a06dd13abf 3 reliable countersigned\n",
    ),
    Step::Writes(
        "late",
        &[
            Part::Without("later", 1),
            Part::Slice("attached", 17_946, 20_337),
        ],
    ),
    Step::Ends("verify public0 late 1", 7, "refused 26\n"),
];

/// Layer 3 has code that emits its input, so an input is what it asks for; one that begins with 254 has no end, and one
/// with 255 traps. Layer 2 has code that answers the first byte of the secret `k` of layer 3.
const CODE_ASKS: &[Step] = &[
    Step::Writes(
        "draft",
        &[Part::Text(
            "order emergency 2\nversion 2\ntrust countersigned\ncode \
                014d425831020100000000010000000343016b020100000000420100000001420100000000304200\n",
        )],
    ),
    Step::Ends("sign officer1 draft look", 0, "index 3\n"),
    Step::Writes(
        "draft",
        &[Part::Text(
            "order emergency 3\nversion 2\ntrust countersigned\ncode \
                014d4258310201000000004001000000fe1821001820001501000000004001000000ff182100280201000000000341192100\
                3f03404201000000011020002d00\n",
        )],
    ),
    Step::Ends("sign officer2 draft echo", 0, "index 3\n"),
    Step::Writes("image", &[Part::File("keyless")]),
    Step::Serves(
        &[
            Part::Text("boot\n"),
            Part::File("look"),
            Part::File("echo"),
            Part::Text("call 3 - 0001ff\ncall 3 - 0101016b0107026f6b\ncall 2 - -\noff\n"),
        ],
        "noise",
        "booted\ndone 5 6\ndone 6 7\ncalled ff\ncalled 6f6b\ncalled 07\noff\n",
    ),
];

/// A region holds 22 secrets. If a demand cannot be met, those before it are not either.
const A_REGION_IS_FULL: &[Step] = &[
    Step::Serves(
        &[Part::Text(
            "boot\n\
            call 3 - 1601016100010162000101630001016400010165000101660001016700010168000101690001016a0001016b\
            0001016c0001016d0001016e0001016f00010170000101710001017200010173000101740001017500010176\
            0000\n\
            call 3 - 010101770000\n\
            call 3 - 020001630101770000\n\
            call 3 - 010101780000\n\
            call 3 - 020001630101780000\n\
            call 3 - 0201016b01090101780000\n\
            call 2 - -\noff\n",
        )],
        "nothing",
        "booted\ncalled -\nrefused 9 run\ncalled -\nrefused 9 run\nrefused 9 run\nrefused 9 run\n\
        called 00\noff\n",
    ),
    Step::Writes("full", &[Part::File("image")]),
];

/// A run that traps, that has no end, or that asks for nothing leaves the image as it is, byte for byte.
const RUNS_FAIL: &[Step] = &[
    Step::Serves(
        &[Part::Text(
            "boot\ncall 3 - ff\ncall 3 - fe\ncall 3 - 010000\ncall 3 - 00015500\ncall 3 - -\noff\n",
        )],
        "nothing",
        "booted\nrefused 9 run\nrefused 9 run\nrefused 9 run\nrefused 9 run\nrefused 9 run\noff\n",
    ),
    Step::Matches("image", "full"),
];

/// Code of layer 2 is called until layer 3 has control, and that of layer 3 as long as it may run.
const LAYERS_ARE_CALLED: &[Step] = &[
    Step::Writes(
        "draft",
        &[Part::Text("order load 2\nversion 3\ntrust countersigned\ncode 616263\n")],
    ),
    Step::Ends("sign officer2 draft unadmitted", 0, "index 4\n"),
    Step::Serves(
        &[
            Part::Text(
                "call 3 - 000155\nboot\ncall 3 - 0101016b010700\ngo\ncall 2 - -\ngo\ncall 2 - -\n\
                call 3 - 000155\noff\nboot\n",
            ),
            Part::File("unadmitted"),
            Part::Text("call 3 - 000155\ncall 2 - -\ntamper\nboot\ncall 3 - 000155\n"),
        ],
        "noise",
        "refused 1 off\nbooted\ncalled -\nat 2\ncalled 07\nat 3\nrefused 4 layer\ncalled 55\noff\n\
        booted\ndone 7 8\nrefused 4 layer\nrefused 8 code\ntampered\nrefused 3 zeroised\n\
        refused 3 zeroised\n",
    ),
];

#[test]
fn a_pin_has_three_tries(rt: HostRuntime) -> Result<(), Fail> {
    owned_device_goes_through(
        &rt,
        &[
            A_PIN_IS_SET,
            THREE_TRIES,
            ITS_REGION_IS_ITS_OWN,
            WRITES_TELL_NOTHING,
            A_GUESS_IS_CUT,
        ],
    )
}

#[test]
fn a_counter_counts_and_signs(rt: HostRuntime) -> Result<(), Fail> {
    owned_device_goes_through(
        &rt,
        &[
            A_COUNTER_COUNTS,
            ITS_STATEMENT,
            A_SIGNED_CALL_IS_CUT,
            ITS_KEY_IS_SPENT,
            OTHER_CODE_IS_LOADED,
        ],
    )
}

#[test]
fn code_asks_and_fails(rt: HostRuntime) -> Result<(), Fail> {
    owned_device_goes_through(
        &rt,
        &[CODE_ASKS, A_REGION_IS_FULL, RUNS_FAIL, LAYERS_ARE_CALLED],
    )
}
