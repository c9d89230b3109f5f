//! What a power loss in the last event of a script leaves: the answers of `cutat`, and its words and inputs. Also each
//! kind of event that writes, cut at each of its writes and at each write of the boot that follows, against the
//! replies that the rules of a device give.

use super::births::{new_device_goes_through, owned_device_goes_through};
use super::{A_NEW_DEVICE, Content, Given, Part, Play, Step, TwoCuts, perform};
use mb_model::IMAGE_LENGTH;
use std::test::Fail;

/// A dead device, files that are no image, and scripts.
const FILES: &[Given] = &[
    Given {
        name: "image",
        content: Content::Laid(&[("", IMAGE_LENGTH, 0)]),
    },
    Given {
        name: "short",
        content: Content::Laid(&[("", IMAGE_LENGTH - 1, 0)]),
    },
    Given {
        name: "sevens",
        content: Content::Sevens(IMAGE_LENGTH),
    },
    Given {
        name: "script",
        content: Content::Text("boot\nstatus\n"),
    },
    Given {
        name: "nothing",
        content: Content::Text(""),
    },
    Given {
        name: "order",
        content: Content::Text("boot\ncommand 00\n"),
    },
    Given {
        name: "cut",
        content: Content::Text("# twice\n\nboot\ncut 1 fill 00\ncut 2 fill 00\nboot\n"),
    },
    Given {
        name: "unknown",
        content: Content::Text("boot\ncut 1 fill 00\nboot\njump\n"),
    },
    Given {
        name: "remarks",
        content: Content::Text("# a remark\n\n# and another"),
    },
    Given {
        name: "most",
        content: Content::Repeats("off\n", 65_533),
    },
    Given {
        name: "more",
        content: Content::Repeats("off\n", 65_534),
    },
    Given {
        name: "longest",
        content: Content::Repeats("off\n", 65_536),
    },
    Given {
        name: "longer",
        content: Content::Repeats("off\n", 65_537),
    },
];

/// Words that are no command, which read nothing; and words and inputs that are right or wrong. No file is written.
const WORDS_AND_INPUTS: &[Play] = &[
    Play {
        failing: &[],
        steps: &[
            Step::Ends("cutat image script nothing 0 00", 2, "words\n"),
            Step::Ends("cutat image script nothing 100001 00", 2, "words\n"),
            Step::Ends("cutat image script nothing 01 00", 2, "words\n"),
            Step::Ends("cutat image script nothing 4294967297 00", 2, "words\n"),
            Step::Ends("cutat image script nothing -1 00", 2, "words\n"),
            Step::Ends("cutat image script nothing  00", 2, "words\n"),
            Step::Ends("cutat image script nothing 1 ", 2, "words\n"),
            Step::Ends("cutat image script nothing 1 0", 2, "words\n"),
            Step::Ends("cutat image script nothing 1 -", 2, "words\n"),
            Step::Ends("cutat image script nothing 1 0g", 2, "words\n"),
            Step::Ends(
                "cutat image script nothing 1 0000000000000000000000000000000000",
                2,
                "words\n",
            ),
            Step::Ends("cutat image script nothing 1", 2, "words\n"),
            Step::Ends("cutat image script nothing 1 00 00", 2, "words\n"),
            Step::Ends("cutat  script nothing 1 00", 2, "words\n"),
            Step::WasCalled(0, 0, 14),
        ],
    },
    Play {
        failing: &[],
        steps: &[
            Step::Ends("cutat image script nothing 1 00", 0, "unstopped\n"),
            Step::Ends(
                "cutat image script nothing 100000 00112233445566778899aAbBcCdDeEfF",
                0,
                "unstopped\n",
            ),
            Step::Ends("cutat image most nothing 1 00", 0, "unstopped\n"),
            Step::WasCalled(9, 0, 3),
        ],
    },
    Play {
        failing: &[],
        steps: &[
            Step::Ends("cutat gone script nothing 1 00", 4, "read failed image\n"),
            Step::Ends("cutat short gone gone 1 00", 3, "input image length\n"),
            Step::Ends("cutat sevens gone gone 1 00", 3, "input image root\n"),
            Step::Ends("cutat image gone nothing 1 00", 4, "read failed script\n"),
            Step::Ends("cutat image cut gone 1 00", 3, "input script line 4\n"),
            Step::Ends("cutat image unknown gone 1 00", 3, "input script line 4\n"),
            Step::Ends("cutat image nothing gone 1 00", 3, "input script line 1\n"),
            Step::Ends("cutat image remarks gone 1 00", 3, "input script line 4\n"),
            Step::Ends("cutat image more gone 1 00", 3, "input script line 65534\n"),
            Step::Ends(
                "cutat image longest gone 1 00",
                3,
                "input script line 65534\n",
            ),
            Step::Ends(
                "cutat image longer gone 1 00",
                3,
                "input script line 65537\n",
            ),
            Step::Ends("cutat image order gone 1 00", 4, "read failed noise\n"),
            Step::Ends("cutat image order nothing 1 00", 3, "input noise length\n"),
            Step::WasCalled(25, 0, 13),
        ],
    },
];

/// The status of the device of the rows, before and after its first orders.
const NO_OWNERS: &str = "status c10b471ceff881272aa5ed819fd9a0e0 0 1 runnable unowned unowned\n";

const OWNED: &str = "status c10b471ceff881272aa5ed819fd9a0e0 1 2 runnable unreliable unowned\n";

const RUNS_TWO: &str = "status c10b471ceff881272aa5ed819fd9a0e0 2 3 runnable runnable unowned\n";

/// The first order of a device. The byte that is left of its fourth write, the selector of the root, decides.
const A_FIRST_ORDER: &[Step] = &[
    Step::Writes("script", &[Part::Text("boot\n"), Part::File("order1")]),
    Step::Ends("cutat image script noise 4 00", 0, "old\n"),
    Step::Ends("cutat image script noise 4 7e", 0, "old\n"),
    Step::Ends("cutat image script noise 4 01", 0, "new\n"),
    Step::Ends("cutat image script noise 5 00", 0, "new\n"),
    Step::Matches("image", "fresh"),
    Step::IsCutTwice(&TwoCuts {
        image: "fresh",
        noise: "noise",
        before: "boot\n",
        opened: "booted\n",
        event: &[Part::File("order1")],
        asks: "status\n",
        old: NO_OWNERS,
        new: OWNED,
    }),
];

/// A boot that does what an order has left to be done: the state is one and the same before it and after it.
const A_BOOT_SETTLES: &[Step] = &[
    Step::Writes("image", &[Part::File("fresh")]),
    Step::Serves(
        &[Part::Text("boot\ncut 5 fill 00\n"), Part::File("order1")],
        "noise",
        "booted\narmed\nstopped\n",
    ),
    Step::Writes("pending", &[Part::File("image")]),
    Step::Writes("script", &[Part::Text("boot\n")]),
    Step::Ends("cutat pending script nothing 1 00", 0, "old\n"),
    Step::IsCutTwice(&TwoCuts {
        image: "pending",
        noise: "nothing",
        before: "",
        opened: "",
        event: &[Part::Text("boot\n")],
        asks: "status\n",
        old: OWNED,
        new: OWNED,
    }),
];

/// The first code of layer 2. The writes of the order before it do not count.
const AN_EMERGENCY_LOAD: &[Step] = &[
    Step::Writes("image", &[Part::File("fresh")]),
    Step::Serves(
        &[Part::Text("boot\n"), Part::File("order1")],
        "noise",
        "booted\ndone 1 2\n",
    ),
    Step::Writes("owned", &[Part::File("image")]),
    Step::Writes(
        "script",
        &[
            Part::Text("boot\n"),
            Part::File("order1"),
            Part::File("order3"),
        ],
    ),
    Step::Ends("cutat fresh script noise 1 00", 0, "old\n"),
    Step::IsCutTwice(&TwoCuts {
        image: "owned",
        noise: "noise",
        before: "boot\n",
        opened: "booted\n",
        event: &[Part::File("order3")],
        asks: "status\n",
        old: OWNED,
        new: RUNS_TWO,
    }),
];

/// Events that write nothing are not stopped, wherever power is lost.
const NOTHING_IS_WRITTEN: &[Step] = &[
    Step::Writes("script", &[Part::Text("boot\nstatus\n")]),
    Step::Ends("cutat fresh script nothing 1 00", 0, "unstopped\n"),
    Step::Writes("script", &[Part::Text("boot\ngo\n")]),
    Step::Ends("cutat fresh script nothing 1 00", 0, "unstopped\n"),
    Step::Writes("script", &[Part::Text("boot\ncommand 00\n")]),
    Step::Ends("cutat fresh script noise 1 00", 0, "unstopped\n"),
    Step::Writes("script", &[Part::Text("boot\ntamper\n")]),
    Step::Ends("cutat fresh script nothing 1 00", 0, "unstopped\n"),
    Step::Writes("script", &[Part::Text("boot\n")]),
    Step::Ends("cutat fresh script nothing 1 00", 0, "unstopped\n"),
];

/// The life of a device up to its first signature, and then its status, which writes nothing.
const A_LIFE_BEGINS: &[Step] = &[
    Step::Writes(
        "script",
        &[
            Part::Text("boot\n"),
            Part::File("order1"),
            Part::File("order2"),
            Part::File("order3"),
            Part::File("order4"),
            Part::File("order5"),
            Part::Text(
                "go\nput 2 pin 31323334\ngo\nput 3 token 00ff\nsign 3 1 68656c6c6f\nstatus\n",
            ),
        ],
    ),
    Step::Ends("cutat fresh script draws 1 00", 0, "unstopped\n"),
];

/// Layers 2 and 3 keep a secret each, and layer 3 has a key.
const SECRETS_ARE_PUT: &[Step] = &[
    Step::Writes("image", &[Part::File("keyed")]),
    Step::Serves(
        &[Part::Text("boot\nput 2 pin 31323334\nput 3 token 00ff\noff\n")],
        "nothing",
        "booted\nkept\nkept\noff\n",
    ),
    Step::Writes("secret", &[Part::File("image")]),
];

/// Lines that show the device's state, and the replies: before an order, and after a load of layer 1 to which the
/// layers above agree.
const ASKS: &str = "status\nget 2 pin\nget 3 token\nsign 3 1 -\n";

const BEFORE: &str = "status c10b471ceff881272aa5ed819fd9a0e0 4 6 runnable runnable runnable\n\
    value 31323334\nvalue 00ff\nsigned 1 0 *\n";

const LOADED: &str = "status c10b471ceff881272aa5ed819fd9a0e0 5 7 runnable runnable runnable\n\
    value 31323334\nvalue 00ff\nsigned 1 0 *\n";

const SURRENDERED: &str =
    "status c10b471ceff881272aa5ed819fd9a0e0 5 7 runnable unowned unreliable\n\
    refused 4 layer\nrefused 4 layer\nrefused 4 layer\n";

/// A load of layer 1, which also makes the next device key.
const A_LOAD: &[Step] = &[Step::IsCutTwice(&TwoCuts {
    image: "secret",
    noise: "noise",
    before: "boot\n",
    opened: "booted\n",
    event: &[Part::File("order6")],
    asks: ASKS,
    old: BEFORE,
    new: LOADED,
})];

/// A surrender of layer 2, which empties both regions.
const A_SURRENDER: &[Step] = &[
    Step::Ends("sign officer2 draft10 surrender", 0, "index 3\n"),
    Step::IsCutTwice(&TwoCuts {
        image: "secret",
        noise: "noise",
        before: "boot\n",
        opened: "booted\n",
        event: &[Part::File("surrender")],
        asks: ASKS,
        old: BEFORE,
        new: SURRENDERED,
    }),
];

/// A key for layer 3.
const A_NEW_KEY: &[Step] = &[Step::IsCutTwice(&TwoCuts {
    image: "keyless",
    noise: "noise",
    before: "boot\n",
    opened: "booted\n",
    event: &[Part::File("order5")],
    asks: "status\nsign 3 1 -\n",
    old: "status c10b471ceff881272aa5ed819fd9a0e0 4 5 runnable runnable runnable\nrefused 6 key\n",
    new: "status c10b471ceff881272aa5ed819fd9a0e0 4 6 runnable runnable runnable\nsigned 1 0 *\n",
})];

/// A secret that takes the place of another, one that is dropped, and a signature, whose index is used once.
const A_REGION_CHANGES: &[Step] = &[
    Step::IsCutTwice(&TwoCuts {
        image: "secret",
        noise: "nothing",
        before: "boot\ngo\n",
        opened: "booted\nat 2\n",
        event: &[Part::Text("put 2 pin 35\n")],
        asks: "get 2 pin\nget 3 token\n",
        old: "value 31323334\nvalue 00ff\n",
        new: "value 35\nvalue 00ff\n",
    }),
    Step::IsCutTwice(&TwoCuts {
        image: "secret",
        noise: "nothing",
        before: "boot\n",
        opened: "booted\n",
        event: &[Part::Text("put 2 pin 31323334\n")],
        asks: "get 2 pin\n",
        old: "value 31323334\n",
        new: "value 31323334\n",
    }),
    Step::IsCutTwice(&TwoCuts {
        image: "secret",
        noise: "nothing",
        before: "boot\n",
        opened: "booted\n",
        event: &[Part::Text("drop 2 pin\n")],
        asks: "get 2 pin\nget 3 token\n",
        old: "value 31323334\nvalue 00ff\n",
        new: "absent\nvalue 00ff\n",
    }),
    Step::IsCutTwice(&TwoCuts {
        image: "secret",
        noise: "nothing",
        before: "boot\ngo\ngo\n",
        opened: "booted\nat 2\nat 3\n",
        event: &[Part::Text("sign 3 1 68656c6c6f\n")],
        asks: "get 3 token\nsign 3 1 -\n",
        old: "value 00ff\nsigned 1 0 *\n",
        new: "value 00ff\nsigned 1 1 *\n",
    }),
];

#[test]
fn words_and_inputs_of_cutat_are_tried(rt: HostRuntime) -> Result<(), Fail> {
    perform(&rt, FILES, WORDS_AND_INPUTS)
}

#[test]
fn a_first_order_is_cut_twice(rt: HostRuntime) -> Result<(), Fail> {
    new_device_goes_through(&rt, &[A_NEW_DEVICE, A_FIRST_ORDER])
}

#[test]
fn a_boot_and_an_emergency_load_are_cut_twice(rt: HostRuntime) -> Result<(), Fail> {
    new_device_goes_through(
        &rt,
        &[A_BOOT_SETTLES, AN_EMERGENCY_LOAD, NOTHING_IS_WRITTEN],
    )
}

#[test]
fn a_status_after_a_life_is_not_stopped(rt: HostRuntime) -> Result<(), Fail> {
    owned_device_goes_through(&rt, &[A_LIFE_BEGINS])
}

#[test]
fn a_load_is_cut_twice(rt: HostRuntime) -> Result<(), Fail> {
    owned_device_goes_through(&rt, &[SECRETS_ARE_PUT, A_LOAD])
}

#[test]
fn a_surrender_is_cut_twice(rt: HostRuntime) -> Result<(), Fail> {
    owned_device_goes_through(&rt, &[SECRETS_ARE_PUT, A_SURRENDER])
}

#[test]
fn a_new_key_is_cut_twice(rt: HostRuntime) -> Result<(), Fail> {
    owned_device_goes_through(&rt, &[A_NEW_KEY])
}

#[test]
fn regions_are_cut_twice(rt: HostRuntime) -> Result<(), Fail> {
    owned_device_goes_through(&rt, &[SECRETS_ARE_PUT, A_REGION_CHANGES])
}
