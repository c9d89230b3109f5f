//! Lives of a device whose three layers have owners, against the replies that its rules give.

use super::births::owned_device_goes_through;
use super::{Cut, Part, Step};
use mb_model::{FLASH_LENGTH, IMAGE_LENGTH};
use std::test::Fail;

/// Secrets are put and a message is signed. What runs goes on across loads that are countersigned.
const A_LIFE: &[Step] = &[
    Step::Serves(
        &[Part::Text(
            "boot\ngo\nput 2 pin 31323334\ngo\nput 3 token 00ff\nsign 3 1 68656c6c6f\noff\n",
        )],
        "nothing",
        "booted\nat 2\nkept\nat 3\nkept\nsigned 1 0 000000040568656c6c6f0000000000000003*\noff\n",
    ),
    Step::Writes("lived", &[Part::File("image")]),
    Step::Serves(
        &[
            Part::Text("boot\n"),
            Part::File("order6"),
            Part::File("order7"),
            Part::Text("get 2 pin\nget 3 token\nstatus\noff\n"),
        ],
        "noise",
        "booted\ndone 5 7\ndone 6 8\nvalue 31323334\nvalue 00ff\n\
        status c10b471ceff881272aa5ed819fd9a0e0 6 8 runnable runnable runnable\noff\n",
    ),
    Step::Writes("loaded", &[Part::File("image")]),
];

/// Layer 2 does not agree to a new layer 1: its region is emptied, and layer 3, which agrees, keeps what it has.
const LAYER_THREE_AGREES: &[Step] = &[
    Step::Ends("countersign alone 3 load alone6", 0, "index 1\n"),
    Step::Ends("sign officer1 draft12 rescue", 0, "index 3\n"),
    Step::Ends("countersign alone 3 rescue rescue", 0, "index 2\n"),
    Step::Writes("image", &[Part::File("lived")]),
    Step::Serves(
        &[
            Part::Text("boot\n"),
            Part::File("alone6"),
            Part::Text("status\nget 3 token\n"),
            Part::File("rescue"),
            Part::Text("get 3 token\nget 2 pin\n"),
        ],
        "noise",
        "booted\ndone 5 7\n\
        status c10b471ceff881272aa5ed819fd9a0e0 5 7 runnable unreliable reliable\nrefused 4 layer\n\
        done 6 8\nvalue 00ff\nabsent\n",
    ),
];

/// A countersignature that is there has to be right.
const A_COUNTERSIGNATURE_IS_WRONG: &[Step] = &[
    Step::Ends("countersign officer1 2 load wrong", 0, "index 4\n"),
    Step::Ends("countersign alone 3 wrong wrong", 0, "index 3\n"),
    Step::Writes("image", &[Part::File("lived")]),
    Step::Serves(
        &[
            Part::Text("boot\n"),
            Part::File("wrong"),
            Part::Text("off\n"),
        ],
        "noise",
        "booted\nrefused 14 countersignature\noff\n",
    ),
    Step::Matches("image", "lived"),
];

/// Layer 2 is given up, and given to another owner, who gives layer 3 its code. What both layers kept is gone.
const ANOTHER_OWNER: &[Step] = &[
    Step::Ends("sign officer2 draft10 surrender", 0, "index 3\n"),
    Step::Ends("sign officer1 draft11 establish", 0, "index 5\n"),
    Step::Ends("sign officer4 draft4 emergency", 0, "index 0\n"),
    Step::Writes("image", &[Part::File("loaded")]),
    Step::Serves(
        &[
            Part::Text("boot\n"),
            Part::File("surrender"),
            Part::Text("status\n"),
            Part::File("order4"),
            Part::File("establish"),
            Part::File("order4"),
            Part::File("emergency"),
            Part::Text("status\nget 3 token\n"),
            Part::File("rescue"),
            Part::Text("get 2 pin\nget 3 token\n"),
        ],
        "noise",
        "booted\ndone 7 9\n\
        status c10b471ceff881272aa5ed819fd9a0e0 7 9 runnable unowned unreliable\nrefused 12 state\n\
        done 8 10\nrefused 13 signature\ndone 9 11\n\
        status c10b471ceff881272aa5ed819fd9a0e0 9 11 runnable unreliable reliable\nrefused 4 layer\n\
        done 10 12\nabsent\nabsent\n",
    ),
];

/// A life in which no layer has a key.
const A_LIFE_WITHOUT_KEYS: &[Step] = &[
    Step::Writes("image", &[Part::File("keyless")]),
    Step::Serves(
        &[Part::Text("boot\ngo\nput 2 pin 31323334\ngo\nput 3 token 00ff\noff\n")],
        "nothing",
        "booted\nat 2\nkept\nat 3\nkept\noff\n",
    ),
    Step::Writes("secret", &[Part::File("image")]),
    Step::Serves(
        &[
            Part::Text("boot\n"),
            Part::File("order6"),
            Part::File("order7"),
            Part::Text("get 2 pin\nget 3 token\nstatus\noff\n"),
        ],
        "noise",
        "booted\ndone 5 6\ndone 6 7\nvalue 31323334\nvalue 00ff\n\
        status c10b471ceff881272aa5ed819fd9a0e0 6 7 runnable runnable runnable\noff\n",
    ),
];

/// Power is lost at each write of a load of layer 1 to which layer 3 agrees: nothing of it is done, or all, and what
/// layer 3 keeps is there when layer 2 has code again.
const A_LOAD_IS_CUT: &[Step] = &[
    Step::Ends("countersign alone 3 load alone6", 0, "index 1\n"),
    Step::Ends("sign officer1 draft12 rescue", 0, "index 3\n"),
    Step::Ends("countersign alone 3 rescue rescue", 0, "index 2\n"),
    Step::IsCut(&Cut {
        image: "secret",
        before: "boot\n",
        after: &[
            Part::File("alone6"),
            Part::Text("boot\nstatus\nget 2 pin\nget 3 token\n"),
            Part::File("rescue"),
            Part::Text("get 2 pin\nget 3 token\n"),
        ],
        torn: &[
            "booted\narmed\nstopped\nbooted\n\
            status c10b471ceff881272aa5ed819fd9a0e0 4 5 runnable runnable runnable\n\
            value 31323334\nvalue 00ff\ndone 5 6\nabsent\nvalue 00ff\n",
            "booted\narmed\nstopped\nbooted\n\
            status c10b471ceff881272aa5ed819fd9a0e0 5 6 runnable unreliable reliable\n\
            refused 4 layer\nrefused 4 layer\ndone 6 7\nabsent\nvalue 00ff\n",
        ],
        whole: "booted\narmed\ndone 5 6\n",
    }),
];

/// What layers keep: a layer reaches what is its own or a layer's above it, and no region holds more than 22 secrets.
const SECRETS_ARE_KEPT: &[Step] = &[
    Step::Writes("image", &[Part::File("keyed")]),
    Step::Serves(
        &[Part::Text(
            "boot\nput 2 pin -\nget 2 pin\nput 2 pin 030a11181f262d343b424950575e656c737a81888f969da4abb2b9c0c7ced5dce3eaf1f8ff060d141b222930373e454c\
            535a61686f767d848b9299a0a7aeb5bcc3cad1d8dfe6edf4fb020910171e252c333a41484f565d646b727980878e959c\
            a3aab1b8bfc6cdd4dbe2e9f0f7fe050c131a21282f363d444b525960676e757c\nget 2 pin\n\
            go\ngo\nget 2 pin\nput 3 a 01\nput 3 b 02\nput 3 c 03\nput 3 d 04\nput 3 e 05\nput 3 f 06\n\
            put 3 g 07\nput 3 h 08\nput 3 i 09\nput 3 j 0a\nput 3 k 0b\nput 3 l 0c\nput 3 m 0d\nput 3 n 0e\n\
            put 3 o 0f\nput 3 p 10\nput 3 q 11\nput 3 r 12\nput 3 s 13\nput 3 t 14\nput 3 u 15\nput 3 v 16\n\
            put 3 g 77\nput 3 w 17\ndrop 3 c\nput 3 w 17\nget 3 g\nget 3 w\ndrop 3 c\n",
        )],
        "nothing",
        "booted\nkept\nvalue -\nkept\nvalue 030a11181f262d343b424950575e656c737a81888f969da4abb2b9c0c7ced5dce3eaf1f8ff060d141b222930373e454c\
        535a61686f767d848b9299a0a7aeb5bcc3cad1d8dfe6edf4fb020910171e252c333a41484f565d646b727980878e959c\
        a3aab1b8bfc6cdd4dbe2e9f0f7fe050c131a21282f363d444b525960676e757c\n\
        at 2\nat 3\nrefused 4 layer\nkept\nkept\nkept\nkept\nkept\nkept\nkept\nkept\nkept\nkept\nkept\n\
        kept\nkept\nkept\nkept\nkept\nkept\nkept\nkept\nkept\nkept\nkept\nkept\nrefused 5 full\ndropped\n\
        kept\nvalue 77\nvalue 17\nabsent\n",
    ),
];

/// Where the record of region 3 begins once 16 secrets were put, after its length in its second area.
const RECORD: usize = FLASH_LENGTH + 24_576 + 2;

/// A region with 16 secrets, whose record becomes one of version 1, takes more, and then has a record of version 2.
const A_SEVENTEENTH_SECRET: &[Step] = &[
    Step::Writes("image", &[Part::File("keyed")]),
    Step::Serves(
        &[Part::Text(
            "boot\nput 3 a 01\nput 3 b 02\nput 3 c 03\nput 3 d 04\nput 3 e 05\nput 3 f 06\nput 3 g 07\n\
            put 3 h 08\nput 3 i 09\nput 3 j 0a\nput 3 k 0b\nput 3 l 0c\nput 3 m 0d\nput 3 n 0e\nput 3 o 0f\n\
            put 3 p 10\n",
        )],
        "nothing",
        "booted\nkept\nkept\nkept\nkept\nkept\nkept\nkept\nkept\nkept\nkept\nkept\nkept\nkept\nkept\nkept\n\
        kept\n",
    ),
    Step::Writes("version", &[Part::Slice("image", RECORD, RECORD + 1)]),
    Step::Holds("version", "02"),
    Step::Writes(
        "image",
        &[
            Part::Slice("image", 0, RECORD),
            Part::Text("\u{1}"),
            Part::Slice("image", RECORD + 1, IMAGE_LENGTH),
        ],
    ),
    Step::Serves(
        &[Part::Text(
            "boot\nget 3 p\nput 3 q 11\nput 3 r 12\nput 3 s 13\nput 3 t 14\nput 3 u 15\nput 3 v 16\nput 3 w 17\n",
        )],
        "nothing",
        "booted\nvalue 10\nkept\nkept\nkept\nkept\nkept\nkept\nrefused 5 full\n",
    ),
    Step::Writes("version", &[Part::Slice("image", RECORD, RECORD + 1)]),
    Step::Holds("version", "02"),
];

/// A key signs 32 times, each time with the next index, and a key that is not there never.
const A_KEY_IS_SPENT: &[Step] = &[
    Step::Writes("image", &[Part::File("keyed")]),
    Step::Serves(
        &[Part::Text(
            "boot\n\
            sign 3 1 -\nsign 3 1 -\nsign 3 1 -\nsign 3 1 -\nsign 3 1 -\nsign 3 1 -\nsign 3 1 -\nsign 3 1 -\n\
            sign 3 1 -\nsign 3 1 -\nsign 3 1 -\nsign 3 1 -\nsign 3 1 -\nsign 3 1 -\nsign 3 1 -\nsign 3 1 -\n\
            sign 3 1 -\nsign 3 1 -\nsign 3 1 -\nsign 3 1 -\nsign 3 1 -\nsign 3 1 -\nsign 3 1 -\nsign 3 1 -\n\
            sign 3 1 -\nsign 3 1 -\nsign 3 1 -\nsign 3 1 -\nsign 3 1 -\nsign 3 1 -\nsign 3 1 -\nsign 3 1 -\n\
            sign 3 1 -\nsign 3 9 -\n",
        )],
        "nothing",
        "booted\n\
        signed 1 0 *\nsigned 1 1 *\nsigned 1 2 *\nsigned 1 3 *\nsigned 1 4 *\nsigned 1 5 *\n\
        signed 1 6 *\nsigned 1 7 *\nsigned 1 8 *\nsigned 1 9 *\nsigned 1 10 *\nsigned 1 11 *\n\
        signed 1 12 *\nsigned 1 13 *\nsigned 1 14 *\nsigned 1 15 *\nsigned 1 16 *\nsigned 1 17 *\n\
        signed 1 18 *\nsigned 1 19 *\nsigned 1 20 *\nsigned 1 21 *\nsigned 1 22 *\nsigned 1 23 *\n\
        signed 1 24 *\nsigned 1 25 *\nsigned 1 26 *\nsigned 1 27 *\nsigned 1 28 *\nsigned 1 29 *\n\
        signed 1 30 *\nsigned 1 31 *\n\
        refused 7 spent\nrefused 6 key\n",
    ),
];

/// Power is lost at the first write of a signature, and at each: no index is used twice.
const INDICES_ARE_USED_ONCE: &[Step] = &[
    Step::Writes("image", &[Part::File("keyed")]),
    Step::Serves(
        &[Part::Text("boot\ncut 1 fill 00\nsign 3 1 -\nboot\nsign 3 1 -\n")],
        "nothing",
        "booted\narmed\nstopped\nbooted\nsigned 1 0 *\n",
    ),
    Step::IsCut(&Cut {
        image: "keyed",
        before: "boot\n",
        after: &[Part::Text("sign 3 1 -\nboot\nsign 3 1 -\n")],
        torn: &[
            "booted\narmed\nstopped\nbooted\nsigned 1 0 *\n",
            "booted\narmed\nstopped\nbooted\nsigned 1 1 *\n",
        ],
        whole: "booted\narmed\nsigned 1 0 ",
    }),
];

/// A configuration key signs until its own layer is loaded.
const A_KEY_ENDS: &[Step] = &[
    Step::Ends("sign officer2 draft9 order9", 0, "index 3\n"),
    Step::Ends("sign officer2 draft8 order8", 0, "index 4\n"),
    Step::Writes("image", &[Part::File("keyless")]),
    Step::Serves(
        &[
            Part::Text("boot\n"),
            Part::File("order9"),
            Part::File("order7"),
            Part::Text("sign 2 1 -\n"),
            Part::File("order8"),
            Part::Text("sign 2 1 -\n"),
        ],
        "noise",
        "booted\ndone 4 6\ndone 5 7\nsigned 1 0 *\ndone 6 8\nrefused 6 key\n",
    ),
];

/// A region holds eight keys.
const KEYS_ARE_FULL: &[Step] = &[
    Step::Writes("image", &[Part::File("keyless")]),
    Step::Serves(
        &[
            Part::Text("boot\n"),
            Part::File("order5"),
            Part::File("order5"),
            Part::File("order5"),
            Part::File("order5"),
            Part::File("order5"),
            Part::File("order5"),
            Part::File("order5"),
            Part::File("order5"),
            Part::File("order5"),
        ],
        "noise",
        "booted\ndone 4 6\ndone 4 7\ndone 4 8\ndone 4 9\ndone 4 10\ndone 4 11\ndone 4 12\ndone 4 13\n\
        refused 16 keys full\n",
    ),
];

#[test]
fn a_life_is_lived(rt: HostRuntime) -> Result<(), Fail> {
    owned_device_goes_through(
        &rt,
        &[
            A_LIFE,
            LAYER_THREE_AGREES,
            A_COUNTERSIGNATURE_IS_WRONG,
            ANOTHER_OWNER,
        ],
    )
}

#[test]
fn a_load_is_cut_at_each_write(rt: HostRuntime) -> Result<(), Fail> {
    owned_device_goes_through(&rt, &[A_LIFE_WITHOUT_KEYS, A_LOAD_IS_CUT])
}

#[test]
fn layers_keep_and_sign(rt: HostRuntime) -> Result<(), Fail> {
    owned_device_goes_through(
        &rt,
        &[
            SECRETS_ARE_KEPT,
            A_SEVENTEENTH_SECRET,
            A_KEY_IS_SPENT,
            INDICES_ARE_USED_ONCE,
            A_KEY_ENDS,
            KEYS_ARE_FULL,
        ],
    )
}
