//! The commands `sign` and `countersign`, against orders that an independent program signed.

use super::{Content, Given, Play, Step, perform};
use std::test::Fail;

/// The noise of an officer's key, and the line of its public key.
const NOISE: &str = "000102030405060708090a0b0c0d0e0f101112131415161718191a1b1c1d1e1f";

const OWNER: &str = "owner 4f6e9ff38c1bc427d7e117d76edf284a97cc41938a0dc9375856a06c06f87f9b\n";

/// The file of the key before it has signed, after its first signature, and after its last.
const KEY: &str =
    "4d424b31f5d541e6c1f5736fac8d67703916a7e4b7b94ea512bd312bfcd9eedbebef91090a23420ddbc50323fc7193e51021\
    7f8c00000000";

const USED_KEY: &str =
    "4d424b31f5d541e6c1f5736fac8d67703916a7e4b7b94ea512bd312bfcd9eedbebef91090a23420ddbc50323fc7193e51021\
    7f8c00000001";

const SPENT_KEY: &str =
    "4d424b31f5d541e6c1f5736fac8d67703916a7e4b7b94ea512bd312bfcd9eedbebef91090a23420ddbc50323fc7193e51021\
    7f8c00000020";

/// The file with a byte more, and with another word.
const LONG_KEY: &str =
    "4d424b31f5d541e6c1f5736fac8d67703916a7e4b7b94ea512bd312bfcd9eedbebef91090a23420ddbc50323fc7193e51021\
    7f8c0000000000";

const OTHER_WORD: &str =
    "4d424b32f5d541e6c1f5736fac8d67703916a7e4b7b94ea512bd312bfcd9eedbebef91090a23420ddbc50323fc7193e51021\
    7f8c00000000";

/// The file of the key of the noise 01 02 .. 20, which countersigns.
const COUNTERSIGNER: &str =
    "4d424b31694fe06163fe29b42b183e4e7e7a218e0b8456b9f8065e1834608d6afcff6f322043496ffbaca002a9559c994303\
    0d2f00000000";

/// The hash of the order of the first draft when the key has signed it first.
const SIGNED_SURRENDER: &str = "e3ec45246d17d96678d6314fa65279bc3047965b6f07fcebcf8d4243639e892c";

const FILES: &[Given] = &[
    Given {
        name: "noise",
        content: Content::Hex(NOISE),
    },
    Given {
        name: "key",
        content: Content::Hex(KEY),
    },
    Given {
        name: "other",
        content: Content::Hex(COUNTERSIGNER),
    },
    Given {
        name: "spent",
        content: Content::Hex(SPENT_KEY),
    },
    Given {
        name: "long",
        content: Content::Hex(LONG_KEY),
    },
    Given {
        name: "word",
        content: Content::Hex(OTHER_WORD),
    },
    Given {
        name: "draft",
        content: Content::Text("order surrender 2\ntarget length 7\n"),
    },
    Given {
        name: "draft1",
        content: Content::Text("order newkey 3 configuration\n"),
    },
    Given {
        name: "draft2",
        content: Content::Text("order load 3\nversion 258\ntrust never\ncode 616263\n"),
    },
    Given {
        name: "draft3",
        content: Content::Text(
            "order load 1\n\
                target length 5\n\
                target serial 000102030405060708090a0b0c0d0e0f\n\
                version 2\n\
                trust countersigned\n\
                code -\n",
        ),
    },
    Given {
        name: "draft4",
        content: Content::Text(
            "order emergency 2\n\
                target owner 1 1111111111111111111111111111111111111111111111111111111111111111\n\
                target code 3 2222222222222222222222222222222222222222222222222222222222222222\n\
                version 4294967295\n\
                trust always\n\
                code 00ff\n",
        ),
    },
    Given {
        name: "bad",
        content: Content::Text("order surrender 2\ntarget length 7\n\n"),
    },
    Given {
        name: "give",
        content: Content::Text("command 0202010200000007000000\n"),
    },
    Given {
        name: "load",
        content: Content::Text("command 030200000001020100000003616263000000\n"),
    },
    Given {
        name: "two",
        content: Content::Text("command 0202010200000007000000\n\n"),
    },
];

/// A new key signs, orders of other drafts are signed and countersigned, and each file is read or written once.
const ORDERS_ARE_SIGNED: &[Play] = &[
    Play {
        failing: &[],
        steps: &[
            Step::Ends("keygen noise new public", 0, OWNER),
            Step::Ends("sign new draft order", 0, "index 0\n"),
            Step::IsOrder("order", SIGNED_SURRENDER),
            Step::Ends("countersign new 3 order order", 7, "not countersignable\n"),
            Step::Holds("new", USED_KEY),
        ],
    },
    Play {
        failing: &[],
        steps: &[
            Step::Ends("sign key draft1 order", 0, "index 0\n"),
            Step::IsOrder(
                "order",
                "01085c0f7d93513601f746c3acc8c6b07e33cb5a12b31d7370a1c33b6fa019bd",
            ),
        ],
    },
    Play {
        failing: &[],
        steps: &[
            Step::Ends("sign key draft2 order", 0, "index 0\n"),
            Step::IsOrder(
                "order",
                "877df22e0d738a908af098b70779e623e3b46c80f034c4c2c425f4d66ee21845",
            ),
        ],
    },
    Play {
        failing: &[],
        steps: &[
            Step::Ends("sign key draft3 order", 0, "index 0\n"),
            Step::IsOrder(
                "order",
                "ee9d007db8c8b320d34c1c62ab64957b270eaecd8ba042d6112846407a8f62eb",
            ),
            Step::Ends("countersign other 3 order order", 0, "index 0\n"),
            Step::IsOrder(
                "order",
                "9f64221401076f488275db932042a102f87586e5a05076a6872306e60e216f8c",
            ),
        ],
    },
    Play {
        failing: &[],
        steps: &[
            Step::Ends("sign key draft4 order", 0, "index 0\n"),
            Step::IsOrder(
                "order",
                "4d05e04686380b6984de41c0bfe498f00946d35f8dc7c76df9a57e66591640cd",
            ),
            Step::Ends("countersign other 3 order order", 0, "index 0\n"),
            Step::IsOrder(
                "order",
                "3e43471b11adc07980d95f8e2d91906a2a6b2b2fb46b900fc9f65e9d7877aee9",
            ),
        ],
    },
    Play {
        failing: &[],
        steps: &[
            Step::Ends("sign key draft order", 0, "index 0\n"),
            Step::WasCalled(2, 2, 1),
        ],
    },
];

#[test]
fn orders_are_signed(rt: HostRuntime) -> Result<(), Fail> {
    perform(&rt, FILES, ORDERS_ARE_SIGNED)
}

/// Refused commands write nothing.
const REFUSED: &[Play] = &[Play {
    failing: &[],
    steps: &[
        Step::Ends("sign key draft ", 2, "words\n"),
        Step::Ends("countersign  3 load out", 2, "words\n"),
        Step::Ends("countersign key 1 load out", 2, "words\n"),
        Step::Ends("countersign key 4 load out", 2, "words\n"),
        Step::Ends("countersign key 02 load out", 2, "words\n"),
        Step::WasCalled(0, 0, 5),
        Step::Ends("sign long draft out", 3, "input key at 56\n"),
        Step::Ends("sign word draft out", 3, "input key at 0\n"),
        Step::Ends("sign key bad out", 3, "input draft line 3\n"),
        Step::Ends("countersign key 3 bad out", 3, "input order line 1\n"),
        Step::Ends("countersign key 3 two out", 3, "input order line 2\n"),
        Step::Ends("sign spent draft out", 7, "spent\n"),
        Step::Ends("countersign spent 3 load out", 7, "spent\n"),
        Step::Ends("countersign spent 3 give out", 7, "not countersignable\n"),
        Step::Ends("countersign key 3 give out", 7, "not countersignable\n"),
        Step::Ends("countersign key 2 load out", 7, "not countersignable\n"),
        Step::WasCalled(18, 0, 15),
    ],
}];

#[test]
fn a_command_that_is_refused_writes_nothing(rt: HostRuntime) -> Result<(), Fail> {
    perform(&rt, FILES, REFUSED)
}
