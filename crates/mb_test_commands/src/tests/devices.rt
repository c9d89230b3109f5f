//! The command `factory`, against a device that an independent program made.

use super::{Content, Given, IMAGE, MAKER, OWNER, Play, SERIAL, Step, perform};
use std::test::Fail;

/// The file of the maker's key before it has signed, after its first signature, and after its last.
pub const KEY: &str =
    "4d424b31abc79a08451338fa701ede4a2dce0108fd9509691deba24454b97c4c547dcaf949f4315085cb9f83cae75a316a58\
    902b00000000";

const USED_KEY: &str =
    "4d424b31abc79a08451338fa701ede4a2dce0108fd9509691deba24454b97c4c547dcaf949f4315085cb9f83cae75a316a58\
    902b00000001";

const SPENT_KEY: &str =
    "4d424b31abc79a08451338fa701ede4a2dce0108fd9509691deba24454b97c4c547dcaf949f4315085cb9f83cae75a316a58\
    902b00000020";

/// A public key of another pair of types, 9 and 4.
pub const OTHER_OWNER: &str =
    "0000000900000004000102030405060708090a0b0c0d0e0f101112131415161718191a1b1c1d1e1f20212223242526272829\
    2a2b2c2d2e2f";

const FILES: &[Given] = &[
    Given {
        name: "noise1",
        content: Content::Hex("35fe183c068bc13ac735a76ac05c37d8d055c34bf945b99c4cdada2e31cc8ca8"),
    },
    Given {
        name: "noise2",
        content: Content::Hex("d95321bdf284c2032c7a5209b847eae96c3080c86bfc2585312e15361179d1ac"),
    },
    Given {
        name: "noise3",
        content: Content::Hex(
            "12d71d7255b6325df7487678010fc9dbb905c6d5af1a7d986e75ecdfdc39dfbec10b471ceff881272aa5ed819fd9a0e0",
        ),
    },
    Given {
        name: "code",
        content: Content::Text("layer one"),
    },
    Given {
        name: "first",
        content: Content::Hex(KEY),
    },
    Given {
        name: "spent",
        content: Content::Hex(SPENT_KEY),
    },
    Given {
        name: "other",
        content: Content::Hex(OTHER_OWNER),
    },
    Given {
        name: "less",
        content: Content::Hex(
            "0000000900000004000102030405060708090a0b0c0d0e0f101112131415161718191a1b1c1d1e1f20212223242526272829\
            2a2b2c2d2e",
        ),
    },
    Given {
        name: "none",
        content: Content::Text(""),
    },
    Given {
        name: "few",
        content: Content::Sevens(47),
    },
    Given {
        name: "noise",
        content: Content::Sevens(49),
    },
    Given {
        name: "most",
        content: Content::Sevens(32_768),
    },
    Given {
        name: "much",
        content: Content::Sevens(32_769),
    },
];

/// A device is made with a key and an owner that were made before.
const A_DEVICE_IS_MADE: &[Play] = &[Play {
    failing: &[],
    steps: &[
        Step::Ends("keygen noise1 key public", 0, MAKER),
        Step::Ends("keygen noise2 officer owner", 0, OWNER),
        Step::Ends("factory noise3 key owner code image", 0, SERIAL),
        Step::Holds("key", USED_KEY),
        Step::HasHash("image", IMAGE),
        Step::WasCalled(6, 6, 3),
    ],
}];

#[test]
fn a_device_is_made(rt: HostRuntime) -> Result<(), Fail> {
    perform(&rt, FILES, A_DEVICE_IS_MADE)
}

/// Refused commands write nothing.
const REFUSED: &[Play] = &[Play {
    failing: &[],
    steps: &[
        Step::Ends("factory noise first other none", 2, "words\n"),
        Step::Ends("factory noise first other none ", 2, "words\n"),
        Step::Ends("sign noise first other none image", 2, "words\n"),
        Step::WasCalled(0, 0, 3),
        Step::Ends(
            "factory few less less much image",
            3,
            "input noise length\n",
        ),
        Step::Ends("factory noise less less much image", 3, "input key at 0\n"),
        Step::Ends(
            "factory noise first less much image",
            3,
            "input owner at 24\n",
        ),
        Step::Ends(
            "factory noise spent other much image",
            3,
            "input code length\n",
        ),
        Step::Ends("factory noise spent other most image", 7, "spent\n"),
        Step::WasCalled(14, 0, 8),
    ],
}];

#[test]
fn a_device_that_is_refused_writes_nothing(rt: HostRuntime) -> Result<(), Fail> {
    perform(&rt, FILES, REFUSED)
}
