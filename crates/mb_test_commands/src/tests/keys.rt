//! The command `keygen`, by keys that an independent program made.

use super::{Content, Given, Play, Step, ZEROS_KEY, ZEROS_PUBLIC, perform};
use std::test::Fail;

/// Noise of zeros.
const ZEROS: &str = "0000000000000000000000000000000000000000000000000000000000000000";

const ZEROS_LINE: &str = "owner 625b604768f314a52f400dd694db5bb7cc1c22fa47e38cf7f5c4f90ca5b84392\n";

const FILES: &[Given] = &[
    Given {
        name: "zeros",
        content: Content::Hex(ZEROS),
    },
    Given {
        name: "mixed",
        content: Content::Hex("111e44f31816a2e7e0998c8b6532415d4f75797ff4312785967bdcd6833e1d96"),
    },
    Given {
        name: "long",
        content: Content::Hex("000102030405060708090a0b0c0d0e0f101112131415161718191a1b1c1d1e1f20"),
    },
    Given {
        name: "short",
        content: Content::Hex("00000000000000000000000000000000000000000000000000000000000000"),
    },
];

/// Each key is made, and made again of the same noise. Noise beyond 32 bytes is not used.
const KEYS_ARE_MADE: &[Play] = &[Play {
    failing: &[],
    steps: &[
        Step::Ends("keygen zeros key public", 0, ZEROS_LINE),
        Step::Holds("key", ZEROS_KEY),
        Step::Holds("public", ZEROS_PUBLIC),
        Step::Ends("keygen zeros key public", 0, ZEROS_LINE),
        Step::Holds("key", ZEROS_KEY),
        Step::Holds("public", ZEROS_PUBLIC),
        Step::Ends(
            "keygen mixed key public",
            0,
            "owner 49e6608d17bba8898f8f2df5c085f98acb1ac5cc3271e86349b79f85699be1fb\n",
        ),
        Step::Holds(
            "key",
            "4d424b3145e47fb59aa5a55f0f83d81c6d9de2eaffbfddc10c0c223395dda0609b99feeda3baded74bf09ba9881a083b49fe\
                63e400000000",
        ),
        Step::Holds(
            "public",
            "000000050000000345e47fb59aa5a55f0f83d81c6d9de2ea40811d1aa53e467789ef706d859ed038b16e8bee901fca5c6f44\
                384e54216c13",
        ),
        Step::Ends(
            "keygen mixed key public",
            0,
            "owner 49e6608d17bba8898f8f2df5c085f98acb1ac5cc3271e86349b79f85699be1fb\n",
        ),
        Step::Holds(
            "key",
            "4d424b3145e47fb59aa5a55f0f83d81c6d9de2eaffbfddc10c0c223395dda0609b99feeda3baded74bf09ba9881a083b49fe\
                63e400000000",
        ),
        Step::Holds(
            "public",
            "000000050000000345e47fb59aa5a55f0f83d81c6d9de2ea40811d1aa53e467789ef706d859ed038b16e8bee901fca5c6f44\
                384e54216c13",
        ),
        Step::Ends(
            "keygen long key public",
            0,
            "owner 4f6e9ff38c1bc427d7e117d76edf284a97cc41938a0dc9375856a06c06f87f9b\n",
        ),
        Step::Holds(
            "key",
            "4d424b31f5d541e6c1f5736fac8d67703916a7e4b7b94ea512bd312bfcd9eedbebef91090a23420ddbc50323fc7193e51021\
                7f8c00000000",
        ),
        Step::Holds(
            "public",
            "0000000500000003f5d541e6c1f5736fac8d67703916a7e43b6ec035344e351fe5527a7c1f6b590c34bc0a1eca4c29075b61\
                55648ccc2b87",
        ),
        Step::Ends(
            "keygen long key public",
            0,
            "owner 4f6e9ff38c1bc427d7e117d76edf284a97cc41938a0dc9375856a06c06f87f9b\n",
        ),
        Step::Holds(
            "key",
            "4d424b31f5d541e6c1f5736fac8d67703916a7e4b7b94ea512bd312bfcd9eedbebef91090a23420ddbc50323fc7193e51021\
                7f8c00000000",
        ),
        Step::Holds(
            "public",
            "0000000500000003f5d541e6c1f5736fac8d67703916a7e43b6ec035344e351fe5527a7c1f6b590c34bc0a1eca4c29075b61\
                55648ccc2b87",
        ),
    ],
}];

#[test]
fn keys_are_made(rt: HostRuntime) -> Result<(), Fail> {
    perform(&rt, FILES, KEYS_ARE_MADE)
}

/// Noise that is too short, and one name for both outputs.
const OTHER_ENDS: &[Play] = &[
    Play {
        failing: &[],
        steps: &[
            Step::Ends("keygen short key public", 3, "input noise length\n"),
            Step::WasCalled(1, 0, 1),
        ],
    },
    Play {
        failing: &[],
        steps: &[
            Step::Ends("keygen zeros file file", 0, ZEROS_LINE),
            Step::Holds("file", ZEROS_PUBLIC),
        ],
    },
];

#[test]
fn keys_have_other_ends(rt: HostRuntime) -> Result<(), Fail> {
    perform(&rt, FILES, OTHER_ENDS)
}
