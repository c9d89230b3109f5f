//! A device whose keys are spent and whose log is filled, against the replies that its rules give.

use super::births::new_device_goes_through;
use super::{Part, Step};
use std::test::Fail;

/// Layer 2 has its owner.
const OWNED: &[Step] = &[
    Step::Writes("image", &[Part::File("fresh")]),
    Step::Serves(
        &[
            Part::Text("boot\n"),
            Part::File("order1"),
            Part::Text("off\n"),
        ],
        "noise",
        "booted\ndone 1 2\noff\n",
    ),
    Step::Writes("owned", &[Part::File("image")]),
];

/// A device's key signs 31 entries, and then certifies the next key: by an entry of its own before that of an order,
/// or by the entry of a load of layer 1.
const KEYS_SUCCEED: &[Step] = &[
    Step::Ends("sign officer2 draft8 order8", 0, "index 0\n"),
    Step::Ends("sign officer1 draft6 load", 0, "index 2\n"),
    Step::Writes(
        "ten",
        &[
            Part::File("order8"),
            Part::File("order8"),
            Part::File("order8"),
            Part::File("order8"),
            Part::File("order8"),
            Part::File("order8"),
            Part::File("order8"),
            Part::File("order8"),
            Part::File("order8"),
            Part::File("order8"),
        ],
    ),
    Step::Writes("image", &[Part::File("owned")]),
    Step::Serves(
        &[
            Part::Text("boot\n"),
            Part::File("order3"),
            Part::File("ten"),
            Part::File("ten"),
            Part::File("order8"),
            Part::File("order8"),
            Part::File("order8"),
            Part::File("order8"),
            Part::File("order8"),
            Part::File("order8"),
            Part::File("order8"),
            Part::File("order8"),
            Part::Text("off\n"),
        ],
        "noise",
        "booted\ndone 2 3\n\
        done 3 4\ndone 4 5\ndone 5 6\ndone 6 7\ndone 7 8\ndone 8 9\ndone 9 10\ndone 10 11\n\
        done 11 12\ndone 12 13\ndone 13 14\ndone 14 15\ndone 15 16\ndone 16 17\ndone 17 18\ndone 18 19\n\
        done 19 20\ndone 20 21\ndone 21 22\ndone 22 23\ndone 23 24\ndone 24 25\ndone 25 26\ndone 26 27\n\
        done 27 28\ndone 28 29\ndone 29 30\ndone 30 31\noff\n",
    ),
    Step::Writes("unspent", &[Part::File("image")]),
    Step::Serves(
        &[Part::Text("boot\n"), Part::File("order8")],
        "noise",
        "booted\ndone 31 32\n",
    ),
    Step::Writes("used", &[Part::File("image")]),
    Step::Ends("run image script noise", 0, "booted\ndone 32 34\n"),
    Step::Writes("script", &[Part::Text("boot\n"), Part::File("load")]),
    Step::Ends("run used script noise", 0, "booted\ndone 32 33\n"),
];

/// The orders of a log that is full but for one entry: what is left is for a load of layer 1.
const THE_LOG_IS_FULL: &[Step] = &[
    Step::Ends("countersign officer2 2 load agreed", 0, "index 1\n"),
    Step::Writes("image", &[Part::File("unspent")]),
    Step::Serves(
        &[
            Part::Text("boot\n"),
            Part::File("agreed"),
            Part::File("ten"),
            Part::File("ten"),
            Part::File("ten"),
            Part::File("ten"),
            Part::File("ten"),
            Part::File("ten"),
            Part::File("ten"),
            Part::File("ten"),
            Part::File("ten"),
            Part::File("order8"),
            Part::File("order8"),
            Part::File("order8"),
            Part::File("order8"),
            Part::File("agreed"),
            Part::File("order8"),
            Part::File("agreed"),
            Part::Text("off\n"),
        ],
        "noise",
        "booted\n\
        done 31 32\ndone 32 33\ndone 33 34\ndone 34 35\ndone 35 36\ndone 36 37\ndone 37 38\ndone 38 39\n\
        done 39 40\ndone 40 41\ndone 41 42\ndone 42 43\ndone 43 44\ndone 44 45\ndone 45 46\ndone 46 47\n\
        done 47 48\ndone 48 49\ndone 49 50\ndone 50 51\ndone 51 52\ndone 52 53\ndone 53 54\ndone 54 55\n\
        done 55 56\ndone 56 57\ndone 57 58\ndone 58 59\ndone 59 60\ndone 60 61\ndone 61 62\ndone 62 63\n\
        done 63 65\ndone 64 66\ndone 65 67\ndone 66 68\ndone 67 69\ndone 68 70\ndone 69 71\ndone 70 72\n\
        done 71 73\ndone 72 74\ndone 73 75\ndone 74 76\ndone 75 77\ndone 76 78\ndone 77 79\ndone 78 80\n\
        done 79 81\ndone 80 82\ndone 81 83\ndone 82 84\ndone 83 85\ndone 84 86\ndone 85 87\ndone 86 88\n\
        done 87 89\ndone 88 90\ndone 89 91\ndone 90 92\ndone 91 93\ndone 92 94\ndone 93 95\ndone 94 97\n\
        done 95 98\ndone 96 99\ndone 97 100\ndone 98 101\ndone 99 102\ndone 100 103\ndone 101 104\ndone 102 105\n\
        done 103 106\ndone 104 107\ndone 105 108\ndone 106 109\ndone 107 110\ndone 108 111\ndone 109 112\ndone 110 113\n\
        done 111 114\ndone 112 115\ndone 113 116\ndone 114 117\ndone 115 118\ndone 116 119\ndone 117 120\ndone 118 121\n\
        done 119 122\ndone 120 123\ndone 121 124\ndone 122 125\ndone 123 126\ndone 124 127\nrefused 15 log full\n\
        done 125 128\nrefused 15 log full\nrefused 15 log full\noff\n",
    ),
];

#[test]
fn keys_of_a_device_succeed(rt: HostRuntime) -> Result<(), Fail> {
    new_device_goes_through(&rt, &[OWNED, KEYS_SUCCEED, THE_LOG_IS_FULL])
}
