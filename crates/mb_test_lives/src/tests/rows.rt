//! The first orders of a device, and power losses while it obeys them, against the replies that its rules give.

use super::births::new_device_goes_through;
use super::{Part, Step};
use mb_model::BBRAM_LENGTH;
use std::test::Fail;

/// Refused commands change nothing, and an order is done once.
const THE_FIRST_ORDER: &[Step] = &[
    Step::Writes("image", &[Part::File("fresh")]),
    Step::Ends("run image nothing nothing", 0, ""),
    Step::Matches("image", "fresh"),
    Step::Serves(
        &[Part::Text("command 00\nboot\ncommand 00\ncommand -\n")],
        "noise",
        "refused 1 off\nbooted\nrefused 10 text\nrefused 10 text\n",
    ),
    Step::Serves(
        &[
            Part::Text("boot\n"),
            Part::Without("order1", 3),
            Part::Text("\noff\n"),
        ],
        "noise",
        "booted\nrefused 10 text\noff\n",
    ),
    Step::Serves(
        &[
            Part::Text("boot\n"),
            Part::Without("order1", 5),
            Part::Text("bb00\noff\n"),
        ],
        "noise",
        "booted\nrefused 13 signature\noff\n",
    ),
    Step::Matches("image", "fresh"),
    Step::Serves(
        &[
            Part::Text("boot\n"),
            Part::File("order1"),
            Part::Text("off\n"),
        ],
        "noise",
        "booted\ndone 1 2\noff\n",
    ),
    Step::Writes("owned", &[Part::File("image")]),
    Step::Ends(
        "run image script noise",
        0,
        "booted\nrefused 12 state\noff\n",
    ),
    Step::Matches("image", "owned"),
];

/// A target is compared before a signature is verified.
const TARGETS_COME_FIRST: &[Step] = &[
    Step::Ends("sign officer2 early order", 0, "index 0\n"),
    Step::Ends("sign officer2 timely other", 0, "index 1\n"),
    Step::Writes(
        "script",
        &[
            Part::Text("boot\n"),
            Part::File("order"),
            Part::File("other"),
        ],
    ),
    Step::Writes("image", &[Part::File("fresh")]),
    Step::Ends(
        "run image script noise",
        0,
        "booted\nrefused 11 target\nrefused 13 signature\n",
    ),
];

/// A layer without code takes an emergency load alone. Its code is then what a target says.
const EMERGENCY_COMES_FIRST: &[Step] = &[
    Step::Ends("sign officer2 draft8 order", 0, "index 2\n"),
    Step::Writes(
        "script",
        &[
            Part::Text("boot\n"),
            Part::File("order"),
            Part::File("order3"),
            Part::Text("status\n"),
            Part::File("order"),
        ],
    ),
    Step::Writes("image", &[Part::File("owned")]),
    Step::Ends(
        "run image script noise",
        0,
        "booted\nrefused 11 target\ndone 2 3\n\
        status c10b471ceff881272aa5ed819fd9a0e0 2 3 runnable runnable unowned\ndone 3 4\n",
    ),
];

/// What is printed if the first order does not count after a power loss, and if it does.
const OLD: &str =
    "booted\narmed\nstopped\nbooted\nstatus c10b471ceff881272aa5ed819fd9a0e0 0 1 runnable unowned unowned\n";

const NEW: &str =
    "booted\narmed\nstopped\nbooted\nstatus c10b471ceff881272aa5ed819fd9a0e0 1 2 runnable unreliable unowned\n";

/// Power is lost before an order is committed, and then the order is given again.
const POWER_IS_LOST_EARLY: &[Step] = &[
    Step::Writes("image", &[Part::File("owned")]),
    Step::Serves(
        &[
            Part::Text("boot\ncut 1 fill ff\n"),
            Part::File("order3"),
            Part::Text("boot\nstatus\n"),
            Part::File("order3"),
        ],
        "noise",
        "booted\narmed\nstopped\nbooted\n\
        status c10b471ceff881272aa5ed819fd9a0e0 1 2 runnable unreliable unowned\ndone 2 3\n",
    ),
];

/// Power is lost in the write that commits an order: the byte that is left decides.
const A_SELECTOR_IS_TORN: &[Step] = &[
    Step::Writes("image", &[Part::File("fresh")]),
    Step::Serves(
        &[
            Part::Text("boot\ncut 4 fill 00\n"),
            Part::File("order1"),
            Part::Text("boot\nstatus\n"),
        ],
        "noise",
        OLD,
    ),
    Step::Writes("image", &[Part::File("fresh")]),
    Step::Serves(
        &[
            Part::Text("boot\ncut 4 fill 7e\n"),
            Part::File("order1"),
            Part::Text("boot\nstatus\n"),
        ],
        "noise",
        OLD,
    ),
    Step::Writes("image", &[Part::File("fresh")]),
    Step::Serves(
        &[
            Part::Text("boot\ncut 4 fill 01\n"),
            Part::File("order1"),
            Part::Text("boot\nstatus\n"),
        ],
        "noise",
        NEW,
    ),
];

/// Power is lost after an order is committed, and again while the device settles.
const POWER_IS_LOST_LATE: &[Step] = &[
    Step::Writes("image", &[Part::File("fresh")]),
    Step::Serves(
        &[
            Part::Text("boot\ncut 5 fill 00\n"),
            Part::File("order1"),
            Part::Text("cut 1 fill 00\nboot\nboot\nstatus\noff\n"),
        ],
        "noise",
        "booted\narmed\nstopped\narmed\nstopped\nbooted\n\
        status c10b471ceff881272aa5ed819fd9a0e0 1 2 runnable unreliable unowned\noff\n",
    ),
    Step::Matches("image", "owned"),
];

/// The case is opened while an order has signatures left to be made.
const THE_CASE_IS_OPENED: &[Step] = &[
    Step::Writes("image", &[Part::File("fresh")]),
    Step::Serves(
        &[
            Part::Text("boot\ncut 5 fill 00\n"),
            Part::File("order1"),
            Part::Text("tamper\nboot\nstatus\noff\nstatus\n"),
        ],
        "noise",
        "booted\narmed\nstopped\ntampered\nrefused 3 zeroised\nrefused 3 zeroised\noff\nrefused 1 off\n",
    ),
    Step::EndsInZeros("image", BBRAM_LENGTH),
    Step::Serves(
        &[
            Part::Text("boot\n"),
            Part::File("order1"),
            Part::Text("off\n"),
        ],
        "noise",
        "refused 3 zeroised\nrefused 3 zeroised\noff\n",
    ),
];

#[test]
fn first_orders_are_obeyed(rt: HostRuntime) -> Result<(), Fail> {
    new_device_goes_through(
        &rt,
        &[
            THE_FIRST_ORDER,
            TARGETS_COME_FIRST,
            EMERGENCY_COMES_FIRST,
            POWER_IS_LOST_EARLY,
            A_SELECTOR_IS_TORN,
            POWER_IS_LOST_LATE,
            THE_CASE_IS_OPENED,
        ],
    )
}
