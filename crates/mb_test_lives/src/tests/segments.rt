//! Which sectors of the flash an order writes, and a power loss in the sector of an entry.

use super::births::{new_device_goes_through, owned_device_goes_through};
use super::{A_NEW_DEVICE, Content, Given, ITS_CHAIN, ITS_LISTING, Part, Step};
use std::test::Fail;

/// An order writes both header areas, the sector of its entry and the sectors that its code takes, and no other. Layer
/// 2 has its first code in slot 1, from sector 18 on, and its next in slot 2, from sector 26 on.
const SECTORS_ARE_TOUCHED: &[Step] = &[
    Step::Serves(
        &[Part::Text("boot\n"), Part::File("order1")],
        "noise",
        "booted\ndone 1 2\n",
    ),
    Step::Touches("image", "fresh", &[0, 1, 65]),
    Step::Writes("before", &[Part::File("image")]),
    Step::Serves(
        &[Part::Text("boot\n"), Part::File("order3")],
        "noise",
        "booted\ndone 2 3\n",
    ),
    Step::Touches("image", "before", &[0, 1, 18, 66]),
    Step::Gives(Given {
        name: "digits",
        content: Content::Digits(2 * 4_097),
    }),
    Step::Writes(
        "draft",
        &[
            Part::Text("order load 2\nversion 2\ntrust countersigned\ncode "),
            Part::File("digits"),
            Part::Text("\n"),
        ],
    ),
    Step::Ends("sign officer2 draft load", 0, "index 0\n"),
    Step::Writes("before", &[Part::File("image")]),
    Step::Serves(
        &[Part::Text("boot\n"), Part::File("load")],
        "noise",
        "booted\ndone 3 4\n",
    ),
    Step::Touches("image", "before", &[0, 1, 26, 27, 67]),
];

/// The life of a device up to its load of layer 1.
const A_LIFE_BEGINS: &[Step] = &[Step::Serves(
    &[
        Part::Text("boot\n"),
        Part::File("order1"),
        Part::File("order2"),
        Part::File("order3"),
        Part::File("order4"),
        Part::File("order5"),
        Part::Text(
            "go\nput 2 pin 31323334\ngo\nput 3 token 00ff\nsign 3 1 68656c6c6f\noff\nboot\n",
        ),
        Part::File("order6"),
        Part::Text("off\n"),
    ],
    "draws",
    "booted\ndone 1 2\ndone 2 3\ndone 3 4\ndone 4 5\ndone 4 6\nat 2\nkept\nat 3\nkept\nsigned 1 0 *\noff\n\
    booted\ndone 5 7\noff\n",
)];

/// Power is lost while the entry of a load of layer 3 is programmed, the tenth write: two of the code come first, two
/// of the header, two of the root, which commit the load, two of region 3, and the erasure of the log's sector. The
/// sector holds no entry then, the header does not count it, and the device comes up and writes it.
const A_LOG_SECTOR_IS_CUT: &[Step] = &[
    Step::Serves(
        &[Part::Text("boot\ncut 10 fill ff\n"), Part::File("order7")],
        "noise",
        "booted\narmed\nstopped\n",
    ),
    Step::Writes("torn", &[Part::File("image")]),
    Step::Serves(
        &[Part::Text("boot\nget 2 pin\nget 3 token\nstatus\noff\n")],
        "nothing",
        "booted\nvalue 31323334\nvalue 00ff\n\
        status c10b471ceff881272aa5ed819fd9a0e0 6 8 runnable runnable runnable\noff\n",
    ),
    Step::Touches("image", "torn", &[0, 71]),
    Step::Ends("chain image chain", 0, "entries 8\n"),
];

#[test]
fn an_order_touches_its_sectors(rt: HostRuntime) -> Result<(), Fail> {
    new_device_goes_through(&rt, &[A_NEW_DEVICE, SECTORS_ARE_TOUCHED])
}

#[test]
fn a_log_sector_is_cut(rt: HostRuntime) -> Result<(), Fail> {
    owned_device_goes_through(
        &rt,
        &[
            A_NEW_DEVICE,
            A_LIFE_BEGINS,
            A_LOG_SECTOR_IS_CUT,
            ITS_CHAIN,
            ITS_LISTING,
        ],
    )
}
