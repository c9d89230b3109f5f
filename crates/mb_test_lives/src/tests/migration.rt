//! Images whose flash has the earlier form, and their migration. The example `examples/migration` migrates larger ones,
//! which another program made.

use super::births::new_device_goes_through;
use super::{Content, Given, Part, Play, Step, perform};
use mb_model::{FLASH_LENGTH, IMAGE_LENGTH, SECTOR_LENGTH};
use std::test::Fail;

/// The files of the plays.
const FILES: &[Given] = &[
    Given {
        name: "dead",
        content: Content::Laid(&[("", IMAGE_LENGTH, 0)]),
    },
    Given {
        name: "torn",
        content: Content::Laid(&[("", FLASH_LENGTH, 0xff), ("a5", IMAGE_LENGTH, 0)]),
    },
];

/// A dead device stays dead.
const DEAD_IS_MIGRATED: &[Step] = &[Step::Ends(
    "migrate dead out",
    0,
    "migrated 86ca89e7d050d826da64c6da7ac45d8fad0659c45013b045fa26ade14df67d89\n",
)];

/// An image of neither form is refused for its fault in the current form, wrong words and files with their lines, and
/// nothing is written.
const NEITHER_IS_REFUSED: &[Step] = &[
    Step::Ends("migrate torn out", 3, "input image root\n"),
    Step::Ends("migrate missing out", 4, "read failed image\n"),
    Step::Ends("migrate dead", 2, "words\n"),
    Step::Ends("migrate dead out more", 2, "words\n"),
    Step::IsMissing("out"),
];

/// Where the first sector of the log begins in the flash.
const LOG: usize = 64 * SECTOR_LENGTH;

/// Where the entry of a birth ends in the flash, after the two bytes of its length.
const BIRTH_ENDS: usize = LOG + 2 + 174;

/// Where the signature of the birth ends.
const SIGNATURE_ENDS: usize = BIRTH_ENDS + 2_348;

/// The length of the public record of a new device, after which its area is erased.
const RECORD_LENGTH: usize = 2_542;

/// The image of a new device as it was before the flash was in segments.
const AN_OLD_IMAGE: &[Step] = &[
    // the record's length and version, the code of layer 1, no other code, and one entry
    Step::Gives(Given {
        name: "front",
        content: Content::Hex("000009ee0101000000096c61796572206f6e6500000001"),
    }),
    Step::Gives(Given {
        name: "signed",
        content: Content::Hex("01"),
    }),
    Step::Gives(Given {
        name: "erased",
        content: Content::Laid(&[("", FLASH_LENGTH, 0xff)]),
    }),
    Step::Writes(
        "image",
        &[
            Part::File("front"),
            Part::Slice("fresh", LOG + 2, BIRTH_ENDS),
            Part::File("signed"),
            Part::Slice("fresh", BIRTH_ENDS, SIGNATURE_ENDS),
            Part::Slice("erased", 4 + RECORD_LENGTH, FLASH_LENGTH),
            Part::Slice("fresh", FLASH_LENGTH, IMAGE_LENGTH),
        ],
    ),
];

/// Images that are almost of the earlier form are refused, and nothing is written.
const BROKEN_OLD_IMAGES_ARE_REFUSED: &[Step] = &[
    Step::Writes(
        "cut",
        &[
            Part::Slice("image", 0, 4 + RECORD_LENGTH),
            Part::Slice("image", 5 + RECORD_LENGTH, IMAGE_LENGTH),
        ],
    ),
    Step::Ends("migrate cut out", 3, "input image length\n"),
    Step::Writes(
        "turned",
        &[
            Part::Slice("image", 0, 4),
            Part::Text("\u{2}"),
            Part::Slice("image", 5, IMAGE_LENGTH),
        ],
    ),
    Step::Ends("migrate turned out", 3, "input image public\n"),
    Step::Writes("long", &[Part::File("image"), Part::Text("\u{0}")]),
    Step::Ends("migrate long out", 3, "input image length\n"),
    Step::IsMissing("out"),
];

/// `run` refuses the old image; migrated, it is that of the factory, and an order is obeyed.
const A_NEW_DEVICE_IS_MIGRATED: &[Step] = &[
    Step::Ends("run image nothing nothing", 3, "input image public\n"),
    Step::Ends("migrate image image", 0, "migrated *\n"),
    Step::Matches("image", "fresh"),
    Step::Serves(
        &[Part::Text("boot\n"), Part::File("order1")],
        "noise",
        "booted\ndone 1 2\n",
    ),
];

/// Power fails right after an order is committed: a migration does the work that is left, as a boot does it.
const PENDING_WORK_IS_DONE: &[Step] = &[
    Step::Writes("image", &[Part::File("fresh")]),
    Step::Serves(
        &[Part::Text("boot\ncut 4 fill ff\n"), Part::File("order1")],
        "noise",
        "booted\narmed\nstopped\n",
    ),
    Step::Ends("migrate image migrated", 0, "migrated *\n"),
    Step::Ends("migrate migrated again", 0, "migrated *\n"),
    Step::Matches("migrated", "again"),
    Step::Ends("chain migrated out", 0, "entries 2\n"),
    Step::Serves(&[Part::Text("boot\n")], "nothing", "booted\n"),
    Step::Ends("migrate image booted", 0, "migrated *\n"),
    Step::Matches("migrated", "booted"),
];

#[test]
fn images_are_migrated_or_refused(rt: HostRuntime) -> Result<(), Fail> {
    perform(
        &rt,
        FILES,
        &[
            Play {
                failing: &[],
                steps: DEAD_IS_MIGRATED,
            },
            Play {
                failing: &[],
                steps: NEITHER_IS_REFUSED,
            },
        ],
    )
}

#[test]
fn new_devices_are_migrated(rt: HostRuntime) -> Result<(), Fail> {
    new_device_goes_through(
        &rt,
        &[
            AN_OLD_IMAGE,
            BROKEN_OLD_IMAGES_ARE_REFUSED,
            A_NEW_DEVICE_IS_MIGRATED,
            PENDING_WORK_IS_DONE,
        ],
    )
}
