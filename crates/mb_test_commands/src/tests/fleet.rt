//! The command `fleet`: devices that are shown and asked for, against values of an independent program and by the rules
//! of the command, and inputs and calls that fail.

use super::births::owned_device_goes_through;
use super::{
    A_NEW_DEVICE, A_WHOLE_LIFE, ANOTHER_DEVICE, Content, Given, Part, Play, ShortFile, Step, Told,
    go_on, host_with, perform, store,
};
use std::alloc::Global;
use std::test::Fail;

/// A register of no devices, and the bytes that stand in items before chains of 15,300 and of 20,650 bytes.
const A_REGISTER_BEGINS: &[Step] = &[
    Step::Gives(Given {
        name: "register",
        content: Content::Hex("4d4246310000"),
    }),
    Step::Gives(Given {
        name: "shows6",
        content: Content::Hex("0100003bc4"),
    }),
    Step::Gives(Given {
        name: "shows8",
        content: Content::Hex("01000050aa"),
    }),
];

/// The first six entries of a chain are shown, then all eight, and then the first six again.
const EXTENDED_AND_OLDER: &[Step] = &[
    Step::Writes(
        "six",
        &[
            Part::Text("MBC1\0\u{6}"),
            Part::Slice("chain", 6, 15_299),
            Part::Text("\0"),
        ],
    ),
    Step::Writes(
        "items",
        &[
            Part::File("shows6"),
            Part::File("six"),
            Part::File("shows8"),
            Part::File("chain"),
        ],
    ),
    Step::Ends(
        "fleet public0 register items",
        0,
        "added c10b471ceff881272aa5ed819fd9a0e0 6\n\
        extended c10b471ceff881272aa5ed819fd9a0e0 8\n",
    ),
    Step::HasHash(
        "register",
        "3f3c72884d008d6ad283789767749a98e0b190f251bdcaaa7caac443dab7f98b",
    ),
    Step::Writes("items", &[Part::File("shows6"), Part::File("six")]),
    Step::Ends(
        "fleet public0 register items",
        0,
        "refused 31 older c10b471ceff881272aa5ed819fd9a0e0 8\n",
    ),
    Step::HasHash(
        "register",
        "3f3c72884d008d6ad283789767749a98e0b190f251bdcaaa7caac443dab7f98b",
    ),
    Step::Ends("fleet public1 register items", 0, "refused 21 0\n"),
    Step::Ends("fleet public0 register nothing", 0, ""),
    Step::HasHash(
        "register",
        "3f3c72884d008d6ad283789767749a98e0b190f251bdcaaa7caac443dab7f98b",
    ),
];

/// A second device has the same code of layer 2, and then another.
const FOUND_BY_CODE: &[Step] = &[
    Step::Gives(Given {
        name: "shows5",
        content: Content::Hex("0100003251"),
    }),
    Step::Gives(Given {
        name: "showsload",
        content: Content::Hex("0100003ca8"),
    }),
    Step::Gives(Given {
        name: "finds",
        content: Content::Hex(
            "0202ba7816bf8f01cfea414140de5dae2223b00361a396177a9cb410ff61f20015ad",
        ),
    }),
    Step::Gives(Given {
        name: "counts",
        content: Content::Hex("0302"),
    }),
    Step::Ends("chain keyless chain", 0, "entries 5\n"),
    Step::Writes(
        "items",
        &[
            Part::File("shows5"),
            Part::File("others"),
            Part::File("shows5"),
            Part::File("chain"),
            Part::File("finds"),
        ],
    ),
    Step::Ends(
        "fleet public0 register items",
        0,
        "added 07070707070707070707070707070707 5\n\
        added c10b471ceff881272aa5ed819fd9a0e0 5\n\
        found 2\n\
        serial 07070707070707070707070707070707\n\
        serial c10b471ceff881272aa5ed819fd9a0e0\n",
    ),
    Step::Writes(
        "draft",
        &[Part::Text("order load 2\nversion 2\ntrust countersigned\ncode 676869\n")],
    ),
    Step::Ends("sign officer2 draft order", 0, "index 3\n"),
    Step::Writes(
        "script",
        &[
            Part::Text("boot\n"),
            Part::File("order"),
            Part::Text("off\n"),
        ],
    ),
    Step::Ends("run other script noise", 0, "booted\ndone 5 6\noff\n"),
    Step::Ends("chain other others", 0, "entries 6\n"),
    Step::Writes(
        "items",
        &[
            Part::File("showsload"),
            Part::File("others"),
            Part::File("finds"),
            Part::File("counts"),
        ],
    ),
    Step::Ends(
        "fleet public0 register items",
        0,
        "extended 07070707070707070707070707070707 6\n\
        found 1\n\
        serial c10b471ceff881272aa5ed819fd9a0e0\n\
        codes 2\n\
        code 50ae61e841fac4e8f9e40baf2ad36ec868922ea48368c18f9535e47db56dd7fb 1\n\
        code ba7816bf8f01cfea414140de5dae2223b00361a396177a9cb410ff61f20015ad 1\n",
    ),
    Step::HasHash(
        "register",
        "7b28d8288d0b5443ae9785081b6d130eea2044fbd41628e3a950133012073419",
    ),
];

/// An image goes on in two ways after five entries. The second is caught, and the register keeps the first.
const A_COPY_IS_CAUGHT: &[Step] = &[
    Step::Ends("chain keyed chain", 0, "entries 6\n"),
    Step::Writes("items", &[Part::File("shows6"), Part::File("chain")]),
    Step::Ends(
        "fleet public0 register items",
        0,
        "extended c10b471ceff881272aa5ed819fd9a0e0 6\n",
    ),
    Step::HasHash(
        "register",
        "0d41c3deb2a0774c494d4a2f44f43ec11eec75fe13896968ca053442b5a6a063",
    ),
    Step::Writes("image", &[Part::File("keyless")]),
    Step::Serves(
        &[
            Part::Text("boot\n"),
            Part::File("order7"),
            Part::Text("off\n"),
        ],
        "noise",
        "booted\ndone 5 6\noff\n",
    ),
    Step::Ends("chain image others", 0, "entries 6\n"),
    Step::Writes("items", &[Part::File("showsload"), Part::File("others")]),
    Step::Ends(
        "fleet public0 register items",
        0,
        "refused 30 fork c10b471ceff881272aa5ed819fd9a0e0 5\n",
    ),
    Step::HasHash(
        "register",
        "0d41c3deb2a0774c494d4a2f44f43ec11eec75fe13896968ca053442b5a6a063",
    ),
];

/// A maker's key, a register of two devices, and questions with bytes that are no chain among them; and two devices
/// with codes of layer 1 that differ.
pub const FILES: &[Given] = &[
    Given {
        name: "root",
        content: Content::Hex(
            "00000005000000036eddf2c6eb4a342405043d3f908fa7c6b2d8509c74fc5e0b54060d6218945725f67a168b109bc038dec7\
                38c6cda77a12",
        ),
    },
    Given {
        name: "register",
        content: Content::Hex(REGISTER),
    },
    Given {
        name: "items",
        content: Content::Hex(
            "0301020222222222222222222222222222222222222222222222222222222222222222220100000002aabb0303",
        ),
    },
    Given {
        name: "two",
        content: Content::Hex(TWO_CODES),
    },
    Given {
        name: "nothing",
        content: Content::Text(""),
    },
    Given {
        name: "long",
        content: Content::Sevens(4_194_305),
    },
];

/// A register of another program.
pub const REGISTER: &str =
    "4d42463100021111111111111111111111111111111100000102012121212121212121212121212121212121212121212121\
     2121212121212121210001232323232323232323232323232323232323232323232323232323232323232300026161616161\
     6161616161616161616161616161616161616161616161616161616262626262626262626262626262626262626262626262\
     6262626262626262621212121212121212121212121212121200000102000122222222222222222222222222222222222222\
     222222222222222222222222220000016161616161616161616161616161616161616161616161616161616161616161";

/// A register of two devices, whose layer 1 alone has code.
const TWO_CODES: &str =
    "4d42463100021111111111111111111111111111111100000000011111111111111111111111111111111111111111111111\
     1111111111111111110000000161616161616161616161616161616161616161616161616161616161616161611212121212\
     1212121212121212121212000000000112121212121212121212121212121212121212121212121212121212121212120000\
     00016161616161616161616161616161616161616161616161616161616161616161";

/// The answers to the items.
const ANSWERS: &str = "codes 1\n\
    code 2121212121212121212121212121212121212121212121212121212121212121 1\n\
    found 1\n\
    serial 12121212121212121212121212121212\n\
    refused 20 0\n\
    codes 1\n\
    code 2323232323232323232323232323232323232323232323232323232323232323 1\n";

/// Each input is read once, and the register is written even if it is unchanged.
const INPUTS: &[Play] = &[Play {
    failing: &[],
    steps: &[
        Step::Ends("fleet root register items", 0, ANSWERS),
        Step::WasCalled(3, 1, 1),
        Step::Holds("register", REGISTER),
        Step::Ends("fleet root register nothing", 0, ""),
        Step::WasCalled(6, 2, 2),
        Step::Holds("register", REGISTER),
        Step::Ends("fleet root register", 2, "words\n"),
        Step::Ends("fleet root register items items", 2, "words\n"),
        Step::Ends("fleet root register ", 2, "words\n"),
        Step::Ends("fleet long register items", 3, "input root too long\n"),
        Step::Ends("fleet root long items", 3, "input register too long\n"),
        Step::Ends("fleet root register long", 3, "input items too long\n"),
        Step::Ends("fleet missing register items", 4, "read failed root\n"),
        Step::Ends("fleet root missing items", 4, "read failed register\n"),
        Step::Ends("fleet root register missing", 4, "read failed items\n"),
        Step::IsMissing("missing"),
        Step::Ends("fleet nothing nothing nothing", 3, "input root at 0\n"),
        Step::Ends("fleet root nothing nothing", 3, "input register at 0\n"),
        Step::Ends("fleet root register root", 3, "input items at 0\n"),
        Step::Writes("more", &[Part::File("root"), Part::Text("\0")]),
        Step::Ends("fleet more register items", 3, "input root at 56\n"),
        Step::Writes("more", &[Part::File("register"), Part::Text("\0")]),
        Step::Ends("fleet root more items", 3, "input register at 248\n"),
        Step::Writes("more", &[Part::File("items"), Part::Text("\0")]),
        Step::Ends("fleet root register more", 3, "input items at 45\n"),
        Step::Holds("register", REGISTER),
    ],
}];

/// Neither the answers nor the line of the failure can be printed, and the register is written.
const NOTHING_IS_PRINTED: &[Play] = &[Play {
    failing: &[4, 5],
    steps: &[
        Step::Ends("fleet root register items", 5, ""),
        Step::WasCalled(3, 1, 2),
        Step::Holds("register", REGISTER),
    ],
}];

/// The fields of the register begin at these offsets.
pub const REGISTER_FIELDS: &[usize] = &[
    0, 4, 6, 22, 26, 27, 59, 60, 61, 93, 95, 127, 159, 175, 179, 180, 181, 213, 214, 216,
];

/// The fields of the items begin at these offsets, without those that begin an item: items may end there.
const ITEM_FIELDS: &[usize] = &[1, 3, 4, 37, 41, 44];

/// The register and the items end where fields begin, and so does the maker's key.
const SHORT: &[ShortFile] = &[
    ShortFile {
        words: "fleet root register items",
        name: "root",
        status: 3,
        told: Told::Offset("input root at"),
        offsets: &[0, 4, 8, 24],
    },
    ShortFile {
        words: "fleet root register items",
        name: "register",
        status: 3,
        told: Told::Offset("input register at"),
        offsets: REGISTER_FIELDS,
    },
    ShortFile {
        words: "fleet root register items",
        name: "items",
        status: 3,
        told: Told::Offset("input items at"),
        offsets: ITEM_FIELDS,
    },
];

const FIELDS_ARE_MISSING: &[Play] = &[Play {
    failing: &[],
    steps: &[Step::InputsAreShort(SHORT)],
}];

/// How many questions there are for the two codes of layer 1. An answer has 152 bytes, and all have over 268,435,456.
const QUESTIONS: u32 = 1_766_023;

/// `QUESTIONS` questions for the codes of layer 1.
fn questions(alloc: Global) -> Result<Vec<u8>, Fail> {
    let mut items = Vec::new(alloc);
    for _number in 0..QUESTIONS {
        items.extend_from_slice(&[3, 1])?;
    }
    Ok(items)
}

/// Answers that are too long need memory before anything is written: the one write is that of the questions.
const TOO_LONG: &[Step] = &[
    Step::Ends("fleet root two questions", 6, "no memory\n"),
    Step::WasCalled(3, 1, 1),
    Step::Holds("two", TWO_CODES),
];

#[test]
fn devices_are_extended_and_older(rt: HostRuntime) -> Result<(), Fail> {
    owned_device_goes_through(
        &rt,
        &[
            A_NEW_DEVICE,
            A_WHOLE_LIFE,
            A_REGISTER_BEGINS,
            EXTENDED_AND_OLDER,
        ],
    )
}

#[test]
fn devices_are_found_by_code(rt: HostRuntime) -> Result<(), Fail> {
    owned_device_goes_through(
        &rt,
        &[
            A_REGISTER_BEGINS,
            ANOTHER_DEVICE,
            FOUND_BY_CODE,
            A_COPY_IS_CAUGHT,
        ],
    )
}

#[test]
fn inputs_of_a_fleet_are_read(rt: HostRuntime) -> Result<(), Fail> {
    perform(&rt, FILES, INPUTS)?;
    perform(&rt, FILES, FIELDS_ARE_MISSING)?;
    perform(&rt, FILES, NOTHING_IS_PRINTED)
}

#[test]
fn answers_of_a_fleet_are_too_long(rt: HostRuntime) -> Result<(), Fail> {
    let mut host = host_with(rt.alloc(), FILES, &[])?;
    store(&mut host, "questions", &questions(rt.alloc())?)?;
    go_on(&rt, &mut host, TOO_LONG)
}
