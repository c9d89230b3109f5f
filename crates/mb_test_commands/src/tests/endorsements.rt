//! The commands `hsskeygen`, `endorse` and `endorsed`, against makers and endorsements of an independent program, and
//! over a host whose calls fail.

use super::{
    Content, FOREIGN_ENDORSEMENT, FOREIGN_KEY, Given, Part, Play, Step, ends, go_on, host_with,
    perform,
};
use std::test::Fail;

/// The noise of a maker.
const NOISE: &str = "000102030405060708090a0b0c0d0e0f101112131415161718191a1b1c1d1e1f";

/// The files of the makers of one and of two levels made of `NOISE`, which have signed nothing, and their public keys.
const ONE: &str =
    "4d424b3201136b8c60f7349e4e452847a2b564f20a1e0642410e09d0ba9ae7a13915d483190000000000000000";

const TWO: &str =
    "4d424b3202136b8c60f7349e4e452847a2b564f20a1e0642410e09d0ba9ae7a13915d483190000000000000000";

const ONE_PUBLIC: &str = "\
    000000010000000500000003ec1b77804d0b7d73e6b29b7af6b8498a1b15cc212083944aeacb532a50b5fbe9951a6555c1e02060c0570115\
    138b9a32";

const TWO_PUBLIC: &str = "\
    000000020000000500000003ec1b77804d0b7d73e6b29b7af6b8498a1b15cc212083944aeacb532a50b5fbe9951a6555c1e02060c0570115\
    138b9a32";

/// What is printed for each of the two makers.
const ONE_LINE: &str = "maker 947bc68a614ab9812cd14fcd397022ed1807b239b66c1b1558e9ab150cc603a7\n";

const TWO_LINE: &str = "maker d54325968cb96cfed2b10a72297e5019230de2aa9d135a4dba2f28506296c652\n";

/// The file of the maker of two levels after its first endorsement.
const TWO_USED: &str =
    "4d424b3202136b8c60f7349e4e452847a2b564f20a1e0642410e09d0ba9ae7a13915d483190000000000000001";

/// The root key that is endorsed.
const ROOT: &str =
    "00000005000000037051ba5d3680f56ccdc72fffce8c33c2f40bb5bd489e2a41ddf67f10a026cea5b33a14ad098e3fe1\
        2d8d1b16c8d4189d";

/// The hashes of the endorsements of `ROOT` by the makers of one and of two levels with number 0.
const ONE_HASH: &str = "d8f435db690e98cdd3ad2c0c6a37ccf727352d40bc3fa48254338b1fb21c2d70";

const TWO_HASH: &str = "5eb74066695326036d2df3d2d460354ab19466e8274193cb3aee25d72ae1c550";

const FILES: &[Given] = &[
    Given {
        name: "noise",
        content: Content::Hex(NOISE),
    },
    Given {
        name: "longer",
        content: Content::Hex("000102030405060708090a0b0c0d0e0f101112131415161718191a1b1c1d1e1f20"),
    },
    Given {
        name: "zeros",
        content: Content::Laid(&[("", 32, 0)]),
    },
    Given {
        name: "short",
        content: Content::Sevens(31),
    },
    Given {
        name: "long",
        content: Content::Sevens(4_194_305),
    },
    Given {
        name: "longest",
        content: Content::Sevens(4_194_304),
    },
    Given {
        name: "one",
        content: Content::Hex(ONE),
    },
    Given {
        name: "two",
        content: Content::Hex(TWO),
    },
    Given {
        name: "two31",
        content: Content::Hex(
            "4d424b3202136b8c60f7349e4e452847a2b564f20a1e0642410e09d0ba9ae7a13915d48319000000000000001f",
        ),
    },
    Given {
        name: "two1023",
        content: Content::Hex(
            "4d424b3202136b8c60f7349e4e452847a2b564f20a1e0642410e09d0ba9ae7a13915d4831900000000000003ff",
        ),
    },
    Given {
        name: "three",
        content: Content::Hex(
            "4d424b3203136b8c60f7349e4e452847a2b564f20a1e0642410e09d0ba9ae7a13915d483190000000000007fff",
        ),
    },
    Given {
        name: "eight",
        content: Content::Hex(
            "4d424b3208136b8c60f7349e4e452847a2b564f20a1e0642410e09d0ba9ae7a13915d48319000000ffffffffff",
        ),
    },
    Given {
        name: "spent",
        content: Content::Hex(
            "4d424b3201136b8c60f7349e4e452847a2b564f20a1e0642410e09d0ba9ae7a13915d483190000000000000020",
        ),
    },
    Given {
        name: "spent8",
        content: Content::Hex(
            "4d424b3208136b8c60f7349e4e452847a2b564f20a1e0642410e09d0ba9ae7a13915d483190000010000000000",
        ),
    },
    Given {
        name: "public1",
        content: Content::Hex(ONE_PUBLIC),
    },
    Given {
        name: "public2",
        content: Content::Hex(TWO_PUBLIC),
    },
    Given {
        name: "public3",
        content: Content::Hex(
            "000000030000000500000003ec1b77804d0b7d73e6b29b7af6b8498a1b15cc212083944aeacb532a50b5fbe9951a6555\
                c1e02060c0570115138b9a32",
        ),
    },
    Given {
        name: "public8",
        content: Content::Hex(
            "000000080000000500000003ec1b77804d0b7d73e6b29b7af6b8498a1b15cc212083944aeacb532a50b5fbe9951a6555\
                c1e02060c0570115138b9a32",
        ),
    },
    Given {
        name: "root",
        content: Content::Hex(ROOT),
    },
    Given {
        name: "other",
        content: Content::Hex(
            "00000005000000037051ba5d3680f56ccdc72fffce8c33c2f40bb5bd489e2a41ddf67f10a026cea5b33a14ad098e3fe1\
                2d8d1b16c8d4189c",
        ),
    },
    Given {
        name: "wide",
        content: Content::Hex(
            "00000009000000017051ba5d3680f56ccdc72fffce8c33c2f40bb5bd489e2a41ddf67f10a026cea5b33a14ad098e3fe1\
                2d8d1b16c8d4189d",
        ),
    },
    Given {
        name: "foreign_public",
        content: Content::Hex(FOREIGN_KEY),
    },
    Given {
        name: "foreign",
        content: Content::Hex(FOREIGN_ENDORSEMENT),
    },
];

/// Each maker is made, and made again of the same noise. Noise beyond 32 bytes is not used.
const MAKERS_ARE_MADE: &[Play] = &[Play {
    failing: &[],
    steps: &[
        Step::Ends("hsskeygen noise 1 key public", 0, ONE_LINE),
        Step::Holds("key", ONE),
        Step::Holds("public", ONE_PUBLIC),
        Step::WasCalled(1, 2, 1),
        Step::Ends("hsskeygen noise 2 key public", 0, TWO_LINE),
        Step::Holds("key", TWO),
        Step::Holds("public", TWO_PUBLIC),
        Step::Ends("hsskeygen longer 2 key public", 0, TWO_LINE),
        Step::Holds("key", TWO),
        Step::Holds("public", TWO_PUBLIC),
        Step::Ends(
            "hsskeygen noise 8 key public",
            0,
            "maker 9bc2395e07b7070829fd29ee6bb935937c242c5e7d6d220c270ce175ffc684da\n",
        ),
        Step::Holds(
            "key",
            "4d424b3208136b8c60f7349e4e452847a2b564f20a1e0642410e09d0ba9ae7a13915d483190000000000000000",
        ),
        Step::Holds(
            "public",
            "000000080000000500000003ec1b77804d0b7d73e6b29b7af6b8498a1b15cc212083944aeacb532a50b5fbe9951a6555\
                    c1e02060c0570115138b9a32",
        ),
        Step::Ends(
            "hsskeygen zeros 3 key public",
            0,
            "maker f2ae76b8dad73a642e3cad6888498914af8334cb77dca3ec4fa753587ec31966\n",
        ),
        Step::Holds(
            "key",
            "4d424b3203ae8896961cb11eab8333610414a7cd5ca1ad38c7a076a143f2aa079e9d2d03f90000000000000000",
        ),
        Step::Holds(
            "public",
            "00000003000000050000000369a33de96f86cbe7b711e5b5cf5e3e82d42172539884e4d4db5a86b349e8ee2507f99c38\
                    ccbec16d48ac4b2297473476",
        ),
        Step::Ends("hsskeygen noise 2 file file", 0, TWO_LINE),
        Step::Holds("file", TWO_PUBLIC),
    ],
}];

#[test]
fn makers_are_made(rt: HostRuntime) -> Result<(), Fail> {
    perform(&rt, FILES, MAKERS_ARE_MADE)
}

/// An endorsement of two levels has 4,756 bytes. It holds for its root key alone, under its maker's public key alone.
const TWO_LEVELS: &[Play] = &[
    Play {
        failing: &[],
        steps: &[
            Step::Ends("endorse two root out", 0, "index 0\n"),
            Step::WasCalled(2, 2, 1),
            Step::Holds("two", TWO_USED),
            Step::HasHash("out", TWO_HASH),
            Step::Writes("rest", &[Part::Without("out", 4756)]),
            Step::Holds("rest", ""),
            Step::Ends("endorsed public2 root out", 0, "endorsed\n"),
            Step::WasCalled(5, 3, 2),
            Step::Ends("endorsed public2 other out", 7, "refused 28\n"),
            Step::Ends("endorsed public2 wide out", 7, "refused 28\n"),
            Step::Ends("endorsed public1 root out", 7, "refused 28\n"),
            Step::Ends("endorsed public3 root out", 7, "refused 28\n"),
            Step::Ends("endorsed foreign_public root out", 7, "refused 28\n"),
            Step::Writes(
                "spoilt",
                &[
                    Part::Slice("out", 0, 3),
                    Part::Text("\0"),
                    Part::Slice("out", 4, 4756),
                ],
            ),
            Step::Ends("endorsed public2 root spoilt", 7, "refused 28\n"),
        ],
    },
    Play {
        failing: &[],
        steps: &[
            Step::Ends("endorse two wide out", 0, "index 0\n"),
            Step::Ends("endorsed public2 wide out", 0, "endorsed\n"),
            Step::Ends("endorsed public2 root out", 7, "refused 28\n"),
        ],
    },
];

#[test]
fn two_levels(rt: HostRuntime) -> Result<(), Fail> {
    perform(&rt, FILES, TWO_LEVELS)
}

/// The key of the last level gives way to the next, and the last number is used.
const LATER_NUMBERS: &[Play] = &[
    Play {
        failing: &[],
        steps: &[
            Step::Ends("endorse two31 root out", 0, "index 31\n"),
            Step::HasHash(
                "out",
                "9096521d0f2a2e17a619cc93f646f8216addbee9896bca2d6396546918796b02",
            ),
            Step::Ends("endorsed public2 root out", 0, "endorsed\n"),
            Step::Ends("endorse two31 root out", 0, "index 32\n"),
            Step::HasHash(
                "out",
                "b1a832c0cf1baad8c1815835aabf5db4c67fcaf2a89379dceefde9facd61cbc2",
            ),
            Step::Ends("endorsed public2 root out", 0, "endorsed\n"),
            Step::Holds(
                "two31",
                "4d424b3202136b8c60f7349e4e452847a2b564f20a1e0642410e09d0ba9ae7a13915d483190000000000000021",
            ),
        ],
    },
    Play {
        failing: &[],
        steps: &[
            Step::Ends("endorse two1023 root out", 0, "index 1023\n"),
            Step::HasHash(
                "out",
                "55de945555871f2a4aab69e1cc1ec6b4ac10aed8d79b2821624d6b5abd5ec16b",
            ),
            Step::Ends("endorsed public2 root out", 0, "endorsed\n"),
            Step::Ends("endorse two1023 root out", 7, "spent\n"),
            Step::Holds(
                "two1023",
                "4d424b3202136b8c60f7349e4e452847a2b564f20a1e0642410e09d0ba9ae7a13915d483190000000000000400",
            ),
        ],
    },
    Play {
        failing: &[],
        steps: &[
            Step::Ends("endorse three root out", 0, "index 32767\n"),
            Step::HasHash(
                "out",
                "2bedbf62937f0d91f221829ddc8f9efe9272fa097efac0e842c67f9b5706ae35",
            ),
            Step::Ends("endorsed public3 root out", 0, "endorsed\n"),
            Step::Ends("endorse three root out", 7, "spent\n"),
        ],
    },
    Play {
        failing: &[],
        steps: &[
            Step::Ends("endorse eight root out", 0, "index 1099511627775\n"),
            Step::HasHash(
                "out",
                "9adc90623c4d5682d205187648b0ce5dfc760ac0df6a4a4beba1dd2ea879af39",
            ),
            Step::Ends("endorsed public8 root out", 0, "endorsed\n"),
            Step::Ends("endorse eight root out", 7, "spent\n"),
        ],
    },
];

#[test]
fn later_numbers(rt: HostRuntime) -> Result<(), Fail> {
    perform(&rt, FILES, LATER_NUMBERS)
}

/// The maker of one level after its first endorsement, and after its last.
const FIRST_OF_ONE: &[Step] = &[Step::HasHash("out", ONE_HASH)];

const LAST_OF_ONE: &[Step] = &[
    Step::HasHash(
        "out",
        "14a8b77f54850feb4d76764c73d3e75a85493818b1043132465074a646ef839b",
    ),
    Step::Ends("endorsed public1 root out", 0, "endorsed\n"),
    Step::Holds(
        "one",
        "4d424b3201136b8c60f7349e4e452847a2b564f20a1e0642410e09d0ba9ae7a13915d483190000000000000020",
    ),
    Step::Ends("endorse one root more", 7, "spent\n"),
    Step::Holds(
        "one",
        "4d424b3201136b8c60f7349e4e452847a2b564f20a1e0642410e09d0ba9ae7a13915d483190000000000000020",
    ),
    Step::IsMissing("more"),
    Step::WasCalled(69, 64, 34),
];

/// The 33rd endorsement of one level is refused.
#[test]
fn levels_are_spent(rt: HostRuntime) -> Result<(), Fail> {
    let mut host = host_with(rt.alloc(), FILES, &[])?;
    ends(&rt, &mut host, "endorse one root out", 0, "index 0\n")?;
    go_on(&rt, &mut host, FIRST_OF_ONE)?;
    for number in 1..32 {
        let lines = format!(in rt.alloc(); "index {number}\n")?;
        ends(&rt, &mut host, "endorse one root out", 0, &lines)?;
    }
    go_on(&rt, &mut host, LAST_OF_ONE)
}

/// An endorsement that another program made with keys of other types is accepted, and refused if it is changed or cut
/// at the beginning of a field.
const FOREIGN_ENDORSEMENTS: &[Play] = &[Play {
    failing: &[],
    steps: &[
        Step::Ends("endorsed foreign_public root foreign", 0, "endorsed\n"),
        Step::Ends("endorsed public2 root foreign", 7, "refused 28\n"),
        Step::Writes("made", &[Part::File("foreign"), Part::Text("\0")]),
        Step::Ends("endorsed foreign_public root made", 7, "refused 28\n"),
        Step::Writes("made", &[Part::Without("foreign", 1)]),
        Step::Ends("endorsed foreign_public root made", 7, "refused 28\n"),
        Step::Writes(
            "made",
            &[
                Part::Slice("foreign", 0, 3),
                Part::Text("\0"),
                Part::Slice("foreign", 4, 2804),
            ],
        ),
        Step::Ends("endorsed foreign_public root made", 7, "refused 28\n"),
        Step::Writes(
            "made",
            &[
                Part::Slice("foreign", 0, 3),
                Part::Text("\u{2}"),
                Part::Slice("foreign", 4, 2804),
            ],
        ),
        Step::Ends("endorsed foreign_public root made", 7, "refused 28\n"),
        Step::Writes("made", &[Part::Slice("foreign", 0, 3)]),
        Step::Ends("endorsed foreign_public root made", 7, "refused 28\n"),
        Step::Writes("made", &[Part::Slice("foreign", 0, 4)]),
        Step::Ends("endorsed foreign_public root made", 7, "refused 28\n"),
        Step::Writes("made", &[Part::Slice("foreign", 0, 1296)]),
        Step::Ends("endorsed foreign_public root made", 7, "refused 28\n"),
        Step::Writes("made", &[Part::Slice("foreign", 0, 1352)]),
        Step::Ends("endorsed foreign_public root made", 7, "refused 28\n"),
        Step::Writes(
            "made",
            &[
                Part::Slice("foreign", 0, 1299),
                Part::Text("\u{4}"),
                Part::Slice("foreign", 1300, 2804),
            ],
        ),
        Step::Ends("endorsed foreign_public root made", 7, "refused 28\n"),
        Step::Writes(
            "made",
            &[
                Part::Slice("foreign", 0, 1303),
                Part::Text("\u{5}"),
                Part::Slice("foreign", 1304, 2804),
            ],
        ),
        Step::Ends("endorsed foreign_public root made", 7, "refused 28\n"),
        Step::Ends("endorsed foreign_public root noise", 7, "refused 28\n"),
        Step::Ends("endorsed foreign_public root longest", 7, "refused 28\n"),
    ],
}];

#[test]
fn foreign_endorsements(rt: HostRuntime) -> Result<(), Fail> {
    perform(&rt, FILES, FOREIGN_ENDORSEMENTS)
}

/// Refused commands end with their status even if their line cannot be printed.
const NOT_PRINTED: &[Play] = &[
    Play {
        failing: &[3],
        steps: &[Step::Ends("endorsed foreign_public other foreign", 7, "")],
    },
    Play {
        failing: &[2],
        steps: &[Step::Ends("endorse spent root out", 7, "")],
    },
];

#[test]
fn a_refusal_is_not_printed(rt: HostRuntime) -> Result<(), Fail> {
    perform(&rt, FILES, NOT_PRINTED)
}

/// Refused commands write nothing, and name the first input that is not right.
const REFUSED: &[Play] = &[Play {
    failing: &[],
    steps: &[
        Step::Ends("hsskeygen noise 1 key ", 2, "words\n"),
        Step::Ends("hsskeygen noise 0 key public", 2, "words\n"),
        Step::Ends("hsskeygen noise 9 key public", 2, "words\n"),
        Step::Ends("hsskeygen noise 01 key public", 2, "words\n"),
        Step::Ends("hsskeygen noise one key public", 2, "words\n"),
        Step::Ends("endorse two root", 2, "words\n"),
        Step::Ends("endorse two root ", 2, "words\n"),
        Step::Ends("endorsed public2 root out out", 2, "words\n"),
        Step::WasCalled(0, 0, 8),
        Step::Ends("hsskeygen short 1 key public", 3, "input noise length\n"),
        Step::Ends("hsskeygen long 1 key public", 3, "input noise too long\n"),
        Step::Ends("endorse long root out", 3, "input key too long\n"),
        Step::Ends("endorse two long out", 3, "input root too long\n"),
        Step::Ends("endorsed long root foreign", 3, "input public too long\n"),
        Step::Ends("endorsed public2 long foreign", 3, "input root too long\n"),
        Step::Ends(
            "endorsed public2 root long",
            3,
            "input endorsement too long\n",
        ),
        Step::Ends("endorse spent root out", 7, "spent\n"),
        Step::Ends("endorse spent8 root out", 7, "spent\n"),
        Step::Ends("endorse spent missing out", 4, "read failed root\n"),
        Step::Ends("endorse root missing out", 3, "input key at 0\n"),
        Step::Ends(
            "endorsed public2 root missing",
            4,
            "read failed endorsement\n",
        ),
        Step::Ends("endorsed root missing long", 3, "input public at 4\n"),
        Step::Ends("endorse two public2 out", 3, "input root at 0\n"),
        Step::Holds("two", TWO),
        Step::IsMissing("key"),
        Step::IsMissing("public"),
        Step::IsMissing("out"),
    ],
}];

#[test]
fn a_command_that_is_refused_writes_nothing(rt: HostRuntime) -> Result<(), Fail> {
    perform(&rt, FILES, REFUSED)
}

/// Makers' files and public keys that are in no form, and the offset at which each fails.
const FAULTY: &[Play] = &[Play {
    failing: &[],
    steps: &[
        Step::Gives(Given {
            name: "faulty",
            content: Content::Hex(""),
        }),
        Step::Ends("endorse faulty root out", 3, "input key at 0\n"),
        Step::Gives(Given {
            name: "faulty",
            content: Content::Hex(
                "4d424b3102136b8c60f7349e4e452847a2b564f20a1e0642410e09d0ba9ae7a13915d483190000000000000000",
            ),
        }),
        Step::Ends("endorse faulty root out", 3, "input key at 0\n"),
        Step::Gives(Given {
            name: "faulty",
            content: Content::Hex(
                "4d424b3200136b8c60f7349e4e452847a2b564f20a1e0642410e09d0ba9ae7a13915d483190000000000000000",
            ),
        }),
        Step::Ends("endorse faulty root out", 3, "input key at 4\n"),
        Step::Gives(Given {
            name: "faulty",
            content: Content::Hex(
                "4d424b3209136b8c60f7349e4e452847a2b564f20a1e0642410e09d0ba9ae7a13915d483190000000000000000",
            ),
        }),
        Step::Ends("endorse faulty root out", 3, "input key at 4\n"),
        Step::Gives(Given {
            name: "faulty",
            content: Content::Hex("4d424b3202136b8c60f7349e4e452847a2b564f2"),
        }),
        Step::Ends("endorse faulty root out", 3, "input key at 5\n"),
        Step::Gives(Given {
            name: "faulty",
            content: Content::Hex(
                "4d424b3202136b8c60f7349e4e452847a2b564f20a1e0642410e09d0ba9ae7a13915d483190000000000000401",
            ),
        }),
        Step::Ends("endorse faulty root out", 3, "input key at 37\n"),
        Step::Gives(Given {
            name: "faulty",
            content: Content::Hex(
                "4d424b3202136b8c60f7349e4e452847a2b564f20a1e0642410e09d0ba9ae7a13915d4831900000000000000",
            ),
        }),
        Step::Ends("endorse faulty root out", 3, "input key at 37\n"),
        Step::Gives(Given {
            name: "faulty",
            content: Content::Hex(
                "4d424b3202136b8c60f7349e4e452847a2b564f20a1e0642410e09d0ba9ae7a13915d48319000000000000000000",
            ),
        }),
        Step::Ends("endorse faulty root out", 3, "input key at 45\n"),
        Step::Writes("faulty", &[Part::File("root"), Part::Text("\0")]),
        Step::Ends("endorse two faulty out", 3, "input root at 56\n"),
        Step::Ends("endorsed public2 faulty foreign", 3, "input root at 56\n"),
        Step::Gives(Given {
            name: "faulty",
            content: Content::Hex("000000"),
        }),
        Step::Ends("endorsed faulty root foreign", 3, "input public at 0\n"),
        Step::Gives(Given {
            name: "faulty",
            content: Content::Hex(
                "000000000000000500000003ec1b77804d0b7d73e6b29b7af6b8498a1b15cc212083944aeacb532a50b5fbe9951a6555\
                        c1e02060c0570115138b9a32",
            ),
        }),
        Step::Ends("endorsed faulty root foreign", 3, "input public at 0\n"),
        Step::Gives(Given {
            name: "faulty",
            content: Content::Hex(
                "000000090000000500000003ec1b77804d0b7d73e6b29b7af6b8498a1b15cc212083944aeacb532a50b5fbe9951a6555\
                        c1e02060c0570115138b9a32",
            ),
        }),
        Step::Ends("endorsed faulty root foreign", 3, "input public at 0\n"),
        Step::Gives(Given {
            name: "faulty",
            content: Content::Hex(
                "000000020000000400000003ec1b77804d0b7d73e6b29b7af6b8498a1b15cc212083944aeacb532a50b5fbe9951a6555\
                        c1e02060c0570115138b9a32",
            ),
        }),
        Step::Ends("endorsed faulty root foreign", 3, "input public at 4\n"),
        Step::Gives(Given {
            name: "faulty",
            content: Content::Hex(
                "000000020000000500000005ec1b77804d0b7d73e6b29b7af6b8498a1b15cc212083944aeacb532a50b5fbe9951a6555\
                        c1e02060c0570115138b9a32",
            ),
        }),
        Step::Ends("endorsed faulty root foreign", 3, "input public at 8\n"),
        Step::Gives(Given {
            name: "faulty",
            content: Content::Hex("000000020000000500000003ec1b77804d0b7d73e6b29b7af6b849"),
        }),
        Step::Ends("endorsed faulty root foreign", 3, "input public at 12\n"),
        Step::Gives(Given {
            name: "faulty",
            content: Content::Hex(
                "000000020000000500000003ec1b77804d0b7d73e6b29b7af6b8498a1b15cc212083944aeacb532a50b5fbe9951a6555\
                        c1e02060c0570115138b9a",
            ),
        }),
        Step::Ends("endorsed faulty root foreign", 3, "input public at 28\n"),
        Step::Gives(Given {
            name: "faulty",
            content: Content::Hex(
                "000000020000000500000003ec1b77804d0b7d73e6b29b7af6b8498a1b15cc212083944aeacb532a50b5fbe9951a6555\
                        c1e02060c0570115138b9a3200",
            ),
        }),
        Step::Ends("endorsed faulty root foreign", 3, "input public at 60\n"),
    ],
}];

#[test]
fn files_are_faulty(rt: HostRuntime) -> Result<(), Fail> {
    perform(&rt, FILES, FAULTY)
}
