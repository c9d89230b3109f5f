//! The life of a device whose key 1 makes a statement before layers 1 and 3 are loaded.

use crate::step::{Part, Step};

/// The device as the factory makes it.
pub const A_NEW_DEVICE: &[Step] = &[Step::Writes("image", &[Part::File("fresh")])];

/// The life of a device whose layers are loaded again while they keep their secrets.
pub const A_WHOLE_LIFE: &[Step] = &[
    Step::Serves(
        &[
            Part::Text("boot\n"),
            Part::File("order1"),
            Part::File("order2"),
            Part::File("order3"),
            Part::File("order4"),
            Part::File("order5"),
            Part::Text(
                "go\nput 2 pin 31323334\ngo\nput 3 token 00ff\nsign 3 1 68656c6c6f\noff\nboot\n",
            ),
            Part::File("order6"),
            Part::File("order7"),
            Part::Text("get 2 pin\nget 3 token\nstatus\noff\n"),
        ],
        "draws",
        "booted\ndone 1 2\ndone 2 3\ndone 3 4\ndone 4 5\ndone 4 6\nat 2\nkept\nat 3\nkept\n\
        signed 1 0 000000040568656c6c6f0000000000000003027b799c6e*\noff\nbooted\ndone 5 7\ndone 6 8\n\
        value 31323334\nvalue 00ff\n\
        status c10b471ceff881272aa5ed819fd9a0e0 6 8 runnable runnable runnable\noff\n",
    ),
    Step::KeepsStatement("statement"),
    Step::Ends("chain image chain", 0, "entries 8\n"),
];

/// The chain of that life, whose entries have version 2.
pub const ITS_CHAIN: &[Step] = &[Step::HasHash(
    "chain",
    "a021fdf0fb2bca1cf94ee1241c816d6de4c1dd5bf63ce700a0a8982370e85dbd",
)];

/// What the chain of that life lists.
pub const ITS_LISTING: &[Step] = &[
    Step::Ends(
        "verify public0 chain 1",
        0,
        "key 1 epoch layer 3 alive\n\
        configuration 4\n\
        layer 1 a40bf9d678da59a9e050d292356cbcb44ba41a7e2df7a4cc8f77c8f3acf75b0f \
        f191e625176e7514249870c60bc24622131b04927a418001d1969c9cecd260f1 1 reliable always\n\
        layer 2 68cd35f6dc5234d9a7e9df889d48ec8302912dee6f7c9fe17efeffa7bf970b63 \
        ba7816bf8f01cfea414140de5dae2223b00361a396177a9cb410ff61f20015ad 1 reliable countersigned\n\
        layer 3 b3cee4b09ec5e77e7b1285231704c0e8fcdcd7b721946b5bac2437e157b6bae1 \
        cb8379ac2098aa165029e3938a51da0bcecfc008fd6795f401178647f96c5b34 1 reliable countersigned\n\
        configuration 5\n\
        layer 1 a40bf9d678da59a9e050d292356cbcb44ba41a7e2df7a4cc8f77c8f3acf75b0f \
        7692c3ad3540bb803c020b3aee66cd8887123234ea0c6e7143c0add73ff431ed 2 reliable always\n\
        layer 2 68cd35f6dc5234d9a7e9df889d48ec8302912dee6f7c9fe17efeffa7bf970b63 \
        ba7816bf8f01cfea414140de5dae2223b00361a396177a9cb410ff61f20015ad 1 reliable countersigned\n\
        layer 3 b3cee4b09ec5e77e7b1285231704c0e8fcdcd7b721946b5bac2437e157b6bae1 \
        cb8379ac2098aa165029e3938a51da0bcecfc008fd6795f401178647f96c5b34 1 reliable countersigned\n\
        configuration 6\n\
        layer 1 a40bf9d678da59a9e050d292356cbcb44ba41a7e2df7a4cc8f77c8f3acf75b0f \
        7692c3ad3540bb803c020b3aee66cd8887123234ea0c6e7143c0add73ff431ed 2 reliable always\n\
        layer 2 68cd35f6dc5234d9a7e9df889d48ec8302912dee6f7c9fe17efeffa7bf970b63 \
        ba7816bf8f01cfea414140de5dae2223b00361a396177a9cb410ff61f20015ad 1 reliable countersigned\n\
        layer 3 b3cee4b09ec5e77e7b1285231704c0e8fcdcd7b721946b5bac2437e157b6bae1 \
        50ae61e841fac4e8f9e40baf2ad36ec868922ea48368c18f9535e47db56dd7fb 2 reliable countersigned\n",
    ),
    Step::Ends("audit image public0 chain 1", 0, "agrees\n"),
];

/// Another device of the same maker, `other`, obeys the first four orders. Its chain is `others`.
pub const ANOTHER_DEVICE: &[Step] = &[
    Step::Writes("noise48", &[Part::Slice("noise", 0, 48)]),
    Step::Ends(
        "factory noise48 maker public1 code other",
        0,
        "serial 07070707070707070707070707070707\n",
    ),
    Step::Writes(
        "script",
        &[
            Part::Text("boot\n"),
            Part::File("order1"),
            Part::File("order2"),
            Part::File("order3"),
            Part::File("order4"),
            Part::Text("off\n"),
        ],
    ),
    Step::Ends(
        "run other script noise",
        0,
        "booted\ndone 1 2\ndone 2 3\ndone 3 4\ndone 4 5\noff\n",
    ),
    Step::Ends("chain other others", 0, "entries 5\n"),
];
