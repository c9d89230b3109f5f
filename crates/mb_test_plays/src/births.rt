//! The birth of the device of the rows, the officers that give it orders, and the orders of a life, with values of an
//! independent program.

use crate::files::host_with;
use crate::play::{Program, go_on, go_through};
use crate::step::{Content, Given, Part, Step};
use mb_host::MemoryHost;
use std::test::Fail;

/// The line of the maker's public key.
pub const MAKER: &str = "owner 48995f84931c2e75a903a306f20e1d44ba9031ce4a7461428aae28b0b491ff65\n";

/// The line of the owner's public key.
pub const OWNER: &str = "owner a40bf9d678da59a9e050d292356cbcb44ba41a7e2df7a4cc8f77c8f3acf75b0f\n";

/// The line of the device's serial.
pub const SERIAL: &str = "serial c10b471ceff881272aa5ed819fd9a0e0\n";

/// The hash of the device's image.
pub const IMAGE: &str = "26d49fb85b2008888126b6f88eb5bbb2d4a6caf06a64fcc80c3228e2e8e71db0";

/// The key file of 32 zeros as noise, before it has signed, and its public key.
pub const ZEROS_KEY: &str =
    "4d424b31415f9f8fc3e618dd8524180f3db6a7c9eb495b20b522240648df79d22ec304c592f6d73c19b49bf70f19f34f7288\
    8b1a00000000";

pub const ZEROS_PUBLIC: &str =
    "0000000500000003415f9f8fc3e618dd8524180f3db6a7c9a7881c4ccb3521694cbdd14fd42b0822cdfb7c6f9fc531cab957\
    f755e6a2d2bc";

/// The noise of the maker, of the officers and of the birth, the code of layer 1, what is drafted, and the key of a
/// fourth officer.
const FILES: &[Given] = &[
    Given {
        name: "noise0",
        content: Content::Hex("35fe183c068bc13ac735a76ac05c37d8d055c34bf945b99c4cdada2e31cc8ca8"),
    },
    Given {
        name: "noise1",
        content: Content::Hex("d95321bdf284c2032c7a5209b847eae96c3080c86bfc2585312e15361179d1ac"),
    },
    Given {
        name: "noise2",
        content: Content::Hex("c0fcde819a0006907629b33ec8a491a8b0d7cbf7ef92d8dfeb3bb22913d91c30"),
    },
    Given {
        name: "noise3",
        content: Content::Hex("547202fca623e77ec47fe0d1edad602736c85db474f6c085282bd16c65856985"),
    },
    Given {
        name: "birth",
        content: Content::Hex(
            "12d71d7255b6325df7487678010fc9dbb905c6d5af1a7d986e75ecdfdc39dfbec10b471ceff881272aa5ed819fd9a0e0",
        ),
    },
    Given {
        name: "code",
        content: Content::Text("layer one"),
    },
    Given {
        name: "officer4",
        content: Content::Hex(ZEROS_KEY),
    },
    Given {
        name: "draft1",
        content: Content::Text(
            "order establish 2\nowner 0000000500000003456f47e33661bea750d0d7834df1866ee01637b5c1d8b439\
                b648b48180b105614fe7f19f31e54ccdcdab1be127d73256\ntrust countersigned\n",
        ),
    },
    Given {
        name: "draft2",
        content: Content::Text(
            "order establish 3\nowner 00000005000000032b3c1b4e3d51a925d662ac9ab43d1e6d57db50033b2205b8\
                9cb11153586437879a1a9f1c382306bb2ba53efd5549e358\ntrust countersigned\n",
        ),
    },
    Given {
        name: "draft3",
        content: Content::Text("order emergency 2\nversion 1\ntrust countersigned\ncode 616263\n"),
    },
    Given {
        name: "draft4",
        content: Content::Text("order emergency 3\nversion 1\ntrust countersigned\ncode 646566\n"),
    },
    Given {
        name: "draft5",
        content: Content::Text("order newkey 3 epoch\n"),
    },
    Given {
        name: "draft6",
        content: Content::Text("order load 1\nversion 2\ntrust always\ncode 6f6e65\n"),
    },
    Given {
        name: "draft7",
        content: Content::Text("order load 3\nversion 2\ntrust countersigned\ncode 676869\n"),
    },
    Given {
        name: "draft8",
        content: Content::Text(
            "order load 2\n\
                target code 2 ba7816bf8f01cfea414140de5dae2223b00361a396177a9cb410ff61f20015ad\n\
                version 2\ntrust countersigned\ncode 616263\n",
        ),
    },
    Given {
        name: "draft9",
        content: Content::Text("order newkey 2 configuration\n"),
    },
    Given {
        name: "draft10",
        content: Content::Text("order surrender 2\n"),
    },
    Given {
        name: "draft11",
        content: Content::Pieces(&[
            "order establish 2\nowner ",
            ZEROS_PUBLIC,
            "\ntrust countersigned\n",
        ]),
    },
    Given {
        name: "draft12",
        content: Content::Text("order emergency 2\nversion 2\ntrust countersigned\ncode 646566\n"),
    },
    Given {
        name: "early",
        content: Content::Text("order surrender 2\ntarget length 7\n"),
    },
    Given {
        name: "timely",
        content: Content::Pieces(&[
            "order establish 2\ntarget length 1\nowner ",
            ZEROS_PUBLIC,
            "\ntrust countersigned\n",
        ]),
    },
    Given {
        name: "nothing",
        content: Content::Text(""),
    },
    Given {
        name: "noise",
        content: Content::Sevens(4_096),
    },
    Given {
        name: "draws",
        content: Content::Hex(
            "5a987be47b7794ba2aaa984652c5d4ff3afc13c02a0f5a8bbac5a1588077979c690b773fb0d924a596ac06ce1f466354\
                422955444d76cd3675fb06e09f9f30f4da2dc294bfea6634fe54b0131112488438c36ec36db8b34410d46f5daa6e00cf\
                0a024813f2f239dfee11d1e30d6ea88579a7eaf5c59e01a09c9f4bc356c0025167d84c2e9f44b415aaed06982d746d93\
                985ecaf0095ac280c445bc05ad58a247da98bc3d71ca439ee3f9ab2eadc53b025429783c78bd26fea3b0ceeb08cd50ee\
                b97ac61e5047188853c2c5d218bf691c9e6ac1ae4788b3a8358fd8be7ccf9f20",
        ),
    },
];

/// The device and the officers' keys are made.
const MADE: &[Step] = &[
    Step::Ends("keygen noise0 maker public0", 0, MAKER),
    Step::Ends("keygen noise1 officer1 public1", 0, OWNER),
    Step::Ends("factory birth maker public1 code fresh", 0, SERIAL),
    Step::HasHash("fresh", IMAGE),
    Step::Ends(
        "keygen noise2 officer2 public2",
        0,
        "owner 68cd35f6dc5234d9a7e9df889d48ec8302912dee6f7c9fe17efeffa7bf970b63\n",
    ),
];

/// Layer 2 is given its owner and its first code.
const FIRST_ORDERS: &[Step] = &[
    Step::Ends("sign officer1 draft1 order1", 0, "index 0\n"),
    Step::IsOrder(
        "order1",
        "24353628082e2205589e49c31dce78c37688939a77069753ac385d552756ab7d",
    ),
    Step::Ends("sign officer1 draft3 order3", 0, "index 1\n"),
    Step::IsOrder(
        "order3",
        "d3e64fc773357af69f3bfc058a41b4c09d298996ab83134576bc3c805bcd08b4",
    ),
];

/// The orders of a life, as they are signed and countersigned.
const ORDERS_OF_A_LIFE: &[Step] = &[
    Step::Ends(
        "keygen noise3 officer3 public3",
        0,
        "owner b3cee4b09ec5e77e7b1285231704c0e8fcdcd7b721946b5bac2437e157b6bae1\n",
    ),
    Step::Ends("sign officer2 draft2 order2", 0, "index 0\n"),
    Step::IsOrder(
        "order2",
        "0fe774a54362e2c6b3e2e14763b0428aaedaeca044b68acdd262c07729007864",
    ),
    Step::Ends("sign officer2 draft4 order4", 0, "index 1\n"),
    Step::IsOrder(
        "order4",
        "d5414dc8eab29da27fdd73fbdade2d9c7ce0d5849889de235c91b53a857a95c0",
    ),
    Step::Ends("sign officer3 draft5 order5", 0, "index 0\n"),
    Step::IsOrder(
        "order5",
        "e05cc9d8e6c64cbadf88418b40de34a45cb4ad87f9b3eb623b8f705a3a736538",
    ),
    Step::Ends("sign officer1 draft6 load", 0, "index 2\n"),
    Step::Ends("countersign officer2 2 load order6", 0, "index 2\n"),
    Step::Writes("alone", &[Part::File("officer3")]),
    Step::Ends("countersign officer3 3 order6 order6", 0, "index 1\n"),
    Step::IsOrder(
        "order6",
        "558f3075e52a632d856bf12ade5cfdb55e8dd3c15e3e1457f8a54b91f5359017",
    ),
    Step::Ends("sign officer3 draft7 order7", 0, "index 2\n"),
    Step::IsOrder(
        "order7",
        "f6e7bec34762067e97f7d9671f64458c26771a49b1d51fd2fb21e4855f2c8373",
    ),
];

/// Both upper layers have owners and code, and layer 3 has a key that has signed nothing.
const LAYERS_ARE_GIVEN: &[Step] = &[
    Step::Writes("image", &[Part::File("fresh")]),
    Step::Serves(
        &[
            Part::Text("boot\n"),
            Part::File("order1"),
            Part::File("order2"),
            Part::File("order3"),
            Part::File("order4"),
            Part::Text("off\n"),
        ],
        "noise",
        "booted\ndone 1 2\ndone 2 3\ndone 3 4\ndone 4 5\noff\n",
    ),
    Step::Writes("keyless", &[Part::File("image")]),
    Step::Serves(
        &[
            Part::Text("boot\n"),
            Part::File("order5"),
            Part::Text("off\n"),
        ],
        "noise",
        "booted\ndone 4 6\noff\n",
    ),
    Step::Writes("keyed", &[Part::File("image")]),
];

/// A host on which the device and its first orders are made.
fn born(program: &impl Program) -> Result<MemoryHost, Fail> {
    let mut host = host_with(program.alloc(), FILES, &[])?;
    go_on(program, &mut host, MADE)?;
    go_on(program, &mut host, FIRST_ORDERS)?;
    Ok(host)
}

/// A host on which all three layers of the device have owners and code.
pub fn owned(program: &impl Program) -> Result<MemoryHost, Fail> {
    let mut host = born(program)?;
    go_on(program, &mut host, ORDERS_OF_A_LIFE)?;
    go_on(program, &mut host, LAYERS_ARE_GIVEN)?;
    Ok(host)
}

/// A new device goes through the parts.
pub fn new_device_goes_through(program: &impl Program, parts: &[&[Step]]) -> Result<(), Fail> {
    go_through(program, &mut born(program)?, parts)
}

/// A device whose layers all have owners and code goes through the parts.
pub fn owned_device_goes_through(program: &impl Program, parts: &[&[Step]]) -> Result<(), Fail> {
    go_through(program, &mut owned(program)?, parts)
}
