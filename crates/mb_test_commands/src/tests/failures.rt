//! Each command over a hostile world: each of its calls of the host fails in turn, and each of its inputs has one byte
//! more than an input may have. The lines are those that the rules of the commands give. Inputs that end where a field
//! or a word begins are in `short_files.rt`.

use super::births::owned_device_goes_through;
use super::{A_NEW_DEVICE, A_WHOLE_LIFE, Access, Content, Given, Part, Step};
use std::test::Fail;

/// The files of the tables, of a device whose key 1 made a statement before layers 1 and 3 were loaded.
pub const FILES_ARE_MADE: &[Step] = &[
    Step::Writes("draw", &[Part::Slice("noise", 0, 32)]),
    Step::Writes(
        "events",
        &[Part::Text("boot\nput 2 pin 35363738\ncommand 00\noff\n")],
    ),
    Step::Writes("obeyed", &[Part::Text("boot\nput 2 pin 35363738\noff\n")]),
    Step::Writes(
        "every",
        &[Part::Text(
            "go\nput 2 pin 35\nget 2 pin\ndrop 2 pin\nsign 3 1 68\ncut 1 keep 2 fill 00\ncommand 00\n",
        )],
    ),
    Step::Writes(
        "full",
        &[Part::Text(
            "order load 1\n\
                target serial 000102030405060708090a0b0c0d0e0f\n\
                target length 5\n\
                target owner 1 1111111111111111111111111111111111111111111111111111111111111111\n\
                target code 3 2222222222222222222222222222222222222222222222222222222222222222\n\
                version 2\ntrust always never\ncode 616263\n",
        )],
    ),
    Step::Ends("sign officer1 full targets", 0, "index 3\n"),
    Step::Ends("attach chain statement attached", 0, "entries 6\n"),
];

/// The files of the tables for the commands that serve no device: a maker of root keys with what it endorses, a policy
/// that allows key 1, a device whose layer 2 has the code `push 65`, `emit`, `halt`, a text of a code, a code that is
/// called and its secrets, and a register with what it is shown and asked.
pub const TOOLS_ARE_MADE: &[Step] = &[
    Step::Ends("hsskeygen noise0 2 hss hss_public", 0, "maker *\n"),
    Step::Ends("endorse hss public0 endorsement", 0, "index 0\n"),
    Step::Writes(
        "policy",
        &[Part::Text(
            "set known f191e625176e7514249870c60bc24622131b04927a418001d1969c9cecd260f1 \
                7692c3ad3540bb803c020b3aee66cd8887123234ea0c6e7143c0add73ff431ed\n\
                allow r and code 1 known alive\n",
        )],
    ),
    Step::Writes(
        "halt",
        &[Part::Text("order load 2\nversion 3\ntrust countersigned\ncode 01000000414200\n")],
    ),
    Step::Ends("sign officer2 halt halting", 0, "index 3\n"),
    Step::Writes("coded", &[Part::File("image")]),
    Step::Writes(
        "loading",
        &[
            Part::Text("boot\n"),
            Part::File("halting"),
            Part::Text("off\n"),
        ],
    ),
    Step::Ends("run coded loading noise", 0, "booted\ndone 7 9\noff\n"),
    Step::Writes(
        "text",
        &[Part::Text("label a\npush 65\nemit\njump a\nget token\n")],
    ),
    Step::Ends("asm text assembled", 0, "bytes 16\n"),
    Step::Gives(Given {
        name: "halts",
        content: Content::Hex("01000000414200"),
    }),
    Step::Gives(Given {
        name: "counts",
        content: Content::Hex(
            "010000000142010000000142010000000142010000006342010000000142010000000742010000000142010000000942\
                00",
        ),
    }),
    Step::Writes("kept", &[Part::Text("secret c 06\n")]),
    Step::Writes("register", &[Part::Text("MBF1\0\0")]),
    Step::Gives(Given {
        name: "shows",
        content: Content::Hex("01000050aa"),
    }),
    Step::Writes(
        "items",
        &[
            Part::File("shows"),
            Part::File("chain"),
            Part::Text("\u{3}\u{1}\u{2}\u{1}"),
            Part::Slice("noise", 0, 32),
        ],
    ),
];

/// What each command reads and writes.
const COMMANDS: &[Access] = &[
    Access {
        words: "run image events draw",
        reads: &[("image", "image"), ("script", "events"), ("noise", "draw")],
        writes: &[("image", "image")],
    },
    Access {
        words: "rehearse image obeyed draw",
        reads: &[("image", "image"), ("script", "obeyed"), ("noise", "draw")],
        writes: &[],
    },
    Access {
        words: "showimage image",
        reads: &[("image", "image")],
        writes: &[],
    },
    Access {
        words: "history public0 chain",
        reads: &[("root", "public0"), ("chain", "chain")],
        writes: &[],
    },
    Access {
        words: "cutat image events draw 1 00",
        reads: &[("image", "image"), ("script", "events"), ("noise", "draw")],
        writes: &[],
    },
    Access {
        words: "verify public0 chain 1",
        reads: &[("root", "public0"), ("chain", "chain")],
        writes: &[],
    },
    Access {
        words: "audit image public0 chain 1",
        reads: &[("image", "image"), ("root", "public0"), ("chain", "chain")],
        writes: &[],
    },
    Access {
        words: "chain image out",
        reads: &[("image", "image")],
        writes: &[("out", "out")],
    },
    Access {
        words: "attach chain statement out",
        reads: &[("chain", "chain"), ("statement", "statement")],
        writes: &[("out", "out")],
    },
    Access {
        words: "factory birth maker public1 code made",
        reads: &[
            ("noise", "birth"),
            ("key", "maker"),
            ("owner", "public1"),
            ("code", "code"),
        ],
        writes: &[("key", "maker"), ("image", "made")],
    },
    Access {
        words: "keygen noise0 key public",
        reads: &[("noise", "noise0")],
        writes: &[("key", "key"), ("public", "public")],
    },
    Access {
        words: "sign officer2 draft7 out",
        reads: &[("key", "officer2"), ("draft", "draft7")],
        writes: &[("key", "officer2"), ("out", "out")],
    },
    Access {
        words: "countersign officer2 2 load out",
        reads: &[("key", "officer2"), ("order", "load")],
        writes: &[("key", "officer2"), ("out", "out")],
    },
    Access {
        words: "cosign officer2 2 load draft6 out",
        reads: &[("key", "officer2"), ("order", "load"), ("draft", "draft6")],
        writes: &[("key", "officer2"), ("out", "out")],
    },
    Access {
        words: "showorder order6",
        reads: &[("order", "order6")],
        writes: &[],
    },
    Access {
        words: "ordered public1 order6",
        reads: &[("public", "public1"), ("order", "order6")],
        writes: &[],
    },
    Access {
        words: "showkey officer2",
        reads: &[("key", "officer2")],
        writes: &[],
    },
    Access {
        words: "migrate image out",
        reads: &[("image", "image")],
        writes: &[("out", "out")],
    },
    Access {
        words: "generate 1 1 image script noise",
        reads: &[],
        writes: &[("image", "image"), ("script", "script"), ("noise", "noise")],
    },
    Access {
        words: "hsskeygen noise0 1 key public",
        reads: &[("noise", "noise0")],
        writes: &[("key", "key"), ("public", "public")],
    },
    Access {
        words: "showmaker hss",
        reads: &[("key", "hss")],
        writes: &[],
    },
    Access {
        words: "endorse hss public0 out",
        reads: &[("key", "hss"), ("root", "public0")],
        writes: &[("key", "hss"), ("out", "out")],
    },
    Access {
        words: "endorsed hss_public public0 endorsement",
        reads: &[
            ("public", "hss_public"),
            ("root", "public0"),
            ("endorsement", "endorsement"),
        ],
        writes: &[],
    },
    Access {
        words: "trust public0 chain 1 policy",
        reads: &[
            ("root", "public0"),
            ("chain", "chain"),
            ("policy", "policy"),
        ],
        writes: &[],
    },
    Access {
        words: "app coded 2 nothing 10",
        reads: &[("image", "coded"), ("input", "nothing")],
        writes: &[],
    },
    Access {
        words: "asm text out",
        reads: &[("text", "text")],
        writes: &[("out", "out")],
    },
    Access {
        words: "disasm assembled out",
        reads: &[("code", "assembled")],
        writes: &[("out", "out")],
    },
    Access {
        words: "showcode assembled",
        reads: &[("code", "assembled")],
        writes: &[],
    },
    Access {
        words: "fleet public0 register items",
        reads: &[
            ("root", "public0"),
            ("register", "register"),
            ("items", "items"),
        ],
        writes: &[("register", "register")],
    },
    Access {
        words: "register new",
        reads: &[],
        writes: &[("out", "new")],
    },
    Access {
        words: "enrol public0 register chain",
        reads: &[
            ("root", "public0"),
            ("register", "register"),
            ("chain", "chain"),
        ],
        writes: &[("register", "register")],
    },
    Access {
        words: "devices register",
        reads: &[("register", "register")],
        writes: &[],
    },
    Access {
        words: "appcode halts nothing 10",
        reads: &[("code", "halts"), ("input", "nothing")],
        writes: &[],
    },
    Access {
        words: "callcode counts kept nothing after",
        reads: &[("code", "counts"), ("text", "kept"), ("input", "nothing")],
        writes: &[("out", "after")],
    },
];

/// Calls fail. A command that writes several files also fails after the first is written.
const CALLS_FAIL: &[Step] = &[Step::CallsFail(COMMANDS)];

const INPUTS_ARE_LONG: &[Step] = &[Step::InputsAreLong(COMMANDS)];

#[test]
fn calls_fail_in_turn(rt: HostRuntime) -> Result<(), Fail> {
    owned_device_goes_through(
        &rt,
        &[
            A_NEW_DEVICE,
            A_WHOLE_LIFE,
            FILES_ARE_MADE,
            TOOLS_ARE_MADE,
            CALLS_FAIL,
        ],
    )
}

#[test]
fn inputs_are_too_long(rt: HostRuntime) -> Result<(), Fail> {
    owned_device_goes_through(
        &rt,
        &[
            A_NEW_DEVICE,
            A_WHOLE_LIFE,
            FILES_ARE_MADE,
            TOOLS_ARE_MADE,
            INPUTS_ARE_LONG,
        ],
    )
}
