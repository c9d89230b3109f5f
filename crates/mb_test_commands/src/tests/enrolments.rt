//! The commands `register`, `enrol` and `devices`: chains that are shown one by one, against values of an independent
//! program and by the rules of the commands, and inputs and calls that fail.

use super::births::{owned, owned_device_goes_through};
use super::fleet::{FILES, REGISTER, REGISTER_FIELDS};
use super::{
    A_NEW_DEVICE, A_WHOLE_LIFE, ANOTHER_DEVICE, Part, Play, ShortFile, Step, Told, go_on, perform,
    store,
};
use std::alloc::Global;
use std::test::Fail;

/// The first six entries of a chain are enrolled, then all eight, and then the first six again. The register is the one
/// that `fleet` keeps of these items, and is written if it changes.
const EXTENDED_AND_OLDER: &[Step] = &[
    Step::Ends("register register", 0, "devices 0\n"),
    Step::Holds("register", "4d4246310000"),
    Step::Ends("devices register", 0, "devices 0\n"),
    Step::Writes(
        "six",
        &[
            Part::Text("MBC1\0\u{6}"),
            Part::Slice("chain", 6, 15_299),
            Part::Text("\0"),
        ],
    ),
    Step::Ends(
        "enrol public0 register six",
        0,
        "added c10b471ceff881272aa5ed819fd9a0e0 6\n",
    ),
    Step::Ends(
        "devices register",
        0,
        "devices 1\n\
        device c10b471ceff881272aa5ed819fd9a0e0 6 4 \
        f191e625176e7514249870c60bc24622131b04927a418001d1969c9cecd260f1 \
        ba7816bf8f01cfea414140de5dae2223b00361a396177a9cb410ff61f20015ad \
        cb8379ac2098aa165029e3938a51da0bcecfc008fd6795f401178647f96c5b34\n",
    ),
    Step::Ends(
        "enrol public0 register six",
        0,
        "same c10b471ceff881272aa5ed819fd9a0e0 6\n",
    ),
    Step::Ends(
        "enrol public0 register chain",
        0,
        "extended c10b471ceff881272aa5ed819fd9a0e0 8\n",
    ),
    Step::HasHash(
        "register",
        "3f3c72884d008d6ad283789767749a98e0b190f251bdcaaa7caac443dab7f98b",
    ),
    Step::Ends(
        "devices register",
        0,
        "devices 1\n\
        device c10b471ceff881272aa5ed819fd9a0e0 8 6 \
        7692c3ad3540bb803c020b3aee66cd8887123234ea0c6e7143c0add73ff431ed \
        ba7816bf8f01cfea414140de5dae2223b00361a396177a9cb410ff61f20015ad \
        50ae61e841fac4e8f9e40baf2ad36ec868922ea48368c18f9535e47db56dd7fb\n",
    ),
    Step::Ends(
        "enrol public0 register six",
        7,
        "refused 31 older c10b471ceff881272aa5ed819fd9a0e0 8\n",
    ),
    Step::Ends("enrol public1 register chain", 7, "refused 21 0\n"),
    Step::Ends("enrol public0 register nothing", 7, "refused 20 0\n"),
    Step::Ends("enrol public0 register code", 7, "refused 20 0\n"),
    Step::HasHash(
        "register",
        "3f3c72884d008d6ad283789767749a98e0b190f251bdcaaa7caac443dab7f98b",
    ),
];

/// Two devices are enrolled, and go on. One of them was copied: its other past is caught, and the register keeps the
/// first.
const A_COPY_IS_CAUGHT: &[Step] = &[
    Step::Ends("register register", 0, "devices 0\n"),
    Step::Ends(
        "enrol public0 register others",
        0,
        "added 07070707070707070707070707070707 5\n",
    ),
    Step::Ends("chain keyless chain", 0, "entries 5\n"),
    Step::Ends(
        "enrol public0 register chain",
        0,
        "added c10b471ceff881272aa5ed819fd9a0e0 5\n",
    ),
    Step::Writes(
        "draft",
        &[Part::Text("order load 2\nversion 2\ntrust countersigned\ncode 676869\n")],
    ),
    Step::Ends("sign officer2 draft order", 0, "index 3\n"),
    Step::Writes(
        "script",
        &[
            Part::Text("boot\n"),
            Part::File("order"),
            Part::Text("off\n"),
        ],
    ),
    Step::Ends("run other script noise", 0, "booted\ndone 5 6\noff\n"),
    Step::Ends("chain other others", 0, "entries 6\n"),
    Step::Ends(
        "enrol public0 register others",
        0,
        "extended 07070707070707070707070707070707 6\n",
    ),
    Step::HasHash(
        "register",
        "7b28d8288d0b5443ae9785081b6d130eea2044fbd41628e3a950133012073419",
    ),
    Step::Ends("chain keyed chain", 0, "entries 6\n"),
    Step::Ends(
        "enrol public0 register chain",
        0,
        "extended c10b471ceff881272aa5ed819fd9a0e0 6\n",
    ),
    Step::Writes("image", &[Part::File("keyless")]),
    Step::Serves(
        &[
            Part::Text("boot\n"),
            Part::File("order7"),
            Part::Text("off\n"),
        ],
        "noise",
        "booted\ndone 5 6\noff\n",
    ),
    Step::Ends("chain image fork", 0, "entries 6\n"),
    Step::Ends(
        "enrol public0 register fork",
        7,
        "refused 30 fork c10b471ceff881272aa5ed819fd9a0e0 5\n",
    ),
    Step::HasHash(
        "register",
        "0d41c3deb2a0774c494d4a2f44f43ec11eec75fe13896968ca053442b5a6a063",
    ),
    Step::Ends(
        "devices register",
        0,
        "devices 2\n\
        device 07070707070707070707070707070707 6 5 \
        f191e625176e7514249870c60bc24622131b04927a418001d1969c9cecd260f1 \
        50ae61e841fac4e8f9e40baf2ad36ec868922ea48368c18f9535e47db56dd7fb \
        cb8379ac2098aa165029e3938a51da0bcecfc008fd6795f401178647f96c5b34\n\
        device c10b471ceff881272aa5ed819fd9a0e0 6 4 \
        f191e625176e7514249870c60bc24622131b04927a418001d1969c9cecd260f1 \
        ba7816bf8f01cfea414140de5dae2223b00361a396177a9cb410ff61f20015ad \
        cb8379ac2098aa165029e3938a51da0bcecfc008fd6795f401178647f96c5b34\n",
    ),
];

/// What is shown of the register of another program.
const SHOWN: &str = "devices 2\n\
    device 11111111111111111111111111111111 2 258 \
    2121212121212121212121212121212121212121212121212121212121212121 - \
    2323232323232323232323232323232323232323232323232323232323232323\n\
    device 12121212121212121212121212121212 1 258 - \
    2222222222222222222222222222222222222222222222222222222222222222 -\n";

/// Each input is read once, the first that is wrong is reported, and a register that is not changed is not written.
const INPUTS: &[Play] = &[Play {
    failing: &[],
    steps: &[
        Step::Ends("devices register", 0, SHOWN),
        Step::WasCalled(1, 0, 1),
        Step::Ends("register new", 0, "devices 0\n"),
        Step::WasCalled(1, 1, 2),
        Step::Ends("enrol root register nothing", 7, "refused 20 0\n"),
        Step::WasCalled(4, 1, 3),
        Step::Holds("register", REGISTER),
        Step::Ends("register", 2, "words\n"),
        Step::Ends("register new new", 2, "words\n"),
        Step::Ends("register ", 2, "words\n"),
        Step::Ends("devices", 2, "words\n"),
        Step::Ends("devices register register", 2, "words\n"),
        Step::Ends("enrol root register", 2, "words\n"),
        Step::Ends("enrol root register nothing nothing", 2, "words\n"),
        Step::Ends("devices long", 3, "input register too long\n"),
        Step::Ends("devices missing", 4, "read failed register\n"),
        Step::Ends("devices nothing", 3, "input register at 0\n"),
        Step::Ends("enrol long register nothing", 3, "input root too long\n"),
        Step::Ends("enrol root long nothing", 3, "input register too long\n"),
        Step::Ends("enrol root register long", 3, "input chain too long\n"),
        Step::Ends("enrol missing register nothing", 4, "read failed root\n"),
        Step::Ends("enrol root missing nothing", 4, "read failed register\n"),
        Step::Ends("enrol root register missing", 4, "read failed chain\n"),
        Step::Ends("enrol nothing nothing missing", 3, "input root at 0\n"),
        Step::Ends("enrol root nothing missing", 3, "input register at 0\n"),
        Step::Writes("more", &[Part::File("register"), Part::Text("\0")]),
        Step::Ends("devices more", 3, "input register at 248\n"),
        Step::Ends("enrol root more missing", 3, "input register at 248\n"),
        Step::IsMissing("missing"),
        Step::Holds("register", REGISTER),
    ],
}];

/// A new register is written even if nothing can be printed.
const NOTHING_IS_PRINTED: &[Play] = &[Play {
    failing: &[1, 2],
    steps: &[
        Step::Ends("register new", 5, ""),
        Step::WasCalled(0, 1, 2),
        Step::Holds("new", "4d4246310000"),
    ],
}];

/// A register ends where fields begin.
const SHORT: &[ShortFile] = &[ShortFile {
    words: "devices register",
    name: "register",
    status: 3,
    told: Told::Offset("input register at"),
    offsets: REGISTER_FIELDS,
}];

const FIELDS_ARE_MISSING: &[Play] = &[Play {
    failing: &[],
    steps: &[Step::InputsAreShort(SHORT)],
}];

/// What stands after the serial of each device: no code, and one entry.
const A_ROW: [u8; 41] = [
    0, 0, 0, 0, 0, 0, 0, 0, 1, 7, 7, 7, 7, 7, 7, 7, 7, 7, 7, 7, 7, 7, 7, 7, 7, 7, 7, 7, 7, 7, 7, 7,
    7, 7, 7, 7, 7, 7, 7, 7, 7,
];

/// A register of as many devices as there can be.
fn full_register(alloc: Global) -> Result<Vec<u8>, Fail> {
    let mut register = Vec::from_slice(alloc, b"MBF1\x02\0")?;
    for number in 0..512u16 {
        register.extend_from_slice(&[0; 14])?;
        register.extend_from_slice(&number.to_be_bytes())?;
        register.extend_from_slice(&A_ROW)?;
    }
    Ok(register)
}

/// A device that is new is refused, and those that are there are shown.
const NO_ROOM: &[Step] = &[
    Step::Ends("chain keyless chain", 0, "entries 5\n"),
    Step::Ends("enrol public0 full chain", 7, "refused 32 full\n"),
    Step::Ends(
        "devices full",
        0,
        "devices 512\n\
        device 00000000000000000000000000000000 1 0 - - -\n\
        device 00000000000000000000000000000001 1 0 - - -\n\
        **\n",
    ),
];

#[test]
fn devices_are_enrolled(rt: HostRuntime) -> Result<(), Fail> {
    owned_device_goes_through(&rt, &[A_NEW_DEVICE, A_WHOLE_LIFE, EXTENDED_AND_OLDER])
}

#[test]
fn a_copy_is_not_enrolled(rt: HostRuntime) -> Result<(), Fail> {
    owned_device_goes_through(&rt, &[ANOTHER_DEVICE, A_COPY_IS_CAUGHT])
}

#[test]
fn inputs_of_enrolments_are_read(rt: HostRuntime) -> Result<(), Fail> {
    perform(&rt, FILES, INPUTS)?;
    perform(&rt, FILES, FIELDS_ARE_MISSING)?;
    perform(&rt, FILES, NOTHING_IS_PRINTED)
}

#[test]
fn a_register_is_full(rt: HostRuntime) -> Result<(), Fail> {
    let mut host = owned(&rt)?;
    store(&mut host, "full", &full_register(rt.alloc())?)?;
    go_on(&rt, &mut host, NO_ROOM)
}
