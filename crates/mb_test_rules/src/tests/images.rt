//! Images laid out byte by byte, as the tables of the formats say.

ghost use Rattle.std.specs.Prelude.{◌≡◌, ◌<◌};

use mb_image::{ImageEnd, stand_for};
use mb_lms::HashCount;
use mb_model::{FLASH_LENGTH, IMAGE_LENGTH, State};
use std::alloc::Global;
use std::marker::Brand;
use std::process::Abort;
use std::sync::ledger::{Blank, Ledger};
use std::test::Fail;

/// The root record of a new device after its length: version, flash area, serial, device key, uses, no pending work.
const ROOT: &str =
    "00440100000102030405060708090a0b0c0d0e0f415f9f8fc3e618dd8524180f3db6a7c9eb495b20b522240648df79d22ec304c592f6d73c19b49bf70f19f34f72888b1a0000";

/// The header of a new device: the code of layer 1 in slot 1, and one signed entry.
const HEADER: &str = "4d424831010000000300000000000000000000000100";

/// The code of layer 1, `abc`.
const CODE: &str = "616263";

/// The birth of a new device, after its length.
const BIRTH: &str = "00ab00000102030405060708090a0b0c0d0e0f\
0000000500000003415f9f8fc3e618dd8524180f3db6a7c9a7881c4ccb3521694cbdd14fd42b0822cdfb7c6f9fc531cab957f755e6a2d2bc\
07000000000500000003f5d541e6c1f5736fac8d67703916a7e43b6ec035344e351fe5527a7c1f6b590c34bc0a1eca4c29075b6155648ccc2b87\
ba7816bf8f01cfea414140de5dae2223b00361a396177a9cb410ff61f20015ad0000000100010001";

/// Where code begins in the flash.
const SLOTS: usize = 2 * 4096;

/// Where the log begins in the flash.
const LOG: usize = 64 * 4096;

/// Where the signature of the birth ends in the flash.
const SIGNED: usize = LOG + 2 + 171 + 2348;

/// Where the battery-backed memory has its first area.
const FIRST_AREA: usize = FLASH_LENGTH + 4096;

/// The pieces of an image: what each begins with, where it ends, and the byte up to there.
const PIECES: &[(&str, usize, u8)] = &[
    (HEADER, SLOTS, 0xff),
    (CODE, LOG, 0xff),
    (BIRTH, SIGNED, 0),
    ("", FLASH_LENGTH, 0xff),
    ("a5", FIRST_AREA, 0),
    (ROOT, IMAGE_LENGTH, 0),
];

/// The image of a new device, whose maker signed its birth with zeros.
fn new_device(alloc: Global) -> Result<Vec<u8>, Fail> {
    let mut image = Vec::new(alloc);
    for (text, end, byte) in PIECES {
        image.extend_from_slice(&hex::decode(alloc, text)?)?;
        image.resize(*end, *byte)?;
    }
    Ok(image)
}

/// How the image of a new device is changed.
#[derive(Clone, Copy)]
enum Change {
    Nothing,
    /// The last byte is missing.
    Shorter,
    /// The battery-backed memory is all zeros.
    Dead,
    /// The byte at this offset is this one.
    Byte(usize, u8),
}

fn apply(image: &mut Vec<u8>, change: Change) -> Result<(), Fail> {
    match change {
        Change::Nothing => {}
        Change::Shorter => image.truncate(IMAGE_LENGTH - 1),
        Change::Dead => {
            image.truncate(FLASH_LENGTH);
            image.resize(IMAGE_LENGTH, 0)?;
        }
        Change::Byte(at, byte) => {
            let place = image.get_mut(at).ok_or("no such byte")?;
            *place = byte;
        }
    }
    Ok(())
}

/// What an image means.
#[derive(Clone, Copy, PartialEq, Eq)]
enum Answer {
    /// The state of the new device.
    New,
    /// Another state.
    Other,
    /// A dead device.
    Dead,
    /// Nothing, for this reason.
    Fault(ImageEnd),
}

/// Whether the state has what the records of the new device say.
fn is_new(state: &State) -> bool {
    state.serial == [0, 1, 2, 3, 4, 5, 6, 7, 8, 9, 10, 11, 12, 13, 14, 15]
        && state.uses == 0
        && state.log.as_slice().len() == 1
        && state.layers.one.reliable
}

fn answer_counted<L: Ledger>(alloc: Global, image: &[u8], blank: Blank) -> Answer
    requires name { blank.name ≡ L.name }
    requires parts { blank.parts ≡ L.parts }
    requires some { 0 < blank.parts }
{
    match stand_for(alloc, image, &mut HashCount::<L>::begin(alloc, blank)) {
        Ok(Some(state)) if is_new(&state) => Answer::New,
        Ok(Some(_)) => Answer::Other,
        Ok(None) => Answer::Dead,
        Err(end) => Answer::Fault(end),
    }
}

/// The image of a new device, changed by `change`, means what is expected.
fn expect(rt: &impl Abort, alloc: Global, change: Change, expected: Answer) -> Result<(), Fail> {
    let mut image = new_device(alloc)?;
    apply(&mut image, change)?;
    assert!(rt; answer_counted::<Brand>(alloc, &image, Blank::new(1)) == expected);
    Ok(())
}

const IMAGES: &[(Change, Answer)] = &[
    (Change::Nothing, Answer::New),
    (Change::Shorter, Answer::Fault(ImageEnd::Length)),
    (Change::Dead, Answer::Dead),
    (
        Change::Byte(FLASH_LENGTH, 0xa4),
        Answer::Fault(ImageEnd::Root),
    ),
    (
        Change::Byte(FLASH_LENGTH + 4, 1),
        Answer::Fault(ImageEnd::Root),
    ),
    (
        Change::Byte(FIRST_AREA + 2, 2),
        Answer::Fault(ImageEnd::Root),
    ),
    // no header: another word, and an unsigned entry whose length is not allowed
    (Change::Byte(0, 0x4e), Answer::Fault(ImageEnd::Public)),
    (Change::Byte(21, 1), Answer::Fault(ImageEnd::Public)),
    // the second of two signed entries is missing, and the bytes of the birth begin like those of no entry
    (Change::Byte(20, 2), Answer::Fault(ImageEnd::Public)),
    (Change::Byte(LOG + 2, 9), Answer::Fault(ImageEnd::Public)),
    // the length before the birth is one too small
    (Change::Byte(LOG + 1, 0xaa), Answer::Fault(ImageEnd::Public)),
    // what follows counts for nothing: the rest of a header area, of a slot and of a sector, and the second header area
    (Change::Byte(22, 0), Answer::New),
    (Change::Byte(SLOTS - 1, 0), Answer::New),
    (Change::Byte(SLOTS + 3, 0), Answer::New),
    (Change::Byte(SIGNED, 0), Answer::New),
    (
        Change::Byte(FLASH_LENGTH + 12288, 0xff),
        Answer::Fault(ImageEnd::RegionTwo),
    ),
    (
        Change::Byte(FLASH_LENGTH + 20480, 0xff),
        Answer::Fault(ImageEnd::RegionThree),
    ),
    // other code, code in the empty slot, and less code
    (Change::Byte(SLOTS, 0x64), Answer::Fault(ImageEnd::State)),
    (Change::Byte(4, 2), Answer::Fault(ImageEnd::State)),
    (Change::Byte(8, 2), Answer::Fault(ImageEnd::State)),
];

#[test]
fn images_of_new_dead_and_faulty_devices(rt: HostRuntime) -> Result<(), Fail> {
    for (change, expected) in IMAGES {
        expect(&rt, rt.alloc(), *change, *expected)?;
    }
    Ok(())
}
