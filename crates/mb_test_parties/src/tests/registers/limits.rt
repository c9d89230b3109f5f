//! A full register, and the longest text of answers.

ghost use Rattle.std.specs.Prelude.{◌≤◌, length};
ghost use Rattle.mb_model.specs.declared.limits.TheConstants.{FILE_LIMIT};

use super::entries::{FIRST, FIRST_OF_OTHER, NEXT_TWO};
use super::runs::Ask::Show;
use super::runs::{Ask, ROOT, items_of};
use hex::FromHex;
use mb_bytes::{put_slice, put_u16, put_u32, read_public_key};
use mb_fleet::{DEVICE_LIMIT, Fleet, ServeEnd, TEXT_LIMIT, read_items, serve_items};
use mb_model::Bytes;
use std::alloc::Global;
use std::test::Fail;

/// The row of the device that shows `FIRST` and `NEXT_TWO`, made by another program.
const SHOWN: &str =
    "e77cff2486ff16314c9990f68ac68f9000000002017692c3ad3540bb803c020b3aee66cd8887123234ea0c6e7143c0add73f\
     f431ed01ba7816bf8f01cfea414140de5dae2223b00361a396177a9cb410ff61f20015ad0000039141fb7ffba5f026cad5e009be05f2b71176\
     d9b6d9bed4251481ac2edb3b2262add24b2d3823f611a3bb5391bfe2eda1c8928e33359b114d6ac44d07553fa1619de479e298b8dc612c961f\
     4b3075c4dc9e1518a4bc0f9794f871b1f22e2cd742";

/// A chain of another device, a shorter chain of this one, and the chain that it has shown.
const SHOWS: &[Ask] = &[
    Show(1, &[FIRST_OF_OTHER]),
    Show(1, &[FIRST]),
    Show(3, &[FIRST, NEXT_TWO]),
];

/// The answers to these chains.
const ANSWERS: &str = "refused 32 full\n\
    refused 31 older e77cff2486ff16314c9990f68ac68f90 3\n\
    same e77cff2486ff16314c9990f68ac68f90 3\n";

/// Appends the row of an invented device: its serial and the hash of its layer 1's code begin with this number.
fn put_made(out: &mut Vec<u8>, number: u32) -> Result<(), Fail> {
    put_u32(out, number)?;
    put_slice(out, &[0; 12])?;
    put_u32(out, 0)?;
    put_slice(out, &[1])?;
    put_u32(out, number)?;
    put_slice(out, &[0; 28])?;
    put_slice(out, &[0, 0])?;
    put_u16(out, 1)?;
    put_slice(out, &[7; 32])?;
    Ok(())
}

/// The bytes of a register of invented devices, and of the device that has shown three entries.
fn full_register(alloc: Global) -> Result<Vec<u8>, Fail> {
    let mut register = Vec::from_slice(alloc, b"MBF1")?;
    put_u16(&mut register, DEVICE_LIMIT)?;
    for number in 1..u32::from(DEVICE_LIMIT) {
        put_made(&mut register, number)?;
    }
    put_slice(&mut register, hex::decode(alloc, SHOWN)?.as_slice())?;
    Ok(register)
}

/// A full register.
fn full_fleet(alloc: Global) -> Result<Fleet, Fail> {
    let mut register = full_register(alloc)?;
    register.truncate(100_000);
    Ok(Fleet::read(alloc, register.as_slice())?)
}

/// What a full register answers to items.
fn serve_full(alloc: Global, items: &[u8]) -> Result<Result<Bytes, ServeEnd>, Fail>
    requires { length items.now ≤ FILE_LIMIT }
{
    let root = read_public_key(&<[u8; 56] as FromHex>::from_hex(ROOT)?)?;
    let mut fleet = full_fleet(alloc)?;
    let items = read_items(alloc, items)?;
    Ok(serve_items(alloc, &mut fleet, &root, items.as_slice()))
}

#[test]
fn a_full_register_takes_no_new_device(rt: HostRuntime) -> Result<(), Fail> {
    let items = items_of(rt.alloc(), SHOWS)?;
    let text = serve_full(rt.alloc(), items.as_slice())??;
    assert!(rt; text.as_slice() == ANSWERS.as_bytes());
    Ok(())
}

/// 512 codes make 36,874 bytes of text.
#[test]
fn a_full_register_tells_all_codes(rt: HostRuntime) -> Result<(), Fail> {
    let text = serve_full(rt.alloc(), &[3, 1, 3, 2])??;
    assert!(rt; text.as_slice().len() == 36_874 + 80);
    Ok(())
}

/// Appends a question for the codes of a layer this many times.
fn ask_codes(out: &mut Vec<u8>, layer: u8, times: u32) -> Result<(), Fail> {
    for _i in 0..times {
        put_slice(out, &[3, layer])?;
    }
    Ok(())
}

/// What a full register answers to 7,276 questions for its codes of layer 1, which make 268,295,224 bytes of text, and
/// to `empty` questions for those of layer 3, where it has none: 8 bytes each.
fn serve_long(alloc: Global, empty: u32) -> Result<Result<Bytes, ServeEnd>, Fail> {
    let mut items = Vec::new(alloc);
    ask_codes(&mut items, 1, 7_276)?;
    ask_codes(&mut items, 3, empty)?;
    items.truncate(100_000);
    serve_full(alloc, items.as_slice())
}

#[test]
fn the_longest_text_is_given(rt: HostRuntime) -> Result<(), Fail> {
    let text = serve_long(rt.alloc(), 17_529)??;
    assert!(rt; text.as_slice().len() == TEXT_LIMIT);
    Ok(())
}

#[test]
fn a_longer_text_is_too_long(rt: HostRuntime) -> Result<(), Fail> {
    let end = serve_long(rt.alloc(), 17_530)?.err();
    assert_eq!(rt; end, Some(ServeEnd::TooLong));
    Ok(())
}
