//! Orders that are read in pieces: in two, divided at every offset, and byte by byte.

ghost use Rattle.std.specs.Prelude.{◌≤◌, length};

use super::limits::{BODY, LARGEST_ORDER};
use super::orders::{ORDERS, is_written};
use super::spelled::joined;
use mb_command::{OrderEnd, OrderReader, read_order};
use std::alloc::Global;
use std::process::Abort;
use std::test::Fail;

/// The bytes, the first `body` of them the body, are read as an order from two pieces, divided at `cut`.
fn reads_in_two(
    rt: &impl Abort,
    alloc: Global,
    bytes: &[u8],
    body: usize,
    cut: usize,
) -> Result<(), Fail>
    requires { cut ≤ length bytes.now }
{
    let mut reader = OrderReader::new(alloc);
    reader.feed(&bytes[..cut])?;
    reader.feed(&bytes[cut..])?;
    let order = reader.finish(alloc)?;
    assert!(rt; is_written(alloc, &order, bytes, body) == Ok(true));
    Ok(())
}

/// The bytes are read as an order from two pieces, divided at every offset.
fn reads_at_every_cut(
    rt: &impl Abort,
    alloc: Global,
    body: &str,
    signatures: &str,
) -> Result<(), Fail> {
    let bytes = joined(alloc, &[(body, 1), (signatures, 1)])?;
    for cut in 0..bytes.len() {
        reads_in_two(rt, alloc, &bytes, body.len() / 2, cut)?;
    }
    reads_in_two(rt, alloc, &bytes, body.len() / 2, bytes.len())
}

#[test]
fn orders_are_read_from_two_pieces(rt: HostRuntime) -> Result<(), Fail> {
    for (body, signatures) in ORDERS {
        reads_at_every_cut(&rt, rt.alloc(), body, signatures)?;
    }
    Ok(())
}

#[test]
fn the_largest_order_is_read_from_two_pieces(rt: HostRuntime) -> Result<(), Fail> {
    let alloc = rt.alloc();
    let bytes = joined(alloc, LARGEST_ORDER)?;
    for i in 0..40usize {
        // one offset after another, far apart
        let cut = (i * 25_033) % (bytes.len() + 1);
        reads_in_two(&rt, alloc, &bytes, BODY, cut)?;
    }
    Ok(())
}

/// The bytes, the first `body` of them the body, are read as an order byte by byte.
fn reads_byte_by_byte(
    rt: &impl Abort,
    alloc: Global,
    pieces: &[(&str, usize)],
    body: usize,
) -> Result<(), Fail> {
    let bytes = joined(alloc, pieces)?;
    let mut reader = OrderReader::new(alloc);
    for byte in bytes.iter() {
        reader.feed(&[*byte])?;
    }
    let order = reader.finish(alloc)?;
    assert!(rt; is_written(alloc, &order, &bytes, body) == Ok(true));
    Ok(())
}

/// An order of 2,411 bytes: layer 2, no targets, an owner of types 5 and 3, trust always, and a signature.
const ESTABLISH_SIGNED: &[(&str, usize)] = &[
    ("0102000000000500000003", 1),
    ("31", 48),
    ("00092c", 1),
    ("a5", 2_348),
    ("00", 1),
];

#[test]
fn an_order_is_read_byte_by_byte(rt: HostRuntime) -> Result<(), Fail> {
    let bytes = joined(rt.alloc(), ESTABLISH_SIGNED)?;
    assert!(rt; bytes.len() == 2_411 && read_order(rt.alloc(), &bytes).is_ok());
    reads_byte_by_byte(&rt, rt.alloc(), ESTABLISH_SIGNED, 60)
}

#[test]
fn the_largest_order_is_read_byte_by_byte(rt: HostRuntime) -> Result<(), Fail> {
    reads_byte_by_byte(&rt, rt.alloc(), LARGEST_ORDER, BODY)
}

/// The bytes fail at offset `at` as soon as `known` of them have been fed, and each later call answers the same.
fn fails_after(
    rt: &impl Abort,
    alloc: Global,
    pieces: &[(&str, usize)],
    at: u32,
    known: usize,
) -> Result<(), Fail> {
    let bytes = joined(alloc, pieces)?;
    let mut reader = OrderReader::new(alloc);
    for i in 0..bytes.len() {
        let wanted = if i + 1 < known {
            Ok(())
        } else {
            Err(OrderEnd::Bad { at })
        };
        assert!(rt; reader.feed(&bytes[i..i + 1]) == wanted);
    }
    assert!(rt; matches!(reader.finish(alloc), Err(OrderEnd::Bad { at: found }) if found == at));
    Ok(())
}

/// Pieces of bytes that are no order, the offset at which they fail, and how many bytes show it.
const FAILING: &[(&[(&str, usize)], u32, usize)] = &[
    // the order of 2,411 bytes with byte 0 set to 9
    (&[("0902000000000500000003", 1), ("31", 48)], 0, 1),
    // no such kind, layer, number of targets, tag, kind of key
    (&[("0602", 1)], 0, 1),
    (&[("020100", 1)], 1, 2),
    (&[("020209", 1)], 2, 3),
    (&[("0202010500", 1)], 3, 4),
    (&[("05030002", 1)], 3, 4),
    // a layer of a target
    (&[("030201030022", 1)], 4, 5),
    // two trusts that are equal
    (&[("13030000000102000000000003616263", 1)], 8, 9),
    // a type number of a key: each of its bytes can show that it is too large, the last one that it is too small
    (&[("01030001000000", 1)], 3, 4),
    (&[("01030000010000", 1)], 3, 5),
    (&[("01030000000100", 1)], 3, 6),
    (&[("0103000000000a00", 1)], 3, 7),
    (&[("0103000000000400", 1)], 3, 7),
    (&[("0103000000000501000000", 1)], 7, 8),
    (&[("010300000000050000000500", 1)], 7, 11),
    (&[("010300000000050000000000", 1)], 7, 11),
    // a length of code above 32,768
    (&[("030300000001020001000000", 1)], 8, 9),
    (&[("030300000001020000010000", 1)], 8, 10),
    (&[("030300000001020000008100", 1)], 8, 11),
    (&[("030300000001020000008001", 1)], 8, 12),
    // a length of a signature above 9,324
    (&[("0202002500", 1)], 3, 4),
    (&[("020200246d", 1)], 3, 5),
    // a surrender has no countersignatures
    (&[("0202010200000007000001", 1)], 10, 11),
    // three are too many, and two leave layer 3 to the second
    (&[("03010000000000000000000000000300", 1)], 14, 15),
    (&[("030100000000000000000000000002030000", 1)], 15, 16),
    (&[("030100000000000000000000000002020000020000", 1)], 18, 19),
    // a byte after the last field
    (&[("0202010200000007000000ff00", 1)], 11, 12),
];

#[test]
fn a_failing_order_is_known_at_once(rt: HostRuntime) -> Result<(), Fail> {
    for (pieces, at, known) in FAILING {
        fails_after(&rt, rt.alloc(), pieces, *at, *known)?;
    }
    Ok(())
}

/// Pieces of bytes that begin an order, and the offset of the field that lacks bytes.
const BEGINNINGS: &[(&[(&str, usize)], u32)] = &[
    (&[("", 1)], 0),
    (&[("010300000000", 1)], 3),
    (&[("01030000000005000000", 1)], 7),
    (&[("0303000000010200000080", 1)], 8),
    (&[("02020024", 1)], 3),
    (&[("02020102000000", 1)], 4),
    (&[("02020102000000070002aa", 1)], 10),
];

/// The bytes can begin an order, and as a whole fail at the offset.
fn lacks_bytes(
    rt: &impl Abort,
    alloc: Global,
    pieces: &[(&str, usize)],
    at: u32,
) -> Result<(), Fail> {
    let bytes = joined(alloc, pieces)?;
    let mut reader = OrderReader::new(alloc);
    assert!(rt; reader.feed(&bytes) == Ok(()));
    assert!(rt; matches!(reader.finish(alloc), Err(OrderEnd::Bad { at: found }) if found == at));
    Ok(())
}

#[test]
fn the_beginning_of_an_order_is_no_order(rt: HostRuntime) -> Result<(), Fail> {
    for (pieces, at) in BEGINNINGS {
        lacks_bytes(&rt, rt.alloc(), pieces, *at)?;
    }
    Ok(())
}
