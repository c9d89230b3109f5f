//! Bytes that spell nothing, and the offset at which each fails.

ghost use Rattle.std.specs.Prelude.{◌≤◌, length};

use super::spelled::joined;
use super::statements::{ASKED, FIRST};
use super::{trusts, vectors};
use mb_bytes::Cursor;
use mb_cert::{ChainEnd, read_chain, read_statement};
use mb_command::{OrderEnd, read_order};
use mb_layout::{BadRecord, ReadEnd, read_entry, read_layer, region_of_bytes, root_of_bytes};
use std::alloc::Global;
use std::process::Abort;
use std::test::Fail;

/// What bytes are read as.
#[derive(Clone, Copy)]
enum Form {
    /// A layer of an entry of version 1.
    OldLayer,
    /// A layer of an entry of version 2.
    Layer,
    Entry,
    Root,
    Region,
    Order,
    Chain,
    Statement,
}

/// The offset at which the bytes fail, if they are not of the form.
fn failing_place(alloc: Global, form: Form, bytes: &[u8]) -> Option<u32>
    requires { length bytes.now ≤ 100000 }
{
    match form {
        Form::OldLayer => match read_layer(&mut Cursor::new(bytes), 1) {
            Err(BadRecord { at }) => Some(at),
            Ok(_) => None,
        },
        Form::Layer => match read_layer(&mut Cursor::new(bytes), 2) {
            Err(BadRecord { at }) => Some(at),
            Ok(_) => None,
        },
        Form::Entry => match read_entry(&mut Cursor::new(bytes)) {
            Err(BadRecord { at }) => Some(at),
            Ok(_) => None,
        },
        Form::Root => match root_of_bytes(bytes) {
            Err(BadRecord { at }) => Some(at),
            Ok(_) => None,
        },
        Form::Region => match region_of_bytes(alloc, bytes) {
            Err(ReadEnd::Bad { at }) => Some(at),
            _ => None,
        },
        Form::Order => match read_order(alloc, bytes) {
            Err(OrderEnd::Bad { at }) => Some(at),
            _ => None,
        },
        Form::Chain => match read_chain(alloc, bytes) {
            Err(ChainEnd::Bad { at }) => Some(at),
            _ => None,
        },
        Form::Statement => match read_statement(alloc, bytes) {
            Err(ChainEnd::Bad { at }) => Some(at),
            _ => None,
        },
    }
}

/// The bytes of the pieces fail at offset `at`.
fn fails(
    rt: &impl Abort,
    alloc: Global,
    form: Form,
    pieces: &[(&str, usize)],
    at: u32,
) -> Result<(), Fail> {
    let bytes = joined(alloc, pieces)?;
    assert_eq!(rt; failing_place(alloc, form, &bytes), Some(at));
    Ok(())
}

/// The word of a chain, and the number of one entry.
const ONE: (&str, usize) = ("4d4243310001", 1);

/// A birth, and its signature.
const BIRTH: (&str, usize) = (vectors::BIRTH, 1);

const SIGNATURE: (&str, usize) = ("61", 2_348);

/// Pieces of bytes that are no layer, entry, root or region, and the offset at which they fail.
const RECORDS: &[(Form, &[(&str, usize)], u32)] = &[
    // a layer without an owner never trusts
    (Form::OldLayer, &[("0000", 1)], 1),
    (Form::Layer, &[("000001", 1)], 1),
    (Form::Layer, &[("000202", 1)], 1),
    (Form::Layer, &[("000100", 1)], 2),
    (Form::Layer, &[("000102", 1)], 2),
    // no such trust, and none
    (Form::Layer, &[("010300", 1)], 1),
    (Form::Layer, &[("010003", 1)], 2),
    (Form::Layer, &[("0001", 1)], 2),
    // no such layer
    (Form::OldLayer, &[("0200", 1)], 0),
    (Form::Layer, &[("020000", 1)], 0),
    (Form::Entry, &[(trusts::SECOND_TRUST_MISSING, 1)], 173),
    (Form::Entry, &[(trusts::NO_SUCH_VERSION, 1)], 0),
    (Form::Entry, &[(trusts::NO_SUCH_SECOND_TRUST, 1)], 15),
    (Form::Entry, &[(trusts::TWO_TRUSTS_IN_VERSION_ONE, 1)], 15),
    (Form::Entry, &[("0f", 1)], 0),
    (Form::Entry, &[(vectors::LAYER_TRUST_MISSING, 1)], 170),
    (Form::Entry, &[(vectors::NO_SUCH_ENTRY, 1)], 0),
    (Form::Entry, &[(vectors::NO_SUCH_CHANGE, 1)], 9),
    (Form::Entry, &[(vectors::CODE_WITHOUT_OWNER, 1)], 13),
    (Form::Root, &[(vectors::NO_SUCH_AREA, 1)], 1),
    (Form::Root, &[(vectors::USES_BEYOND_32, 1)], 66),
    (Form::Root, &[(vectors::THREE_UNSIGNED, 1)], 68),
    (Form::Root, &[(vectors::KEY_CUT_SHORT, 1)], 174),
    (Form::Region, &[(vectors::NEITHER_SECRET_NOR_KEY, 1)], 2),
    (Form::Region, &[("020000", 1)], 2),
    (Form::Region, &[(vectors::SEVENTEEN_SECRETS, 1)], 1),
    (Form::Region, &[(vectors::TWENTY_THREE_SECRETS, 1)], 1),
    (Form::Region, &[(vectors::NAME_WITH_A_SPACE, 1)], 3),
    (Form::Region, &[(vectors::NO_SUCH_VERSION, 1)], 0),
    (Form::Region, &[(vectors::BYTE_LEFT_OVER, 1)], 131),
];

/// Pieces of bytes that are no order, and the offset at which they fail.
const ORDERS: &[(Form, &[(&str, usize)], u32)] = &[
    // a surrender has no countersignatures
    (Form::Order, &[("0202010200000007000001", 1)], 10),
    // no field is left, and a byte is
    (Form::Order, &[("0202010200000007000000ff", 1)], 11),
    // a field lacks bytes
    (Form::Order, &[("", 1)], 0),
    (Form::Order, &[("02020102000000", 1)], 4),
    (Form::Order, &[("02020102000000070002aa", 1)], 10),
    // no such kind, layer, number of targets, tag, kind of key
    (Form::Order, &[("0602", 1)], 0),
    (Form::Order, &[("0201", 1)], 1),
    (Form::Order, &[("020209", 1)], 2),
    (Form::Order, &[("02020105", 1)], 3),
    (Form::Order, &[("05030002", 1)], 3),
    // two trusts that are equal, and no such second trust
    (Form::Order, &[("13030000000102000000000003616263", 1)], 8),
    (Form::Order, &[("13030000000102000300000003616263", 1)], 8),
    (
        Form::Order,
        &[
            ("110300", 1),
            ("0000000500000003", 1),
            ("31", 48),
            ("0000", 1),
        ],
        60,
    ),
    (
        Form::Order,
        &[("14020102000000070000000102020000000000", 1)],
        13,
    ),
    // no such kind with two trusts
    (Form::Order, &[("1002", 1)], 0),
    (Form::Order, &[("1202", 1)], 0),
    (Form::Order, &[("1502", 1)], 0),
    // two countersignatures for layer 1 are of 2 and of 3
    (
        Form::Order,
        &[("030100000000000000000000000002030000", 1)],
        15,
    ),
    (
        Form::Order,
        &[("030100000000000000000000000002020000020000", 1)],
        18,
    ),
    // three are too many
    (Form::Order, &[("030100000000000000000000000003", 1)], 14),
    // the order's own layer
    (
        Form::Order,
        &[("030200000000000000000000000001020000", 1)],
        15,
    ),
    // none stands above layer 3
    (Form::Order, &[("030300000000000000000000000001", 1)], 14),
];

/// Pieces of bytes that are no chain or statement, and the offset at which they fail.
const CHAINS: &[(Form, &[(&str, usize)], u32)] = &[
    (Form::Chain, &[("4d4243", 1)], 0),
    (Form::Chain, &[("4d42434b0001", 1)], 0),
    (Form::Chain, &[("4d42433100", 1)], 4),
    (Form::Chain, &[("4d4243310000", 1)], 4),
    (Form::Chain, &[("4d4243310081", 1)], 4),
    (Form::Chain, &[ONE, ("04", 1)], 6),
    (Form::Chain, &[ONE, BIRTH, ("61", 2_347)], 177),
    (Form::Chain, &[ONE, BIRTH, SIGNATURE], 2_525),
    (Form::Chain, &[ONE, BIRTH, SIGNATURE, ("02", 1)], 2_525),
    (
        Form::Chain,
        &[ONE, BIRTH, SIGNATURE, ("01", 1), FIRST],
        2_536,
    ),
    (Form::Chain, &[ONE, BIRTH, SIGNATURE, ("0000", 1)], 2_526),
    (
        Form::Chain,
        &[("4d4243310002", 1), BIRTH, SIGNATURE, ("04", 1)],
        2_525,
    ),
    (Form::Statement, &[("000000", 1)], 0),
    (Form::Statement, &[("0000000582", 1)], 4),
    (Form::Statement, &[FIRST], 10),
    (Form::Statement, &[FIRST, ("63", 2_349)], 2_358),
    (Form::Statement, &[("0000000580", 1), ("63", 2_475)], 133),
    (Form::Statement, &[("0000000581", 1)], 5),
    (Form::Statement, &[("0000000581", 1), ("11", 31)], 5),
    (Form::Statement, &[ASKED], 37),
    (Form::Statement, &[ASKED, ("8163", 1)], 37),
    (Form::Statement, &[ASKED, ("03", 1), ("63", 2)], 38),
    (Form::Statement, &[ASKED, ("03", 1), ("63", 2_350)], 41),
    (Form::Statement, &[ASKED, ("00", 1), ("63", 2_349)], 2_386),
];

#[test]
fn records_fail_at_their_places(rt: HostRuntime) -> Result<(), Fail> {
    for (form, pieces, at) in RECORDS {
        fails(&rt, rt.alloc(), *form, pieces, *at)?;
    }
    Ok(())
}

#[test]
fn orders_fail_at_their_places(rt: HostRuntime) -> Result<(), Fail> {
    for (form, pieces, at) in ORDERS {
        fails(&rt, rt.alloc(), *form, pieces, *at)?;
    }
    Ok(())
}

#[test]
fn chains_fail_at_their_places(rt: HostRuntime) -> Result<(), Fail> {
    for (form, pieces, at) in CHAINS {
        fails(&rt, rt.alloc(), *form, pieces, *at)?;
    }
    Ok(())
}
