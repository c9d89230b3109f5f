//! Orders drafted, signed and countersigned, against values of another program.

ghost use Rattle.std.specs.Prelude.{◌≡◌, ◌<◌, ◌≤◌, IfSome, OnOk, OnErr, IsTrue};
ghost use Rattle.mb_model.specs.owners.Layers.{is_upper};
ghost use Rattle.mb_model.specs.records.OrderFormat.{order_format};

use super::order_lines::hand_on;
use hex::FromHex;
use mb_command::{body_length, write_order};
use mb_lms::HashCount;
use mb_model::{Keyfile, NoMemory, Order};
use mb_officer::{SignEnd, countersign, make_key, read_draft, sign_order};
use sha2::{Digest, Sha256};
use std::alloc::Global;
use std::marker::Brand;
use std::sync::ledger::{Blank, Ledger};

/// The noise from which the key of the owner in charge is made.
const SIGNER: &str = "000102030405060708090a0b0c0d0e0f101112131415161718191a1b1c1d1e1f";

/// The noise from which the key of another owner is made.
const COUNTERSIGNER: &str = "0102030405060708090a0b0c0d0e0f101112131415161718191a1b1c1d1e1f20";

/// The key that is made from this noise, in hexadecimal.
fn key_of(noise: &str) -> Option<Keyfile>
    ensures { IfSome result (λ key. key.next ≡ 0) }
{
    match <[u8; 32] as FromHex>::from_hex(noise) {
        Ok(noise) => Some(make_key(&noise)),
        Err(_) => None,
    }
}

/// Signs the order, with the hashes on a count of their own.
fn signed_counted<L: Ledger>(
    alloc: Global,
    k: &mut Keyfile,
    order: &mut Order,
    blank: Blank,
) -> Result<u32, SignEnd>
    requires spelled { order_format.Allowed order.old }
    requires name { blank.name ≡ L.name }
    requires parts { blank.parts ≡ L.parts }
    requires some { 0 < blank.parts }
    ensures spelled { OnOk result (order_format.Allowed order.new) }
    ensures unchanged { OnErr result ((k.new ≡ k.old) × (order.new ≡ order.old)) }
{
    sign_order(alloc, k, order, &mut HashCount::<L>::begin(alloc, blank))
}

/// Countersigns the order, with the hashes on a count of their own.
fn countersigned_counted<L: Ledger>(
    alloc: Global,
    k: &mut Keyfile,
    layer: u8,
    order: &mut Order,
    blank: Blank,
) -> Result<u32, SignEnd>
    requires spelled { order_format.Allowed order.old }
    requires layer { IsTrue (is_upper layer) }
    requires name { blank.name ≡ L.name }
    requires parts { blank.parts ≡ L.parts }
    requires some { 0 < blank.parts }
    ensures spelled { OnOk result (order_format.Allowed order.new) }
{
    countersign(
        alloc,
        k,
        layer,
        order,
        &mut HashCount::<L>::begin(alloc, blank),
    )
}

/// The bytes of the order.
fn bytes_of(alloc: Global, order: &Order) -> Result<Vec<u8>, NoMemory>
    requires { order_format.Allowed order.now }
{
    let mut bytes = Vec::new(alloc);
    write_order(order, &mut bytes)?;
    Ok(bytes)
}

/// Whether the order has this body.
fn has_body(alloc: Global, order: &Order, body: &str) -> bool
    requires { order_format.Allowed order.now }
{
    match (bytes_of(alloc, order), hex::decode(alloc, body)) {
        (Ok(mut bytes), Ok(body)) => {
            bytes.truncate(body_length(order) as usize);
            bytes.as_slice() == body.as_slice()
        }
        _ => false,
    }
}

/// Whether the bytes of the order have this hash.
fn has_hash(alloc: Global, order: &Order, hash: &str) -> bool
    requires { order_format.Allowed order.now }
{
    match bytes_of(alloc, order) {
        Ok(bytes) => <[u8; 32] as FromHex>::from_hex(hash) == Ok(Sha256::digest(bytes.as_slice())),
        Err(_) => false,
    }
}

/// The order of the draft, if it says one.
pub fn order_of(alloc: Global, draft: &[u8]) -> Option<Order>
    ensures { IfSome result (λ order. order_format.Allowed order) }
{
    if draft.len() > 4_194_304 {
        return None;
    }
    read_draft(alloc, draft).ok()
}

/// The order of the draft, if it has this body.
fn drafted(alloc: Global, draft: &[u8], body: &str) -> Option<Order>
    ensures { IfSome result (λ order. order_format.Allowed order) }
{
    let order = order_of(alloc, draft)?;
    if !has_body(alloc, &order, body) {
        return None;
    }
    Some(order)
}

/// Signs the order with a new key, and answers whether that used index 0.
pub fn is_signed(alloc: Global, order: &mut Order) -> bool
    requires { order_format.Allowed order.old }
    ensures { IsTrue result → order_format.Allowed order.new }
{
    match key_of(SIGNER) {
        Some(mut key) => match signed_counted::<Brand>(alloc, &mut key, order, Blank::new(1)) {
            Ok(index) => index == 0 && key.next.number() == 1,
            Err(_) => false,
        },
        None => false,
    }
}

/// Signs the order, and answers whether it then has this hash, and the order read from its line has it too. Without a
/// hash, the order is not signed.
fn signs(alloc: Global, order: &mut Order, hash: Option<&str>) -> bool
    requires { order_format.Allowed order.old }
    ensures { IsTrue result → order_format.Allowed order.new }
{
    match hash {
        Some(hash) => {
            is_signed(alloc, order)
                && has_hash(alloc, order, hash)
                && hand_on(alloc, order)
                && has_hash(alloc, order, hash)
        }
        None => true,
    }
}

/// Countersigns the order as the owner of layer 3, and answers whether that used index 0 and the order has this hash.
fn countersigns(alloc: Global, order: &mut Order, hash: &str) -> bool
    requires { order_format.Allowed order.old }
{
    match key_of(COUNTERSIGNER) {
        Some(mut key) => {
            match countersigned_counted::<Brand>(alloc, &mut key, 3, order, Blank::new(1)) {
                Ok(index) => index == 0 && has_hash(alloc, order, hash),
                Err(_) => false,
            }
        }
        None => false,
    }
}

/// A draft and the body of its order; and the hash of the order once it is signed, and once it is countersigned too, if
/// it is.
struct Row {
    draft: &'static str,
    body: &'static str,
    signed: Option<&'static str>,
    countersigned: Option<&'static str>,
}

/// What is wrong with the order of the draft, or nothing.
fn fault_of(alloc: Global, row: &Row) -> &'static str {
    let Some(mut order) = drafted(alloc, row.draft.as_bytes(), row.body) else {
        return "the body of its order";
    };
    if !signs(alloc, &mut order, row.signed) {
        return "its signed order";
    }
    match row.countersigned {
        Some(hash) if !countersigns(alloc, &mut order, hash) => "its countersigned order",
        _ => "",
    }
}

/// Drafts with one trust or with two. Two equal words mean the same as one.
const ROWS: &[Row] = &[
    Row {
        draft: "order emergency 2\n\
            target owner 1 1111111111111111111111111111111111111111111111111111111111111111\n\
            target code 3 2222222222222222222222222222222222222222222222222222222222222222\n\
            version 4294967295\ntrust always\ncode 00ff\n",
        body: "0402020301111111111111111111111111111111111111111111111111111111111111111104032222222222222222222222\
            222222222222222222222222222222222222222222ffffffff000000000200ff",
        signed: Some("4d05e04686380b6984de41c0bfe498f00946d35f8dc7c76df9a57e66591640cd"),
        countersigned: Some("3e43471b11adc07980d95f8e2d91906a2a6b2b2fb46b900fc9f65e9d7877aee9"),
    },
    Row {
        draft: "order establish 3\n\
            owner 0000000500000003313131313131313131313131313131313232323232323232323232323232323232323232323232323232323232323232\n\
            trust always never\n",
        body: "110300000000050000000331313131313131313131313131313131323232323232323232323232323232323232323232323232\
            32323232323232320001",
        signed: None,
        countersigned: None,
    },
    Row {
        draft: "order load 3\nversion 258\ntrust always never\ncode 616263\n",
        body: "13030000000102000100000003616263",
        signed: Some("f008ead89a3683f44149961b1f95137573d9654244585829c452e80afb27b923"),
        countersigned: None,
    },
    Row {
        draft: "order emergency 2\ntarget length 7\nversion 1\ntrust countersigned always\ncode -\n",
        body: "140201020000000700000001020000000000",
        signed: None,
        countersigned: None,
    },
    Row {
        draft: "order load 1\nversion 2\ntrust never never\ncode 00\n",
        body: "03010000000002010000000100",
        signed: None,
        countersigned: None,
    },
    Row {
        draft: "order load 1\nversion 2\ntrust never\ncode 00\n",
        body: "03010000000002010000000100",
        signed: None,
        countersigned: None,
    },
];

#[test]
fn drafts_are_signed_and_countersigned(rt: HostRuntime) {
    for row in ROWS {
        let fault = fault_of(rt.alloc(), row);
        assert!(rt; fault.is_empty(), "{fault}: {}", row.draft);
    }
}
