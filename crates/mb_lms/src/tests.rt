//! Keys and signatures that another program made.

use super::*;
use crate::parameters::{chain_count, height};
use crate::signature::{begun_text, has_form, root_from};
use hex::FromHex;
use mb_bytes::{chains_type, tree_type};
use mb_model::{Chains, PublicKey, Tree};
use sha2::Digest;
use std::alloc::Global;
use std::process::Abort;
use std::test::Fail;

mod heights;
mod widths;

/// A key, a text and a signature of the text under the key, in hexadecimal.
pub struct Vector {
    key: &'static str,
    text: &'static str,
    signature: &'static str,
}

/// Whether the signature is one of the text, which is handed over in two pieces.
fn verifies(key: &PublicKey, text: &[u8], sig: &[u8]) -> bool {
    let (head, body) = text.split_at(text.len() / 2);
    verify(key, head, body, sig)
}

/// Flips the lowest bit of the byte at an offset.
fn turn(rt: &impl Abort, bytes: &mut [u8], at: usize) {
    assert!(rt; at < bytes.len());
    bytes[at] ^= 1;
}

/// With one bit of the text flipped, the signature does not verify.
fn refuses_turned_text(rt: &impl Abort, key: &PublicKey, text: &mut [u8], sig: &[u8], at: usize) {
    turn(rt, text, at);
    assert!(rt; !verifies(key, text, sig), "the text turned at {at}");
    turn(rt, text, at);
}

/// With one of its own bits flipped, the signature does not verify.
fn refuses_turned_bit(rt: &impl Abort, key: &PublicKey, text: &[u8], sig: &mut [u8], at: usize) {
    turn(rt, sig, at);
    assert!(rt; !verifies(key, text, sig), "the signature turned at {at}");
    turn(rt, sig, at);
}

/// With one bit of q, of a type number, of C, of a chain value or of the path flipped, the signature does not verify.
fn refuses_turned_bits(rt: &impl Abort, key: &PublicKey, text: &[u8], sig: &mut [u8]) {
    let path_at = sig.len().saturating_sub(32 * height(key.tree) as usize);
    let last = sig.len().saturating_sub(1);
    for at in [3, 7, 8, 39, 40] {
        refuses_turned_bit(rt, key, text, sig, at);
    }
    for at in [
        path_at.saturating_sub(5),
        path_at.saturating_sub(1),
        path_at,
        last,
    ] {
        refuses_turned_bit(rt, key, text, sig, at);
    }
}

/// Without its last byte, without a node of the path, or with a byte more, the signature does not verify.
fn refuses_other_lengths(
    rt: &impl Abort,
    key: &PublicKey,
    text: &[u8],
    sig: &mut Vec<u8>,
) -> Result<(), Fail> {
    assert!(rt; sig.len() > 32);
    assert!(rt; !verifies(key, text, &sig[..sig.len() - 1]));
    assert!(rt; !verifies(key, text, &sig[..sig.len() - 32]));
    sig.push(0)?;
    assert!(rt; !verifies(key, text, sig));
    sig.pop();
    Ok(())
}

/// With a leaf beyond the tree, the signature does not verify.
fn refuses_leaf_beyond(rt: &impl Abort, key: &PublicKey, text: &[u8], sig: &mut [u8]) {
    assert!(rt; sig.len() > 4);
    let leaves: u32 = 1 << height(key.tree);
    sig[..4].copy_from_slice(&leaves.to_be_bytes());
    assert!(rt; !verifies(key, text, sig));
}

/// The key of these bytes in hexadecimal.
fn key_of(spelling: &str) -> Result<PublicKey, Fail> {
    let bytes = <[u8; 56] as FromHex>::from_hex(spelling)?;
    Ok(parse_key(&bytes).ok_or("a type is unknown")?)
}

/// The signature verifies, and does not if it or the text is changed.
fn expect_signature(rt: &impl Abort, alloc: Global, vector: &Vector) -> Result<(), Fail> {
    let key = key_of(vector.key)?;
    let mut text = hex::decode(alloc, vector.text)?;
    let mut sig = hex::decode(alloc, vector.signature)?;
    assert!(rt; verifies(&key, &text, &sig));
    refuses_turned_text(rt, &key, &mut text, &sig, 0);
    refuses_turned_text(rt, &key, &mut text, &sig, 1);
    refuses_turned_bits(rt, &key, &text, &mut sig);
    refuses_other_lengths(rt, &key, &text, &mut sig)?;
    assert!(rt; verifies(&key, &text, &sig));
    refuses_leaf_beyond(rt, &key, &text, &mut sig);
    Ok(())
}

fn expect_signatures(rt: &impl Abort, alloc: Global, vectors: &[Vector]) -> Result<(), Fail> {
    for vector in vectors {
        expect_signature(rt, alloc, vector)?;
    }
    Ok(())
}

/// The key that these bytes spell is written as the same bytes, and has this hash.
fn expect_key(rt: &impl Abort, spelling: &str, hash: &str) -> Result<(), Fail> {
    let key = key_of(spelling)?;
    assert_eq!(rt; key_bytes(&key), <[u8; 56] as FromHex>::from_hex(spelling)?);
    assert_eq!(rt; key_hash(&key), <[u8; 32] as FromHex>::from_hex(hash)?);
    Ok(())
}

#[test]
fn keys_are_spelled(rt: HostRuntime) -> Result<(), Fail> {
    expect_key(
        &rt,
        "0000000500000003415f9f8fc3e618dd8524180f3db6a7c9a7881c4ccb3521694cbdd14fd42b0822cdfb7c6f9fc531cab957\
        f755e6a2d2bc",
        "625b604768f314a52f400dd694db5bb7cc1c22fa47e38cf7f5c4f90ca5b84392",
    )?;
    expect_key(
        &rt,
        "0000000500000003f5d541e6c1f5736fac8d67703916a7e43b6ec035344e351fe5527a7c1f6b590c34bc0a1eca4c29075b61\
        55648ccc2b87",
        "4f6e9ff38c1bc427d7e117d76edf284a97cc41938a0dc9375856a06c06f87f9b",
    )?;
    expect_key(
        &rt,
        "000000050000000345e47fb59aa5a55f0f83d81c6d9de2ea40811d1aa53e467789ef706d859ed038b16e8bee901fca5c6f44\
        384e54216c13",
        "49e6608d17bba8898f8f2df5c085f98acb1ac5cc3271e86349b79f85699be1fb",
    )
}

/// Bytes in the form of a signature of these types: leaf 3, the type numbers, and otherwise arbitrary bytes.
fn any_signature(alloc: Global, tree: Tree, chains: Chains) -> Result<Vec<u8>, Fail> {
    let path_at = 44 + 32 * usize::from(chain_count(chains));
    let mut sig = Vec::new(alloc);
    sig.extend_from_slice(&3u32.to_be_bytes())?;
    sig.extend_from_slice(&chains_type(chains).to_be_bytes())?;
    for at in 8..path_at - 4 {
        sig.push((at % 251) as u8)?;
    }
    sig.extend_from_slice(&tree_type(tree).to_be_bytes())?;
    for at in 0..32 * height(tree) {
        sig.push((at % 241) as u8)?;
    }
    Ok(sig)
}

/// A signature of these types verifies under the root to which it leads. It does not with a leaf beyond the tree, with
/// another length, or without a node of the path.
fn expect_pair(rt: &impl Abort, alloc: Global, tree: Tree, chains: Chains) -> Result<(), Fail> {
    let mut key = PublicKey {
        tree,
        chains,
        identifier: [7; 16],
        root: [0; 32],
    };
    let mut sig = any_signature(alloc, tree, chains)?;
    assert!(rt; has_form(&key, &sig));
    let mut text = begun_text(&key, &sig);
    text.update(b"text");
    key.root = root_from(&key, &text.finalize(), &sig);
    assert!(rt; verifies(&key, b"text", &sig));
    refuses_other_lengths(rt, &key, b"text", &mut sig)?;
    refuses_leaf_beyond(rt, &key, b"text", &mut sig);
    Ok(())
}

fn expect_chains(rt: &impl Abort, alloc: Global, tree: Tree) -> Result<(), Fail> {
    expect_pair(rt, alloc, tree, Chains::W1)?;
    expect_pair(rt, alloc, tree, Chains::W2)?;
    expect_pair(rt, alloc, tree, Chains::W4)?;
    expect_pair(rt, alloc, tree, Chains::W8)
}

#[test]
fn all_pairs_of_types(rt: HostRuntime) -> Result<(), Fail> {
    let alloc = rt.alloc();
    expect_chains(&rt, alloc, Tree::H5)?;
    expect_chains(&rt, alloc, Tree::H10)?;
    expect_chains(&rt, alloc, Tree::H15)?;
    expect_chains(&rt, alloc, Tree::H20)?;
    expect_chains(&rt, alloc, Tree::H25)
}

/// The key of bytes with these type numbers, if there is one; the first of the bytes is `high`.
fn key_typed(high: u8, tree: u8, chains: u8) -> Option<PublicKey> {
    let mut bytes = [0; 56];
    bytes[0] = high;
    bytes[3] = tree;
    bytes[7] = chains;
    parse_key(&bytes)
}

/// The type numbers name these types.
fn are_types(tree: u8, chains: u8, like: (Tree, Chains)) -> bool {
    match key_typed(0, tree, chains) {
        Some(key) => key.tree == like.0 && key.chains == like.1,
        None => false,
    }
}

#[test]
fn types_are_those_of_the_tables(rt: HostRuntime) {
    assert!(rt; are_types(5, 1, (Tree::H5, Chains::W1)));
    assert!(rt; are_types(6, 2, (Tree::H10, Chains::W2)));
    assert!(rt; are_types(7, 3, (Tree::H15, Chains::W4)));
    assert!(rt; are_types(8, 4, (Tree::H20, Chains::W8)));
    assert!(rt; are_types(9, 1, (Tree::H25, Chains::W1)));
}

#[test]
fn other_types_are_unknown(rt: HostRuntime) {
    assert!(rt; key_typed(0, 4, 1).is_none());
    assert!(rt; key_typed(0, 10, 1).is_none());
    assert!(rt; key_typed(1, 5, 1).is_none());
    assert!(rt; key_typed(0, 5, 0).is_none());
    assert!(rt; key_typed(0, 5, 5).is_none());
    assert!(rt; key_typed(0, 0, 0).is_none());
}
