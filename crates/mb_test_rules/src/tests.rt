//! Orders, logs, chains, images and a board, each with its answers.

use hex::FromHex;
use mb_lms::parse_key;
use mb_model::PublicKey;
use std::alloc::Global;
use std::test::Fail;

mod authority;
mod boards;
mod chains;
mod images;
mod judging;
mod logs;
mod signed;
mod statements;
mod versions;

/// The bytes of these parts, one part after another.
fn joined(alloc: Global, parts: &[&str]) -> Result<Vec<u8>, Fail> {
    let mut bytes = Vec::new(alloc);
    for part in parts {
        bytes.extend_from_slice(&hex::decode(alloc, part)?)?;
    }
    Ok(bytes)
}

/// The public key that this text spells.
fn public_key(text: &str) -> Result<PublicKey, Fail> {
    Ok(parse_key(&<[u8; 56] as FromHex>::from_hex(text)?).ok_or("no public key")?)
}
