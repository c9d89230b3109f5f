//! What is seen of a host. Each call fails if it is not so.

use crate::files::{file_of, slice};
use mb_host::MemoryHost;
use mb_model::SECTOR_LENGTH;
use sha2::{Digest, Sha256};
use std::alloc::Global;
use std::fmt::Display;
use std::test::Fail;

/// Fails with this message unless the condition holds.
pub(crate) fn expect<D: Display + Drop>(holds: bool, message: D) -> Result<(), Fail> {
    if holds {
        Ok(())
    } else {
        Err(Fail::new(message))
    }
}

/// The files of these names have the same bytes.
pub(crate) fn file_matches(host: &MemoryHost, name: &str, other: &str) -> Result<(), Fail> {
    let is_same = file_of(host, name)? == file_of(host, other)?;
    expect(is_same, format_args!("{name} is not {other}"))
}

/// The flashes of the images of these names differ in these sectors, and in no other.
pub(crate) fn touches(
    host: &MemoryHost,
    name: &str,
    other: &str,
    sectors: &[usize],
) -> Result<(), Fail> {
    for number in 0..256 {
        let is_touched = sector_of(host, name, number)? != sector_of(host, other, number)?;
        let is_right = is_touched == sectors.contains(&number);
        expect(is_right, format_args!("sector {number} of {name}"))?;
    }
    Ok(())
}

/// A sector of the image of this name, by its number.
fn sector_of<'a>(host: &'a MemoryHost, name: &str, number: usize) -> Result<&'a [u8], Fail> {
    let from = SECTOR_LENGTH * number.min(255);
    slice(file_of(host, name)?, from, from + SECTOR_LENGTH)
}

/// Summaries were printed, and each names the hash of the file of this name.
pub(crate) fn is_summarised(alloc: Global, host: &MemoryHost, name: &str) -> Result<(), Fail> {
    let mut is_told = false;
    for line in host.printed().split(|byte| *byte == b'\n') {
        if let Some(hash) = line.strip_prefix(b"image ") {
            hash_is(alloc, name, file_of(host, name)?, str::from_utf8(hash)?)?;
            is_told = true;
        }
    }
    expect(is_told, format_args!("no summary of {name}"))
}

/// The file of this name ends in `count` zeros.
pub(crate) fn ends_in_zeros(host: &MemoryHost, name: &str, count: usize) -> Result<(), Fail> {
    let bytes = file_of(host, name)?;
    let end = bytes
        .get(bytes.len().saturating_sub(count)..)
        .unwrap_or_default();
    let is_right = end.len() == count && end.iter().all(|byte| *byte == 0);
    expect(is_right, format_args!("the end of {name}"))
}

/// The host was called for these numbers of reads, writes and prints.
pub(crate) fn was_called(host: &MemoryHost, calls: [u64; 3]) -> Result<(), Fail> {
    let [reads, writes, prints] = [host.reads(), host.writes(), host.prints()];
    let is_right = [reads, writes, prints] == calls;
    expect(
        is_right,
        format_args!("{reads} reads, {writes} writes and {prints} prints"),
    )
}

pub(crate) fn is_missing(host: &MemoryHost, name: &str) -> Result<(), Fail> {
    let is_right = host.file(name).is_none();
    expect(is_right, format_args!("{name} is there"))
}

/// The file of this name has these bytes, given in hexadecimal.
pub(crate) fn file_is(
    alloc: Global,
    host: &MemoryHost,
    name: &str,
    bytes: &str,
) -> Result<(), Fail> {
    let found = hex::encode(alloc, file_of(host, name)?)?;
    expect(
        found.as_str() == bytes,
        format_args!("{name} holds {found}"),
    )
}

/// The bytes of the file of this name have this hash, given in hexadecimal.
pub(crate) fn hash_is(alloc: Global, name: &str, bytes: &[u8], hash: &str) -> Result<(), Fail> {
    let mut hasher = Sha256::new();
    hasher.update(bytes);
    let found = hex::encode(alloc, hasher.finalize())?;
    expect(
        found.as_str() == hash,
        format_args!("{name} has the hash {found}"),
    )
}

/// The file of this name is the line of an order whose bytes have this hash.
pub(crate) fn order_is(
    alloc: Global,
    host: &MemoryHost,
    name: &str,
    hash: &str,
) -> Result<(), Fail> {
    let line = file_of(host, name)?
        .strip_prefix(b"command ")
        .ok_or("no order")?;
    let word = line.strip_suffix(b"\n").ok_or("no line")?;
    let order = hex::decode(alloc, word)?;
    hash_is(alloc, name, &order, hash)
}
