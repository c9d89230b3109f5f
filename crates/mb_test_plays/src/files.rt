//! The files of a host: given, written of parts, and read.

use crate::step::{Content, Given, Part};
use mb_host::{Host, MemoryHost};
use mb_model::{Bytes, Calls, File, Files};
use std::alloc::Global;
use std::test::Fail;

/// A host with these files, whose calls of these numbers fail.
pub fn host_with(alloc: Global, given: &[Given], failing: &[u64]) -> Result<MemoryHost, Fail> {
    let mut files = Files::new(alloc);
    for file in given {
        files.push(File {
            name: Bytes::copy(alloc, file.name.as_bytes())?,
            bytes: Bytes::from_vec(bytes_of(alloc, &file.content)?),
        })?;
    }
    host_of(alloc, files, failing)
}

/// A host with the files of the words, whose calls of these numbers fail.
pub(crate) fn host_like(
    alloc: Global,
    host: &MemoryHost,
    words: &str,
    failing: &[u64],
) -> Result<MemoryHost, Fail> {
    let mut files = Files::new(alloc);
    for name in words.split(' ') {
        if let Some(bytes) = host.file(name) {
            files.push(File {
                name: Bytes::copy(alloc, name.as_bytes())?,
                bytes: Bytes::copy(alloc, bytes)?,
            })?;
        }
    }
    host_of(alloc, files, failing)
}

fn host_of(alloc: Global, files: Files, failing: &[u64]) -> Result<MemoryHost, Fail> {
    let failing = Calls::from_vec(Vec::from_slice(alloc, failing)?);
    Ok(MemoryHost::new(alloc, files, failing)?)
}

pub(crate) fn bytes_of(alloc: Global, content: &Content) -> Result<Vec<u8>, Fail> {
    match content {
        Content::Hex(bytes) => Ok(hex::decode(alloc, bytes)?),
        Content::Text(text) => Ok(Vec::from_slice(alloc, text.as_bytes())?),
        Content::Pieces(pieces) => joined(alloc, pieces),
        Content::Laid(pieces) => laid(alloc, pieces),
        Content::Sevens(length) => filled(Vec::new(alloc), *length, 7),
        Content::Digits(length) => filled(Vec::new(alloc), *length, b'7'),
        Content::Repeats(text, count) => repeated(alloc, text, *count),
    }
}

/// The text of these pieces.
fn joined(alloc: Global, pieces: &[&str]) -> Result<Vec<u8>, Fail> {
    let mut text = Vec::new(alloc);
    for piece in pieces {
        text.extend_from_slice(piece.as_bytes())?;
    }
    Ok(text)
}

/// What the pieces lay out: their bytes, and then a byte up to the end of each.
fn laid(alloc: Global, pieces: &[(&str, usize, u8)]) -> Result<Vec<u8>, Fail> {
    let mut bytes = Vec::new(alloc);
    for (text, end, byte) in pieces {
        bytes.extend_from_slice(&hex::decode(alloc, text)?)?;
        bytes.resize(*end, *byte)?;
    }
    Ok(bytes)
}

/// The text, `count` times.
fn repeated(alloc: Global, text: &str, count: usize) -> Result<Vec<u8>, Fail> {
    let mut bytes = Vec::new(alloc);
    for _ in 0..count {
        bytes.extend_from_slice(text.as_bytes())?;
    }
    Ok(bytes)
}

/// These bytes, and then this byte up to the length.
pub(crate) fn filled(mut bytes: Vec<u8>, length: usize, byte: u8) -> Result<Vec<u8>, Fail> {
    bytes.resize(length, byte)?;
    Ok(bytes)
}

/// Writes the file of this name, made of these parts.
pub fn write(alloc: Global, host: &mut MemoryHost, name: &str, parts: &[Part]) -> Result<(), Fail> {
    let content = content_of(alloc, host, parts)?;
    store(host, name, &content)
}

/// Makes these bytes the file of this name.
pub fn store(host: &mut MemoryHost, name: &str, bytes: &[u8]) -> Result<(), Fail> {
    Ok(host.write(name, bytes).map_err(|_| "no room for a file")?)
}

/// The parts, one after another.
pub(crate) fn content_of(
    alloc: Global,
    host: &MemoryHost,
    parts: &[Part],
) -> Result<Vec<u8>, Fail> {
    let mut content = Vec::new(alloc);
    for part in parts {
        content.extend_from_slice(part_of(host, part)?)?;
    }
    Ok(content)
}

fn part_of<'a>(host: &'a MemoryHost, part: &Part) -> Result<&'a [u8], Fail> {
    match part {
        Part::Text(text) => Ok(text.as_bytes()),
        Part::File(name) => file_of(host, name),
        Part::Without(name, count) => without(file_of(host, name)?, *count),
        Part::Slice(name, from, to) => slice(file_of(host, name)?, *from, *to),
    }
}

/// The bytes without the last `count`.
fn without(bytes: &[u8], count: usize) -> Result<&[u8], Fail> {
    slice(bytes, 0, bytes.len().saturating_sub(count))
}

/// The bytes from the first of these offsets up to the second.
pub fn slice(bytes: &[u8], from: usize, to: usize) -> Result<&[u8], Fail> {
    Ok(bytes.get(from..to).ok_or("no such part")?)
}

/// The content of the file of this name.
pub fn file_of<'a>(host: &'a MemoryHost, name: &str) -> Result<&'a [u8], Fail> {
    Ok(host.file(name).ok_or("no such file")?)
}

/// Writes the line of the statement that was printed last.
pub(crate) fn keep_statement(alloc: Global, host: &mut MemoryHost, name: &str) -> Result<(), Fail> {
    let mut statement = Vec::new(alloc);
    for line in host.printed().split(|byte| *byte == b'\n') {
        if let Some(word) = line.strip_prefix(b"signed 1 0 ") {
            statement = Vec::from_slice(alloc, word)?;
        }
    }
    store(host, name, &statement)
}
