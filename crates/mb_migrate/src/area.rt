//! The record that an area of the flash begins with: after its length, and before arbitrary bytes.

ghost use Rattle.std.specs.Prelude.{◌≡◌, ◌≤◌, length, IfOk};
ghost use Rattle.mb_model.specs.memories.PublicRecord.{public_format};
ghost use Rattle.mb_model.specs.memories.OldFlash.{BeginsArea, BeginsWithRecord};
ghost use Rattle.mb_layout.specs.Found.{FindsBy};

use crate::public::public_of_bytes;
use mb_bytes::ReadEnd;
use mb_model::{NoMemory, Public};
use std::alloc::Global;

/// The longest record in an area of the flash, in bytes.
const PUBLIC_LIMIT: usize = 470_000;

/// The record that an area of the flash begins with, after its length in four bytes and before arbitrary ones. `None`
/// if it has more than 470,000 bytes or more than the area.
pub fn record_at_start(area: &[u8]) -> Option<&[u8]>
    ensures { FindsBy (λ bytes. bytes.now) (BeginsArea area.now) result }
{
    let (number, rest) = area.split_first_chunk::<4>()?;
    let length = u32::from_be_bytes(*number) as usize;
    if length > PUBLIC_LIMIT || length > rest.len() {
        return None;
    }
    Some(&rest[..length])
}

/// The public record that an area of the flash begins with; `None` exactly if it begins with none; `NoMemory` if an
/// allocation fails.
pub fn public_at_start(alloc: Global, flash_area: &[u8]) -> Result<Option<Public>, NoMemory>
    ensures { IfOk result (λ found. FindsBy (λ stored. stored)
        (BeginsWithRecord public_format flash_area.now) found) }
{
    let Some(bytes) = record_at_start(flash_area) else {
        return Ok(None);
    };
    match public_of_bytes(alloc, bytes) {
        Ok(public) => Ok(Some(public)),
        Err(ReadEnd::Bad { .. }) => Ok(None),
        Err(ReadEnd::NoMemory) => Err(NoMemory),
    }
}
