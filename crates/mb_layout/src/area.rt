//! Records in areas of the battery-backed memory: after their length, and before zeros.

ghost use Rattle.std.specs.Prelude.{◌≡◌, ◌≤◌, ◌↔◌, length, IfOk, IsTrue};
ghost use Rattle.mb_model.specs.declared.limits.TheConstants.{AREA_LENGTH, RECORD_LIMIT};
ghost use Rattle.mb_model.specs.records.RootFormat.{root_format};
ghost use Rattle.mb_model.specs.memories.Memory.{IsBlank, HoldsInArea, HoldsRecord};
ghost use Rattle.mb_model.specs.memories.Meaning.{HoldsRegion};
ghost use Rattle.mb_layout.specs.Found.{FindsBy};

use crate::region::region_of_bytes;
use crate::root::root_of_bytes;
use mb_bytes::{ReadEnd, put_at};
use mb_model::{Items, NoMemory, RECORD_LIMIT, Region, Root};
use std::alloc::Global;

/// Whether all bytes are zero.
pub fn is_blank(bytes: &[u8]) -> bool
    ensures { IsTrue result ↔ IsBlank bytes.now }
{
    bytes.iter().all(|byte| *byte == 0)
}

/// The record that an area of the battery-backed memory holds, after its length in two bytes and before zeros. `None`
/// if it has more than 4,094 bytes or more than the area, or if a byte after it is not zero.
pub fn record_in(area: &[u8]) -> Option<&[u8]>
    ensures { FindsBy (λ bytes. bytes.now) (HoldsInArea area.now) result }
{
    let (number, rest) = area.split_first_chunk::<2>()?;
    let length = u16::from_be_bytes(*number) as usize;
    if length > RECORD_LIMIT || length > rest.len() {
        return None;
    }
    let (bytes, blank) = rest.split_at(length);
    if is_blank(blank) { Some(bytes) } else { None }
}

/// Replaces an area of the battery-backed memory, 4,096 bytes, by these bytes, at most 4,094: their length, the bytes,
/// and zeros.
pub fn fill_area(bytes: &[u8], area: &mut [u8])
    requires area { length area.old ≡ AREA_LENGTH }
    requires bytes { length bytes.now ≤ RECORD_LIMIT }
    ensures { HoldsInArea area.new bytes.now }
{
    area.fill(0);
    put_at(area, 0, &(bytes.len() as u16).to_be_bytes());
    put_at(area, 2, bytes);
}

/// The root record that an area of the battery-backed memory holds; `None` exactly if it holds none.
pub fn root_in(area: &[u8]) -> Option<Root>
    ensures { FindsBy (λ root. root) (HoldsRecord root_format area.now) result }
{
    let Some(bytes) = record_in(area) else {
        return None;
    };
    match root_of_bytes(bytes) {
        Ok(root) => Some(root),
        Err(_) => None,
    }
}

/// The region that an area of the battery-backed memory holds: the empty one if the area holds no bytes. `None` exactly
/// if it holds none; `NoMemory` if an allocation fails.
pub fn region_in(alloc: Global, area: &[u8]) -> Result<Option<Region>, NoMemory>
    ensures { IfOk result (λ found. FindsBy (λ region. region) (HoldsRegion area.now) found) }
{
    let Some(bytes) = record_in(area) else {
        return Ok(None);
    };
    if bytes.is_empty() {
        return Ok(Some(Region {
            secrets: Items::new(alloc),
            keys: Items::new(alloc),
        }));
    }
    match region_of_bytes(alloc, bytes) {
        Ok(region) => Ok(Some(region)),
        Err(ReadEnd::Bad { .. }) => Ok(None),
        Err(ReadEnd::NoMemory) => Err(NoMemory),
    }
}
