//! Writing bytes to one sector, and to several.

ghost use Rattle.std.specs.Prelude.{◌≡◌, ℕ, ◌+◌, ◌*◌, ◌<◌, ◌≤◌, ◌++◌, ◌⊎◌, ◌↔◌, length, IsTrue, OnOk};
ghost use Rattle.mb_model.specs.declared.limits.TheConstants.{SECTOR_COUNT, SECTOR_LENGTH};
ghost use Rattle.mb_model.specs.outside.Pieces.{part};
ghost use Rattle.mb_model.specs.outside.Board.{erased_bytes};
ghost use Rattle.mb_board.specs.Calls.{IsPowered, RanOnFlash};
ghost use Rattle.mb_slot.specs.Slots.{IsSameOutside};
ghost use Rattle.mb_flash.specs.Sectors.{sectors_for};
ghost use Rattle.mb_flash.specs.Calls.{WritesSectors};

use mb_board::{Board, Stopped};
use mb_model::SECTOR_LENGTH;

/// Whether the sector begins with these bytes, at most 4,096 of them.
fn begins_with<B: Board>(b: &B, sector: u16, bytes: &[u8]) -> bool
    requires powered { IsPowered (B.seen b.now) }
    requires sector { sector < SECTOR_COUNT }
    requires bytes { length bytes.now ≤ SECTOR_LENGTH }
    ensures { IsTrue result ↔ (part (SECTOR_LENGTH * sector) (length bytes.now)
        (B.seen b.now).memory.flash ≡ bytes.now) }
{
    let mut held = [0; SECTOR_LENGTH];
    let held = &mut held[..bytes.len()];
    b.flash_read(SECTOR_LENGTH as u32 * sector as u32, held);
    *held == *bytes
}

/// Erases the sector.
fn erase<B: Board>(b: &mut B, sector: u16) -> Result<(), Stopped>
    requires powered { IsPowered (B.seen b.old) }
    requires sector { sector < SECTOR_COUNT }
    ensures blank { OnOk result ((n : ℕ) → n ≤ SECTOR_LENGTH
        → part (SECTOR_LENGTH * sector) n (B.seen b.new).memory.flash ≡ erased_bytes n) }
    ensures same { IsSameOutside (SECTOR_LENGTH * sector) SECTOR_LENGTH (B.seen b.old).memory.flash
        (B.seen b.new).memory.flash }
    ensures ran { RanOnFlash 1 result (B.seen b.old) (B.seen b.new) }
{
    b.flash_erase(sector)
}

/// Stores 1 to 4,096 bytes at the start of the sector, which is erased there.
fn program<B: Board>(b: &mut B, sector: u16, bytes: &[u8]) -> Result<(), Stopped>
    requires powered { IsPowered (B.seen b.old) }
    requires sector { sector < SECTOR_COUNT }
    requires some { 0 < length bytes.now }
    requires bytes { length bytes.now ≤ SECTOR_LENGTH }
    requires blank { part (SECTOR_LENGTH * sector) (length bytes.now) (B.seen b.old).memory.flash
        ≡ erased_bytes (length bytes.now) }
    ensures written { OnOk result (part (SECTOR_LENGTH * sector) (length bytes.now)
        (B.seen b.new).memory.flash ≡ bytes.now) }
    ensures same { IsSameOutside (SECTOR_LENGTH * sector) SECTOR_LENGTH (B.seen b.old).memory.flash
        (B.seen b.new).memory.flash }
    ensures ran { RanOnFlash 1 result (B.seen b.old) (B.seen b.new) }
{
    b.flash_program(SECTOR_LENGTH as u32 * sector as u32, bytes)
}

/// Makes the sector begin with these bytes, 1 to 4,096 of them; what follows them in the sector is arbitrary. Writes
/// nothing if they stand there already. So work that is done again after a power loss wears out no flash.
pub fn write_sector<B: Board>(b: &mut B, sector: u16, bytes: &[u8]) -> Result<(), Stopped>
    requires powered { IsPowered (B.seen b.old) }
    requires sector { sector < SECTOR_COUNT }
    requires bytes { (0 < length bytes.now) × (length bytes.now ≤ SECTOR_LENGTH) }
    ensures { WritesSectors sector 1 bytes.now result (B.seen b.old) (B.seen b.new) }
{
    if begins_with(b, sector, bytes) {
        return Ok(());
    }
    erase(b, sector)?;
    program(b, sector, bytes)
}

/// Splits bytes into a first piece of at most 4,096, and the rest.
fn split_piece(bytes: &[u8]) -> (&[u8], &[u8])
    ensures whole { bytes.now ≡ result.0.now ++ result.1.now }
    ensures most { length result.0.now ≤ SECTOR_LENGTH }
    ensures full { (length result.0.now ≡ SECTOR_LENGTH) ⊎ (length result.1.now ≡ 0) }
    ensures some { 0 < length bytes.now → 0 < length result.0.now }
{
    if bytes.len() <= SECTOR_LENGTH {
        return (bytes, &[]);
    }
    bytes.split_at(SECTOR_LENGTH)
}

/// Writes these bytes to the sectors from `first` on, 4,096 a sector. What follows the last byte in its sector is
/// arbitrary. There are at most two write calls a sector.
pub fn write_sectors<B: Board>(b: &mut B, first: u16, bytes: &[u8]) -> Result<(), Stopped>
    requires powered { IsPowered (B.seen b.old) }
    requires within { first + sectors_for (length bytes.now) ≤ SECTOR_COUNT }
    ensures { WritesSectors first (sectors_for (length bytes.now)) bytes.now result (B.seen b.old)
        (B.seen b.new) }
{
    if bytes.is_empty() {
        return Ok(());
    }
    let (piece, rest) = split_piece(bytes);
    write_sector(b, first, piece)?;
    write_sectors(b, first + 1, rest)
}
