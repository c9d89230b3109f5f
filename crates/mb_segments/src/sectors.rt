//! Numbers of sectors.

ghost use Rattle.std.specs.Prelude.{◌≡◌, ◌<◌, ◌≤◌};
ghost use Rattle.mb_model.specs.declared.limits.TheConstants.{ENTRY_LIMIT};
ghost use Rattle.mb_model.specs.memories.Sectors.{header_sector, code_sector, log_sector};

/// The first sector that holds code.
const CODE: u16 = 2;

/// The number of sectors of a code slot. Each layer has two slots.
const SLOT: u16 = 8;

/// The sector of the log's first entry.
const LOG: u16 = 64;

/// The number of the sector that holds a header area, 0 or 1.
pub fn header_sector(area: u8) -> u16
    requires { area < 2 }
    ensures { result ≡ header_sector area }
{
    area as u16
}

/// The number of the first of the eight sectors of a code slot: slot 1 or 2 of layer 1, 2 or 3.
pub fn code_sector(layer: u8, slot: u8) -> u16
    requires layer { (1 ≤ layer) × (layer ≤ 3) }
    requires slot { (1 ≤ slot) × (slot ≤ 2) }
    ensures { result ≡ code_sector layer slot }
{
    CODE + 2 * SLOT * (layer as u16 - 1) + SLOT * (slot as u16 - 1)
}

/// The number of the sector that holds the log's entry at a position, 0 to 127.
pub fn log_sector(position: u32) -> u16
    requires { position < ENTRY_LIMIT }
    ensures { result ≡ log_sector position }
{
    LOG + position as u16
}
