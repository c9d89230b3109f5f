//! The buffers in which a device works.

ghost use Rattle.std.specs.Prelude.{◌≡◌, ◌≤◌, [], length, vec_len, vec_capacity, IfOk};
ghost use Rattle.mb_model.specs.declared.limits.TheConstants.{AREA_LENGTH, CODE_LIMIT, SECTOR_LENGTH};
ghost use Rattle.mb_model.specs.memories.Memory.{IsBlank};

use mb_model::{AREA_LENGTH, CODE_LIMIT, NoMemory, SECTOR_LENGTH};
use std::alloc::Global;

/// The buffers in which a device works: what is written next, and working space. They always have room for all that a
/// device writes.
#[derive(Drop)]
pub struct Room {
    /// The code of a load that is written next.
    pub code: Vec<u8>,
    /// The layer of that code, 1 to 3; 0 if no code is written.
    pub code_layer: u8,
    /// The header of the flash that is written next.
    pub header: Vec<u8>,
    /// The content of the sector of the log that is written next.
    pub log: Vec<u8>,
    /// The code of a call, while it runs; no caller relies on it after a call.
    pub called: Vec<u8>,
    /// Working space; no caller relies on it after a call.
    pub area: Vec<u8>,
    /// More working space.
    pub other: Vec<u8>,
    ghost code_room: { CODE_LIMIT ≤ vec_capacity code },
    ghost header_room: { SECTOR_LENGTH ≤ vec_capacity header },
    ghost log_room: { SECTOR_LENGTH ≤ vec_capacity log },
    ghost called_room: { CODE_LIMIT ≤ vec_capacity called },
    ghost area_room: { AREA_LENGTH ≤ vec_capacity area },
    ghost other_room: { AREA_LENGTH ≤ vec_capacity other },
}

impl Room {
    /// Empty buffers with their room, and no code to write. `NoMemory` if an allocation fails.
    pub fn new(alloc: Global) -> Result<Room, NoMemory>
        ensures { IfOk result (λ room. (room.code.items ≡ []) × (room.code_layer ≡ 0) × (room.header.items ≡ [])
            × (room.log.items ≡ []) × (room.called.items ≡ []) × (room.area.items ≡ []) × (room.other.items ≡ [])) }
    {
        let code = Vec::with_capacity(alloc, CODE_LIMIT as usize)?;
        let header = Vec::with_capacity(alloc, SECTOR_LENGTH)?;
        let log = Vec::with_capacity(alloc, SECTOR_LENGTH)?;
        let called = Vec::with_capacity(alloc, CODE_LIMIT as usize)?;
        let area = Vec::with_capacity(alloc, AREA_LENGTH)?;
        let other = Vec::with_capacity(alloc, AREA_LENGTH)?;
        Ok(Room {
            code,
            code_layer: 0,
            header,
            log,
            called,
            area,
            other,
        })
    }
}

/// Replaces the bytes of a buffer by a blank area of the battery-backed memory: 4,096 zeros. The buffer has room for
/// them.
pub fn make_area(buffer: &mut Vec<u8>)
    requires { AREA_LENGTH ≤ vec_capacity buffer.old }
    ensures blank { IsBlank buffer.new.items }
    ensures length { length buffer.new.items ≡ AREA_LENGTH }
    ensures len { vec_len buffer.new ≡ AREA_LENGTH }
    ensures capacity { vec_capacity buffer.old ≤ vec_capacity buffer.new }
{
    buffer.clear();
    let _ = buffer.resize(AREA_LENGTH, 0);
}
