//! Sizes of the device, and limits of what is read and stored.

/// The length of the flash of a device, in bytes.
pub const FLASH_LENGTH: usize = 1_048_576;

/// The length of the battery-backed memory of a device, in bytes.
pub const BBRAM_LENGTH: usize = 28_672;

/// The length of an image file, in bytes: the flash, and then the battery-backed memory.
pub const IMAGE_LENGTH: usize = 1_077_248;

const _: () = prove!(FLASH_LENGTH + BBRAM_LENGTH == IMAGE_LENGTH);

/// The length of a sector of the flash, which is erased as one, in bytes.
pub const SECTOR_LENGTH: usize = 4_096;

/// How many sectors the flash has.
pub const SECTOR_COUNT: u16 = 256;

/// The length of an area of the battery-backed memory, in bytes.
pub const AREA_LENGTH: usize = 4_096;

/// The longest record in an area of the battery-backed memory, in bytes.
pub const RECORD_LIMIT: usize = 4_094;

/// The longest file that is read, in bytes.
pub const FILE_LIMIT: usize = 4_194_304;

/// The longest code of a layer, in bytes.
pub const CODE_LIMIT: u32 = 32_768;

/// The most targets of an order.
pub const TARGET_LIMIT: u8 = 8;

/// The longest signature in an order, in bytes: one of the widest type under the highest tree (RFC 8554, section 5.4).
pub const SIGNATURE_LIMIT: u16 = 9_324;

/// The length of a signature by a key of the device or of an officer, in bytes (RFC 8554, section 5.4: types 5 and 3).
pub const SIGNATURE_LENGTH: usize = 2_348;

/// How many indices a key of the device or of an officer has: it can sign this many times.
pub const KEY_USES: u8 = 32;

/// The last index of a key.
pub const LAST_INDEX: u8 = 31;

/// The most entries of a log.
pub const ENTRY_LIMIT: u16 = 128;

/// The most bytes of an entry without its signature, in a header or a sector of the log.
pub const ENTRY_TEXT_LIMIT: u16 = 400;

/// The most bytes of a statement.
pub const STATEMENT_LIMIT: usize = 2_514;

/// The most bytes of the record of a region.
pub const REGION_LIMIT: usize = 4_087;

/// The version of the region records that are written.
pub const REGION_VERSION: u8 = 2;

/// The most secrets of a region.
pub const SECRET_LIMIT: u8 = 22;

/// The most secrets in a region's record of version 1.
pub const SECRET_LIMIT_VERSION_1: u8 = 16;

/// The most keys of a region.
pub const KEY_LIMIT: u8 = 8;

/// The longest name of a secret, in bytes.
pub const NAME_LIMIT: u8 = 32;

/// The longest value of a secret, in bytes.
pub const VALUE_LIMIT: u8 = 128;

/// The longest message that a key of a region signs, in bytes.
pub const MESSAGE_LIMIT: u8 = 128;

/// The length of a draw, in bytes: the noise of an order, or of an officer's key.
pub const DRAW_LENGTH: usize = 32;

/// The most events of a script.
pub const EVENT_LIMIT: usize = 65_536;

/// The latest write call that a script can cut, counted from the next one as 1.
pub const CUT_LIMIT: u32 = 100_000;

/// The longest fill of a torn write, in bytes.
pub const FILL_LIMIT: u8 = 16;

/// The most values on the stack.
pub const STACK_LIMIT: usize = 256;

/// The most places that are kept for returns.
pub const CALL_LIMIT: usize = 64;

/// The length of the memory, in bytes.
pub const MEMORY_LENGTH: usize = 1024;

/// The most bytes of an output.
pub const OUTPUT_LIMIT: usize = 4096;

/// The most steps of a call.
pub const CALL_STEPS: u32 = 1_000_000;

/// The longest input of a call, in bytes.
pub const INPUT_LIMIT: u16 = 4_096;

/// What stands in a statement in place of the length of a message, if it is the statement of a call.
pub const CALL_MARK: u8 = 129;

/// The most write calls of a board from the handing out of an event to its answer.
pub const WRITE_LIMIT: u16 = 35;
