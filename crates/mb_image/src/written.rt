//! The image that is written from nothing, for a device that has no pending work.

ghost use Rattle.std.specs.Prelude.{◌≡◌, ◌≤◌, ◌*◌, ◌∷◌, [], length, replicate, IfOk, IfSome};
ghost use Rattle.std.specs.Vec.{vec_len, vec_capacity};
ghost use Rattle.mb_model.specs.declared.limits.TheConstants.{CODE_LIMIT, FLASH_LENGTH, IMAGE_LENGTH, RECORD_LIMIT, SECTOR_LENGTH};
ghost use Rattle.mb_model.specs.outside.Board.{erased_bytes, zeros};
ghost use Rattle.mb_model.specs.records.EntryFormat.{signed_entry_format};
ghost use Rattle.mb_model.specs.records.HeaderFormat.{header_format};
ghost use Rattle.mb_model.specs.records.RegionFormat.{CanBeWritten, written_region};
ghost use Rattle.mb_model.specs.records.RootFormat.{root_format};
ghost use Rattle.mb_model.specs.memories.Clean.{root_of};
ghost use Rattle.mb_model.specs.memories.WrittenFlash.{in_sectors, first_slot, slots_with, entry_in_log, sectors_of, first_header, written_flash, LogFitsSectors};
ghost use Rattle.mb_model.specs.memories.WrittenImage.{area_with, written_bbram, written_image, FitsImage};
ghost use Rattle.mb_bytes.specs.Puts.{Puts};

use crate::record::RecordBuffer;
use mb_bytes::{put_after_u16, put_slice};
use mb_model::{
    AREA_LENGTH, BBRAM_LENGTH, Bytes, FLASH_LENGTH, Header, IMAGE_LENGTH, Log, NoMemory,
    RECORD_LIMIT, Region, Root, SECTOR_LENGTH, SignedEntry, Slot, State,
};
use mb_segments::{put_log, write_header};
use std::alloc::Global;

/// The life byte of a live device, and the selectors of the root and of the regions: the first of two areas is
/// current everywhere.
const HEAD: [u8; 4] = [0xA5, 0, 0, 0];

/// The value of an erased byte of the flash.
const ERASED: u8 = 0xFF;

/// The number of sectors of both header areas.
const HEADERS: usize = 2;

/// The number of sectors of both code slots of a layer.
const SLOTS: usize = 16;

/// The number of sectors between the code slots and the log.
const BEFORE_LOG: usize = 14;

/// The number of sectors of the log.
const LOG: usize = 128;

/// The number of sectors after the log.
const AFTER_LOG: usize = 64;

/// The memory that writing an image takes. A caller that must not fail later takes it first.
#[derive(Drop)]
pub struct ImageRoom {
    image: Vec<u8>,
    record: RecordBuffer,
    ghost empty: { image.items ≡ [] },
    ghost room: { IMAGE_LENGTH ≤ vec_capacity image },
}

impl ImageRoom {
    /// Takes the memory. `NoMemory` if an allocation fails.
    pub fn new(alloc: Global) -> Result<ImageRoom, NoMemory> {
        let image = Vec::with_capacity(alloc, IMAGE_LENGTH)?;
        let record = RecordBuffer::new(alloc)?;
        Ok(ImageRoom { image, record })
    }

    /// The image of a device with this state and no pending work, written from nothing; of a dead device if there is no
    /// state. Each part of the state fits its place in an image.
    pub fn write(self, state: &Option<State>) -> Vec<u8>
        requires { IfSome state.now FitsImage }
        ensures { result.items ≡ written_image state.now }
    {
        let ImageRoom {
            mut image,
            mut record,
        } = self;
        let Ok(()) = put_image(&mut image, &mut record, state) else {
            unreachable!();
        };
        image
    }
}

/// The image of a device with this state and no pending work, written from nothing; of a dead device if there is no
/// state. Each part of the state fits its place in an image.
///
/// Errors: `NoMemory` if an allocation fails.
pub fn write_image(alloc: Global, state: &Option<State>) -> Result<Vec<u8>, NoMemory>
    requires { IfSome state.now FitsImage }
    ensures { IfOk result (λ image. image.items ≡ written_image state.now) }
{
    Ok(ImageRoom::new(alloc)?.write(state))
}

/// Appends the image of a device.
#[tactic(auto, unfolding(mb_model::specs::memories::WrittenImage::written_image))]
fn put_image(
    out: &mut Vec<u8>,
    record: &mut RecordBuffer,
    state: &Option<State>,
) -> Result<(), NoMemory>
    requires { IfSome state.now FitsImage }
    ensures { Puts (written_image state.now) out.old result out.new }
{
    match state {
        Some(state) => {
            put_flash(out, record, state)?;
            put_bbram(out, record, state)
        }
        None => {
            put_erased(out, FLASH_LENGTH)?;
            put_zeros(out, BBRAM_LENGTH)
        }
    }
}

// ---- the flash

/// Appends the flash: the header in area 0, the code of each layer in its slot 1, the log, and erased bytes.
#[tactic(auto, unfolding(mb_model::specs::memories::WrittenFlash::written_flash))]
fn put_flash(out: &mut Vec<u8>, record: &mut RecordBuffer, state: &State) -> Result<(), NoMemory>
    requires { FitsImage state.now }
    ensures { Puts (written_flash state.now.codes state.now.log) out.old result out.new }
{
    put_header(out, state)?;
    put_code(out, &state.codes.one)?;
    put_code(out, &state.codes.two)?;
    put_code(out, &state.codes.three)?;
    put_in_sectors(out, BEFORE_LOG, &[])?;
    put_log_sectors(out, record, &state.log)?;
    put_in_sectors(out, AFTER_LOG, &[])
}

/// The header: every code is in slot 1, and every entry is signed.
fn header_of(state: &State) -> Header
    requires { FitsImage state.now }
    ensures { result ≡ first_header state.now.codes state.now.log }
{
    Header {
        one: slot_of(&state.codes.one),
        two: slot_of(&state.codes.two),
        three: slot_of(&state.codes.three),
        signed: state.log.as_slice().len() as u32,
        first: None,
        second: None,
    }
}

/// Where the code of a layer stands: in slot 1, if there is code.
fn slot_of(code: &Option<Bytes>) -> Slot
    requires { IfSome code.now (λ bytes. length bytes ≤ CODE_LIMIT) }
    ensures { result ≡ first_slot code.now }
{
    match code {
        Some(bytes) => Slot {
            which: 1,
            length: bytes.as_slice().len() as u32,
        },
        None => Slot {
            which: 0,
            length: 0,
        },
    }
}

/// Appends both header areas: the header in the first, and the second erased.
#[tactic(auto, unfolding(mb_model::specs::memories::WrittenFlash::in_sectors))]
fn put_header(out: &mut Vec<u8>, state: &State) -> Result<(), NoMemory>
    requires { FitsImage state.now }
    ensures { Puts (in_sectors 2 (header_format.spelling (first_header state.now.codes state.now.log))) out.old result out.new }
{
    let header = header_of(state);
    let start = out.len();
    write_header(&header, out)?;
    put_erased(out, HEADERS * SECTOR_LENGTH - (out.len() - start))
}

/// Appends both code slots of a layer: its code in the first, and the second erased.
#[tactic(auto, unfolding(mb_model::specs::memories::WrittenFlash::slots_with))]
fn put_code(out: &mut Vec<u8>, code: &Option<Bytes>) -> Result<(), NoMemory>
    requires { IfSome code.now (λ bytes. length bytes ≤ CODE_LIMIT) }
    ensures { Puts (slots_with code.now) out.old result out.new }
{
    match code {
        Some(bytes) => put_in_sectors(out, SLOTS, bytes.as_slice()),
        None => put_in_sectors(out, SLOTS, &[]),
    }
}

/// Appends the sectors of the log, one for each entry, and erased sectors up to the log's end.
#[tactic(auto, unfolding(mb_model::specs::memories::WrittenFlash::in_sectors))]
fn put_log_sectors(out: &mut Vec<u8>, record: &mut RecordBuffer, log: &Log) -> Result<(), NoMemory>
    requires { LogFitsSectors log.now }
    ensures { Puts (in_sectors 128 (sectors_of log.now)) out.old result out.new }
{
    let start = out.len();
    put_entries(out, record, log.as_slice())?;
    put_erased(out, LOG * SECTOR_LENGTH - (out.len() - start))
}

/// Appends a sector for each entry.
fn put_entries(
    out: &mut Vec<u8>,
    record: &mut RecordBuffer,
    log: &[SignedEntry],
) -> Result<(), NoMemory>
    requires { LogFitsSectors log.now }
    ensures { Puts (sectors_of log.now) out.old result out.new }
{
    for signed in log {
        put_entry(out, record, signed)?;
    }
    Ok(())
}

/// Appends the sector of an entry: its text and its signature, and erased bytes.
#[tactic(auto, unfolding(mb_model::specs::memories::WrittenFlash::in_sectors))]
fn put_entry(
    out: &mut Vec<u8>,
    record: &mut RecordBuffer,
    signed: &SignedEntry,
) -> Result<(), NoMemory>
    requires { signed_entry_format.Allowed signed.now }
    ensures { Puts (in_sectors 1 (entry_in_log signed.now)) out.old result out.new }
{
    let start = out.len();
    record.spell_entry(&signed.entry);
    put_log(&record.bytes, &signed.signature, out)?;
    put_erased(out, SECTOR_LENGTH - (out.len() - start))
}

/// Appends bytes at the start of `count` sectors, at most 256, and erased bytes after them.
#[tactic(auto, unfolding(mb_model::specs::memories::WrittenFlash::in_sectors))]
fn put_in_sectors(out: &mut Vec<u8>, count: usize, bytes: &[u8]) -> Result<(), NoMemory>
    requires count { SECTOR_LENGTH * count ≤ FLASH_LENGTH }
    requires bytes { length bytes.now ≤ SECTOR_LENGTH * count }
    ensures { Puts (in_sectors count bytes.now) out.old result out.new }
{
    put_slice(out, bytes)?;
    put_erased(out, SECTOR_LENGTH * count - bytes.len())
}

/// Appends erased bytes of the flash, at most 1,048,576.
#[tactic(auto, unfolding(mb_model::specs::outside::Board::erased_bytes))]
fn put_erased(out: &mut Vec<u8>, count: usize) -> Result<(), NoMemory>
    requires { count ≤ FLASH_LENGTH }
    ensures { Puts (erased_bytes count) out.old result out.new }
{
    put_filled(out, count, ERASED)
}

// ---- the battery-backed memory

/// Appends the battery-backed memory: the life byte and the selectors, the root and the regions in the first of their
/// two areas, and zeros.
#[tactic(auto, unfolding(mb_model::specs::memories::WrittenImage::written_bbram))]
fn put_bbram(out: &mut Vec<u8>, record: &mut RecordBuffer, state: &State) -> Result<(), NoMemory>
    requires { FitsImage state.now }
    ensures { Puts (written_bbram state.now) out.old result out.new }
{
    put_head(out)?;
    put_zeros(out, AREA_LENGTH - HEAD.len())?;
    put_root(out, record, state)?;
    put_zeros(out, AREA_LENGTH)?;
    put_region(out, record, &state.two)?;
    put_zeros(out, AREA_LENGTH)?;
    put_region(out, record, &state.three)?;
    put_zeros(out, AREA_LENGTH)
}

/// The root record of a state, with no pending work, that names header area 0 of the flash.
fn root_of(state: &State) -> Root
    ensures { result ≡ root_of state.now 0 }
{
    Root {
        area: 0,
        serial: state.serial,
        device: state.device,
        uses: state.uses,
        pending: None,
    }
}

/// Appends the area of the root record.
fn put_root(out: &mut Vec<u8>, record: &mut RecordBuffer, state: &State) -> Result<(), NoMemory>
    requires { root_format.Allowed (root_of state.now 0) }
    ensures { Puts (area_with (root_format.spelling (root_of state.now 0))) out.old result out.new }
{
    record.spell_root(&root_of(state));
    put_area(out, &record.bytes)
}

/// Appends the area of a region.
fn put_region(out: &mut Vec<u8>, record: &mut RecordBuffer, region: &Region) -> Result<(), NoMemory>
    requires { CanBeWritten region.now }
    ensures { Puts (area_with (written_region region.now)) out.old result out.new }
{
    record.spell_region(region);
    put_area(out, &record.bytes)
}

/// Appends the life byte and the selectors.
fn put_head(out: &mut Vec<u8>) -> Result<(), NoMemory>
    ensures { Puts (0xA5 ∷ 0 ∷ 0 ∷ 0 ∷ []) out.old result out.new }
{
    put_slice(out, &HEAD)
}

/// Appends an area with a record: its length, its bytes, and zeros.
#[tactic(auto, unfolding(mb_model::specs::memories::WrittenImage::area_with, mb_format::specs::Combinators::number_bytes))]
fn put_area(out: &mut Vec<u8>, bytes: &[u8]) -> Result<(), NoMemory>
    requires { length bytes.now ≤ RECORD_LIMIT }
    ensures { Puts (area_with bytes.now) out.old result out.new }
{
    put_after_u16(out, bytes)?;
    put_zeros(out, RECORD_LIMIT - bytes.len())
}

/// Appends zeros, at most 1,048,576.
#[tactic(auto, unfolding(mb_model::specs::outside::Board::zeros))]
fn put_zeros(out: &mut Vec<u8>, count: usize) -> Result<(), NoMemory>
    requires { count ≤ FLASH_LENGTH }
    ensures { Puts (zeros count) out.old result out.new }
{
    put_filled(out, count, 0)
}

/// Appends a byte `count` times, at most 1,048,576 times.
fn put_filled(out: &mut Vec<u8>, count: usize, byte: u8) -> Result<(), NoMemory>
    requires { count ≤ FLASH_LENGTH }
    ensures { Puts (replicate count byte) out.old result out.new }
{
    match out.resize(out.len() + count, byte) {
        Ok(()) => Ok(()),
        Err(_) => Err(NoMemory),
    }
}
