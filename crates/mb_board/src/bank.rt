//! The bytes of one memory of a simulated device.

ghost use Rattle.std.specs.Prelude.{◌≡◌, ◌+◌, ◌*◌, ◌%◌, ◌≤◌, ◌<◌, [], length, replicate, true, IfOk};
ghost use Rattle.mb_format.specs.Format.{IsBytes};
ghost use Rattle.mb_model.specs.declared.limits.TheConstants.{SECTOR_LENGTH};
ghost use Rattle.mb_model.specs.outside.Pieces.{part};
ghost use Rattle.mb_model.specs.outside.Board.{memory_with_bytes, erased_bytes, zeros};
ghost use Rattle.mb_board.specs.Cuts.{HasFill, filling, torn_by};
ghost use Rattle.mb_board.specs.Kept.{IsSameUnchanged, sector_of};
ghost use Rattle.mb_board.specs.Shown.{just_kept};

use mb_model::{NoMemory, SECTOR_LENGTH, Tear};
use std::alloc::Global;
use std::marker::Model;

/// The bytes of a memory of whole sectors, and a copy of them from when they were last kept. Keeping them copies only
/// the sectors that were written since. A range in place of a flag for each sector would copy everything after a write
/// at each end.
#[derive(Drop)]
pub struct Bank {
    bytes: Vec<u8>,
    standing: Vec<u8>,
    // A mark without a write costs only time, so no contract speaks of it.
    /// For each sector, whether it was written since the bytes were kept.
    changed: Vec<bool>,
}

impl Model for Bank {
    ghost use Rattle.mb_board.specs.Shown.{BankContents};
    ghost use Rattle.mb_board.specs.Kept.{KeepsStanding};

    ghost Value = { BankContents };

    ghost view = { λ s. record { bytes = s.bytes.items; standing = s.standing.items } };

    ghost invariant = { KeepsStanding };
}

impl Bank {
    /// An empty memory.
    pub fn new(alloc: Global) -> Bank
        ensures { result ≡ just_kept [] }
    {
        Bank {
            bytes: Vec::new(alloc),
            standing: Vec::new(alloc),
            changed: Vec::new(alloc),
        }
    }

    /// A memory of these bytes, which are kept. `NoMemory` if an allocation fails.
    pub fn from_slice(alloc: Global, bytes: &[u8]) -> Result<Bank, NoMemory>
        requires { length bytes.now % SECTOR_LENGTH ≡ 0 }
        ensures { IfOk result (λ bank. bank ≡ just_kept bytes.now) }
    {
        Ok(Bank {
            bytes: Vec::from_slice(alloc, bytes)?,
            standing: Vec::from_slice(alloc, bytes)?,
            changed: vec![in alloc; false; bytes.len() / SECTOR_LENGTH]?,
        })
    }

    /// The bytes.
    pub fn as_slice(&self) -> &[u8]
        ensures { result.now ≡ self.now.bytes }
    {
        self.bytes.as_slice()
    }

    /// Stores bytes at the offset `at`, within one sector.
    pub fn write(&mut self, at: usize, bytes: &[u8])
        requires some { 0 < length bytes.now }
        requires one_sector { at % SECTOR_LENGTH + length bytes.now ≤ SECTOR_LENGTH }
        requires within { at + length bytes.now ≤ length self.old.bytes }
        ensures { self.new ≡ record self.old { bytes = memory_with_bytes at bytes.now self.old.bytes } }
    {
        write(&mut self.bytes, at, bytes);
        self.changed[at / SECTOR_LENGTH] = true;
    }

    /// Sets each byte of a sector to 0xFF.
    pub fn erase(&mut self, sector: u16)
        requires { SECTOR_LENGTH * sector + SECTOR_LENGTH ≤ length self.old.bytes }
        ensures { self.new
            ≡ record self.old {
              bytes = memory_with_bytes (SECTOR_LENGTH * sector)
                  (erased_bytes SECTOR_LENGTH) self.old.bytes;
            } }
    {
        let sector = sector as usize;
        erase(&mut self.bytes, SECTOR_LENGTH * sector, SECTOR_LENGTH);
        self.changed[sector] = true;
    }

    #[tactic(auto, using(mb_model::proofs::Places::puts))]
    /// Stores what a power loss leaves of a write of these bytes at the offset `at`.
    pub fn write_torn(&mut self, at: usize, bytes: &[u8], tear: &Tear)
        requires fill { HasFill tear.now }
        requires some { 0 < length bytes.now }
        requires one_sector { at % SECTOR_LENGTH + length bytes.now ≤ SECTOR_LENGTH }
        requires within { at + length bytes.now ≤ length self.old.bytes }
        ensures { self.new
            ≡ record self.old { bytes = memory_with_bytes at (torn_by tear.now bytes.now) self.old.bytes } }
    {
        self.write(at, bytes);
        self.spoil(at, bytes.len(), tear);
    }

    #[tactic(auto, using(mb_model::proofs::Places::puts))]
    /// Stores what a power loss leaves of the erasure of a sector.
    pub fn erase_torn(&mut self, sector: u16, tear: &Tear)
        requires fill { HasFill tear.now }
        requires within { SECTOR_LENGTH * sector + SECTOR_LENGTH ≤ length self.old.bytes }
        ensures { self.new
            ≡ record self.old {
              bytes = memory_with_bytes (SECTOR_LENGTH * sector)
                  (torn_by tear.now (erased_bytes SECTOR_LENGTH)) self.old.bytes;
            } }
    {
        self.erase(sector);
        self.spoil(SECTOR_LENGTH * sector as usize, SECTOR_LENGTH, tear);
    }

    /// Replaces `count` bytes, just written at the offset `at`, by what a power loss leaves of that write.
    fn spoil(&mut self, at: usize, count: usize, tear: &Tear)
        requires fill { HasFill tear.now }
        requires some { 0 < count }
        requires one_sector { at % SECTOR_LENGTH + count ≤ SECTOR_LENGTH }
        requires within { at + count ≤ length self.old.bytes }
        ensures { self.new
            ≡ record self.old {
              bytes = memory_with_bytes at (torn_by tear.now
                  (part at count self.old.bytes)) self.old.bytes;
            } }
    {
        spoil(&mut self.bytes, at, count, tear);
        self.changed[at / SECTOR_LENGTH] = true;
    }

    /// Sets each byte to zero.
    pub fn clear(&mut self)
        ensures { self.new ≡ record self.old { bytes = zeros (length self.old.bytes) } }
    {
        clear(&mut self.bytes);
        mark_all(&mut self.changed);
    }

    /// Keeps a copy of the bytes as they are now.
    pub fn keep(&mut self)
        ensures { self.new ≡ just_kept self.old.bytes }
    {
        copy_changed(&mut self.standing, &self.bytes, &mut self.changed);
    }
}

/// Stores bytes in a memory at the offset `at`.
#[tactic(auto, unfolding(mb_model::specs::outside::Board::memory_with_bytes))]
fn write(memory: &mut Vec<u8>, at: usize, bytes: &[u8])
    requires { at + length bytes.now ≤ length memory.old.items }
    ensures { memory.new.items ≡ memory_with_bytes at bytes.now memory.old.items }
{
    memory[at..at + bytes.len()].copy_from_slice(bytes);
}

/// Sets `count` bytes of a memory, from the offset `at` on, to 0xFF.
#[tactic(auto, unfolding(mb_model::specs::outside::Board::memory_with_bytes, mb_model::specs::outside::Board::erased_bytes))]
fn erase(memory: &mut Vec<u8>, at: usize, count: usize)
    requires { at + count ≤ length memory.old.items }
    ensures { memory.new.items ≡ memory_with_bytes at (erased_bytes count) memory.old.items }
{
    memory[at..at + count].fill(0xFF);
}

/// Sets each byte of a memory to zero.
#[tactic(auto, unfolding(mb_model::specs::outside::Board::zeros))]
fn clear(memory: &mut Vec<u8>)
    ensures { memory.new.items ≡ zeros (length memory.old.items) }
{
    memory.as_mut_slice().fill(0);
}

/// Marks every sector as changed.
fn mark_all(changed: &mut Vec<bool>)
    ensures { changed.new.items ≡ replicate (length changed.old.items) true }
{
    changed.as_mut_slice().fill(true);
}

/// Replaces `count` bytes of a memory, just written at the offset `at`, by what a power loss leaves of that write.
fn spoil(memory: &mut Vec<u8>, at: usize, count: usize, tear: &Tear)
    requires fill { HasFill tear.now }
    requires within { at + count ≤ length memory.old.items }
    ensures { memory.new.items
        ≡ memory_with_bytes at (torn_by tear.now (part at count memory.old.items)) memory.old.items }
{
    let kept = count.min(tear.keep as usize);
    store_filling(memory, at + kept, count - kept, tear);
}

/// Stores `count` bytes of the filling of a tear at the offset `at`.
#[tactic(auto, unfolding(mb_model::specs::outside::Board::memory_with_bytes))]
fn store_filling(memory: &mut Vec<u8>, at: usize, count: usize, tear: &Tear)
    requires fill { HasFill tear.now }
    requires within { at + count ≤ length memory.old.items }
    ensures { memory.new.items ≡ memory_with_bytes at (filling tear.now count) memory.old.items }
{
    fill(&mut memory[at..at + count], tear);
}

/// Fills a range with the bytes of a tear's filling, repeated from the first.
fn fill(range: &mut [u8], tear: &Tear)
    requires { HasFill tear.now }
    ensures { range.new ≡ filling tear.now (length range.old) }
{
    let period = tear.fill_length as usize;
    for (offset, byte) in range.iter_mut().enumerate() {
        *byte = tear.fill[offset % period];
    }
}

/// Copies the changed sectors of `bytes` to `standing`, which agrees in all others, and clears the marks.
fn copy_changed(standing: &mut Vec<u8>, bytes: &[u8], changed: &mut Vec<bool>)
    requires { IsSameUnchanged changed.old.items standing.old.items bytes.now }
    ensures copied { standing.new.items ≡ bytes.now }
    ensures sectors { length changed.new.items ≡ length changed.old.items }
{
    for sector in 0..changed.len() {
        if changed[sector] {
            copy_sector(standing, bytes, sector);
            changed[sector] = false;
        }
    }
}

/// Copies the bytes of one sector.
fn copy_sector(standing: &mut Vec<u8>, bytes: &[u8], sector: usize)
    requires sized { length standing.old.items ≡ length bytes.now }
    requires within { SECTOR_LENGTH * sector + SECTOR_LENGTH ≤ length bytes.now }
    ensures { standing.new.items
        ≡ memory_with_bytes (SECTOR_LENGTH * sector) (sector_of sector bytes.now) standing.old.items }
{
    let start = SECTOR_LENGTH * sector;
    write(standing, start, &bytes[start..start + SECTOR_LENGTH]);
}

/// A law without a body: each byte of a memory is less than 256.
pub fn are_bytes(bytes: &[u8])
    ensures { IsBytes bytes.now }
{}
