//! The parts of an image.

ghost use Rattle.std.specs.Prelude.{◌≡◌, ◌≢◌, ◌≤◌, length, MatchOption};
ghost use Rattle.mb_model.specs.declared.limits.TheConstants.{BBRAM_LENGTH, IMAGE_LENGTH};
ghost use Rattle.mb_model.specs.declared.stored.Root.{Root};
ghost use Rattle.mb_model.specs.memories.Meaning.{RootIn};
ghost use Rattle.mb_model.specs.memories.Memory.{IsImage, spare_bytes, area_of_slot};

use mb_layout::{is_blank, root_in};
use mb_model::{AREA_LENGTH, FLASH_LENGTH, IMAGE_LENGTH, Root};

/// The life byte of a device that is alive.
const ALIVE: u8 = 0xA5;

/// The offset of the first area of the first slot, after the selectors and the bytes that stay zero.
const AREAS_AT: usize = 4096;

/// The offset of the bytes that stay zero, after the life byte and the selectors.
const SPARE_AT: usize = 4;

/// The flash and the battery-backed memory of an image; `None` if it has another length.
pub(crate) fn memories(image: &[u8]) -> Option<(&[u8], &[u8])>
    ensures { MatchOption result (length image.now ≢ IMAGE_LENGTH) (λ halves. IsImage image.now halves.0.now halves.1.now) }
{
    if image.len() != IMAGE_LENGTH {
        return None;
    }
    Some(image.split_at(FLASH_LENGTH))
}

/// The bytes between the selectors and the first area of a battery-backed memory.
#[tactic(auto, unfolding(mb_model::specs::memories::Memory::spare_bytes))]
pub(crate) fn spare(bbram: &[u8]) -> &[u8]
    requires { length bbram.now ≡ BBRAM_LENGTH }
    ensures { result.now ≡ spare_bytes bbram.now }
{
    &bbram[SPARE_AT..AREAS_AT]
}

/// The current area of a slot of the battery-backed memory: slot 1 is that of the root record, 2 and 3 are those of
/// regions 2 and 3.
pub(crate) fn current_area(bbram: &[u8], slot: usize) -> &[u8]
    requires sized { length bbram.now ≡ BBRAM_LENGTH }
    requires first { 1 ≤ slot }
    requires last { slot ≤ 3 }
    ensures { result.now ≡ area_of_slot bbram.now slot }
{
    let first = AREAS_AT + (slot - 1) * 2 * AREA_LENGTH;
    let start = if bbram[slot] % 2 == 0 {
        first
    } else {
        first + AREA_LENGTH
    };
    &bbram[start..start + AREA_LENGTH]
}

/// The root record of a battery-backed memory that is alive; `None` if it is not, or its current area has none.
pub(crate) fn root_of(bbram: &[u8]) -> Option<Root>
    requires { length bbram.now ≡ BBRAM_LENGTH }
    ensures { MatchOption result ((root : Root) → RootIn bbram.now root → ⊥) (λ root. RootIn bbram.now root) }
{
    if bbram[0] != ALIVE || !is_blank(spare(bbram)) {
        return None;
    }
    root_in(current_area(bbram, 1))
}
