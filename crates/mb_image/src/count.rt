//! The length of the log of the device whose image is given.

ghost use Rattle.std.specs.Prelude.{◌≡◌, ◌+◌, ◌≤◌, length, List, ℕ, Option};
ghost use Rattle.mb_model.specs.declared.limits.TheConstants.{FLASH_LENGTH};
ghost use Rattle.mb_model.specs.declared.entry.Entry.{Entry};
ghost use Rattle.mb_model.specs.declared.entry.SignedEntry.{SignedEntry};
ghost use Rattle.mb_model.specs.declared.state.Codes.{Codes};
ghost use Rattle.mb_model.specs.declared.state.State.{State};
ghost use Rattle.mb_model.specs.memories.Memory.{IsImage};
ghost use Rattle.mb_model.specs.memories.Flash.{HoldsPublic};
ghost use Rattle.mb_model.specs.memories.Meaning.{StandsFor};
ghost use Rattle.mb_model.specs.memories.Meaning.{log_length};

use crate::memory::{memories, root_of};
use crate::segments::{header_in, text_count};
use mb_layout::is_blank;
use mb_model::Root;

/// The number of entries of the log of the device whose state the image means: at most 128, and 0 if the device is
/// dead. Of the flash only the header is read: no memory is taken, and nothing is hashed. The number is arbitrary if
/// the image means no state.
pub fn log_length(image: &[u8]) -> u16
    ensures { (flash bbram : List ℕ) (state : Option State) → IsImage image.now flash bbram → StandsFor flash bbram state
        → result ≡ log_length state }
{
    let Some((flash, bbram)) = memories(image) else {
        return 0;
    };
    if is_blank(bbram) {
        return 0;
    }
    let Some(root) = root_of(bbram) else {
        return 0;
    };
    count_entries(flash, &root)
}

/// The number of entries, signed or not, by the header of the area that the root names.
fn count_entries(flash: &[u8], root: &Root) -> u16
    requires sized { length flash.now ≡ FLASH_LENGTH }
    requires area { root.now.area ≤ 1 }
    ensures { (codes : Codes) (signed : List SignedEntry) (unsigned : List Entry)
        → HoldsPublic flash.now root.now codes signed unsigned → result ≡ length signed + length unsigned }
{
    match header_in(flash, root.area) {
        Some(header) => header.signed as u16 + text_count(&header),
        None => 0,
    }
}
