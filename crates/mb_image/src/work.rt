//! Whether the next boot of the device whose image is given has work to do.

ghost use Rattle.std.specs.Prelude.{◌≡◌, List, ℕ, is_some};
ghost use Rattle.mb_model.specs.declared.stored.Root.{Root};
ghost use Rattle.mb_model.specs.memories.Memory.{IsImage};
ghost use Rattle.mb_model.specs.memories.Meaning.{RootIn};

use crate::memory::{memories, root_of};

/// Whether the root record of the image tells of work that an order has left to be done: the next boot does it. No
/// memory is taken, and nothing is hashed. The answer is arbitrary if the image is not that of a live device.
pub fn has_pending_work(image: &[u8]) -> bool
    ensures { (flash bbram : List ℕ) (root : Root) → IsImage image.now flash bbram → RootIn bbram root
        → result ≡ is_some root.pending }
{
    let Some((_, bbram)) = memories(image) else {
        return false;
    };
    match root_of(bbram) {
        Some(root) => root.pending.is_some(),
        None => false,
    }
}
