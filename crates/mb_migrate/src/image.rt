//! The state that an old image meant.

ghost use Rattle.std.specs.Prelude.{◌+◌, ◌≤◌, IfOk, IfErr, IfSome};
ghost use Rattle.mb_model.specs.memories.OldFlash.{WasWellFormed, HadFault};
ghost use Rattle.mb_image.specs.Ends.{fault_of};
ghost use Rattle.mb_image.specs.declared.image.TheConstants.{IMAGE_HASHES};

use crate::stored::OneRecord;
use mb_image::{ImageEnd, stand_for_by};
use mb_lms::HashCount;
use mb_model::State;
use std::alloc::Global;
use std::sync::ledger::Ledger;

/// The state that an image of arbitrary bytes meant before the flash was divided into segments, `None` for a dead
/// device, or the first fault of the image in that form. It takes at most 621,330 hashes, as `stand_for` does.
///
/// Errors: those of `ImageEnd`; `Public` if the area of the flash that the root names begins with no public record, or
/// with none whose last entries are unsigned as the root says.
pub fn old_stand_for<L: Ledger>(
    alloc: Global,
    image: &[u8],
    hashes: &mut HashCount<L>,
) -> Result<Option<State>, ImageEnd>
    ensures stands { IfOk result (λ state. WasWellFormed image.now state) }
    ensures fault { IfErr result (λ end. IfSome (fault_of end) (λ fault. HadFault image.now fault)) }
    ensures cost { hashes.new ≤ hashes.old + IMAGE_HASHES }
{
    stand_for_by::<OneRecord, L>(alloc, image, hashes)
}
