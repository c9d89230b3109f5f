//! The state that an image means.

ghost use Rattle.std.specs.Prelude.{◌≡◌, ◌+◌, ◌≤◌, IfOk, IfErr, IfSome};
ghost use Rattle.mb_image.specs.declared.image.TheConstants.{IMAGE_HASHES};
ghost use Rattle.mb_model.specs.memories.Meaning.{IsWellFormedBy, IsWellFormed};
ghost use Rattle.mb_model.specs.memories.Faults.{HasFaultBy, HasFault};
ghost use Rattle.mb_image.specs.Ends.{fault_of};

use crate::form::FlashForm;
use crate::memory::{memories, root_of};
use crate::segments::Segments;
use crate::sound::sound_state;
use crate::stored::stored_in;
use mb_layout::is_blank;
use mb_lms::{HashCount, LEAF_HASHES, SIGNING_HASHES, TREE_HASHES};
use mb_model::{NoMemory, State};
use std::alloc::Global;
use std::sync::ledger::Ledger;

/// Why an image means no state. If several apply, the first in this list is returned; `NoMemory` may stand in
/// place of any but `Length` and `Root`.
#[derive(Clone, Copy, PartialEq, Eq)]
pub enum ImageEnd {
    /// The image does not have 1,077,248 bytes.
    Length,
    /// The battery-backed memory is neither all zero nor alive with a root record in its current area.
    Root,
    /// The flash holds no codes and entries for the root. In segments: the header area that the root names holds no
    /// header, a sector of the log that the header counts holds no entry and signature, or its signed and unsigned
    /// entries do not stand as the root says.
    Public,
    /// The current area of region 2 holds no region.
    RegionTwo,
    /// The current area of region 3 holds no region.
    RegionThree,
    /// The device key has no index for what it has still to sign, or no device can have the state.
    State,
    /// An allocation failed.
    NoMemory,
}

impl From<NoMemory> for ImageEnd {
    ghost use Rattle.mb_image.specs.declared.image.ImageEnd.TheVariants as end;

    ghost from_gives = { λ _ e. e ≡ end.NoMemory };

    fn from(_error: NoMemory) -> ImageEnd {
        ImageEnd::NoMemory
    }
}

/// The most hashes that it takes to judge an image: those of the public keys of the device and of sixteen keys of
/// regions, and of two signatures by one tree.
pub const IMAGE_HASHES: u64 = 17 * TREE_HASHES + SIGNING_HASHES + LEAF_HASHES;

/// The state that an image of arbitrary bytes means by a form of the flash, `None` for a dead device, or the first
/// fault of the image. It takes at most 621,330 hashes: those of the public keys of the device and of sixteen keys of
/// regions, each derived once, and of the signatures that are still to be made.
///
/// Errors: those of `ImageEnd`.
pub fn stand_for_by<F: FlashForm, L: Ledger>(
    alloc: Global,
    image: &[u8],
    hashes: &mut HashCount<L>,
) -> Result<Option<State>, ImageEnd>
    ensures stands { IfOk result (λ state. IsWellFormedBy F.form image.now state) }
    ensures fault { IfErr result (λ end. IfSome (fault_of end) (λ fault. HasFaultBy F.form image.now fault)) }
    ensures cost { hashes.new ≤ hashes.old + IMAGE_HASHES }
{
    let Some((flash, bbram)) = memories(image) else {
        return Err(ImageEnd::Length);
    };
    if is_blank(bbram) {
        return Ok(None);
    }
    let Some(root) = root_of(bbram) else {
        return Err(ImageEnd::Root);
    };
    let stored = stored_in::<F>(alloc, flash, bbram, root)?;
    match sound_state(alloc, stored, hashes)? {
        Some(state) => Ok(Some(state)),
        None => Err(ImageEnd::State),
    }
}

/// The state that an image of arbitrary bytes means, `None` for a dead device, or the first fault of the image. It
/// takes at most 621,330 hashes: those of the public keys of the device and of sixteen keys of regions, each derived
/// once, and of the signatures that are still to be made.
///
/// Errors: those of `ImageEnd`.
pub fn stand_for<L: Ledger>(
    alloc: Global,
    image: &[u8],
    hashes: &mut HashCount<L>,
) -> Result<Option<State>, ImageEnd>
    ensures stands { IfOk result (λ state. IsWellFormed image.now state) }
    ensures fault { IfErr result (λ end. IfSome (fault_of end) (λ fault. HasFault image.now fault)) }
    ensures cost { hashes.new ≤ hashes.old + IMAGE_HASHES }
{
    stand_for_by::<Segments, L>(alloc, image, hashes)
}
