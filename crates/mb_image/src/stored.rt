//! The contents of a memory, decoded.

ghost use Rattle.std.specs.Prelude.{IfOk, IfErr, IfSome};
ghost use Rattle.mb_model.specs.memories.Memory.{AreSized};
ghost use Rattle.mb_model.specs.memories.Meaning.{RootIn, HoldsContentsBy};
ghost use Rattle.mb_model.specs.memories.Faults.{IsFaultyBy};
ghost use Rattle.mb_image.specs.Ends.{fault_of};
ghost use Rattle.mb_image.specs.Stored.{contents_of};

use crate::form::FlashForm;
use crate::image::ImageEnd;
use crate::memory::current_area;
use mb_layout::region_in;
use mb_model::{Codes, Entries, Log, Region, Root};
use std::alloc::Global;

/// All that is stored in the memory of a live device.
#[derive(Drop)]
pub(crate) struct Stored {
    pub root: Root,
    pub codes: Codes,
    /// The signed entries.
    pub signed: Log,
    /// The unsigned entries after them, at most two.
    pub unsigned: Entries,
    /// The region of layer 2.
    pub two: Region,
    /// The region of layer 3.
    pub three: Region,
}

/// The contents of the memory of a device with this root record, by the form of the flash, or the first that is
/// missing.
pub(crate) fn stored_in<F: FlashForm>(
    alloc: Global,
    flash: &[u8],
    bbram: &[u8],
    root: Root,
) -> Result<Stored, ImageEnd>
    requires sized { AreSized flash.now bbram.now }
    requires root { RootIn bbram.now root }
    ensures ok { IfOk result (λ stored. HoldsContentsBy F.form flash.now bbram.now (contents_of stored)) }
    ensures err { IfErr result (λ end. IfSome (fault_of end) (λ fault. IsFaultyBy F.form flash.now bbram.now fault)) }
{
    let Some(public) = F::public_in(alloc, flash, &root)? else {
        return Err(ImageEnd::Public);
    };
    let Some(two) = region_in(alloc, current_area(bbram, 2))? else {
        return Err(ImageEnd::RegionTwo);
    };
    let Some(three) = region_in(alloc, current_area(bbram, 3))? else {
        return Err(ImageEnd::RegionThree);
    };
    Ok(Stored {
        root,
        codes: public.codes,
        signed: public.signed,
        unsigned: public.unsigned,
        two,
        three,
    })
}
