//! The form of the flash before segments: a record of codes and log in each of two areas. The root names the current
//! one.

ghost use Rattle.std.specs.Prelude.{◌≡◌, ◌≤◌, length, IfOk, MatchOption};
ghost use Rattle.mb_model.specs.declared.limits.TheConstants.{FLASH_LENGTH};
ghost use Rattle.mb_model.specs.memories.OldFlash.{flash_area, HeldPublic};
ghost use Rattle.mb_model.specs.memories.Faults.{SomePublicBy};

use crate::area::public_at_start;
use crate::entries::split_entries;
use mb_image::{FlashForm, PublicParts};
use mb_model::{NoMemory, Public, Root};
use std::alloc::Global;

/// The length of an area of the flash, in bytes.
const FLASH_AREA: usize = 524_288;

/// The form of a flash that is not divided into segments.
pub struct OneRecord;

impl FlashForm for OneRecord {
    ghost use Rattle.mb_model.specs.memories.OldFlash.{HeldPublic};
    ghost use Rattle.mb_model_lemmas.proofs.OldFlashLemmas.{old_holds_one, old_parts_fit};

    ghost form = { HeldPublic };

    fn public_in(
        alloc: Global,
        flash: &[u8],
        root: &Root,
    ) -> Result<Option<PublicParts>, NoMemory> {
        public_in(alloc, flash, root)
    }

    ghost one = { old_holds_one };

    ghost fits = { old_parts_fit };

    ghost counted = { λ flash root codes signed unsigned holds. holds.counted };
}

/// The contents of the area of the flash that the root names; `None` exactly if it holds no public record, or not one
/// as the root says. `NoMemory` if an allocation fails.
fn public_in(alloc: Global, flash: &[u8], root: &Root) -> Result<Option<PublicParts>, NoMemory>
    requires sized { length flash.now ≡ FLASH_LENGTH }
    requires area { root.now.area ≤ 1 }
    ensures { IfOk result (λ found. MatchOption found (SomePublicBy HeldPublic flash.now root.now → ⊥)
        (λ parts. HeldPublic flash.now root.now parts.codes parts.signed parts.unsigned)) }
{
    let Some(public) = public_at_start(alloc, flash_area(flash, root.area))? else {
        return Ok(None);
    };
    let Public { codes, entries } = public;
    let Some(split) = split_entries(alloc, entries.as_slice(), &root.pending)? else {
        return Ok(None);
    };
    Ok(Some(PublicParts {
        codes,
        signed: split.signed,
        unsigned: split.unsigned,
    }))
}

/// An area of the flash, 0 or 1.
#[tactic(auto, unfolding(mb_model::specs::memories::OldFlash::flash_area))]
fn flash_area(flash: &[u8], number: u8) -> &[u8]
    requires sized { length flash.now ≡ FLASH_LENGTH }
    requires area { number ≤ 1 }
    ensures { result.now ≡ flash_area flash.now number }
{
    let start = FLASH_AREA * usize::from(number);
    &flash[start..start + FLASH_AREA]
}
