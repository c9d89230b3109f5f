//! Forms of the flash, and what a flash holds for a root by its form.

ghost use Rattle.std.specs.Prelude.{◌≡◌, ◌≤◌, length, IfOk, MatchOption};
ghost use Rattle.mb_model.specs.declared.limits.TheConstants.{FLASH_LENGTH};
ghost use Rattle.mb_model.specs.memories.Meaning.{FlashForm};
ghost use Rattle.mb_model.specs.memories.Faults.{SomePublicBy};
ghost use Rattle.mb_model_lemmas.specs.FormLaws.{HoldsOnePublic, HoldsFittingParts};
ghost use Rattle.mb_image.specs.Forms.{CountsUnsigned};

use mb_model::{Codes, Entries, Log, NoMemory, Root};
use std::alloc::Global;

/// The codes and entries that a flash holds.
#[derive(Drop)]
pub struct PublicParts {
    pub codes: Codes,
    /// The signed entries.
    pub signed: Log,
    /// The unsigned entries after them, at most two.
    pub unsigned: Entries,
}

/// A form of the flash: how a flash holds codes and entries for a root.
pub trait FlashForm {
    ghost form: { FlashForm };

    /// The codes and entries that the flash holds for the root; `None` exactly if it holds none. `NoMemory` if an
    /// allocation fails.
    fn public_in(alloc: Global, flash: &[u8], root: &Root) -> Result<Option<PublicParts>, NoMemory>
        requires sized { length flash.now ≡ FLASH_LENGTH }
        requires area { root.now.area ≤ 1 }
        ensures { IfOk result (λ found. MatchOption found (SomePublicBy form flash.now root.now → ⊥)
            (λ parts. form flash.now root.now parts.codes parts.signed parts.unsigned)) };

    ghost one: { HoldsOnePublic form };

    ghost fits: { HoldsFittingParts form };

    ghost counted: { CountsUnsigned form };
}
