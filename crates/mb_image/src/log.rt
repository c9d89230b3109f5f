//! The check that each entry of a log follows from those before it.

ghost use Rattle.std.specs.Prelude.{◌≡◌, ◌↔◌, ◌-◌, ◌^◌, ◌<◌, List, length, All, IfOk, IsTrue, MatchOption};
ghost use Rattle.mb_model.specs.records.EntryFormat.{entry_format};
ghost use Rattle.mb_model.specs.owners.Log.{figures_of, entries_of};
ghost use Rattle.mb_model.specs.memories.Valid.{Follows, EachFollows};
ghost use Rattle.mb_image.specs.Verified.{IsVerified};

use mb_cert::{certifies, leaf_number};
use mb_layout::entry_bytes;
use mb_log::{add_entry, follows_figures, no_figures};
use mb_model::{Figures, Follow, NoMemory, SignedEntry};
use std::alloc::Global;

/// The figures of a log, or `None` if an entry does not follow from those before it.
pub(crate) fn figures_of(alloc: Global, log: &[SignedEntry]) -> Result<Option<Figures>, NoMemory>
    requires spelled { All (λ signed. entry_format.Allowed signed.entry) log.now }
    requires short { length log.now < 2 ^ 32 - 1 }
    ensures { IfOk result (λ figures. MatchOption figures (EachFollows log.now → ⊥) (λ f. EachFollows log.now × (f ≡ figures_of (entries_of log.now)))) }
{
    let mut figures = no_figures();
    for signed in log {
        if !follows(alloc, &figures, signed)? {
            return Ok(None);
        }
        add_entry(&mut figures, &signed.entry);
    }
    Ok(Some(figures))
}

/// Whether an entry follows from a log with these figures.
fn follows(alloc: Global, figures: &Figures, signed: &SignedEntry) -> Result<bool, NoMemory>
    requires { entry_format.Allowed signed.now.entry }
    ensures { IfOk result (λ yes. IsTrue yes ↔ Follows figures.now signed.now) }
{
    match follows_figures(figures, &signed.entry, leaf_number(&signed.signature)) {
        Follow::Yes => verifies(alloc, figures, signed),
        Follow::Order | Follow::Rules => Ok(false),
    }
}

/// Whether an entry is signed by the device key that the log before it names last. The first entry is not checked: the
/// maker's key signs it, which an image does not hold.
fn verifies(alloc: Global, figures: &Figures, signed: &SignedEntry) -> Result<bool, NoMemory>
    requires { entry_format.Allowed signed.now.entry }
    ensures { IfOk result (λ yes. IsTrue yes ↔ IsVerified figures.now signed.now) }
{
    if figures.length == 0 {
        return Ok(true);
    }
    let Some(key) = &figures.device else {
        return Ok(false);
    };
    let spelling = entry_bytes(alloc, &signed.entry)?;
    Ok(certifies(key, signed, spelling.as_slice()))
}
