//! Images brought to the current form.

ghost use Rattle.std.specs.Prelude.{◌+◌, ◌*◌, ◌≤◌, IfOk, IfErr, IfSome};
ghost use Rattle.mb_model.specs.memories.Migration.{IsMigrated, CannotMigrate, MeansTheSame};
ghost use Rattle.mb_image.specs.Ends.{fault_of};
ghost use Rattle.mb_migrate.specs.Readings.{IsReadBy, StandsByEither};
ghost use Rattle.mb_image.specs.declared.image.TheConstants.{IMAGE_HASHES};

use crate::stored::OneRecord;
use mb_image::{FlashForm, ImageEnd, Segments, stand_for_by, write_image};
use mb_lms::HashCount;
use mb_model::{NoMemory, State};
use std::alloc::Global;
use std::sync::ledger::Ledger;

/// The image of the same device in the current form, with no work pending: written from nothing for the state that the
/// image means or, if it means none in the current form, for the state that it meant before the flash was divided into
/// segments. It takes at most 1,242,660 hashes, twice those of `stand_for`.
///
/// Errors: those of `ImageEnd`, with the fault of the image in the current form.
#[tactic(auto, using(crate::proofs::Migrations::either_fits))]
pub fn migrate<L: Ledger>(
    alloc: Global,
    image: &[u8],
    hashes: &mut HashCount<L>,
) -> Result<Vec<u8>, ImageEnd>
    ensures migrated { IfOk result (λ out. IsMigrated image.now out.items) }
    ensures kept { IfOk result (λ out. MeansTheSame image.now out.items) }
    ensures fault { IfErr result (λ end. IfSome (fault_of end) (CannotMigrate image.now)) }
    ensures cost { hashes.new ≤ hashes.old + 2 * IMAGE_HASHES }
{
    let state = either_stand_for(alloc, image, hashes)?;
    Ok(write_image(alloc, &state)?)
}

/// The state that the image means in the current form or, if it means none in that form, the state that it meant in the
/// earlier form; if it is well formed in neither, its fault in the current form.
#[tactic(auto, using(crate::proofs::Migrations::cannot_migrate))]
fn either_stand_for<L: Ledger>(
    alloc: Global,
    image: &[u8],
    hashes: &mut HashCount<L>,
) -> Result<Option<State>, ImageEnd>
    ensures stands { IfOk result (λ state. StandsByEither image.now state) }
    ensures fault { IfErr result (λ end. IfSome (fault_of end) (CannotMigrate image.now)) }
    ensures cost { hashes.new ≤ hashes.old + 2 * IMAGE_HASHES }
{
    let fault = match read_by::<Segments, L>(alloc, image, hashes)? {
        Reading::State(state) => return Ok(state),
        Reading::Fault(fault) => fault,
    };
    match read_by::<OneRecord, L>(alloc, image, hashes)? {
        Reading::State(state) => Ok(state),
        Reading::Fault(_) => Err(fault),
    }
}

/// What an image is found to be by a form of the flash.
#[derive(Drop)]
enum Reading {
    /// The image means this state.
    State(Option<State>),
    /// The image means no state, and this is its first fault.
    Fault(ImageEnd),
}

/// What the image is found to be by a form of the flash.
fn read_by<F: FlashForm, L: Ledger>(
    alloc: Global,
    image: &[u8],
    hashes: &mut HashCount<L>,
) -> Result<Reading, NoMemory>
    ensures read { IfOk result (λ reading. IsReadBy F.form image.now reading) }
    ensures cost { hashes.new ≤ hashes.old + IMAGE_HASHES }
{
    match stand_for_by::<F, L>(alloc, image, hashes) {
        Ok(state) => Ok(Reading::State(state)),
        Err(end) => match end {
            ImageEnd::NoMemory => Err(NoMemory),
            fault => Ok(Reading::Fault(fault)),
        },
    }
}
