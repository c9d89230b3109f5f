//! The devices among the inputs: the code of a new device, and the image of a device.
//!
//! Images are read by functions of their own, since the hashes of their keys are counted.

ghost use Rattle.std.specs.Prelude.{◌+◌, ◌≤◌, ◌*◌, IfOk, IfErr};
ghost use Rattle.mb_model.specs.memories.Meaning.{IsWellFormed};
ghost use Rattle.mb_model.specs.memories.Valid.{Valid};
ghost use Rattle.mb_model_commands.specs.MigrateCommand.{old_image_input};
ghost use Rattle.mb_model_commands.specs.Inputs.{image_input};
ghost use Rattle.mb_model_memory.specs.Storable.{Storable};
ghost use Rattle.mb_image.specs.Ends.{fault_of};
ghost use Rattle.mb_console.specs.Ending.{HasInput, StopsAt};
ghost use Rattle.mb_tools.specs.Images.{TellsFault};
ghost use Rattle.mb_image.specs.declared.image.TheConstants.{IMAGE_HASHES};

use mb_console::{End, Form, Unread, read_input};
use mb_host::Host;
use mb_image::{ImageEnd, stand_for};
use mb_lms::HashCount;
use mb_migrate::migrate;
use mb_model::{CODE_LIMIT, State};
use mb_model_commands::{Place, Role};
use std::alloc::Global;
use std::sync::ledger::Ledger;

/// The code of a layer, at most 32,768 bytes.
#[derive(Clone, Copy)]
pub struct CodeForm;

impl Form for CodeForm {
    ghost use Rattle.std.specs.Prelude.{ℕ, List, []};
    ghost use Rattle.mb_model_commands.specs.Inputs.{code_input};

    type Value = Vec<u8>;

    ghost Meaning = { List ℕ };

    ghost meaning = { λ code. code.items };

    ghost Is = { λ form. (code_input []).Is };

    ghost FaultyAt = { λ form. (code_input []).FaultyAt };

    ghost Keeps = { λ code. Unit {0} };

    fn read(self, _alloc: Global, bytes: Vec<u8>) -> Result<Vec<u8>, Unread> {
        if bytes.len() > CODE_LIMIT as usize {
            return Err(Unread::At(Place::Length));
        }
        Ok(bytes)
    }
}

/// An image that was read, and its state; a dead device has none.
#[derive(Drop)]
pub struct Image {
    pub bytes: Vec<u8>,
    pub state: Option<State>,
}

/// Reads the image of a device.
pub fn read_image<H: Host, L: Ledger>(
    alloc: Global,
    host: &mut H,
    name: &str,
    hashes: &mut HashCount<L>,
) -> Result<Image, End>
    ensures form { IfOk result (λ image. IsWellFormed image.bytes.items image.state) }
    ensures valid { IfOk result (λ image. Valid image.state) }
    ensures stored { IfOk result (λ image. Storable image.state) }
    ensures read { IfOk result (λ image. HasInput (image_input name.now) (H.outside host.old) (H.outside host.new)
        (record { bytes = image.bytes.items; state = image.state })) }
    ensures err { IfErr result (StopsAt (image_input name.now) (H.outside host.old) (H.outside host.new)) }
    ensures cost { hashes.new ≤ hashes.old + IMAGE_HASHES }
{
    let bytes = read_input(alloc, host, Role::Image, name)?;
    match stand_for(alloc, &bytes, hashes) {
        Ok(state) => Ok(Image { bytes, state }),
        Err(end) => Err(end_of_image(end)),
    }
}

/// Reads an image of a device, which may have the earlier form, and migrates it to the current form.
pub fn read_old_image<H: Host, L: Ledger>(
    alloc: Global,
    host: &mut H,
    name: &str,
    hashes: &mut HashCount<L>,
) -> Result<Vec<u8>, End>
    ensures read { IfOk result (λ image. HasInput (old_image_input name.now) (H.outside host.old) (H.outside host.new) image.items) }
    ensures err { IfErr result (StopsAt (old_image_input name.now) (H.outside host.old) (H.outside host.new)) }
    ensures cost { hashes.new ≤ hashes.old + 2 * IMAGE_HASHES }
{
    let bytes = read_input(alloc, host, Role::Image, name)?;
    match migrate(alloc, &bytes, hashes) {
        Ok(image) => Ok(image),
        Err(end) => Err(end_of_image(end)),
    }
}

/// The end of a command whose image means no state.
fn end_of_image(end: ImageEnd) -> End
    ensures { TellsFault (fault_of end) result }
{
    match end {
        ImageEnd::Length => End::Faulty(Role::Image, Place::Length),
        ImageEnd::Root => End::Faulty(Role::Image, Place::Root),
        ImageEnd::Public => End::Faulty(Role::Image, Place::Public),
        ImageEnd::RegionTwo => End::Faulty(Role::Image, Place::Region(2)),
        ImageEnd::RegionThree => End::Faulty(Role::Image, Place::Region(3)),
        ImageEnd::State => End::Faulty(Role::Image, Place::State),
        ImageEnd::NoMemory => End::NoMemory,
    }
}
