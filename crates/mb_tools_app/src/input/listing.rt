//! The code to be listed, as an input.
//!
//! The code is read by functions of its own, since its value is its instructions, and what is kept is their text.

ghost use Rattle.std.specs.Prelude.{IfOk, IfErr};
ghost use Rattle.mb_console.specs.Ending.{StopsAt};
ghost use Rattle.mb_tools_app.specs.AppInputs.{listing_input};
ghost use Rattle.mb_tools_app.specs.Reads.{HasListing, HasLabelledListing};

use mb_appvm::{DisasmEnd, disassemble};
use mb_assembler::list_with_labels;
use mb_console::{End, read_input};
use mb_host::Host;
use mb_model::{Bytes, CODE_LIMIT};
use mb_model_commands::{Place, Role};
use std::alloc::Global;

/// Reads a code, and lists it: the text has the line of each of its instructions.
pub fn read_listing<H: Host>(alloc: Global, host: &mut H, name: &str) -> Result<Bytes, End>
    ensures read { IfOk result (HasListing name.now (H.outside host.old) (H.outside host.new)) }
    ensures err { IfErr result (StopsAt (listing_input name.now) (H.outside host.old) (H.outside host.new)) }
{
    let code = read_input(alloc, host, Role::Code, name)?;
    if code.len() > CODE_LIMIT as usize {
        return Err(End::Faulty(Role::Code, Place::Length));
    }
    match disassemble(alloc, &code) {
        Ok(text) => Ok(text),
        Err(DisasmEnd::NoInstruction { at }) => Err(End::Faulty(Role::Code, Place::At(at))),
        Err(DisasmEnd::NoMemory) => Err(End::NoMemory),
    }
}

/// Reads a code, and lists it with labels and places.
pub fn read_labelled_listing<H: Host>(alloc: Global, host: &mut H, name: &str) -> Result<Bytes, End>
    ensures read { IfOk result (HasLabelledListing name.now (H.outside host.old) (H.outside host.new)) }
    ensures err { IfErr result (StopsAt (listing_input name.now) (H.outside host.old) (H.outside host.new)) }
{
    let code = read_input(alloc, host, Role::Code, name)?;
    if code.len() > CODE_LIMIT as usize {
        return Err(End::Faulty(Role::Code, Place::Length));
    }
    match list_with_labels(alloc, &code) {
        Ok(text) => Ok(text),
        Err(DisasmEnd::NoInstruction { at }) => Err(End::Faulty(Role::Code, Place::At(at))),
        Err(DisasmEnd::NoMemory) => Err(End::NoMemory),
    }
}
