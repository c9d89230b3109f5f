//! The form of the assembler texts among the inputs.

use mb_appvm::{AsmEnd, assemble};
use mb_console::{Form, Unread};
use mb_model::Bytes;
use mb_model_commands::Place;
use std::alloc::Global;

/// An assembler text, whose value is a code of at most 32,768 bytes.
#[derive(Clone, Copy)]
pub struct AssemblyForm;

impl Form for AssemblyForm {
    ghost use Rattle.std.specs.Prelude.{ℕ, List, [], ◌≤◌, length};
    ghost use Rattle.mb_model.specs.declared.limits.TheConstants.{CODE_LIMIT};
    ghost use Rattle.mb_tools_app.specs.AppInputs.{assembly_input};

    type Value = Bytes;

    ghost Meaning = { List ℕ };

    ghost meaning = { λ code. code };

    ghost Is = { λ form. (assembly_input []).Is };

    ghost FaultyAt = { λ form. (assembly_input []).FaultyAt };

    ghost Keeps = { λ code. length code ≤ CODE_LIMIT };

    fn read(self, alloc: Global, bytes: Vec<u8>) -> Result<Bytes, Unread> {
        match assemble(alloc, &bytes) {
            Ok(code) => Ok(code),
            Err(AsmEnd::BadLine { line }) => Err(Unread::At(Place::Line(line))),
            Err(AsmEnd::NoMemory) => Err(Unread::NoMemory),
        }
    }
}
