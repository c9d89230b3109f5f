//! The form of the secrets with which a code is called.

use mb_appvm::read_secrets;
use mb_console::{Form, Unread};
use mb_model::Secrets;
use mb_model_commands::Place;
use mb_words::TextEnd;
use std::alloc::Global;

/// The text of the secrets of a region.
#[derive(Clone, Copy)]
pub struct SecretsForm;

impl Form for SecretsForm {
    ghost use Rattle.std.specs.Prelude.{List, []};
    ghost use Rattle.mb_model.specs.declared.region.Secret.{Secret};
    ghost use Rattle.mb_device_regions.specs.Demands.{AreKept};
    ghost use Rattle.mb_tools_app.specs.CallcodeCommand.{secrets_input};

    type Value = Secrets;

    ghost Meaning = { List Secret };

    ghost meaning = { λ secrets. secrets };

    ghost Is = { λ form. (secrets_input []).Is };

    ghost FaultyAt = { λ form. (secrets_input []).FaultyAt };

    ghost Keeps = { AreKept };

    fn read(self, alloc: Global, bytes: Vec<u8>) -> Result<Secrets, Unread> {
        match read_secrets(alloc, &bytes) {
            Ok(secrets) => Ok(secrets),
            Err(TextEnd::BadLine { line }) => Err(Unread::At(Place::Line(line))),
            Err(TextEnd::NoMemory) => Err(Unread::NoMemory),
        }
    }
}
