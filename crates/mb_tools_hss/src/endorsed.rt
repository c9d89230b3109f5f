//! The command `endorsed`.

ghost use Rattle.std.specs.Prelude.{◌≡◌, map};
ghost use Rattle.mb_console.specs.Ending.{CarriesOut};
ghost use Rattle.mb_console.specs.Words.{given_argument};
ghost use Rattle.mb_tools_hss.specs.Endorsed.{endorsed};
ghost use Rattle.mb_tools_hss.specs.Names.{endorsed_files, endorsed_given};

use crate::endorse::ENDORSED_TEXT;
use crate::input::HssKeyForm;
use mb_console::{Arguments, End, file, finish, read_as, refused};
use mb_host::Host;
use mb_hss::verify;
use mb_lms::key_bytes;
use mb_model_commands::Role;
use mb_tools::{AnyBytes, PublicKeyForm};
use std::alloc::Global;

/// The names of the files of `endorsed`.
#[derive(Clone, Copy)]
pub struct EndorsedNames<'a> {
    pub public: &'a str,
    pub root: &'a str,
    pub endorsement: &'a str,
}

impl<'a> EndorsedNames<'a> {
    /// The names by the places of the arguments.
    pub fn of(given: &Arguments<'a>) -> Self
        ensures { endorsed_files result ≡ endorsed_given (map given_argument given.now.items) }
    {
        EndorsedNames {
            public: file(given, 0),
            root: file(given, 1),
            endorsement: file(given, 2),
        }
    }
}

/// Verifies an endorsement of a root key under a maker's public key: prints that the root key is endorsed, or refuses.
/// Takes no memory but for its inputs.
pub fn endorsed<H: Host>(alloc: Global, names: &EndorsedNames<'_>, host: &mut H) -> Result<(), End>
    ensures { CarriesOut (endorsed (endorsed_files names.now)) (H.outside host.old) result (H.outside host.new) }
{
    let key = read_as(alloc, host, Role::Public, names.public, HssKeyForm)?;
    let root = read_as(alloc, host, Role::Root, names.root, PublicKeyForm)?;
    let endorsement = read_as(alloc, host, Role::Endorsement, names.endorsement, AnyBytes)?;
    if verify(&key, &[ENDORSED_TEXT], &key_bytes(&root), &endorsement) {
        finish(host, &[], b"endorsed\n")
    } else {
        Err(refused("refused 28"))
    }
}
