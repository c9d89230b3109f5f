//! The command `migrate`.

ghost use Rattle.std.specs.Prelude.{◌+◌, ◌≤◌, ◌*◌, ◌≡◌, IfOk, string_bytes, map};
ghost use Rattle.mb_model_commands.specs.MigrateCommand.{migrate, migrated_text};
ghost use Rattle.mb_tools.specs.Names.{migrate_files, migrate_given};
ghost use Rattle.mb_console.specs.Words.{given_argument};
ghost use Rattle.mb_console.specs.Ending.{CarriesOut};
ghost use Rattle.mb_image.specs.declared.image.TheConstants.{IMAGE_HASHES};

use crate::input::devices::read_old_image;
use mb_console::{Arguments, End, Output, file, finish};
use mb_host::Host;
use mb_lms::HashCount;
use mb_model::NoMemory;
use mb_model_commands::Role;
use sha2::{Digest, Sha256};
use std::alloc::Global;
use std::sync::ledger::Ledger;

/// The names of the files of `migrate`.
#[derive(Clone, Copy)]
pub struct MigrateNames<'a> {
    pub image: &'a str,
    pub out: &'a str,
}

impl<'a> MigrateNames<'a> {
    /// The names by their places among the arguments of `migrate`.
    pub fn of(given: &Arguments<'a>) -> MigrateNames<'a>
        ensures { migrate_files result ≡ migrate_given (map given_argument given.now.items) }
    {
        MigrateNames {
            image: file(given, 0),
            out: file(given, 1),
        }
    }
}

/// Writes an image of the current form for the state of an image, which may have the earlier form, and prints the hash
/// of the new image.
pub fn migrate<H: Host, L: Ledger>(
    alloc: Global,
    names: &MigrateNames<'_>,
    host: &mut H,
    hashes: &mut HashCount<L>,
) -> Result<(), End>
    ensures carried { CarriesOut (migrate (migrate_files names.now)) (H.outside host.old) result (H.outside host.new) }
    ensures cost { hashes.new ≤ hashes.old + 2 * IMAGE_HASHES }
{
    let image = read_old_image(alloc, host, names.image, hashes)?;
    let Ok(text) = migrated_text(alloc, &image) else {
        return Err(End::NoMemory);
    };
    let outputs = [Output {
        role: Role::Out,
        name: names.out,
        bytes: &image,
    }];
    finish(host, &outputs, text.as_bytes())
}

/// The line of the hash of an image.
fn migrated_text(alloc: Global, image: &[u8]) -> Result<String, NoMemory>
    ensures { IfOk result (λ text. string_bytes text ≡ migrated_text image.now) }
{
    let hash = hex::encode(alloc, Sha256::digest(image))?;
    Ok(format!(in alloc; "migrated {hash}\n")?)
}
