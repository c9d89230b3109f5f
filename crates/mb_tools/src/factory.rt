//! The command `factory`.

ghost use Rattle.std.specs.Prelude.{◌+◌, ◌≤◌, ◌≡◌, IfOk, string_bytes, map};
ghost use Rattle.mb_model.specs.declared.tools.Keyfile.{Keyfile};
ghost use Rattle.mb_model.specs.machine.SignedOrders.{keyfile_after_use};
ghost use Rattle.mb_model_commands.specs.FactoryCommand.{factory, write_device, serial_text};
ghost use Rattle.mb_tools.specs.Names.{factory_files, factory_given};
ghost use Rattle.mb_console.specs.Words.{given_argument};
ghost use Rattle.mb_console.specs.Ending.{CarriesOut};
ghost use Rattle.mb_lms.specs.declared.hash_count.TheConstants.{SIGNING_HASHES, TREE_HASHES};

use crate::input::devices::CodeForm;
use crate::input::keys::{KeyForm, Leading, PublicKeyForm};
use crate::sign::end_of;
use mb_console::{Arguments, End, Output, file, finish, read_as};
use mb_host::Host;
use mb_lms::HashCount;
use mb_model::{Keyfile, NoMemory};
use mb_model_commands::Role;
use mb_officer::{factory as make_image, write_keyfile};
use std::alloc::Global;
use std::sync::ledger::Ledger;

/// The names of the files of `factory`.
#[derive(Clone, Copy)]
pub struct FactoryNames<'a> {
    pub noise: &'a str,
    pub key: &'a str,
    pub owner: &'a str,
    pub code: &'a str,
    pub image: &'a str,
}

impl<'a> FactoryNames<'a> {
    /// The names by their places among the arguments of `factory`.
    pub fn of(given: &Arguments<'a>) -> FactoryNames<'a>
        ensures { factory_files result ≡ factory_given (map given_argument given.now.items) }
    {
        FactoryNames {
            noise: file(given, 0),
            key: file(given, 1),
            owner: file(given, 2),
            code: file(given, 3),
            image: file(given, 4),
        }
    }
}

/// Makes a device from the noise with this owner and this code, and signs its birth by the maker's key: writes the key
/// with its index advanced, then the image, and prints the serial.
pub fn factory<H: Host, L: Ledger>(
    alloc: Global,
    names: &FactoryNames<'_>,
    host: &mut H,
    hashes: &mut HashCount<L>,
) -> Result<(), End>
    ensures carried { CarriesOut (factory (factory_files names.now)) (H.outside host.old) result (H.outside host.new) }
    ensures cost { hashes.new ≤ hashes.old + TREE_HASHES + SIGNING_HASHES }
{
    let noise = read_as(alloc, host, Role::Noise, names.noise, Leading::<48>)?;
    let mut key = read_as(alloc, host, Role::Key, names.key, KeyForm)?;
    let owner = read_as(alloc, host, Role::Owner, names.owner, PublicKeyForm)?;
    let code = read_as(alloc, host, Role::Code, names.code, CodeForm)?;
    match make_image(alloc, &mut key, &owner, &code, &noise, hashes) {
        Ok(image) => write_device(alloc, names, &noise, &key, image, host),
        Err(end) => Err(end_of(end)),
    }
}

/// Writes a key file with its index advanced, and the image of the device whose birth the key signed, and prints the
/// device's serial.
fn write_device<H: Host>(
    alloc: Global,
    names: &FactoryNames<'_>,
    noise: &[u8; 48],
    key: &Keyfile,
    image: Vec<u8>,
    host: &mut H,
) -> Result<(), End>
    ensures { (before : Keyfile) → key.now ≡ keyfile_after_use before
        → CarriesOut (write_device (factory_files names.now) noise.now before image.items) (H.outside host.old) result (H.outside host.new) }
{
    let Ok(text) = serial_text(alloc, noise) else {
        return Err(End::NoMemory);
    };
    let file = write_keyfile(key);
    let outputs = [
        Output {
            role: Role::Key,
            name: names.key,
            bytes: &file,
        },
        Output {
            role: Role::Image,
            name: names.image,
            bytes: &image,
        },
    ];
    finish(host, &outputs, text.as_bytes())
}

/// The line of the serial of a device that was made from this noise.
fn serial_text(alloc: Global, noise: &[u8; 48]) -> Result<String, NoMemory>
    ensures { IfOk result (λ text. string_bytes text ≡ serial_text noise.now) }
{
    let serial = hex::encode(alloc, &noise[32..48])?;
    Ok(format!(in alloc; "serial {serial}\n")?)
}
