//! The command `keygen`.

ghost use Rattle.std.specs.Prelude.{◌+◌, ◌≤◌, ◌≡◌, IfOk, string_bytes, map};
ghost use Rattle.mb_model.specs.signatures.Key.{key_bytes};
ghost use Rattle.mb_model_commands.specs.Keygen.{keygen, owner_text};
ghost use Rattle.mb_tools.specs.Names.{keygen_files, keygen_given};
ghost use Rattle.mb_console.specs.Words.{given_argument};
ghost use Rattle.mb_console.specs.Ending.{CarriesOut};
ghost use Rattle.mb_lms.specs.declared.hash_count.TheConstants.{TREE_HASHES};

use crate::input::keys::Leading;
use mb_console::{Arguments, End, Output, file, finish, read_as};
use mb_host::Host;
use mb_lms::{HashCount, key_bytes, key_hash};
use mb_model::{DRAW_LENGTH, NoMemory, PublicKey};
use mb_model_commands::Role;
use mb_officer::{make_key, write_keyfile};
use mb_signer::public;
use std::alloc::Global;
use std::sync::ledger::Ledger;

/// The names of the files of `keygen`.
#[derive(Clone, Copy)]
pub struct KeygenNames<'a> {
    pub noise: &'a str,
    pub key: &'a str,
    pub public: &'a str,
}

impl<'a> KeygenNames<'a> {
    /// The names by their places among the arguments of `keygen`.
    pub fn of(given: &Arguments<'a>) -> KeygenNames<'a>
        ensures { keygen_files result ≡ keygen_given (map given_argument given.now.items) }
    {
        KeygenNames {
            noise: file(given, 0),
            key: file(given, 1),
            public: file(given, 2),
        }
    }
}

/// Derives a key from the noise, writes its file and its public key, and prints the public key's hash.
pub fn keygen<H: Host, L: Ledger>(
    alloc: Global,
    names: &KeygenNames<'_>,
    host: &mut H,
    hashes: &mut HashCount<L>,
) -> Result<(), End>
    ensures carried { CarriesOut (keygen (keygen_files names.now)) (H.outside host.old) result (H.outside host.new) }
    ensures cost { hashes.new ≤ hashes.old + TREE_HASHES }
{
    let noise = read_as(
        alloc,
        host,
        Role::Noise,
        names.noise,
        Leading::<DRAW_LENGTH>,
    )?;
    let key = make_key(&noise);
    let owner = public(&key.seed, hashes);
    let Ok(text) = owner_text(alloc, &owner) else {
        return Err(End::NoMemory);
    };
    let file = write_keyfile(&key);
    let spelled = key_bytes(&owner);
    let outputs = [
        Output {
            role: Role::Key,
            name: names.key,
            bytes: &file,
        },
        Output {
            role: Role::Public,
            name: names.public,
            bytes: &spelled,
        },
    ];
    finish(host, &outputs, text.as_bytes())
}

/// The line of a public key's hash.
fn owner_text(alloc: Global, owner: &PublicKey) -> Result<String, NoMemory>
    ensures { IfOk result (λ text. string_bytes text ≡ owner_text (key_bytes owner.now)) }
{
    let hash = hex::encode(alloc, key_hash(owner))?;
    Ok(format!(in alloc; "owner {hash}\n")?)
}
