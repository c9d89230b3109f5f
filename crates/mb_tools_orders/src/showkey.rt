//! The command `showkey`.

ghost use Rattle.std.specs.Prelude.{◌+◌, ◌≤◌, ◌≡◌, IfOk, map, string_bytes};
ghost use Rattle.mb_model.specs.declared.limits.TheConstants.{KEY_USES};
ghost use Rattle.mb_console.specs.Ending.{CarriesOut};
ghost use Rattle.mb_console.specs.Words.{given_argument};
ghost use Rattle.mb_tools_orders.specs.Names.{showkey_files, showkey_given};
ghost use Rattle.mb_tools_orders.specs.ShowKey.{key_text, showkey};
ghost use Rattle.mb_lms.specs.declared.hash_count.TheConstants.{TREE_HASHES};

use mb_console::{Arguments, End, file, finish, read_as};
use mb_host::Host;
use mb_lms::{HashCount, key_hash};
use mb_model::{KEY_USES, NoMemory, PublicKey};
use mb_model_commands::Role;
use mb_signer::public;
use mb_tools::KeyForm;
use std::alloc::Global;
use std::sync::ledger::Ledger;

/// The name of the file of `showkey`.
#[derive(Clone, Copy)]
pub struct ShowKeyNames<'a> {
    pub key: &'a str,
}

impl<'a> ShowKeyNames<'a> {
    /// The name by its place among the arguments.
    pub fn of(given: &Arguments<'a>) -> Self
        ensures { showkey_files result ≡ showkey_given (map given_argument given.now.items) }
    {
        ShowKeyNames {
            key: file(given, 0),
        }
    }
}

/// Prints the hash of the public key of an officer's key, its next index, and how many indices are left.
pub fn showkey<H: Host, L: Ledger>(
    alloc: Global,
    names: &ShowKeyNames<'_>,
    host: &mut H,
    hashes: &mut HashCount<L>,
) -> Result<(), End>
    ensures carried { CarriesOut (showkey (showkey_files names.now)) (H.outside host.old) result (H.outside host.new) }
    ensures cost { hashes.new ≤ hashes.old + TREE_HASHES }
{
    let key = read_as(alloc, host, Role::Key, names.key, KeyForm)?;
    let owner = public(&key.seed, hashes);
    let Ok(text) = key_text(alloc, &owner, key.next.number()) else {
        return Err(End::NoMemory);
    };
    finish(host, &[], text.as_bytes())
}

/// The text of a key with this public key and this next index.
fn key_text(alloc: Global, owner: &PublicKey, next: u32) -> Result<String, NoMemory>
    requires { next ≤ KEY_USES }
    ensures { IfOk result (λ text. string_bytes text ≡ key_text owner.now next) }
{
    let hash = hex::encode(alloc, key_hash(owner))?;
    let left = KEY_USES as u32 - next;
    Ok(format!(in alloc; "owner {hash}\nnext {next}\nleft {left}\n")?)
}
