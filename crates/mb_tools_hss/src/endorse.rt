//! The command `endorse`.

ghost use Rattle.std.specs.Prelude.{◌+◌, ◌≤◌, ◌*◌, ◌≡◌, IfOk, map, string_bytes};
ghost use Rattle.mb_model.specs.declared.key.PublicKey.{PublicKey as RootKey};
ghost use Rattle.mb_model_commands.specs.Sign.{index_text};
ghost use Rattle.mb_console.specs.Ending.{CarriesOut};
ghost use Rattle.mb_console.specs.Words.{given_argument};
ghost use Rattle.mb_hss.specs.declared.maker.Maker.{Maker};
ghost use Rattle.mb_hss.specs.MakerKeys.{IsMaker};
ghost use Rattle.mb_hss.specs.MakerSignatures.{Signs};
ghost use Rattle.mb_tools_hss.specs.Endorse.{endorse, use_number, endorsed_text};
ghost use Rattle.mb_tools_hss.specs.Names.{endorse_files, endorse_given};
ghost use Rattle.mb_tools_hss.specs.Unendorsed.{TellsUnendorsed};
ghost use Rattle.mb_lms.specs.declared.hash_count.TheConstants.{SIGNING_HASHES};
ghost use Rattle.mb_hss.specs.declared.limits.TheConstants.{LEVEL_LIMIT};

use crate::input::MakerForm;
use mb_console::{Arguments, End, Output, file, finish, read_as, refused};
use mb_host::Host;
use mb_hss::{HssEnd, Maker, sign, write_maker};
use mb_lms::{HashCount, key_bytes};
use mb_model::NoMemory;
use mb_model_commands::Role;
use mb_tools::PublicKeyForm;
use std::alloc::Global;
use std::sync::ledger::Ledger;

/// Domain separator of what a maker's HSS key signs to endorse a root key. It differs from those of what owners,
/// devices and regions sign. This crate alone signs and verifies such a text. Among the others, in `mb_model`, it would
/// have every crate proved anew for one command.
pub const ENDORSED_TEXT: u8 = 0x05;

/// The names of the files of `endorse`.
#[derive(Clone, Copy)]
pub struct EndorseNames<'a> {
    pub key: &'a str,
    pub root: &'a str,
    pub out: &'a str,
}

impl<'a> EndorseNames<'a> {
    /// The names by the places of the arguments.
    pub fn of(given: &Arguments<'a>) -> Self
        ensures { endorse_files result ≡ endorse_given (map given_argument given.now.items) }
    {
        EndorseNames {
            key: file(given, 0),
            root: file(given, 1),
            out: file(given, 2),
        }
    }
}

/// Endorses a root key by a maker's HSS key: writes the key with one more of its numbers used, then the signature, and
/// prints the number.
pub fn endorse<H: Host, L: Ledger>(
    alloc: Global,
    names: &EndorseNames<'_>,
    host: &mut H,
    hashes: &mut HashCount<L>,
) -> Result<(), End>
    ensures carried { CarriesOut (endorse (endorse_files names.now)) (H.outside host.old) result (H.outside host.new) }
    ensures cost { hashes.new ≤ hashes.old + (SIGNING_HASHES + 2) * LEVEL_LIMIT }
{
    let mut maker = read_as(alloc, host, Role::Key, names.key, MakerForm)?;
    let root = read_as(alloc, host, Role::Root, names.root, PublicKeyForm)?;
    let body = key_bytes(&root);
    let mut signature = Vec::new(alloc);
    match sign(&mut maker, &[ENDORSED_TEXT], &body, &mut signature, hashes) {
        Ok(index) => use_number(alloc, names, &maker, signature, index, host),
        Err(end) => Err(end_of(end)),
    }
}

/// The end of a command whose maker has not signed.
fn end_of(end: HssEnd) -> End
    ensures { TellsUnendorsed end result }
{
    match end {
        HssEnd::Spent => refused("spent"),
        HssEnd::NoMemory => End::NoMemory,
    }
}

/// Writes a maker's file with one more of its numbers used, then the signature with that number, and prints the number.
fn use_number<H: Host>(
    alloc: Global,
    names: &EndorseNames<'_>,
    maker: &Maker,
    signature: Vec<u8>,
    index: u64,
    host: &mut H,
) -> Result<(), End>
    requires { IsMaker maker.now }
    ensures { (before : Maker) (root : RootKey) → Signs before (endorsed_text root) signature.items maker.now → index ≡ before.next
        → CarriesOut (use_number (endorse_files names.now) before root) (H.outside host.old) result (H.outside host.new) }
{
    let Ok(text) = index_text(alloc, index) else {
        return Err(End::NoMemory);
    };
    let file = write_maker(maker);
    let outputs = [
        Output {
            role: Role::Key,
            name: names.key,
            bytes: &file,
        },
        Output {
            role: Role::Out,
            name: names.out,
            bytes: &signature,
        },
    ];
    finish(host, &outputs, text.as_bytes())
}

/// The line of an index.
fn index_text(alloc: Global, index: u64) -> Result<String, NoMemory>
    ensures { IfOk result (λ text. string_bytes text ≡ index_text index) }
{
    Ok(format!(in alloc; "index {index}\n")?)
}
