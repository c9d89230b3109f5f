//! The command `chain`, and the writing of a chain.

ghost use Rattle.std.specs.Prelude.{◌+◌, ◌≤◌, ◌≡◌, Some, IfOk, string_bytes, map};
ghost use Rattle.mb_model.specs.memories.Valid.{IsValidState};
ghost use Rattle.mb_model.specs.records.ChainFormat.{chain_format};
ghost use Rattle.mb_model_commands.specs.ChainCommands.{chain, chain_of, write_entries, entries_text};
ghost use Rattle.mb_model_memory.specs.Storable.{IsStorableState};
ghost use Rattle.mb_tools.specs.Names.{chain_files, chain_given};
ghost use Rattle.mb_console.specs.Words.{given_argument};
ghost use Rattle.mb_console.specs.Ending.{CarriesOut};
ghost use Rattle.mb_image.specs.declared.image.TheConstants.{IMAGE_HASHES};

use crate::input::devices::{Image, read_image};
use mb_cert::write_chain;
use mb_console::{Arguments, End, Output, file, finish, refused};
use mb_host::Host;
use mb_lms::HashCount;
use mb_model::{Chain, NoMemory, State};
use mb_model_commands::Role;
use std::alloc::Global;
use std::sync::ledger::Ledger;

/// The names of the files of `chain`.
#[derive(Clone, Copy)]
pub struct ChainNames<'a> {
    pub image: &'a str,
    pub out: &'a str,
}

impl<'a> ChainNames<'a> {
    /// The names by their places among the arguments of `chain`.
    pub fn of(given: &Arguments<'a>) -> ChainNames<'a>
        ensures { chain_files result ≡ chain_given (map given_argument given.now.items) }
    {
        ChainNames {
            image: file(given, 0),
            out: file(given, 1),
        }
    }
}

/// Writes the chain of a device's whole log, and prints how many entries it has.
pub fn chain<H: Host, L: Ledger>(
    alloc: Global,
    names: &ChainNames<'_>,
    host: &mut H,
    hashes: &mut HashCount<L>,
) -> Result<(), End>
    ensures carried { CarriesOut (chain (chain_files names.now)) (H.outside host.old) result (H.outside host.new) }
    ensures cost { hashes.new ≤ hashes.old + IMAGE_HASHES }
{
    let Image { bytes: _, state } = read_image(alloc, host, names.image, hashes)?;
    match state {
        Some(state) => write_log(alloc, names, state, host),
        None => Err(refused("zeroised")),
    }
}

/// Writes the chain of a live device.
fn write_log<H: Host>(
    alloc: Global,
    names: &ChainNames<'_>,
    state: State,
    host: &mut H,
) -> Result<(), End>
    requires valid { IsValidState state }
    requires stored { IsStorableState state }
    ensures { CarriesOut (chain_of (chain_files names.now) (Some state)) (H.outside host.old) result (H.outside host.new) }
{
    let chain = Chain {
        entries: state.log,
        statement: None,
    };
    write_entries(alloc, names.out, &chain, host)
}

/// Writes a chain to the file with this name, and prints how many entries it has.
pub(crate) fn write_entries<H: Host>(
    alloc: Global,
    out: &str,
    chain: &Chain,
    host: &mut H,
) -> Result<(), End>
    requires { chain_format.Allowed chain.now }
    ensures { CarriesOut (write_entries out.now chain.now) (H.outside host.old) result (H.outside host.new) }
{
    let mut bytes = Vec::new(alloc);
    let Ok(()) = write_chain(chain, &mut bytes) else {
        return Err(End::NoMemory);
    };
    let Ok(text) = entries_text(alloc, chain.entries.as_slice().len()) else {
        return Err(End::NoMemory);
    };
    let outputs = [Output {
        role: Role::Out,
        name: out,
        bytes: &bytes,
    }];
    finish(host, &outputs, text.as_bytes())
}

/// The line of the number of entries of a chain.
fn entries_text(alloc: Global, count: usize) -> Result<String, NoMemory>
    ensures { IfOk result (λ text. string_bytes text ≡ entries_text count) }
{
    Ok(format!(in alloc; "entries {count}\n")?)
}
