//! The command `attach`.

ghost use Rattle.std.specs.Prelude.{◌≡◌, map};
ghost use Rattle.mb_model_commands.specs.ChainCommands.{attach};
ghost use Rattle.mb_tools.specs.Names.{attach_files, attach_given};
ghost use Rattle.mb_console.specs.Words.{given_argument};
ghost use Rattle.mb_console.specs.Ending.{CarriesOut};

use crate::chain::write_entries;
use crate::input::chains::{ChainForm, StatementLine};
use mb_cert::attach as attached;
use mb_console::{Arguments, End, file, read_as, refused};
use mb_host::Host;
use mb_model_commands::Role;
use std::alloc::Global;

/// The names of the files of `attach`.
#[derive(Clone, Copy)]
pub struct AttachNames<'a> {
    pub chain: &'a str,
    pub statement: &'a str,
    pub out: &'a str,
}

impl<'a> AttachNames<'a> {
    /// The names by their places among the arguments of `attach`.
    pub fn of(given: &Arguments<'a>) -> AttachNames<'a>
        ensures { attach_files result ≡ attach_given (map given_argument given.now.items) }
    {
        AttachNames {
            chain: file(given, 0),
            statement: file(given, 1),
            out: file(given, 2),
        }
    }
}

/// Attaches a statement to a chain that has none: writes the entries up to the statement's configuration with it, and
/// prints their number.
pub fn attach<H: Host>(alloc: Global, names: &AttachNames<'_>, host: &mut H) -> Result<(), End>
    ensures { CarriesOut (attach (attach_files names.now)) (H.outside host.old) result (H.outside host.new) }
{
    let chain = read_as(alloc, host, Role::Chain, names.chain, ChainForm)?;
    let statement = read_as(alloc, host, Role::Statement, names.statement, StatementLine)?;
    if chain.statement.is_some() {
        return Err(refused("has statement"));
    }
    let stated = attached(chain, statement);
    write_entries(alloc, names.out, &stated, host)
}
