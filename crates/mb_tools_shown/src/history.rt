//! The command `history`.

ghost use Rattle.std.specs.Prelude.{◌≡◌, ◌≤◌, length, map};
ghost use Rattle.mb_model.specs.declared.limits.TheConstants.{ENTRY_LIMIT};
ghost use Rattle.mb_model.specs.owners.Log.{entries_of, RuledLog};
ghost use Rattle.mb_console.specs.Ending.{CarriesOut};
ghost use Rattle.mb_console.specs.Words.{given_argument};
ghost use Rattle.mb_tools_shown.specs.HistoryCommand.{has_history, history, tell_history};
ghost use Rattle.mb_tools_shown.specs.Names.{history_files, history_given};

use crate::told::{Told, find_history, history_text};
use mb_console::{Arguments, End, file, finish, read_as};
use mb_host::Host;
use mb_model_commands::Role;
use mb_tools::verify::end_of;
use mb_tools::{AnyBytes, PublicKeyForm};
use std::alloc::Global;

/// The names of the files of `history`.
#[derive(Clone, Copy)]
pub struct HistoryNames<'a> {
    pub root: &'a str,
    pub chain: &'a str,
}

impl<'a> HistoryNames<'a> {
    /// The names by their places among the arguments of `history`.
    pub fn of(given: &Arguments<'a>) -> HistoryNames<'a>
        ensures { history_files result ≡ history_given (map given_argument given.now.items) }
    {
        HistoryNames {
            root: file(given, 0),
            chain: file(given, 1),
        }
    }
}

/// Verifies a chain under the maker's public key, whichever keys it makes, and tells its history entry by entry.
pub fn history<H: Host>(alloc: Global, names: &HistoryNames<'_>, host: &mut H) -> Result<(), End>
    ensures { CarriesOut (history (history_files names.now)) (H.outside host.old) result (H.outside host.new) }
{
    let root = read_as(alloc, host, Role::Root, names.root, PublicKeyForm)?;
    let chain = read_as(alloc, host, Role::Chain, names.chain, AnyBytes)?;
    match find_history(alloc, &root, &chain) {
        Ok(told) => tell(alloc, &told, host),
        Err(why) => Err(end_of(why)),
    }
}

/// Prints a history.
fn tell<H: Host>(alloc: Global, told: &Told, host: &mut H) -> Result<(), End>
    requires short { length told.now.chain.entries ≤ ENTRY_LIMIT }
    requires ruled { RuledLog (entries_of told.now.chain.entries) }
    ensures { CarriesOut (tell_history (has_history told.now.chain told.now.signer)) (H.outside host.old) result (H.outside host.new) }
{
    match history_text(alloc, told) {
        Ok(text) => finish(host, &[], &text),
        Err(_) => Err(End::NoMemory),
    }
}
