//! The command `showmaker`.

ghost use Rattle.std.specs.Prelude.{◌+◌, ◌≡◌, ◌≤◌, IfOk, map, string_bytes};
ghost use Rattle.mb_console.specs.Ending.{CarriesOut};
ghost use Rattle.mb_console.specs.Words.{given_argument};
ghost use Rattle.mb_hss.specs.MakerKeys.{IsMaker};
ghost use Rattle.mb_tools_hss.specs.Names.{showmaker_files, showmaker_given};
ghost use Rattle.mb_tools_hss.specs.ShowMaker.{maker_lines, showmaker};
ghost use Rattle.mb_lms.specs.declared.hash_count.TheConstants.{TREE_HASHES};

use crate::hsskeygen::maker_text;
use crate::input::MakerForm;
use mb_console::{Arguments, End, file, finish, read_as};
use mb_host::Host;
use mb_hss::{Maker, hss_key_bytes, number_count, public};
use mb_lms::HashCount;
use mb_model::NoMemory;
use mb_model_commands::Role;
use std::alloc::Global;
use std::sync::ledger::Ledger;

/// The name of the file of `showmaker`.
#[derive(Clone, Copy)]
pub struct ShowMakerNames<'a> {
    pub key: &'a str,
}

impl<'a> ShowMakerNames<'a> {
    /// The name by its place among the arguments.
    pub fn of(given: &Arguments<'a>) -> Self
        ensures { showmaker_files result ≡ showmaker_given (map given_argument given.now.items) }
    {
        ShowMakerNames {
            key: file(given, 0),
        }
    }
}

/// Prints the hash of the public key of a maker's key, its levels, its next number, and how many numbers are left.
pub fn showmaker<H: Host, L: Ledger>(
    alloc: Global,
    names: &ShowMakerNames<'_>,
    host: &mut H,
    hashes: &mut HashCount<L>,
) -> Result<(), End>
    ensures carried { CarriesOut (showmaker (showmaker_files names.now)) (H.outside host.old) result (H.outside host.new) }
    ensures cost { hashes.new ≤ hashes.old + TREE_HASHES + 2 }
{
    let maker = read_as(alloc, host, Role::Key, names.key, MakerForm)?;
    let spelled = hss_key_bytes(&public(&maker, hashes));
    let Ok(text) = maker_lines(alloc, &spelled, &maker) else {
        return Err(End::NoMemory);
    };
    finish(host, &[], text.as_bytes())
}

/// The text of a maker with this public key.
fn maker_lines(alloc: Global, public: &[u8; 60], maker: &Maker) -> Result<String, NoMemory>
    requires { IsMaker maker.now }
    ensures { IfOk result (λ text. string_bytes text ≡ maker_lines public.now maker.now) }
{
    let first = maker_text(alloc, public)?;
    let levels = maker.levels;
    let next = maker.next;
    let left = number_count(levels) - next;
    Ok(format!(in alloc; "{first}levels {levels}\nnext {next}\nleft {left}\n")?)
}
