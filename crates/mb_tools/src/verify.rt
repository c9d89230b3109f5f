//! The command `verify`, and the end of a command whose chain is not accepted.

ghost use Rattle.std.specs.Prelude.{◌≡◌, map};
ghost use Rattle.mb_model.specs.chains.Acceptance.{chain_acceptance};
ghost use Rattle.mb_model_commands.specs.VerifyCommand.{verify, tell_verdict};
ghost use Rattle.mb_verifier.specs.Ends.{chain_refusal_of};
ghost use Rattle.mb_tools.specs.Names.{verify_files, verify_given};
ghost use Rattle.mb_console.specs.Words.{given_argument};
ghost use Rattle.mb_console.specs.Ending.{CarriesOut};
ghost use Rattle.mb_tools.specs.Chains.{TellsRefusal};

use crate::input::chains::AnyBytes;
use crate::input::keys::PublicKeyForm;
use mb_console::{Arguments, End, file, finish, number, read_as, refused_by_number};
use mb_host::Host;
use mb_model_commands::Role;
use mb_verifier::{ChainRefusal, Report, verify as judge, write_listing};
use std::alloc::Global;

/// The names of the files of `verify`, and the number of the key to report on.
#[derive(Clone, Copy)]
pub struct VerifyNames<'a> {
    pub root: &'a str,
    pub chain: &'a str,
    pub key: u32,
}

impl<'a> VerifyNames<'a> {
    /// The names by their places among the arguments of `verify`.
    pub fn of(given: &Arguments<'a>) -> VerifyNames<'a>
        ensures { verify_files result ≡ verify_given (map given_argument given.now.items) }
    {
        VerifyNames {
            root: file(given, 0),
            chain: file(given, 1),
            key: number(given, 2),
        }
    }
}

/// Verifies a chain under the maker's public key, and prints what it says of a key.
pub fn verify<H: Host>(alloc: Global, names: &VerifyNames<'_>, host: &mut H) -> Result<(), End>
    ensures { CarriesOut (verify (verify_files names.now)) (H.outside host.old) result (H.outside host.new) }
{
    let root = read_as(alloc, host, Role::Root, names.root, PublicKeyForm)?;
    let chain = read_as(alloc, host, Role::Chain, names.chain, AnyBytes)?;
    match judge(alloc, &root, &chain, names.key) {
        Ok(report) => print_report(alloc, names.key, &report, host),
        Err(why) => Err(end_of(why)),
    }
}

/// Prints what an accepted chain says of the key with this number.
fn print_report<H: Host>(alloc: Global, key: u32, report: &Report, host: &mut H) -> Result<(), End>
    ensures { CarriesOut (tell_verdict key (chain_acceptance report.now)) (H.outside host.old) result (H.outside host.new) }
{
    match write_listing(alloc, key, report) {
        Ok(text) => finish(host, &[], &text),
        Err(_) => Err(End::NoMemory),
    }
}

/// The end of a command whose chain is not accepted.
pub fn end_of(why: ChainRefusal) -> End
    ensures { TellsRefusal (chain_refusal_of why) result }
{
    match why {
        ChainRefusal::Form { at } => refused_by_number(20, Some(at)),
        ChainRefusal::Signature { entry } => refused_by_number(21, Some(entry)),
        ChainRefusal::Order { entry } => refused_by_number(22, Some(entry)),
        ChainRefusal::Rules { entry } => refused_by_number(23, Some(entry)),
        ChainRefusal::KeyUnknown => refused_by_number(24, None),
        ChainRefusal::StatementSignature => refused_by_number(25, None),
        ChainRefusal::StatementNumber { .. } => refused_by_number(26, None),
        ChainRefusal::NotAlive => refused_by_number(27, None),
        ChainRefusal::NoMemory => End::NoMemory,
    }
}
