//! The command `trust`.

ghost use Rattle.std.specs.Prelude.{◌≡◌, map, IfOk};
ghost use Rattle.mb_model.specs.chains.Acceptance.{chain_acceptance};
ghost use Rattle.mb_console.specs.Ending.{CarriesOut};
ghost use Rattle.mb_console.specs.Words.{given_argument};
ghost use Rattle.mb_policy.specs.Meanings.{policy_items};
ghost use Rattle.mb_tools_policy.specs.TrustCommand.{trust, judge_verdict, denied_line};
ghost use Rattle.mb_tools_policy.specs.Names.{trust_files, trust_given};
ghost use Rattle.mb_tools_policy.specs.Denials.{TellsDenial};

use crate::input::PolicyForm;
use mb_console::{Arguments, End, LongLine, file, finish, number, read_as};
use mb_host::Host;
use mb_model::NoMemory;
use mb_model_commands::Role;
use mb_policy::{Judgement, Policy, judge_report};
use mb_tools::verify::end_of;
use mb_tools::{AnyBytes, PublicKeyForm};
use mb_verifier::{Report, verify};
use std::alloc::Global;

/// The names of the files of `trust`, and the number of the key that is reported on.
#[derive(Clone, Copy)]
pub struct TrustNames<'a> {
    pub root: &'a str,
    pub chain: &'a str,
    pub key: u32,
    pub policy: &'a str,
}

impl<'a> TrustNames<'a> {
    /// The names and the number among the arguments of a command line, by their places.
    pub fn of(given: &Arguments<'a>) -> Self
        ensures { trust_files result ≡ trust_given (map given_argument given.now.items) }
    {
        TrustNames {
            root: file(given, 0),
            chain: file(given, 1),
            key: number(given, 2),
            policy: file(given, 3),
        }
    }
}

/// Verifies a chain under the maker's public key, and then judges by a policy what it says of a key: prints that the
/// policy allows each configuration, or refuses.
pub fn trust<H: Host>(alloc: Global, names: &TrustNames<'_>, host: &mut H) -> Result<(), End>
    ensures { CarriesOut (trust (trust_files names.now)) (H.outside host.old) result (H.outside host.new) }
{
    let root = read_as(alloc, host, Role::Root, names.root, PublicKeyForm)?;
    let chain = read_as(alloc, host, Role::Chain, names.chain, AnyBytes)?;
    let policy = read_as(alloc, host, Role::Policy, names.policy, PolicyForm)?;
    match verify(alloc, &root, &chain, names.key) {
        Ok(report) => judge(alloc, &policy, &report, host),
        Err(why) => Err(end_of(why)),
    }
}

/// Judges the report of an accepted chain by a policy.
fn judge<H: Host>(alloc: Global, policy: &Policy, report: &Report, host: &mut H) -> Result<(), End>
    ensures { CarriesOut (judge_verdict (policy_items policy.now) (chain_acceptance report.now)) (H.outside host.old) result (H.outside host.new) }
{
    match judge_report(alloc, policy, report) {
        Ok(Judgement::Allowed) => finish(host, &[], b"allowed\n"),
        Ok(Judgement::Denied { number, rule }) => {
            Err(end_of_denial(alloc, number, rule.as_slice()))
        }
        Err(_) => Err(End::NoMemory),
    }
}

/// The end of a command if the configuration with this number is denied by the rule of this name.
fn end_of_denial(alloc: Global, number: u32, rule: &[u8]) -> End
    ensures { TellsDenial number rule.now result }
{
    match denied_line(alloc, number, rule) {
        Ok(line) => End::RefusedAtLength(line),
        Err(_) => End::NoMemory,
    }
}

/// The line with the number of the configuration that is denied, and the name of the rule that denies it. It is made
/// with memory, though it has at most 50 bytes: that the name of a rule has at most 32 is a fact about policies that
/// were read, which `judge_report` does not say, and an invariant of `Policy` would be for this alone.
fn denied_line(alloc: Global, number: u32, rule: &[u8]) -> Result<LongLine, NoMemory>
    ensures { IfOk result (λ line. line ≡ denied_line number rule.now) }
{
    let mut line = format!(in alloc; "denied {number} ")?.into_bytes();
    line.extend_from_slice(rule)?;
    LongLine::new(line)
}
