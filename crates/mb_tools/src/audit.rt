//! The command `audit`.

ghost use Rattle.std.specs.Prelude.{◌+◌, ◌≡◌, ◌≤◌, ◌↔◌, length, IfOk, IsTrue, Some, map};
ghost use Rattle.mb_model.specs.declared.limits.TheConstants.{FILE_LIMIT};
ghost use Rattle.mb_model.specs.memories.Valid.{IsValidState};
ghost use Rattle.mb_model.specs.chains.Acceptance.{chain_acceptance};
ghost use Rattle.mb_model.specs.chains.DeviceChains.{own_lives};
ghost use Rattle.mb_model_commands.specs.AuditCommand.{audit, audit_chain, compare};
ghost use Rattle.mb_model_memory.specs.Storable.{IsStorableState};
ghost use Rattle.mb_tools.specs.Names.{audit_files, audit_given};
ghost use Rattle.mb_console.specs.Words.{given_argument};
ghost use Rattle.mb_console.specs.Ending.{CarriesOut};
ghost use Rattle.mb_image.specs.declared.image.TheConstants.{IMAGE_HASHES};

use crate::input::chains::AnyBytes;
use crate::input::devices::{Image, read_image};
use crate::input::keys::PublicKeyForm;
use crate::verify::end_of;
use mb_console::{Arguments, End, file, finish, number, read_as, refused};
use mb_host::Host;
use mb_lms::HashCount;
use mb_log::lives;
use mb_model::{Configuration, Lives, NoMemory, PublicKey, State};
use mb_model_commands::Role;
use mb_verifier::{Report, verify as judge};
use std::alloc::Global;
use std::sync::ledger::Ledger;

/// The names of the files of `audit`, and the number of the key to audit.
#[derive(Clone, Copy)]
pub struct AuditNames<'a> {
    pub image: &'a str,
    pub root: &'a str,
    pub chain: &'a str,
    pub key: u32,
}

impl<'a> AuditNames<'a> {
    /// The names by their places among the arguments of `audit`.
    pub fn of(given: &Arguments<'a>) -> AuditNames<'a>
        ensures { audit_files result ≡ audit_given (map given_argument given.now.items) }
    {
        AuditNames {
            image: file(given, 0),
            root: file(given, 1),
            chain: file(given, 2),
            key: number(given, 3),
        }
    }
}

/// Audits a chain under the maker's public key: prints that it lists exactly the configurations in which the device
/// held the key, or refuses.
pub fn audit<H: Host, L: Ledger>(
    alloc: Global,
    names: &AuditNames<'_>,
    host: &mut H,
    hashes: &mut HashCount<L>,
) -> Result<(), End>
    ensures carried { CarriesOut (audit (audit_files names.now)) (H.outside host.old) result (H.outside host.new) }
    ensures cost { hashes.new ≤ hashes.old + IMAGE_HASHES }
{
    let Image { bytes: _, state } = read_image(alloc, host, names.image, hashes)?;
    let root = read_as(alloc, host, Role::Root, names.root, PublicKeyForm)?;
    let chain = read_as(alloc, host, Role::Chain, names.chain, AnyBytes)?;
    match state {
        Some(state) => audit_chain(alloc, names, &state, &root, &chain, host),
        None => Err(refused("zeroised")),
    }
}

/// Audits this chain of a live device.
fn audit_chain<H: Host>(
    alloc: Global,
    names: &AuditNames<'_>,
    state: &State,
    root: &PublicKey,
    chain: &[u8],
    host: &mut H,
) -> Result<(), End>
    requires valid { IsValidState state.now }
    requires stored { IsStorableState state.now }
    requires short { length chain.now ≤ FILE_LIMIT }
    ensures { CarriesOut (audit_chain (audit_files names.now) (Some state.now) root.now chain.now) (H.outside host.old) result (H.outside host.new) }
{
    match judge(alloc, root, chain, names.key) {
        Ok(report) => compare(alloc, names.key, state, &report, host),
        Err(why) => Err(end_of(why)),
    }
}

/// Compares the configurations that a chain lists for the key with those of the device's own log.
fn compare<H: Host>(
    alloc: Global,
    key: u32,
    state: &State,
    report: &Report,
    host: &mut H,
) -> Result<(), End>
    requires valid { IsValidState state.now }
    requires stored { IsStorableState state.now }
    ensures { CarriesOut (compare state.now key (chain_acceptance report.now)) (H.outside host.old) result (H.outside host.new) }
{
    let Ok(own) = own_lives(alloc, state, report.entries, key) else {
        return Err(End::NoMemory);
    };
    if are_same(report.lives.as_slice(), own.as_slice()) {
        finish(host, &[], b"agrees\n")
    } else {
        Err(refused("differs"))
    }
}

/// The configurations in which the device held the key, by the first `count` entries of its log.
fn own_lives(alloc: Global, state: &State, count: u32, key: u32) -> Result<Lives, NoMemory>
    requires valid { IsValidState state.now }
    requires stored { IsStorableState state.now }
    ensures { IfOk result (λ list. list ≡ own_lives state.now count key) }
{
    let log = state.log.as_slice();
    let count = (count as usize).min(log.len());
    lives(alloc, &log[..count], key)
}

/// Whether two lists have the same configurations in the same order.
fn are_same(first: &[Configuration], second: &[Configuration]) -> bool
    ensures { IsTrue result ↔ (first.now ≡ second.now) }
{
    first == second
}
