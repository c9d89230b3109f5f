//! The commands by their words.

ghost use Rattle.std.specs.Prelude.{◌≡◌, ◌<◌, ◌⊎◌, ℕ, MatchOption, List, Option, [], map, None, Some, false, string_bytes};
ghost use Rattle.mb_model.specs.outside.Board.{not_used, use_of};
ghost use Rattle.mb_model_commands.specs.Commands.{HasInputsFor, ComesToRefusal, IsFaultless};
ghost use Rattle.mb_console.specs.Words.{Argument, IsCall, given_argument};
ghost use Rattle.mb_top.specs.CommandTable.{commands};
ghost use Rattle.mb_top.specs.Top.{command_of, Ends, HoldsAfter, HoldsAfterWords, HoldsAtStatus, CarriesOutWords};
ghost use Rattle.mb_tools_device.specs.Boards.{IsFresh, CarriesOutOn};

use crate::table::{Call, Command, GROUPS, call_in};
use mb_board::Board;
use mb_console::{End, stop};
use mb_host::Host;
use mb_lms::HashCount;
use mb_tools::attach::{AttachNames, attach};
use mb_tools::audit::{AuditNames, audit};
use mb_tools::chain::{ChainNames, chain};
use mb_tools::factory::{FactoryNames, factory};
use mb_tools::keygen::{KeygenNames, keygen};
use mb_tools::migrate::{MigrateNames, migrate};
use mb_tools::sign::{CountersignNames, SignNames, countersign, sign};
use mb_tools::verify::{VerifyNames, verify};
use mb_tools_app::app::{AppNames, app};
use mb_tools_app::appcode::{AppcodeNames, appcode};
use mb_tools_app::asm::{AsmNames, asm};
use mb_tools_app::callcode::{CallcodeNames, callcode};
use mb_tools_app::disasm::{DisasmNames, disasm};
use mb_tools_app::showcode::{ShowcodeNames, showcode};
use mb_tools_device::cutat::{CutNames, cutat};
use mb_tools_device::generate::{GenerateNames, generate};
use mb_tools_device::rehearse::rehearse;
use mb_tools_device::run::{RunNames, run};
use mb_tools_fleet::devices::{DevicesNames, devices};
use mb_tools_fleet::enrol::{EnrolNames, enrol};
use mb_tools_fleet::fleet::{FleetNames, fleet};
use mb_tools_fleet::register::{RegisterNames, register};
use mb_tools_hss::endorse::{EndorseNames, endorse};
use mb_tools_hss::endorsed::{EndorsedNames, endorsed};
use mb_tools_hss::hsskeygen::{HsskeygenNames, hsskeygen};
use mb_tools_hss::showmaker::{ShowMakerNames, showmaker};
use mb_tools_orders::cosign::{CosignNames, cosign};
use mb_tools_orders::ordered::{OrderedNames, ordered};
use mb_tools_orders::showkey::{ShowKeyNames, showkey};
use mb_tools_orders::showorder::{ShowOrderNames, showorder};
use mb_tools_policy::trust::{TrustNames, trust};
use mb_tools_shown::history::{HistoryNames, history};
use mb_tools_shown::showimage::{ShowimageNames, showimage};
use std::alloc::Global;
use std::marker::Brand;
use std::sync::ledger::{Blank, Ledger};

/// Does what the words say, up to the line of its status. The hashes of keys and signatures are counted from here on.
fn command<H: Host, B: Board>(
    alloc: Global,
    words: &[String],
    host: &mut H,
    board: &mut B,
) -> Result<(), End>
    requires fresh { IsFresh (B.seen board.old) }
    ensures carried { CarriesOutWords (map string_bytes words.now) (use_of (B.seen board.new).ledger) (B.seen board.new).ledger.standing
        (H.outside host.old) result (H.outside host.new) }
    ensures stays { HoldsAfterWords (map string_bytes words.now) result (B.seen board.old) (B.seen board.new) }
{
    counted_command::<H, B, Brand>(alloc, words, host, board, Blank::new(1))
}

/// Does what the words say, up to the line of its status, with a count of hashes over this ledger.
fn counted_command<H: Host, B: Board, L: Ledger>(
    alloc: Global,
    words: &[String],
    host: &mut H,
    board: &mut B,
    blank: Blank,
) -> Result<(), End>
    requires name { blank.name ≡ L.name }
    requires parts { blank.parts ≡ L.parts }
    requires some { 0 < blank.parts }
    requires fresh { IsFresh (B.seen board.old) }
    ensures carried { CarriesOutWords (map string_bytes words.now) (use_of (B.seen board.new).ledger) (B.seen board.new).ledger.standing
        (H.outside host.old) result (H.outside host.new) }
    ensures stays { HoldsAfterWords (map string_bytes words.now) result (B.seen board.old) (B.seen board.new) }
{
    let mut hashes = HashCount::<L>::begin(alloc, blank);
    match called(words) {
        Some(call) => carry_out(alloc, &call, host, board, &mut hashes),
        None => Err(End::Words),
    }
}

/// The command that the words call; `None` if they call none.
fn called(words: &[String]) -> Option<Call<'_>>
    ensures { MatchOption result
        ((called : Command) (given : List Argument) → IsCall commands (map string_bytes words.now) called given → ⊥)
        (λ call. IsCall commands (map string_bytes words.now) call.command (map given_argument call.arguments.items)) }
{
    call_in(&GROUPS, words)
}

/// Carries out a command, up to the line of its status.
fn carry_out<H: Host, B: Board, L: Ledger>(
    alloc: Global,
    call: &Call<'_>,
    host: &mut H,
    board: &mut B,
    hashes: &mut HashCount<L>,
) -> Result<(), End>
    requires called { (words : List (List ℕ)) × IsCall commands words call.now.command (map given_argument call.now.arguments.items) }
    requires fresh { IsFresh (B.seen board.old) }
    ensures carried { CarriesOutOn (command_of call.now.command (map given_argument call.now.arguments.items))
        (B.seen board.new) (H.outside host.old) result (H.outside host.new) }
    ensures stays { HoldsAfter call.now.command result (B.seen board.old) (B.seen board.new) }
{
    let given = &call.arguments;
    match call.command {
        Command::Run => run(alloc, &RunNames::of(given), host, board, hashes),
        Command::Rehearse => rehearse(alloc, &RunNames::of(given), host, board, hashes),
        Command::Showimage => showimage(alloc, &ShowimageNames::of(given), host, hashes),
        Command::History => history(alloc, &HistoryNames::of(given), host),
        Command::Cutat => cutat(alloc, &CutNames::of(given), host, board, hashes),
        Command::Verify => verify(alloc, &VerifyNames::of(given), host),
        Command::Audit => audit(alloc, &AuditNames::of(given), host, hashes),
        Command::Trust => trust(alloc, &TrustNames::of(given), host),
        Command::Chain => chain(alloc, &ChainNames::of(given), host, hashes),
        Command::Attach => attach(alloc, &AttachNames::of(given), host),
        Command::Fleet => fleet(alloc, &FleetNames::of(given), host),
        Command::Register => register(alloc, &RegisterNames::of(given), host),
        Command::Enrol => enrol(alloc, &EnrolNames::of(given), host),
        Command::Devices => devices(alloc, &DevicesNames::of(given), host),
        Command::Factory => factory(alloc, &FactoryNames::of(given), host, hashes),
        Command::Keygen => keygen(alloc, &KeygenNames::of(given), host, hashes),
        Command::Showkey => showkey(alloc, &ShowKeyNames::of(given), host, hashes),
        Command::Sign => sign(alloc, &SignNames::of(given), host, hashes),
        Command::Countersign => countersign(alloc, &CountersignNames::of(given), host, hashes),
        Command::Cosign => cosign(alloc, &CosignNames::of(given), host, hashes),
        Command::Showorder => showorder(alloc, &ShowOrderNames::of(given), host),
        Command::Ordered => ordered(alloc, &OrderedNames::of(given), host),
        Command::Hsskeygen => hsskeygen(alloc, &HsskeygenNames::of(given), host, hashes),
        Command::Showmaker => showmaker(alloc, &ShowMakerNames::of(given), host, hashes),
        Command::Endorse => endorse(alloc, &EndorseNames::of(given), host, hashes),
        Command::Endorsed => endorsed(alloc, &EndorsedNames::of(given), host),
        Command::Migrate => migrate(alloc, &MigrateNames::of(given), host, hashes),
        Command::App => app(alloc, &AppNames::of(given), host, hashes),
        Command::Appcode => appcode(alloc, &AppcodeNames::of(given), host),
        Command::Callcode => callcode(alloc, &CallcodeNames::of(given), host),
        Command::Asm => asm(alloc, &AsmNames::of(given), host),
        Command::Disasm => disasm(alloc, &DisasmNames::of(given), host),
        Command::Showcode => showcode(alloc, &ShowcodeNames::of(given), host),
        Command::Generate => generate(alloc, &GenerateNames::of(given), host, board, hashes),
    }
}

/// Does what the words say, over this host and this board, and answers the exit status. Its clause `complete` does not
/// ask that no absence was counted, which follows from having the files.
pub fn top<H: Host, B: Board>(alloc: Global, words: &[String], host: &mut H, board: &mut B) -> u8
    requires off { (B.seen board.old).power ≡ false }
    requires none_out { (B.seen board.old).ledger.out ≡ None }
    requires none_waiting { (B.seen board.old).ledger.waiting ≡ [] }
    requires never_used { use_of (B.seen board.old).ledger ≡ not_used }
    ensures ends { Ends (map string_bytes words.now) (record {
      before = H.outside host.old;
      after = H.outside host.new;
      used = use_of (B.seen board.new).ledger;
      final = (B.seen board.new).ledger.standing;
      status = result;
    }) }
    ensures complete { (called : Command) (given : List Argument) → IsCall commands (map string_bytes words.now) called given
        → (files : List ℕ → Option (List ℕ)) → (H.outside host.old).files ≡ Some files → HasInputsFor (command_of called given) files
        → IsFaultless (H.outside host.old) (H.outside host.new)
        → (result ≡ 0) ⊎ (result ≡ 6) ⊎ ((result ≡ 7) × ComesToRefusal (command_of called given) files) }
    ensures stays { HoldsAtStatus (map string_bytes words.now) result (B.seen board.old) (B.seen board.new) }
{
    match command(alloc, words, host, board) {
        Ok(()) => 0,
        Err(end) => stop(host, end),
    }
}
