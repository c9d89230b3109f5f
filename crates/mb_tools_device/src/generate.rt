//! The command `generate`.

ghost use Rattle.std.specs.Prelude.{◌+◌, ◌*◌, ◌≡◌, ◌≤◌, length, All, IfOk, IfErr, OnOk, map};
ghost use Rattle.mb_model.specs.declared.limits.TheConstants.{EVENT_LIMIT, IMAGE_LENGTH};
ghost use Rattle.mb_model.specs.outside.Board.{IsLoaded, use_of};
ghost use Rattle.mb_model.specs.machine.Machine.{World};
ghost use Rattle.mb_model.specs.memories.Acknowledged.{Shows};
ghost use Rattle.mb_model.specs.chains.Script.{IsScriptEvent};
ghost use Rattle.mb_model_commands.specs.Commands.{Past};
ghost use Rattle.mb_model_commands.specs.GenerateCommand.{generate, summarise};
ghost use Rattle.mb_generate.specs.declared.limits.TheConstants.{ROUND_LIMIT};
ghost use Rattle.mb_generate.specs.Serving.{CanBeServed};
ghost use Rattle.mb_tools_device.specs.Names.{generate_files, generate_given};
ghost use Rattle.mb_console.specs.Words.{given_argument};
ghost use Rattle.mb_console.specs.Ending.{CarriesOutRest};
ghost use Rattle.mb_tools_device.specs.Boards.{IsFresh, CarriesOutOn};
ghost use Rattle.mb_tools_device.specs.Holding.{EndsHolding, IsDone};
ghost use Rattle.mb_console.specs.Outputs.{WritesAll, StopsWriting};
ghost use Rattle.mb_tools_device.specs.Generated.{HasEvents, workload_outputs};
ghost use Rattle.mb_device.specs.declared.step.TheConstants.{STEP_HASHES};
ghost use Rattle.mb_lms.specs.declared.hash_count.TheConstants.{SIGNING_HASHES, TREE_HASHES};

use crate::serving::held_image;
use crate::summary::{summary_of, wants_memory};
use mb_board::Board;
use mb_console::{Arguments, End, Output, file, number, print_text, write_all};
use mb_device::Device;
use mb_generate::workload;
use mb_host::Host;
use mb_image::log_length;
use mb_lms::HashCount;
use mb_model::{Events, NoMemory};
use mb_model_commands::{Role, Workload};
use mb_script::{ScriptEnd, ShortNoise, place_draws, read_script};
use sha2::{Digest, Sha256};
use std::alloc::Global;
use std::sync::ledger::Ledger;

/// The number of a workload, how many rounds it has, and the names of its files.
#[derive(Clone, Copy)]
pub struct GenerateNames<'a> {
    pub number: u32,
    /// The number of rounds, 1 to 24.
    pub rounds: u32,
    pub image: &'a str,
    pub script: &'a str,
    pub noise: &'a str,
}

impl<'a> GenerateNames<'a> {
    /// The names by their places among the arguments of `generate`.
    pub fn of(given: &Arguments<'a>) -> GenerateNames<'a>
        ensures { generate_files result ≡ generate_given (map given_argument given.now.items) }
    {
        GenerateNames {
            number: number(given, 0),
            rounds: number(given, 1),
            image: file(given, 2),
            script: file(given, 3),
            noise: file(given, 4),
        }
    }
}

/// Makes a workload, loads it on the board, writes its three files, serves it, and prints the summary.
pub fn generate<H: Host, B: Board, L: Ledger>(
    alloc: Global,
    names: &GenerateNames<'_>,
    host: &mut H,
    board: &mut B,
    hashes: &mut HashCount<L>,
) -> Result<(), End>
    requires rounds { (1 ≤ names.now.rounds) × (names.now.rounds ≤ ROUND_LIMIT) }
    requires fresh { IsFresh (B.seen board.old) }
    ensures carried { CarriesOutOn (generate (generate_files names.now)) (B.seen board.new) (H.outside host.old)
        result (H.outside host.new) }
    ensures stays { EndsHolding (IsDone result) ⊥ (B.seen board.old) (B.seen board.new) }
    ensures cost { hashes.new ≤ hashes.old + 4 * TREE_HASHES + 6 * SIGNING_HASHES + 3 * SIGNING_HASHES * names.now.rounds + STEP_HASHES * length (B.seen board.new).ledger.answered }
{
    let Ok(files) = workload(alloc, names.number, names.rounds, hashes) else {
        return Err(End::NoMemory);
    };
    let Ok(events) = events_of(alloc, &files) else {
        return Err(End::NoMemory);
    };
    match board.load(alloc, files.image.as_slice(), events) {
        Ok(()) => {}
        Err(_) => return Err(End::NoMemory),
    }
    write_files(names, &files, host)?;
    let _device = Device::start(board).serve(alloc, board, hashes);
    summarise(files.image.into_vec(), host, board)
}

/// The events of a workload's script with their draws, which come from its noise.
fn events_of(alloc: Global, files: &Workload) -> Result<Events, NoMemory>
    requires { CanBeServed files.now }
    ensures events { IfOk result (HasEvents files.now) }
    ensures count { IfOk result (λ events. length events ≤ EVENT_LIMIT) }
    ensures each { IfOk result (All IsScriptEvent) }
{
    let mut events = match read_script(alloc, files.script.as_slice()) {
        Ok(events) => events,
        Err(ScriptEnd::NoMemory) => return Err(NoMemory),
        Err(ScriptEnd::BadLine { .. }) => unreachable!(),
    };
    match place_draws(&mut events, files.noise.as_slice()) {
        Ok(()) => Ok(events),
        Err(ShortNoise) => unreachable!(),
    }
}

/// Writes the three files of a workload.
fn write_files<H: Host>(
    names: &GenerateNames<'_>,
    files: &Workload,
    host: &mut H,
) -> Result<(), End>
    ensures ok { OnOk result (WritesAll (workload_outputs (generate_files names.now) files.now) (H.outside host.old) (H.outside host.new)) }
    ensures err { IfErr result (λ why. StopsWriting (workload_outputs (generate_files names.now) files.now) (H.outside host.old) why (H.outside host.new)) }
{
    let outputs = [
        Output {
            role: Role::Image,
            name: names.image,
            bytes: files.image.as_slice(),
        },
        Output {
            role: Role::Script,
            name: names.script,
            bytes: files.script.as_slice(),
        },
        Output {
            role: Role::Noise,
            name: names.noise,
            bytes: files.noise.as_slice(),
        },
    ];
    write_all(host, &outputs)
}

/// Prints the summary of the answered events, with the length of the log and the hash of the image as the board holds
/// them now. The bytes of `room` are as many as those of that image. If an allocation failed while the events were
/// served, there is no summary.
fn summarise<H: Host, B: Board>(room: Vec<u8>, host: &mut H, board: &B) -> Result<(), End>
    requires loaded { IsLoaded (B.seen board.now).memory }
    requires answered { (B.seen board.now).ledger.standing.memory ≡ (B.seen board.now).memory }
    requires room { length room.items ≡ IMAGE_LENGTH }
    requires shown { (last : World) × Shows (B.seen board.now).ledger.standing last }
    ensures { (past : Past) → past.used ≡ use_of (B.seen board.now).ledger
        → CarriesOutRest (summarise (B.seen board.now).ledger.answered (B.seen board.now).ledger.standing)
        past (use_of (B.seen board.now).ledger) (B.seen board.now).ledger.standing
        (H.outside host.old) result (H.outside host.new) }
{
    let answered = board.answered();
    if wants_memory(answered) {
        return Err(End::NoMemory);
    }
    let held = held_image(board, room);
    let hash = Sha256::digest(&held);
    let summary = summary_of(answered, log_length(&held), &hash);
    print_text(host, summary.as_slice())
}
