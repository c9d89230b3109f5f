//! The command `rehearse`.

ghost use Rattle.std.specs.Prelude.{◌+◌, ◌*◌, ◌≡◌, ◌≤◌, [], ◌++◌, length, IfOk, MatchOption, OnOk, false};
ghost use Rattle.mb_model.specs.declared.limits.TheConstants.{FILE_LIMIT};
ghost use Rattle.mb_model.specs.outside.Board.{use_of};
ghost use Rattle.mb_model.specs.outside.Texts.{line_with_lf};
ghost use Rattle.mb_model.specs.chains.Replies.{reply_line};
ghost use Rattle.mb_console.specs.Ending.{CarriesOutRest};
ghost use Rattle.mb_device.specs.declared.step.TheConstants.{STEP_HASHES};
ghost use Rattle.mb_image.specs.declared.image.TheConstants.{IMAGE_HASHES};
ghost use Rattle.mb_tools_device.specs.Boards.{IsFresh, CarriesOutOn};
ghost use Rattle.mb_tools_device.specs.Holding.{EndsHolding, IsDone};
ghost use Rattle.mb_tools_device.specs.Names.{run_files};
ghost use Rattle.mb_tools_device.specs.RehearseCommand.{veiled, veiled_text, is_unobeyed, AllObeyed, first_line};
ghost use Rattle.mb_tools_device.specs.RehearseCommand.{tell_rehearsal, rehearsal};
ghost use Rattle.mb_tools_device.specs.Rehearsing.{IsUnobeyedAt, TellsUnobeyed};

use crate::run::RunNames;
use crate::scripts::{WholeScriptForm, read_draws};
use crate::serving::serve_events;
use mb_board::Board;
use mb_console::{End, LongLine, print_text, read_as};
use mb_host::Host;
use mb_lms::HashCount;
use mb_model::{Answered, Bytes, NoMemory, Reply};
use mb_model_commands::Role;
use mb_script::{line_of, write_reply};
use mb_tools::read_image;
use std::alloc::Global;
use std::sync::ledger::Ledger;

/// Serves the script on the device of the image, on the board alone, and prints the replies without the values of
/// secrets, the statements and the answers to calls. Writes no file. Refuses if an event was not obeyed, and tells which
/// was the first.
pub fn rehearse<H: Host, B: Board, L: Ledger>(
    alloc: Global,
    names: &RunNames<'_>,
    host: &mut H,
    board: &mut B,
    hashes: &mut HashCount<L>,
) -> Result<(), End>
    requires fresh { IsFresh (B.seen board.old) }
    ensures carried { CarriesOutOn (rehearsal (run_files names.now)) (B.seen board.new) (H.outside host.old)
        result (H.outside host.new) }
    ensures stays { EndsHolding (IsDone result) ⊥ (B.seen board.old) (B.seen board.new) }
    ensures cost { hashes.new ≤ hashes.old + IMAGE_HASHES + STEP_HASHES * length (B.seen board.new).ledger.answered }
{
    let image = read_image(alloc, host, names.image, hashes)?;
    let script = read_as(alloc, host, Role::Script, names.script, WholeScriptForm)?;
    let events = read_draws(alloc, host, names.noise, script.events)?;
    match serve_events(alloc, &image, events, board, hashes) {
        Ok(_device) => {}
        Err(_) => return Err(End::NoMemory),
    }
    tell(alloc, &script.text, host, board)
}

/// Prints the replies, veiled. Refuses with them and one line more if an event was not obeyed.
fn tell<H: Host, B: Board>(alloc: Global, script: &[u8], host: &mut H, board: &B) -> Result<(), End>
    requires { length script.now ≤ FILE_LIMIT }
    ensures { CarriesOutRest (tell_rehearsal script.now (B.seen board.now).ledger.answered)
        (record { used = use_of (B.seen board.now).ledger; wrote = false }) (use_of (B.seen board.now).ledger) (B.seen board.now).ledger.standing
        (H.outside host.old) result (H.outside host.new) }
{
    let answered = board.answered();
    let Ok(text) = write_veiled(alloc, answered) else {
        return Err(End::NoMemory);
    };
    match first_unobeyed(answered) {
        None => print_text(host, &text),
        Some(index) => Err(refused_at(alloc, text, script, answered, index)),
    }
}

/// The lines of the replies, veiled.
fn write_veiled(alloc: Global, answered: &[Answered]) -> Result<Vec<u8>, NoMemory>
    ensures { IfOk result (λ text. text.items ≡ veiled_text answered.now) }
{
    let mut text = Vec::new(alloc);
    for one in answered {
        put_veiled(alloc, &one.reply, &mut text)?;
    }
    Ok(text)
}

/// Appends the line of a reply, veiled: without the value of a secret, a statement, or the answer to a call.
fn put_veiled(alloc: Global, reply: &Reply, out: &mut Vec<u8>) -> Result<(), NoMemory>
    ensures { OnOk result (out.new.items ≡ out.old.items ++ line_with_lf (reply_line (veiled reply.now))) }
{
    match reply {
        Reply::Value(_) => write_reply(&Reply::Value(nothing(alloc)), out),
        Reply::Signed { key, index, .. } => {
            let veiled = Reply::Signed {
                key: *key,
                index: *index,
                statement: nothing(alloc),
            };
            write_reply(&veiled, out)
        }
        Reply::Called(_) => write_reply(&Reply::Called(nothing(alloc)), out),
        other => write_reply(other, out),
    }
}

/// No bytes.
fn nothing(alloc: Global) -> Bytes
    ensures { result ≡ [] }
{
    Bytes::from_vec(Vec::new(alloc))
}

/// The index of the first event that was not obeyed, if there is one.
fn first_unobeyed(answered: &[Answered]) -> Option<usize>
    ensures { MatchOption result (AllObeyed answered.now) (IsUnobeyedAt answered.now) }
{
    for (index, one) in answered.iter().enumerate() {
        if is_unobeyed(&one.reply) {
            return Some(index);
        }
    }
    None
}

/// Whether the reply tells that an event was not obeyed.
fn is_unobeyed(reply: &Reply) -> bool
    ensures { result ≡ is_unobeyed reply.now }
{
    matches!(reply, Reply::Refused(_) | Reply::Stopped | Reply::NoMemory)
}

/// The end of a rehearsal with these answers, of which the one with this index is the first to an event that was not
/// obeyed. `text` has the lines of the replies.
fn refused_at(
    alloc: Global,
    text: Vec<u8>,
    script: &[u8],
    answered: &[Answered],
    index: usize,
) -> End
    requires script { length script.now ≤ FILE_LIMIT }
    requires first { IsUnobeyedAt answered.now index }
    ensures { TellsUnobeyed script.now text.items answered.now result }
{
    let line = line_of(script, index);
    match with_first_line(alloc, text, line, &answered[index].reply) {
        Ok(lines) => End::RefusedAtLength(lines),
        Err(_) => End::NoMemory,
    }
}

/// The lines of the replies and the line of the first event that was not obeyed, as one text without its last LF.
fn with_first_line(
    alloc: Global,
    mut text: Vec<u8>,
    line: u32,
    reply: &Reply,
) -> Result<LongLine, NoMemory>
    ensures { IfOk result (λ lines. lines ≡ text.items ++ first_line (record { line = line; reply = reply.now })) }
{
    let words = format!(in alloc; "first {line} ")?;
    text.extend_from_slice(words.as_bytes())?;
    write_reply(reply, &mut text)?;
    text.pop();
    LongLine::new(text)
}
