//! The command `enrol`.

ghost use Rattle.std.specs.Prelude.{◌≡◌, ℕ, List, map, IfOk, string_bytes};
ghost use Rattle.mb_model.specs.outside.Texts.{line_with_lf};
ghost use Rattle.mb_console.specs.Ending.{CarriesOut};
ghost use Rattle.mb_console.specs.Words.{given_argument};
ghost use Rattle.mb_fleet.specs.Ends.{answer_of};
ghost use Rattle.mb_fleet.specs.Serving.{device_line, answer_line};
ghost use Rattle.mb_tools_fleet.specs.EnrolCommand.{enrol, write_register, tell_answer};
ghost use Rattle.mb_tools_fleet.specs.FleetWords.{enrol_files, enrol_given};
ghost use Rattle.mb_tools_fleet.specs.Refusals.{RefusesChain, TellsDevice};

use crate::input::RegisterForm;
use mb_console::{Arguments, End, LongLine, Output, file, finish, read_as, refused};
use mb_fleet::{Added, Fleet, FleetEnd};
use mb_host::Host;
use mb_model::NoMemory;
use mb_model_commands::Role;
use mb_tools::verify::end_of;
use mb_tools::{AnyBytes, PublicKeyForm};
use mb_words::hex_word;
use std::alloc::Global;

/// The names of the files of `enrol`.
#[derive(Clone, Copy)]
pub struct EnrolNames<'a> {
    pub root: &'a str,
    pub register: &'a str,
    pub chain: &'a str,
}

impl<'a> EnrolNames<'a> {
    /// The names by their places among the words.
    pub fn of(given: &Arguments<'a>) -> Self
        ensures { enrol_files result ≡ enrol_given (map given_argument given.now.items) }
    {
        EnrolNames {
            root: file(given, 0),
            register: file(given, 1),
            chain: file(given, 2),
        }
    }
}

/// Shows a register one chain: writes the register if its rows have changed, and prints the answer; or refuses the
/// chain.
pub fn enrol<H: Host>(alloc: Global, names: &EnrolNames<'_>, host: &mut H) -> Result<(), End>
    ensures { CarriesOut (enrol (enrol_files names.now)) (H.outside host.old) result (H.outside host.new) }
{
    let root = read_as(alloc, host, Role::Root, names.root, PublicKeyForm)?;
    let mut fleet = read_as(alloc, host, Role::Register, names.register, RegisterForm)?;
    let chain = read_as(alloc, host, Role::Chain, names.chain, AnyBytes)?;
    match fleet.add(alloc, &root, &chain) {
        Ok(added) => tell_added(alloc, names.register, &fleet, &added, host),
        Err(end) => Err(refuse_chain(alloc, end)),
    }
}

/// Prints the line of a chain that was taken, after the register is written if its rows have changed.
fn tell_added<H: Host>(
    alloc: Global,
    register: &str,
    fleet: &Fleet,
    added: &Added,
    host: &mut H,
) -> Result<(), End>
    ensures { CarriesOut (tell_answer register.now fleet.now (answer_of added.now)) (H.outside host.old) result (H.outside host.new) }
{
    let Ok(text) = added_text(alloc, added) else {
        return Err(End::NoMemory);
    };
    match added {
        Added::Same { .. } => finish(host, &[], text.as_bytes()),
        Added::Added { .. } => keep(alloc, register, fleet, text.as_bytes(), host),
        Added::Extended { .. } => keep(alloc, register, fleet, text.as_bytes(), host),
    }
}

/// Writes the register, and prints a text.
fn keep<H: Host>(
    alloc: Global,
    register: &str,
    fleet: &Fleet,
    text: &[u8],
    host: &mut H,
) -> Result<(), End>
    ensures { (line : List ℕ) → text.now ≡ line_with_lf line
        → CarriesOut (write_register register.now fleet.now line) (H.outside host.old) result (H.outside host.new) }
{
    let mut bytes = Vec::new(alloc);
    let Ok(()) = fleet.write(&mut bytes) else {
        return Err(End::NoMemory);
    };
    let outputs = [Output {
        role: Role::Register,
        name: register,
        bytes: &bytes,
    }];
    finish(host, &outputs, text)
}

/// The line of a chain that was taken, with its LF.
fn added_text(alloc: Global, added: &Added) -> Result<String, NoMemory>
    ensures { IfOk result (λ text. string_bytes text ≡ line_with_lf (answer_line (answer_of added.now))) }
{
    match added {
        Added::Added { serial, length } => device_text(alloc, "added", serial, *length),
        Added::Same { serial, length } => device_text(alloc, "same", serial, *length),
        Added::Extended { serial, length } => device_text(alloc, "extended", serial, *length),
    }
}

/// The line of words, the serial of a device, and a number, with its LF.
fn device_text(
    alloc: Global,
    words: &str,
    serial: &[u8; 16],
    number: u32,
) -> Result<String, NoMemory>
    ensures { IfOk result (λ text. string_bytes text ≡ line_with_lf (device_line words.now serial.now number)) }
{
    let serial = hex_word(alloc, serial)?;
    Ok(format!(in alloc; "{words} {serial} {number}\n")?)
}

/// The end of a command whose chain is not taken.
fn refuse_chain(alloc: Global, end: FleetEnd) -> End
    ensures { RefusesChain end result }
{
    match end {
        FleetEnd::Chain(why) => end_of(why),
        FleetEnd::Older { serial, have } => refuse_device(alloc, "refused 31 older", &serial, have),
        FleetEnd::Fork { serial, place } => refuse_device(alloc, "refused 30 fork", &serial, place),
        FleetEnd::Full => refused("refused 32 full"),
        FleetEnd::NoMemory => End::NoMemory,
    }
}

/// The end of a command that is refused with words, the serial of a device, and a number.
fn refuse_device(alloc: Global, words: &str, serial: &[u8; 16], number: u32) -> End
    ensures { TellsDevice words.now serial.now number result }
{
    match refused_device(alloc, words, serial, number) {
        Ok(line) => End::RefusedAtLength(line),
        Err(_) => End::NoMemory,
    }
}

/// The line of words, the serial of a device, and a number.
fn refused_device(
    alloc: Global,
    words: &str,
    serial: &[u8; 16],
    number: u32,
) -> Result<LongLine, NoMemory>
    ensures { IfOk result (λ line. line ≡ device_line words.now serial.now number) }
{
    let serial = hex_word(alloc, serial)?;
    LongLine::new(format!(in alloc; "{words} {serial} {number}")?.into_bytes())
}
