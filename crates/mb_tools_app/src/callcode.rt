//! The command `callcode`.

ghost use Rattle.std.specs.Prelude.{◌≡◌, ◌≤◌, ◌++◌, ◌∷◌, [], length, map, Err, IfOk, string_bytes, codes};
ghost use Rattle.std.specs.Fmt.{decimal};
ghost use Rattle.mb_model.specs.declared.limits.TheConstants.{FILE_LIMIT};
ghost use Rattle.mb_model.specs.outside.Texts.{line_with_lf};
ghost use Rattle.mb_model.specs.chains.Lines.{spaced_words, hex_word};
ghost use Rattle.mb_model_commands.specs.Outside.{Outside};
ghost use Rattle.mb_model_commands.specs.Commands.{refuse, find};
ghost use Rattle.mb_console.specs.Ending.{CarriesOut};
ghost use Rattle.mb_console.specs.Words.{given_argument};
ghost use Rattle.mb_appvm.specs.SecretTexts.{secrets_text};
ghost use Rattle.mb_device_regions.specs.Demands.{AreKept, shown_secret, shown_secrets};
ghost use Rattle.mb_tools_app.specs.CallcodeCommand.{callcode, tell_call, tell_output, OutputComesTo, acts, HasShortOutput};
ghost use Rattle.mb_tools_app.specs.Names.{callcode_files, callcode_given};

use crate::app::{refuse_line, tell_end};
use crate::input::secrets::SecretsForm;
use crate::trying::try_code;
use mb_appvm::{AppEnd, action_in, write_secrets};
use mb_console::{Arguments, End, Output, file, finish, read_as, refused};
use mb_device_regions::{Shown, list, meet_all};
use mb_host::Host;
use mb_model::{BadRecord, Bytes, CALL_STEPS, NoMemory, Secret, Secrets};
use mb_model_commands::Role;
use mb_tools::{AnyBytes, CodeForm};
use mb_words::hex_word;
use std::alloc::Global;

/// The configuration number at which secrets are kept.
const NUMBER: u32 = 0;

/// The names of the files of `callcode`.
#[derive(Clone, Copy)]
pub struct CallcodeNames<'a> {
    pub code: &'a str,
    /// The secrets before the call.
    pub secrets: &'a str,
    pub input: &'a str,
    /// The secrets after the call.
    pub next: &'a str,
}

impl<'a> CallcodeNames<'a> {
    /// The names by the places of the words.
    pub fn of(given: &Arguments<'a>) -> Self
        ensures { callcode_files result ≡ callcode_given (map given_argument given.now.items) }
    {
        CallcodeNames {
            code: file(given, 0),
            secrets: file(given, 1),
            input: file(given, 2),
            next: file(given, 3),
        }
    }
}

/// Calls a code on an input, as layer 3 of a device whose region 3 has these secrets: writes the secrets afterwards, and
/// prints the answer. If the host wants a trace, it is told each step of the run.
pub fn callcode<H: Host>(alloc: Global, names: &CallcodeNames<'_>, host: &mut H) -> Result<(), End>
    ensures { CarriesOut (callcode (callcode_files names.now)) (H.outside host.old) result (H.outside host.new) }
{
    let code = read_as(alloc, host, Role::Code, names.code, CodeForm)?;
    let secrets = read_as(alloc, host, Role::Text, names.secrets, SecretsForm)?;
    let input = read_as(alloc, host, Role::Input, names.input, AnyBytes)?;
    match try_code(alloc, &code, secrets.as_slice(), &input, CALL_STEPS, host) {
        Ok(ending) => tell_call(alloc, names.next, secrets.as_slice(), &ending, host),
        Err(_) => Err(End::NoMemory),
    }
}

/// Does what the run asks for, if it halted, and reports any other end.
fn tell_call<H: Host>(
    alloc: Global,
    next: &str,
    secrets: &[Secret],
    ending: &AppEnd,
    host: &mut H,
) -> Result<(), End>
    requires kept { AreKept secrets.now }
    requires short { HasShortOutput ending.now }
    ensures { CarriesOut (tell_call next.now secrets.now ending.now) (H.outside host.old) result (H.outside host.new) }
{
    match ending {
        AppEnd::Halted { output, .. } => act(alloc, next, secrets, output.as_slice(), host),
        AppEnd::Trap { .. } => tell_end(alloc, ending, host),
        AppEnd::OutOfSteps { .. } => tell_end(alloc, ending, host),
    }
}

/// Does what an output asks for, writes the secrets afterwards, and prints the answer.
fn act<'a, H: Host>(
    alloc: Global,
    next: &str,
    secrets: &'a [Secret],
    output: &'a [u8],
    host: &mut H,
) -> Result<(), End>
    requires kept { AreKept secrets.now }
    requires short { length output.now ≤ FILE_LIMIT }
    ensures { CarriesOut (find (OutputComesTo secrets.now output.now) (tell_output next.now)) (H.outside host.old) result (H.outside host.new) }
{
    let action = match action_in(output) {
        Ok(action) => action,
        Err(BadRecord { at }) => return Err(no_action(alloc, at)),
    };
    let mut listed = list(secrets);
    if !meet_all(&mut listed, action.demands, NUMBER) {
        return Err(refused("full"));
    }
    write_next(alloc, next, listed.as_slice(), action.answer, host)
}

/// The end of a command whose output is no action from this offset on.
fn no_action(alloc: Global, at: u32) -> End
    ensures { (before : Outside) → CarriesOut (refuse (codes "no action at " ++ decimal at)) before (Err result) before }
{
    match format!(in alloc; "no action at {at}") {
        Ok(line) => refuse_line(line),
        Err(_) => End::NoMemory,
    }
}

/// Writes these secrets, and prints the answer.
fn write_next<H: Host>(
    alloc: Global,
    next: &str,
    secrets: &[Shown<'_>],
    answer: &[u8],
    host: &mut H,
) -> Result<(), End>
    ensures { CarriesOut (tell_output next.now (acts (shown_secrets secrets.now) answer.now)) (H.outside host.old) result (H.outside host.new) }
{
    let Ok(text) = next_text(alloc, secrets) else {
        return Err(End::NoMemory);
    };
    let Ok(line) = called_text(alloc, answer) else {
        return Err(End::NoMemory);
    };
    let outputs = [Output {
        role: Role::Out,
        name: next,
        bytes: text.as_slice(),
    }];
    finish(host, &outputs, line.as_bytes())
}

/// The text of these secrets.
fn next_text(alloc: Global, secrets: &[Shown<'_>]) -> Result<Bytes, NoMemory>
    ensures { IfOk result (λ text. text ≡ secrets_text (shown_secrets secrets.now)) }
{
    let copies = copied(alloc, secrets)?;
    write_secrets(alloc, copies.as_slice())
}

/// The secrets, with memory of their own.
fn copied(alloc: Global, secrets: &[Shown<'_>]) -> Result<Secrets, NoMemory>
    ensures { IfOk result (λ copies. copies ≡ shown_secrets secrets.now) }
{
    let mut copies = Secrets::new(alloc);
    for secret in secrets {
        copies.push(copy(alloc, secret)?)?;
    }
    Ok(copies)
}

/// The secret, with memory of its own.
fn copy(alloc: Global, secret: &Shown<'_>) -> Result<Secret, NoMemory>
    ensures { IfOk result (λ copy. copy ≡ shown_secret secret.now) }
{
    Ok(Secret {
        name: Bytes::copy(alloc, secret.name)?,
        value: Bytes::copy(alloc, secret.value)?,
        born: secret.born,
    })
}

/// The line of an answer, with its LF.
fn called_text(alloc: Global, answer: &[u8]) -> Result<String, NoMemory>
    ensures { IfOk result (λ text. string_bytes text ≡ line_with_lf (spaced_words (codes "called" ∷ hex_word answer.now ∷ []))) }
{
    let word = hex_word(alloc, answer)?;
    Ok(format!(in alloc; "called {word}\n")?)
}
