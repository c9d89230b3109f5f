//! The command `app`.

ghost use Rattle.std.specs.Prelude.{◌+◌, ◌≡◌, ◌≤◌, length, map, IfOk, IsTrue, IsSome, Some, string_bytes};
ghost use Rattle.mb_model.specs.declared.limits.TheConstants.{FILE_LIMIT};
ghost use Rattle.mb_model.specs.outside.Texts.{line_with_lf};
ghost use Rattle.mb_model.specs.owners.Layers.{is_upper, Runnable};
ghost use Rattle.mb_model.specs.memories.Valid.{IsValidState};
ghost use Rattle.mb_model_commands.specs.Outside.{Outside};
ghost use Rattle.mb_model_commands.specs.Commands.{print, refuse};
ghost use Rattle.mb_model_memory.specs.Storable.{IsStorableState};
ghost use Rattle.mb_console.specs.Ending.{CarriesOut};
ghost use Rattle.mb_console.specs.Words.{given_argument};
ghost use Rattle.mb_tools_app.specs.AppCommand.{app, run_stored_code, RunsStoredCode, code_of_layer, tell_end, app_line};
ghost use Rattle.mb_tools_app.specs.Names.{app_files, app_given};
ghost use Rattle.mb_image.specs.declared.image.TheConstants.{IMAGE_HASHES};

use mb_appvm::{AppEnd, run_app};
use mb_authority::is_runnable;
use mb_console::{Arguments, End, LongLine, file, finish, number, read_as, refused};
use mb_host::Host;
use mb_lms::HashCount;
use mb_model::{Codes, NoMemory, State};
use mb_model_commands::Role;
use mb_tools::{AnyBytes, read_image};
use mb_words::hex_word;
use std::alloc::Global;
use std::sync::ledger::Ledger;

/// The names of the files of `app`, and its numbers.
#[derive(Clone, Copy)]
pub struct AppNames<'a> {
    pub image: &'a str,
    /// The layer whose code runs, 2 or 3.
    pub layer: u32,
    pub input: &'a str,
    /// The most instructions that are executed.
    pub steps: u32,
}

impl<'a> AppNames<'a> {
    /// The names by the places of the words.
    pub fn of(given: &Arguments<'a>) -> Self
        ensures { app_files result ≡ app_given (map given_argument given.now.items) }
    {
        AppNames {
            image: file(given, 0),
            layer: number(given, 1),
            input: file(given, 2),
            steps: number(given, 3),
        }
    }
}

/// Runs the stored code of a layer of a device on an input, and reports how it ends.
pub fn app<H: Host, L: Ledger>(
    alloc: Global,
    names: &AppNames<'_>,
    host: &mut H,
    hashes: &mut HashCount<L>,
) -> Result<(), End>
    requires { IsTrue (is_upper names.now.layer) }
    ensures carried { CarriesOut (app (app_files names.now)) (H.outside host.old) result (H.outside host.new) }
    ensures cost { hashes.new ≤ hashes.old + IMAGE_HASHES }
{
    let image = read_image(alloc, host, names.image, hashes)?;
    let input = read_as(alloc, host, Role::Input, names.input, AnyBytes)?;
    let state = image.state;
    match state {
        Some(state) => run_stored_code(alloc, names, &state, &input, host),
        None => Err(refused("zeroised")),
    }
}

/// Runs the code of a layer of a live device on this input.
fn run_stored_code<H: Host>(
    alloc: Global,
    names: &AppNames<'_>,
    state: &State,
    input: &[u8],
    host: &mut H,
) -> Result<(), End>
    requires layer { IsTrue (is_upper names.now.layer) }
    requires valid { IsValidState state.now }
    requires stored { IsStorableState state.now }
    requires short { length input.now ≤ FILE_LIMIT }
    ensures { CarriesOut (run_stored_code (app_files names.now) (Some state.now) input.now) (H.outside host.old) result (H.outside host.new) }
{
    let layer = names.layer as u8;
    if !is_runnable(&state.layers, layer) {
        return Err(refused("refused 4 layer"));
    }
    match run_layer(alloc, state, layer, input, names.steps) {
        Ok(ending) => tell_end(alloc, &ending, host),
        Err(_) => Err(End::NoMemory),
    }
}

/// How the run of the stored code of a runnable layer ends.
fn run_layer(
    alloc: Global,
    state: &State,
    layer: u8,
    input: &[u8],
    steps: u32,
) -> Result<AppEnd, NoMemory>
    requires layer { IsTrue (is_upper layer) }
    requires runnable { Runnable state.now.layers layer }
    requires valid { IsValidState state.now }
    requires stored { IsStorableState state.now }
    requires short { length input.now ≤ FILE_LIMIT }
    ensures { IfOk result (RunsStoredCode state.now layer input.now steps) }
{
    let code = code_of_layer(&state.codes, layer);
    run_app(
        alloc,
        code,
        input,
        layer,
        &state.layers,
        &state.two,
        &state.three,
        steps,
    )
}

/// The stored code of layer 2 or 3, which has some.
fn code_of_layer(codes: &Codes, layer: u8) -> &[u8]
    requires { IsSome (code_of_layer codes.now layer) }
    ensures { code_of_layer codes.now layer ≡ Some result.now }
{
    let code = if layer == 2 { &codes.two } else { &codes.three };
    match code {
        Some(code) => code.as_slice(),
        None => &[],
    }
}

/// Reports how a run ends: prints the line of a halt, and refuses with the line of any other end.
pub(crate) fn tell_end<H: Host>(alloc: Global, ending: &AppEnd, host: &mut H) -> Result<(), End>
    ensures { CarriesOut (tell_end ending.now) (H.outside host.old) result (H.outside host.new) }
{
    let Ok(line) = app_line(alloc, ending) else {
        return Err(End::NoMemory);
    };
    match ending {
        AppEnd::Halted { .. } => print_line(line, host),
        AppEnd::Trap { .. } => Err(refuse_line(line)),
        AppEnd::OutOfSteps { .. } => Err(refuse_line(line)),
    }
}

/// The line that reports how a run ends.
fn app_line(alloc: Global, ending: &AppEnd) -> Result<String, NoMemory>
    ensures { IfOk result (λ line. string_bytes line ≡ app_line ending.now) }
{
    match ending {
        AppEnd::Halted { steps, output } => {
            let word = hex_word(alloc, output.as_slice())?;
            Ok(format!(in alloc; "halted {steps} {word}")?)
        }
        AppEnd::Trap {
            cause,
            place,
            output,
        } => {
            let word = hex_word(alloc, output.as_slice())?;
            let number = cause.number();
            Ok(format!(in alloc; "trap {number} {place} {word}")?)
        }
        AppEnd::OutOfSteps { output } => {
            let word = hex_word(alloc, output.as_slice())?;
            Ok(format!(in alloc; "out of steps {word}")?)
        }
    }
}

/// Prints a line of any length.
fn print_line<H: Host>(mut line: String, host: &mut H) -> Result<(), End>
    ensures { CarriesOut (print (line_with_lf (string_bytes line))) (H.outside host.old) result (H.outside host.new) }
{
    match line.push('\n') {
        Ok(()) => finish(host, &[], line.as_bytes()),
        Err(_) => Err(End::NoMemory),
    }
}

/// The end of a command that is refused with a line of any length.
pub(crate) fn refuse_line(line: String) -> End
    ensures { (before : Outside) → CarriesOut (refuse (string_bytes line)) before (Err result) before }
{
    match LongLine::new(line.into_bytes()) {
        Ok(long) => End::RefusedAtLength(long),
        Err(_) => End::NoMemory,
    }
}
