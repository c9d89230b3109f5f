//! The scripts among the inputs, and the noise of their commands.

ghost use Rattle.std.specs.Prelude.{◌≡◌, ◌≤◌, length, All, IfOk, IfErr, MatchOption};
ghost use Rattle.mb_model.specs.declared.limits.TheConstants.{EVENT_LIMIT};
ghost use Rattle.mb_model.specs.chains.Script.{IsScriptEvent};
ghost use Rattle.mb_model_commands.specs.Inputs.{draws_input};
ghost use Rattle.mb_console.specs.Ending.{HasInput, StopsAt};
ghost use Rattle.mb_tools_device.specs.CutCommand.{AreUncut};
ghost use Rattle.mb_tools_device.specs.MachineRuns.{is_cut};
ghost use Rattle.mb_tools_device.specs.Refusing.{IsFirstRefused};

use mb_console::{End, Form, Unread, read_input};
use mb_host::Host;
use mb_model::{EVENT_LIMIT, Event, Events};
use mb_model_commands::{Place, Role};
use mb_script::{ScriptEnd, ShortNoise, line_of, place_draws, read_script};
use std::alloc::Global;

/// A script. Its commands have no draws yet.
#[derive(Clone, Copy)]
pub struct ScriptForm;

impl Form for ScriptForm {
    ghost use Rattle.std.specs.Prelude.{◌≤◌, List, [], All, length};
    ghost use Rattle.mb_model.specs.declared.event.Event.{Event};
    ghost use Rattle.mb_model.specs.declared.limits.TheConstants.{EVENT_LIMIT};
    ghost use Rattle.mb_model.specs.chains.Script.{IsScriptEvent};
    ghost use Rattle.mb_model_commands.specs.Inputs.{script_input};

    type Value = Events;

    ghost Meaning = { List Event };

    ghost meaning = { λ events. events };

    ghost Is = { λ form. (script_input []).Is };

    ghost FaultyAt = { λ form. (script_input []).FaultyAt };

    ghost Keeps = { λ events. (length events ≤ EVENT_LIMIT) × All IsScriptEvent events };

    fn read(self, alloc: Global, bytes: Vec<u8>) -> Result<Events, Unread> {
        match read_script(alloc, &bytes) {
            Ok(events) => Ok(events),
            Err(ScriptEnd::BadLine { line }) => Err(Unread::At(Place::Line(line))),
            Err(ScriptEnd::NoMemory) => Err(Unread::NoMemory),
        }
    }
}

/// A script that was read: its text, and its events. Its commands have no draws yet.
#[derive(Drop)]
pub struct WholeScript {
    pub text: Vec<u8>,
    pub events: Events,
}

/// A script whose text is kept.
#[derive(Clone, Copy)]
pub struct WholeScriptForm;

impl Form for WholeScriptForm {
    ghost use Rattle.std.specs.Prelude.{◌≤◌, List, [], All, length};
    ghost use Rattle.mb_model.specs.declared.event.Event.{Event};
    ghost use Rattle.mb_model.specs.declared.limits.TheConstants.{EVENT_LIMIT, FILE_LIMIT};
    ghost use Rattle.mb_model.specs.chains.Script.{IsScriptEvent};
    ghost use Rattle.mb_tools_device.specs.RehearseCommand.{WholeScript as Kept, whole_script_input};

    type Value = WholeScript;

    ghost Meaning = { Kept };

    ghost meaning = { λ script. record { text = script.text.items; events = script.events } };

    ghost Is = { λ form. (whole_script_input []).Is };

    ghost FaultyAt = { λ form. (whole_script_input []).FaultyAt };

    ghost Keeps = { λ script. (length script.text.items ≤ FILE_LIMIT)
        × (length script.events ≤ EVENT_LIMIT) × All IsScriptEvent script.events };

    fn read(self, alloc: Global, bytes: Vec<u8>) -> Result<WholeScript, Unread> {
        match read_script(alloc, &bytes) {
            Ok(events) => Ok(WholeScript {
                text: bytes,
                events,
            }),
            Err(ScriptEnd::BadLine { line }) => Err(Unread::At(Place::Line(line))),
            Err(ScriptEnd::NoMemory) => Err(Unread::NoMemory),
        }
    }
}

/// A script whose last event can be cut. Its commands have no draws yet.
#[derive(Clone, Copy)]
pub struct UncutScriptForm;

impl Form for UncutScriptForm {
    ghost use Rattle.std.specs.Prelude.{List, [], All};
    ghost use Rattle.mb_model.specs.declared.event.Event.{Event};
    ghost use Rattle.mb_model.specs.chains.Script.{IsScriptEvent};
    ghost use Rattle.mb_tools_device.specs.CutCommand.{AreUncut, uncut_script_input};

    type Value = Events;

    ghost Meaning = { List Event };

    ghost meaning = { λ events. events };

    ghost Is = { λ form. (uncut_script_input []).Is };

    ghost FaultyAt = { λ form. (uncut_script_input []).FaultyAt };

    ghost Keeps = { λ events. AreUncut events × All IsScriptEvent events };

    fn read(self, alloc: Global, bytes: Vec<u8>) -> Result<Events, Unread> {
        match read_script(alloc, &bytes) {
            Ok(events) => match refused_event(events.as_slice()) {
                Some(index) => Err(Unread::At(Place::Line(line_of(&bytes, index)))),
                None => Ok(events),
            },
            Err(ScriptEnd::BadLine { line }) => Err(Unread::At(Place::Line(line))),
            Err(ScriptEnd::NoMemory) => Err(Unread::NoMemory),
        }
    }
}

/// The most events of a script whose last event can be cut.
const UNCUT_LIMIT: usize = EVENT_LIMIT - 3;

/// The index, from 0, of the first event that keeps a script from having its last event cut: a cut, or the first for
/// which there is no room. In a script without events it is 0, that of the missing one.
fn refused_event(events: &[Event]) -> Option<usize>
    ensures { MatchOption result (AreUncut events.now) (IsFirstRefused events.now) }
{
    for (index, event) in events.iter().enumerate() {
        if index == UNCUT_LIMIT || is_cut(event) {
            return Some(index);
        }
    }
    if events.is_empty() { Some(0) } else { None }
}

/// Whether the event arms a power loss.
fn is_cut(event: &Event) -> bool
    ensures { result ≡ is_cut event.now }
{
    matches!(event, Event::Cut { .. })
}

/// Reads the noise of the events, and gives them with their draws.
pub fn read_draws<H: Host>(
    alloc: Global,
    host: &mut H,
    name: &str,
    mut events: Events,
) -> Result<Events, End>
    requires count { length events ≤ EVENT_LIMIT }
    requires events { All IsScriptEvent events }
    ensures read { IfOk result (HasInput (draws_input events name.now) (H.outside host.old) (H.outside host.new)) }
    ensures count { IfOk result (λ drawn. length drawn ≤ EVENT_LIMIT) }
    ensures events { IfOk result (All IsScriptEvent) }
    ensures err { IfErr result (StopsAt (draws_input events name.now) (H.outside host.old) (H.outside host.new)) }
{
    let noise = read_input(alloc, host, Role::Noise, name)?;
    match place_draws(&mut events, &noise) {
        Ok(()) => Ok(events),
        Err(ShortNoise) => Err(End::Faulty(Role::Noise, Place::Length)),
    }
}
