//! The two runs of `cutat`: their events, and whether power failed in the second.

ghost use Rattle.std.specs.Prelude.{◌≡◌, ◌↔◌, ◌≤◌, ℕ, List, length, All, IfOk, IsTrue};
ghost use Rattle.mb_model.specs.declared.limits.TheConstants.{CUT_LIMIT, EVENT_LIMIT};
ghost use Rattle.mb_model.specs.chains.Script.{IsScriptEvent};
ghost use Rattle.mb_script.specs.Reading.{IsFill};
ghost use Rattle.mb_tools_device.specs.CutCommand.{AreUncut, CutRun, IsCutRun, LastIsStopped};
ghost use Rattle.mb_tools_device.specs.TwoRuns.{AreRuns};

use mb_model::{Answered, Event, Events, NoMemory, Reply};
use mb_script::read_tear;
use std::alloc::Global;

/// The events of the two runs.
#[derive(Drop)]
pub struct TwoRuns {
    /// The events of the script but for the last.
    pub first: Events,
    /// The events of `first`, a power loss, the last event, a boot, and power off.
    pub second: Events,
}

/// Makes the events of the two runs from those of a script. Power fails in the write with the number `count`, in whose
/// range the bytes of a hexadecimal word are left.
pub fn two_runs(alloc: Global, events: Events, count: u32, fill: &str) -> Result<TwoRuns, NoMemory>
    requires uncut { AreUncut events }
    requires events { All IsScriptEvent events }
    requires least { 1 ≤ count }
    requires most { count ≤ CUT_LIMIT }
    requires fill { (bytes : List ℕ) × IsFill fill.now bytes }
    ensures cut { IfOk result (λ runs. (cut : CutRun) × IsCutRun fill.now events cut × AreRuns count runs.first runs.second cut) }
    ensures first_count { IfOk result (λ runs. length runs.first ≤ EVENT_LIMIT) }
    ensures first_events { IfOk result (λ runs. All IsScriptEvent runs.first) }
    ensures second_count { IfOk result (λ runs. length runs.second ≤ EVENT_LIMIT) }
    ensures second_events { IfOk result (λ runs. All IsScriptEvent runs.second) }
{
    let Some(tear) = read_tear(0, fill.as_bytes()) else {
        unreachable!();
    };
    let mut first = events.into_vec();
    let Some(last) = first.pop() else {
        unreachable!();
    };
    let mut second = copy_events(alloc, &first)?;
    second.push(Event::Cut { count, tear })?;
    second.push(last)?;
    second.push(Event::Boot)?;
    second.push(Event::Off)?;
    Ok(TwoRuns {
        first: Events::from_vec(first),
        second,
    })
}

/// A copy of the events.
fn copy_events(alloc: Global, events: &[Event]) -> Result<Events, NoMemory>
    ensures { IfOk result (λ copies. copies ≡ events.now) }
{
    let mut copies = Events::new(alloc);
    for event in events {
        copies.push(event.copy(alloc)?)?;
    }
    Ok(copies)
}

/// Whether power failed in the last event of the script, whose answer is the third from the end.
pub fn last_is_stopped(answered: &[Answered]) -> bool
    ensures { IsTrue result ↔ LastIsStopped answered.now }
{
    match answered {
        [.., last, _, _] => matches!(last.reply, Reply::Stopped),
        _ => false,
    }
}
