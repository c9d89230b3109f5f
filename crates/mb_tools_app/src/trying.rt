//! The run of a code that is tried, and its trace.

ghost use Rattle.std.specs.Prelude.{◌≡◌, ◌≤◌, length, IfOk};
ghost use Rattle.mb_model.specs.declared.limits.TheConstants.{FILE_LIMIT};
ghost use Rattle.mb_model.specs.application.Runs.{AppRun};
ghost use Rattle.mb_tools_app.specs.CallcodeCommand.{secrets_three, HasShortOutput};

use mb_appvm::{AppEnd, NextStep, Readable, Watcher, run_code, step_line};
use mb_host::Host;
use mb_model::{Bytes, NoMemory, OUTPUT_LIMIT, Secret};
use std::alloc::Global;

/// Tells a host each step of a run, if it wants a trace.
#[derive(Drop)]
struct Trace<'a, H> {
    alloc: Global,
    is_wanted: bool,
    host: &'a mut H,
}

impl<'a, H: Host> Watcher for Trace<'a, H> {
    ghost use Rattle.std.specs.Borrow.{GName};
    ghost use Rattle.mb_model_commands.specs.Outside.{Outside};

    // Which host is told, and what contracts see of it.
    ghost Kept = { GName × Outside };

    ghost kept = { λ trace. (trace.host.ghost_name, H.outside trace.host.now) };

    fn see(&mut self, next: &NextStep<'_>) {
        if self.is_wanted {
            tell_step(self.alloc, next, self.host);
        }
    }
}

/// Tells the line of a step. Where no instruction stands, or no memory is left for the line, nothing is told.
fn tell_step<H: Host>(alloc: Global, step: &NextStep<'_>, host: &mut H)
    ensures { H.outside host.new ≡ H.outside host.old }
{
    if let Ok(Some(line)) = step_line(alloc, step) {
        host.tell(line.as_slice());
    }
}

/// How the run of a code on an input ends, as that of layer 3 with these secrets in region 3. If the host wants a trace,
/// it is told each step.
pub(crate) fn try_code<H: Host>(
    alloc: Global,
    code: &[u8],
    secrets: &[Secret],
    input: &[u8],
    steps: u32,
    host: &mut H,
) -> Result<AppEnd, NoMemory>
    requires code { length code.now ≤ FILE_LIMIT }
    requires input { length input.now ≤ FILE_LIMIT }
    ensures run { IfOk result (AppRun code.now input.now (secrets_three secrets.now) steps) }
    ensures short { IfOk result HasShortOutput }
    ensures told { H.outside host.new ≡ H.outside host.old }
{
    let mut output = Vec::with_capacity(alloc, OUTPUT_LIMIT)?;
    let readable = Readable {
        two: None,
        three: Some(secrets),
    };
    let is_wanted = host.wants_trace();
    let mut trace = Trace {
        alloc,
        is_wanted,
        host,
    };
    let ending = run_code(code, input, readable, steps, &mut output, &mut trace);
    Ok(ending.with(Bytes::from_vec(output)))
}
