//! The run of an application.

ghost use Rattle.std.specs.Prelude.{◌≡◌, ◌≤◌, length, IfOk, vec_capacity};
ghost use Rattle.mb_model.specs.declared.limits.TheConstants.{FILE_LIMIT, OUTPUT_LIMIT};
ghost use Rattle.mb_model.specs.application.Runs.{readable_secrets, RunsTo, AppRun};
ghost use Rattle.mb_appvm.specs.Acting.{state_of, secrets_of, surroundings_of, end_with};

use crate::environment::{Environment, Readable};
use crate::machine::{Machine, Step};
use crate::watching::{NextStep, Nobody, Watcher};
use mb_model::{AppEnd, Bytes, Layers, NoMemory, Region, Trap};
use std::alloc::Global;

/// How a run ends, without what was emitted.
#[derive(Clone, Copy)]
pub enum CodeEnd {
    /// A `halt`, the last of this many steps.
    Halted { steps: u32 },
    /// A trap of the instruction at this place.
    Trap { cause: Trap, place: u32 },
    /// As many steps as were allowed, without an end.
    OutOfSteps,
}

/// Runs a code on an input and on the secrets that it may read, for at most `steps` steps; an executed instruction is a
/// step, including one that ends the run. The watcher sees each step before it is done. What was emitted replaces the
/// bytes of `output`, which has the room; no memory is taken but what the watcher takes. The code and the input have at
/// most 4,194,304 bytes each.
pub fn run_code<W: Watcher>(
    code: &[u8],
    input: &[u8],
    readable: Readable<'_>,
    steps: u32,
    output: &mut Vec<u8>,
    watcher: &mut W,
) -> CodeEnd
    requires code { length code.now ≤ FILE_LIMIT }
    requires input { length input.now ≤ FILE_LIMIT }
    requires room { OUTPUT_LIMIT ≤ vec_capacity output.old }
    ensures ran { AppRun code.now input.now (secrets_of readable.entry) steps (end_with result output.new.items) }
    ensures short { length output.new.items ≤ OUTPUT_LIMIT }
    ensures room { OUTPUT_LIMIT ≤ vec_capacity output.new }
    ensures watched { W.kept watcher.new ≡ W.kept watcher.old }
{
    let environment = Environment {
        code,
        input,
        readable,
    };
    let mut machine = Machine::new();
    let ending = run(&mut machine, &environment, steps, watcher);
    output.clear();
    match output.extend_from_slice(machine.output.as_slice()) {
        Ok(()) => ending,
        Err(_) => unreachable!(),
    }
}

/// Runs a code on an input, as the code of a layer of a device with these layers and these regions of layers 2 and 3,
/// for at most `steps` steps; an executed instruction is a step, including one that ends the run. The code and the
/// input have at most 4,194,304 bytes each.
///
/// Errors: `NoMemory`, if there is none for the output. No clause says when it comes; the tests run codes with ample
/// memory.
pub fn run_app(
    alloc: Global,
    code: &[u8],
    input: &[u8],
    layer: u8,
    layers: &Layers,
    two: &Region,
    three: &Region,
    steps: u32,
) -> Result<AppEnd, NoMemory>
    requires code { length code.now ≤ FILE_LIMIT }
    requires input { length input.now ≤ FILE_LIMIT }
    ensures { IfOk result (AppRun code.now input.now (readable_secrets layers.now layer two.now three.now) steps) }
{
    let environment = Environment {
        code,
        input,
        readable: Readable::of(layer, layers, two, three),
    };
    let mut machine = Machine::new();
    let ending = run(&mut machine, &environment, steps, &mut Nobody);
    let output = Bytes::copy(alloc, machine.output.as_slice())?;
    Ok(ending.with(output))
}

impl CodeEnd {
    /// The end of a run that emitted these bytes.
    pub fn with(self, output: Bytes) -> AppEnd
        ensures { result ≡ end_with self output }
    {
        match self {
            CodeEnd::Halted { steps } => AppEnd::Halted { steps, output },
            CodeEnd::Trap { cause, place } => AppEnd::Trap {
                cause,
                place,
                output,
            },
            CodeEnd::OutOfSteps => AppEnd::OutOfSteps { output },
        }
    }
}

/// Executes at most `steps` instructions, each of which the watcher sees before.
fn run<W: Watcher>(
    machine: &mut Machine,
    environment: &Environment<'_>,
    steps: u32,
    watcher: &mut W,
) -> CodeEnd
    requires code { length environment.now.code.now ≤ FILE_LIMIT }
    requires input { length environment.now.input.now ≤ FILE_LIMIT }
    ensures ran { RunsTo (surroundings_of environment.now) (state_of machine.old) 0 steps (end_with result machine.new.output.items) }
    ensures watched { W.kept watcher.new ≡ W.kept watcher.old }
{
    for done in 0..steps {
        watcher.see(&NextStep {
            number: done + 1,
            machine: &*machine,
            environment: &*environment,
        });
        match machine.step(environment) {
            Step::GoesOn => {}
            Step::Ends => return CodeEnd::Halted { steps: done + 1 },
            Step::Traps(cause) => {
                return CodeEnd::Trap {
                    cause,
                    place: machine.place,
                };
            }
        }
    }
    CodeEnd::OutOfSteps
}
