//! The run of a call, and what it asks for, done in memory.

ghost use Rattle.std.specs.Prelude.{◌≡◌, ◌≤◌, MatchOption, IfSome, length, vec_capacity};
ghost use Rattle.mb_appvm.specs.Acting.{secrets_of};
ghost use Rattle.mb_model.specs.application.Runs.{readable_secrets};
ghost use Rattle.mb_model.specs.declared.limits.TheConstants.{FILE_LIMIT, MESSAGE_LIMIT, OUTPUT_LIMIT};
ghost use Rattle.mb_model.specs.declared.region.Region.{Region};
ghost use Rattle.mb_device_regions.specs.Demands.{AreKept};
ghost use Rattle.mb_device_regions.specs.Runs.{AreSeen, EndsWithOutput, ActsIn, ActsOn, IsActed, IsNotActed, CanBeAnswered};
ghost use Rattle.mb_device_regions.specs.Secrets.{IsKeptRegion};

use crate::demands::meet_all;
use crate::listed::list;
use crate::reserve::{Spare, written};
use mb_appvm::{CodeEnd, Nobody, Readable, read_action, run_code};
use mb_model::{
    Bytes, CALL_STEPS, Layers, MESSAGE_LIMIT, NoMemory, OUTPUT_LIMIT, Region, Secret, Secrets,
};
use std::alloc::Global;

/// What a call of a layer's code is given: the code, the input, and the layers and the configuration number of the
/// device.
#[derive(Clone, Copy)]
pub(crate) struct Given<'a> {
    pub layer: u8,
    pub code: &'a [u8],
    pub input: &'a [u8],
    pub layers: &'a Layers,
    pub number: u32,
}

/// The memory that a run and what it asks for take.
#[derive(Drop)]
pub(crate) struct Taken {
    output: Vec<u8>,
    answer: Vec<u8>,
    spare: Spare,
    ghost output_room: { OUTPUT_LIMIT ≤ vec_capacity output },
    ghost answer_room: { MESSAGE_LIMIT ≤ vec_capacity answer },
}

impl Taken {
    /// Takes the memory.
    pub(crate) fn new(alloc: Global) -> Result<Taken, NoMemory> {
        let output = Vec::with_capacity(alloc, OUTPUT_LIMIT)?;
        let answer = Vec::with_capacity(alloc, MESSAGE_LIMIT as usize)?;
        let spare = Spare::new(alloc)?;
        Ok(Taken {
            output,
            answer,
            spare,
        })
    }
}

/// What code asked for, done in memory: the region that it leaves, and its answer.
#[derive(Drop)]
pub(crate) struct Acted {
    pub region: Region,
    /// At most 128 bytes.
    pub answer: Bytes,
}

/// The secrets that the code of a layer may read: those of its own region, and those of the region above it.
fn readable<'a>(given: &Given<'_>, own: &'a Region, above: &'a Option<Region>) -> Readable<'a>
    ensures { (two three : Region) → AreSeen given.now.layer own.now above.now two three
        → secrets_of result ≡ readable_secrets given.now.layers.now given.now.layer two three }
{
    match above {
        Some(three) => Readable::of(given.layer, given.layers, own, three),
        None => Readable::of(given.layer, given.layers, own, own),
    }
}

/// Runs the code; true if it halted. What it emitted replaces the bytes of `output`, which has the room.
fn run(given: &Given<'_>, own: &Region, above: &Option<Region>, output: &mut Vec<u8>) -> bool
    requires code { length given.now.code.now ≤ FILE_LIMIT }
    requires input { length given.now.input.now ≤ FILE_LIMIT }
    requires room { OUTPUT_LIMIT ≤ vec_capacity output.old }
    ensures ended { (two three : Region) → AreSeen given.now.layer own.now above.now two three
        → EndsWithOutput given.now.code.now given.now.input.now
        (readable_secrets given.now.layers.now given.now.layer two three) result output.new.items }
    ensures short { length output.new.items ≤ OUTPUT_LIMIT }
{
    let readable = readable(given, own, above);
    match run_code(
        given.code,
        given.input,
        readable,
        CALL_STEPS,
        output,
        &mut Nobody,
    ) {
        CodeEnd::Halted { .. } => true,
        CodeEnd::Trap { .. } | CodeEnd::OutOfSteps => false,
    }
}

/// Does what the output asks for on the secrets, at this configuration number, and copies the answer; `None` if the
/// output is no action, or if there is no room for what it asks. Takes no memory but what was taken.
fn act_in<'a>(
    output: &'a [u8],
    secrets: &'a [Secret],
    number: u32,
    answer: Vec<u8>,
    spare: Spare,
) -> Option<(Secrets, Bytes)>
    requires short { length output.now ≤ OUTPUT_LIMIT }
    requires kept { AreKept secrets.now }
    requires room { MESSAGE_LIMIT ≤ vec_capacity answer }
    ensures { ActsIn number output.now secrets.now result }
{
    let Some(action) = read_action(output) else {
        return None;
    };
    let mut listed = list(secrets);
    if !meet_all(&mut listed, action.demands, number) {
        return None;
    }
    Some((spare.fill(&listed), written(answer, action.answer)))
}

/// Does what the output asks for on the region, at this configuration number; `None` if the output is no action, or if
/// the region has no room for what it asks. Takes no memory but what was taken.
fn act(output: &[u8], number: u32, region: Region, answer: Vec<u8>, spare: Spare) -> Option<Acted>
    requires short { length output.now ≤ OUTPUT_LIMIT }
    requires kept { IsKeptRegion region }
    requires room { MESSAGE_LIMIT ≤ vec_capacity answer }
    ensures acted { MatchOption result (IsNotActed number output.now region.secrets)
        (λ acted. IsActed number output.now region acted) }
    ensures fits { IfSome result (λ acted. CanBeAnswered acted) }
{
    let Region { secrets, keys } = region;
    match act_in(output, secrets.as_slice(), number, answer, spare) {
        Some((secrets, answer)) => Some(Acted {
            region: Region { secrets, keys },
            answer,
        }),
        None => None,
    }
}

/// Runs the code of a call, and does what it asks for in memory; `None` if it does not halt, if its output is no action,
/// or if the region has no room for what it asks. Takes no memory but what was taken.
pub(crate) fn run_and_act(
    given: &Given<'_>,
    own: Region,
    above: &Option<Region>,
    taken: Taken,
) -> Option<Acted>
    requires code { length given.now.code.now ≤ FILE_LIMIT }
    requires input { length given.now.input.now ≤ FILE_LIMIT }
    requires kept { IsKeptRegion own }
    ensures acted { (two three : Region) → AreSeen given.now.layer own above.now two three
        → ActsOn given.now.code.now given.now.input.now
        (readable_secrets given.now.layers.now given.now.layer two three) given.now.number own result }
    ensures fits { IfSome result (λ acted. CanBeAnswered acted) }
{
    let Taken {
        mut output,
        answer,
        spare,
    } = taken;
    if !run(given, &own, above, &mut output) {
        return None;
    }
    act(output.as_slice(), given.number, own, answer, spare)
}
