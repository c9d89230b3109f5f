//! Calls: the code of a layer runs on an input, its region is changed as the code asks, and the code answers.

ghost use Rattle.std.specs.Prelude.{◌≡◌, ◌≤◌, List, ℕ, length, IfOk, IfSome, Some, None};
ghost use Rattle.mb_layout.specs.Plans.{SamePlans};
ghost use Rattle.mb_model.specs.application.Runs.{readable_secrets};
ghost use Rattle.mb_model.specs.declared.limits.TheConstants.{CODE_LIMIT, INPUT_LIMIT};
ghost use Rattle.mb_model.specs.declared.region.Region.{Region};
ghost use Rattle.mb_model.specs.declared.state.State.{State};
ghost use Rattle.mb_model.specs.machine.LayerEvents.{code_in, takes_calls};
ghost use Rattle.mb_model.specs.owners.Regions.{region_of};
ghost use Rattle.mb_board.specs.Calls.{IsUp};
ghost use Rattle.mb_model_memory.specs.Holding.{IsReady, HasReady};
ghost use Rattle.mb_region.specs.Regions.{IsRegionSlot};
ghost use Rattle.mb_device_orders.specs.Remembering.{KnowsCode, CanAnswer};
ghost use Rattle.mb_device_regions.specs.Calls.{CallsIn, CallSigns, SignsByTree, FinishesCall, HasCallSigner, HasCallSignerOf};
ghost use Rattle.mb_device_regions.specs.Runs.{AreSeen, ActsOn, CanBeAnswered};
ghost use Rattle.mb_device_regions.specs.Secrets.{IsKeptRegion};

use crate::acting::{Acted, Given, Taken, run_and_act};
use crate::signing::{Sheet, sign_bound};
use crate::stored::{load, rebind, replace};
use mb_area::{read_code, takes_calls};
use mb_board::Board;
use mb_device_orders::Running;
use mb_layout::Room;
use mb_lms::HashCount;
use mb_model::{Bytes, NoMemory, Refusal, Region, Reply, Said};
use mb_outbound::check_key;
use mb_ratchet::{Off, R1, R2, Reaches, Three, Two, Up};
use mb_region::Named;
use sha2::{Digest, Sha256};
use std::alloc::Global;
use std::sync::ledger::Ledger;

/// A state that reaches both regions.
pub trait ReachesBoth: Reaches<Two> {
    /// Reads the stored region of layer 3.
    fn read_three<B: Board>(
        &self,
        alloc: Global,
        b: &B,
        room: &mut Room,
    ) -> Result<Region, NoMemory>
        requires up { IsUp Self.stage (B.seen b.now) }
        requires ready { HasReady (B.seen b.now).memory }
        ensures region { (state : State) → IsReady (B.seen b.now).memory state
            → IfOk result (λ region. region ≡ state.three) }
        ensures plans { SamePlans room.old room.new };
}

impl ReachesBoth for Up<R1> {
    fn read_three<B: Board>(
        &self,
        alloc: Global,
        b: &B,
        room: &mut Room,
    ) -> Result<Region, NoMemory> {
        load::<Up<R1>, Three, B>(alloc, self, b, room)
    }
}

impl ReachesBoth for Up<R2> {
    fn read_three<B: Board>(
        &self,
        alloc: Global,
        b: &B,
        room: &mut Room,
    ) -> Result<Region, NoMemory> {
        load::<Up<R2>, Three, B>(alloc, self, b, room)
    }
}

// ---- before the code runs

/// Whether the stored code of layer 2 or 3 takes calls.
fn takes<B: Board>(b: &B, layer: u8, running: &Running) -> bool
    requires layer { IsRegionSlot layer }
    requires can_answer { (level : ℕ) × CanAnswer level running.now.known (B.seen b.now) }
    ensures { (state : State) → KnowsCode running.now.known (B.seen b.now).memory.flash state
        → result ≡ takes_calls (code_in state.codes layer) }
{
    takes_calls(b, layer, running.known.slot(layer))
}

/// Reads the stored code of layer 2 or 3 into `room.called`.
fn open<B: Board>(b: &B, layer: u8, running: &mut Running)
    requires layer { IsRegionSlot layer }
    requires can_answer { (level : ℕ) × CanAnswer level running.old.known (B.seen b.now) }
    ensures code { (state : State) (code : List ℕ) → KnowsCode running.old.known (B.seen b.now).memory.flash state
        → code_in state.codes layer ≡ Some code → running.new.room.called.items ≡ code }
    ensures known { running.new.known ≡ running.old.known }
    ensures plans { SamePlans running.old.room running.new.room }
{
    read_code(
        b,
        layer,
        running.known.slot(layer),
        &mut running.room.called,
    );
}

/// The memory that a call takes.
#[derive(Drop)]
struct Prepared {
    /// The stored region of the layer.
    region: Region,
    taken: Taken,
    sheet: Sheet,
}

/// Takes all memory for a call, and reads the stored region of the layer.
fn prepare<S: Reaches<L>, L: Named, B: Board>(
    alloc: Global,
    s: &S,
    b: &B,
    room: &mut Room,
) -> Result<Prepared, NoMemory>
    requires up { IsUp S.stage (B.seen b.now) }
    requires ready { HasReady (B.seen b.now).memory }
    ensures region { (state : State) → IsReady (B.seen b.now).memory state
        → IfOk result (λ prepared. prepared.region ≡ region_of state L.place) }
    ensures kept { IfOk result (λ prepared. IsKeptRegion prepared.region) }
    ensures plans { SamePlans room.old room.new }
{
    let region = load::<S, L, B>(alloc, s, b, room)?;
    let taken = Taken::new(alloc)?;
    let sheet = Sheet::new(alloc)?;
    Ok(Prepared {
        region,
        taken,
        sheet,
    })
}

// ---- once the code has run

/// Stores the region that code asked for, and gives its answer.
fn answer_plainly<S: Reaches<L>, L: Named, B: Board>(
    s: S,
    b: &mut B,
    input: &Bytes,
    acted: Acted,
    running: &mut Running,
) -> Result<(S, Reply), Off>
    requires can_answer { CanAnswer S.stage running.old.known (B.seen b.old) }
    requires fits { CanBeAnswered acted }
    ensures finishes { FinishesCall L.place None input.now acted running.old running.new result (B.seen b.old)
        (B.seen b.new) }
    ensures stays { running.new.known ≡ running.old.known }
{
    let Acted { region, answer } = acted;
    let s = replace::<S, L, B>(s, b, &region, &mut running.room)?;
    Ok((s, Reply::Called(answer)))
}

/// Stores the region that code asked for with one more use of the key of this number, which then signs the answer.
fn answer_signed<S: Reaches<L>, L: Named, B: Board, Lg: Ledger>(
    s: S,
    b: &mut B,
    key: u32,
    input: &Bytes,
    acted: Acted,
    sheet: Sheet,
    running: &mut Running,
    hashes: &mut HashCount<Lg>,
) -> Result<(S, Reply), Off>
    requires can_answer { CanAnswer S.stage running.old.known (B.seen b.old) }
    requires fits { CanBeAnswered acted }
    requires signer { HasCallSigner L.place key acted (B.seen b.old).memory }
    ensures finishes { FinishesCall L.place (Some key) input.now acted running.old running.new result (B.seen b.old)
        (B.seen b.new) }
    ensures trees { SignsByTree L.place key running.old.known.trees.value
        running.new.known.trees.value result hashes.old hashes.new }
{
    let Acted { mut region, answer } = acted;
    let said = Said::Answer {
        input: Sha256::digest(input.as_slice()),
        answer,
    };
    let (s, right, seed) = rebind::<S, L, B>(s, b, key, &mut region, &mut running.room)?;
    let reply = sign_bound(
        L::number(),
        key,
        right,
        &seed,
        said,
        sheet,
        &mut running.known,
        hashes,
    );
    Ok((s, reply))
}

/// Does what code asked for, and gives its answer: signed by the key of this number, if one is asked for.
fn answer<S: Reaches<L>, L: Named, B: Board, Lg: Ledger>(
    s: S,
    b: &mut B,
    key: Option<u32>,
    input: &Bytes,
    acted: Acted,
    sheet: Sheet,
    running: &mut Running,
    hashes: &mut HashCount<Lg>,
) -> Result<(S, Reply), Off>
    requires can_answer { CanAnswer S.stage running.old.known (B.seen b.old) }
    requires fits { CanBeAnswered acted }
    requires signer { HasCallSignerOf L.place key acted (B.seen b.old).memory }
    ensures finishes { FinishesCall L.place key input.now acted running.old running.new result (B.seen b.old)
        (B.seen b.new) }
    ensures trees { CallSigns L.place key running.old.known.trees.value
        running.new.known.trees.value result hashes.old hashes.new }
{
    match key {
        None => answer_plainly::<S, L, B>(s, b, input, acted, running),
        Some(key) => {
            answer_signed::<S, L, B, Lg>(s, b, key, input, acted, sheet, running, hashes)
        }
    }
}

// ---- calls

/// Runs the code that `room.called` holds, and does what it asks for in memory.
fn run_called(
    layer: u8,
    input: &Bytes,
    own: Region,
    above: &Option<Region>,
    taken: Taken,
    running: &Running,
) -> Option<Acted>
    requires code { length running.now.room.called.items ≤ CODE_LIMIT }
    requires input { length input.now ≤ INPUT_LIMIT }
    requires kept { IsKeptRegion own }
    ensures acted { (two three : Region) → AreSeen layer own above.now two three → ActsOn running.now.room.called.items
        input.now (readable_secrets running.now.known.figures.layers layer two three) running.now.known.figures.number
        own result }
    ensures fits { IfSome result (λ acted. CanBeAnswered acted) }
{
    let given = Given {
        layer,
        code: running.room.called.as_slice(),
        input: input.as_slice(),
        layers: &running.known.figures.layers,
        number: running.known.figures.number,
    };
    run_and_act(&given, own, above, taken)
}

/// Answers a call of the code of `L`, which may run, with the region above, if there is one. The code runs on the input;
/// its region is changed as it asks, wholly or not at all, and it answers, signed by the key of this number if one is
/// asked for.
fn call<S: Reaches<L>, L: Named, B: Board, Lg: Ledger>(
    alloc: Global,
    s: S,
    b: &mut B,
    key: Option<u32>,
    input: &Bytes,
    above: Option<Region>,
    running: &mut Running,
    hashes: &mut HashCount<Lg>,
) -> Result<(S, Reply), Off>
    requires can_answer { CanAnswer S.stage running.old.known (B.seen b.old) }
    requires input { length input.now ≤ INPUT_LIMIT }
    requires above { (state : State) → IsReady (B.seen b.old).memory state
        → AreSeen L.place (region_of state L.place) above state.two state.three }
    ensures calls { CallsIn L.place key input.now running.old running.new result (B.seen b.old) (B.seen b.new) }
    ensures trees { CallSigns L.place key running.old.known.trees.value
        running.new.known.trees.value result hashes.old hashes.new }
{
    let layer = L::number() as u8;
    if !takes(b, layer, running) {
        return Ok((s, Refusal::WrongCode.reply()));
    }
    let Prepared {
        region,
        taken,
        sheet,
    } = match prepare::<S, L, B>(alloc, &s, b, &mut running.room) {
        Ok(prepared) => prepared,
        Err(NoMemory) => return Ok((s, Reply::NoMemory)),
    };
    if let Err(refusal) = check_key(&region, key) {
        return Ok((s, refusal.reply()));
    }
    open(b, layer, running);
    match run_called(layer, input, region, &above, taken, running) {
        Some(acted) => answer::<S, L, B, Lg>(s, b, key, input, acted, sheet, running, hashes),
        None => Ok((s, Refusal::RunFailed.reply())),
    }
}

/// Answers a call of the code of layer 2, which may run. The code runs on the input, and reads the secrets of its region
/// and those of region 3, if layer 3 may run. Its region is changed as it asks, wholly or not at all, and it answers,
/// signed by the key of this number if one is asked for. An answered call makes two write calls if the region was empty
/// before, else three, whatever the code asked for; else nothing is written. There are at most 35,473 hashes.
pub fn call_two<S: ReachesBoth, B: Board, Lg: Ledger>(
    alloc: Global,
    s: S,
    b: &mut B,
    key: Option<u32>,
    input: &Bytes,
    running: &mut Running,
    hashes: &mut HashCount<Lg>,
) -> Result<(S, Reply), Off>
    requires can_answer { CanAnswer S.stage running.old.known (B.seen b.old) }
    requires input { length input.now ≤ INPUT_LIMIT }
    ensures calls { CallsIn 2 key input.now running.old running.new result (B.seen b.old) (B.seen b.new) }
    ensures trees { CallSigns 2 key running.old.known.trees.value
        running.new.known.trees.value result hashes.old hashes.new }
{
    let above = match s.read_three(alloc, b, &mut running.room) {
        Ok(above) => above,
        Err(NoMemory) => return Ok((s, Reply::NoMemory)),
    };
    call::<S, Two, B, Lg>(alloc, s, b, key, input, Some(above), running, hashes)
}

/// Answers a call of the code of layer 3, which may run. The code runs on the input, and reads the secrets of its region.
/// Its region is changed as it asks, wholly or not at all, and it answers, signed by the key of this number if one is
/// asked for. An answered call makes two write calls if the region was empty before, else three, whatever the code asked
/// for; else nothing is written. There are at most 35,473 hashes.
pub fn call_three<S: Reaches<Three>, B: Board, Lg: Ledger>(
    alloc: Global,
    s: S,
    b: &mut B,
    key: Option<u32>,
    input: &Bytes,
    running: &mut Running,
    hashes: &mut HashCount<Lg>,
) -> Result<(S, Reply), Off>
    requires can_answer { CanAnswer S.stage running.old.known (B.seen b.old) }
    requires input { length input.now ≤ INPUT_LIMIT }
    ensures calls { CallsIn 3 key input.now running.old running.new result (B.seen b.old) (B.seen b.new) }
    ensures trees { CallSigns 3 key running.old.known.trees.value
        running.new.known.trees.value result hashes.old hashes.new }
{
    call::<S, Three, B, Lg>(alloc, s, b, key, input, None, running, hashes)
}
