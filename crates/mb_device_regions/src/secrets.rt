//! Secrets that a layer keeps.

ghost use Rattle.std.specs.Prelude.{◌≡◌, IfOk, IfSome};
ghost use Rattle.mb_layout.specs.Plans.{SamePlans};
ghost use Rattle.mb_model.specs.declared.state.State.{State};
ghost use Rattle.mb_model.specs.machine.LayerEvents.{put_event, get_event, drop_event};
ghost use Rattle.mb_model.specs.owners.Regions.{region_of};
ghost use Rattle.mb_model.specs.chains.Script.{IsName, FitsMessage};
ghost use Rattle.mb_board.specs.Calls.{IsUp};
ghost use Rattle.mb_model_memory.specs.Holding.{IsReady, HasReady};
ghost use Rattle.mb_model_memory.specs.Answering.{IsAnswered};
ghost use Rattle.mb_model.specs.records.RegionFormat.{secret_format, CanBeWritten};
ghost use Rattle.mb_device_orders.specs.Remembering.{CanAnswer};
ghost use Rattle.mb_device_regions.specs.Calls.{AnswersIn};
ghost use Rattle.mb_device_regions.specs.Secrets.{IsSecretOf, PutsInto, DropsFrom};

use crate::end::NotPut;
use crate::named::{drop_in, put_in, value_in};
use crate::stored::{load, replace};
use mb_board::Board;
use mb_device_orders::Running;
use mb_layout::Room;
use mb_model::{Bytes, NoMemory, Refusal, Region, Reply, Secret};
use mb_ratchet::{Off, Reaches};
use mb_region::Named;
use std::alloc::Global;

/// A secret of its own memory, put at this configuration number.
fn secret_with(alloc: Global, name: &Bytes, value: &Bytes, number: u32) -> Result<Secret, NoMemory>
    requires name { IsName name.now }
    requires value { FitsMessage value.now }
    ensures { IfOk result (IsSecretOf name.now value.now number) }
{
    Ok(Secret {
        name: Bytes::copy(alloc, name.as_slice())?,
        value: Bytes::copy(alloc, value.as_slice())?,
        born: number,
    })
}

/// The stored region with this secret.
fn region_with<S: Reaches<L>, L: Named, B: Board>(
    alloc: Global,
    s: &S,
    b: &B,
    secret: Secret,
    room: &mut Room,
) -> Result<Region, NotPut>
    requires up { IsUp S.stage (B.seen b.now) }
    requires ready { HasReady (B.seen b.now).memory }
    requires allowed { secret_format.Allowed secret }
    ensures put { (state : State) → IsReady (B.seen b.now).memory state
        → PutsInto (region_of state L.place) secret result }
    ensures stored { IfOk result (λ region. CanBeWritten region) }
    ensures plans { SamePlans room.old room.new }
{
    let mut region = load::<S, L, B>(alloc, s, b, room)?;
    put_in(&mut region, secret)?;
    Ok(region)
}

/// Answers a put: the secret is kept, or refused if the region is full of secrets of other names. The layer may run. If
/// power fails, the secret is kept as a whole or not at all. There are at most three write calls.
pub fn put_secret<S: Reaches<L>, L: Named, B: Board>(
    alloc: Global,
    s: S,
    b: &mut B,
    name: &Bytes,
    value: &Bytes,
    running: &mut Running,
) -> Result<(S, Reply), Off>
    requires can_answer { CanAnswer S.stage running.old.known (B.seen b.old) }
    requires name { IsName name.now }
    requires value { FitsMessage value.now }
    ensures answers { AnswersIn L.place (put_event L.place name.now value.now) running.old running.new
        result (B.seen b.old) (B.seen b.new) }
    ensures stays { running.new.known ≡ running.old.known }
{
    let secret = match secret_with(alloc, name, value, running.known.figures.number) {
        Ok(secret) => secret,
        Err(NoMemory) => return Ok((s, Reply::NoMemory)),
    };
    let region = match region_with::<S, L, B>(alloc, &s, b, secret, &mut running.room) {
        Ok(region) => region,
        Err(NotPut::Full) => return Ok((s, Refusal::RegionFull.reply())),
        Err(NotPut::NoMemory) => return Ok((s, Reply::NoMemory)),
    };
    let s = replace::<S, L, B>(s, b, &region, &mut running.room)?;
    Ok((s, Reply::Kept))
}

/// Answers a get: the value of the secret with the name, or that there is none. Writes nothing.
pub fn get_secret<S: Reaches<L>, L: Named, B: Board>(
    alloc: Global,
    s: &S,
    b: &B,
    name: &Bytes,
    room: &mut Room,
) -> Reply
    requires up { IsUp S.stage (B.seen b.now) }
    requires ready { HasReady (B.seen b.now).memory }
    ensures told { (state : State) → IsReady (B.seen b.now).memory state
        → IsAnswered (get_event L.place name.now state) result (B.seen b.now).memory
        (B.seen b.now).memory }
    ensures plans { SamePlans room.old room.new }
{
    match load::<S, L, B>(alloc, s, b, room) {
        Ok(region) => value_in(region, name.as_slice()),
        Err(NoMemory) => Reply::NoMemory,
    }
}

/// The stored region without the secret with the name; `None` if there is no such secret.
fn region_without<S: Reaches<L>, L: Named, B: Board>(
    alloc: Global,
    s: &S,
    b: &B,
    name: &Bytes,
    room: &mut Room,
) -> Result<Option<Region>, NoMemory>
    requires up { IsUp S.stage (B.seen b.now) }
    requires ready { HasReady (B.seen b.now).memory }
    ensures dropped { (state : State) → IsReady (B.seen b.now).memory state
        → DropsFrom (region_of state L.place) name.now result }
    ensures stored { IfOk result (λ found. IfSome found (λ region. CanBeWritten region)) }
    ensures plans { SamePlans room.old room.new }
{
    let mut region = load::<S, L, B>(alloc, s, b, room)?;
    if drop_in(&mut region, name.as_slice()) {
        Ok(Some(region))
    } else {
        Ok(None)
    }
}

/// Answers a drop: the secret with the name is dropped, or there is none and nothing is written. The layer may run. If
/// power fails, the secret is dropped as a whole or not at all. There are at most three write calls.
pub fn drop_secret<S: Reaches<L>, L: Named, B: Board>(
    alloc: Global,
    s: S,
    b: &mut B,
    name: &Bytes,
    running: &mut Running,
) -> Result<(S, Reply), Off>
    requires can_answer { CanAnswer S.stage running.old.known (B.seen b.old) }
    ensures answers { AnswersIn L.place (drop_event L.place name.now) running.old running.new result
        (B.seen b.old) (B.seen b.new) }
    ensures stays { running.new.known ≡ running.old.known }
{
    let region = match region_without::<S, L, B>(alloc, &s, b, name, &mut running.room) {
        Ok(Some(region)) => region,
        Ok(None) => return Ok((s, Reply::Absent)),
        Err(NoMemory) => return Ok((s, Reply::NoMemory)),
    };
    let s = replace::<S, L, B>(s, b, &region, &mut running.room)?;
    Ok((s, Reply::Dropped))
}
