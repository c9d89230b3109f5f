//! The entries that an order appends to the log, and the keys that it makes.

ghost use Rattle.std.specs.Prelude.{◌≡◌, ◌+◌, ◌<◌, ◌≤◌, [], ◌∷◌, ◌++◌, IfOk, IsSome, OnErr, vec_len, vec_capacity, if◌then◌else◌, ◌*◌, true, false};
ghost use Rattle.mb_model.specs.declared.limits.TheConstants.{LAST_INDEX, ENTRY_LIMIT};
ghost use Rattle.mb_model.specs.owners.Log.{keys_in, keys_made_by};
ghost use Rattle.mb_model.specs.signatures.Signing.{public_of};
ghost use Rattle.mb_model.specs.machine.OrderEffects.{names_next, next_key, next_device_key, entry_of, device_after, uses_after};
ghost use Rattle.mb_model.specs.machine.Work.{ready_by, first_by, key_by, outgoing_by, bodies_by};
ghost use Rattle.mb_model.specs.machine.OrderChecks.{needed_with, HasRoomWith};
ghost use Rattle.mb_log.specs.Additions.{HasRoomFor, IsInRange};
ghost use Rattle.mb_signer.specs.Benches.{HasTree, IsBare, HasRoom};
ghost use Rattle.mb_lms.specs.declared.hash_count.TheConstants.{TREE_HASHES};

use crate::keys::born;
use mb_authority::renews;
use mb_lms::HashCount;
use mb_model::{
    Bodies, Entries, Entry, Fact, KeyKind, KeySeed, LAST_INDEX, NoMemory, Outgoing, PublicKey,
    RegionKey, View,
};
use mb_signer::{Bench, public};
use std::alloc::Global;
use std::sync::ledger::Ledger;

/// The most entries that an order appends.
const MOST: usize = 2;

/// The number of entries that an order appends after `uses` uses of the device key. It is two if only the last index is
/// left and the order's own entry does not name the next key: a succession comes first, since the last index signs only
/// an entry that names the next key. Else it is one.
pub fn needed_with(uses: u32, names_next: bool) -> u32
    ensures { result ≡ needed_with uses names_next }
{
    if uses == LAST_INDEX as u32 && !names_next {
        2
    } else {
        1
    }
}

/// The entries and keys that the fact adds to a device, in 34,399 hashes for each key that the entries name, of which
/// there are at most two. New keys are derived from the draw. The tree of a new device key is on the bench afterwards,
/// to sign by; that of a region's key is not, since the order does not sign by it. So a bench that was bare has room for
/// another tree.
///
/// No hash is taken if an allocation fails.
pub fn bodies<L: Ledger>(
    alloc: Global,
    view: &View,
    fact: &Fact,
    draw: &[u8; 32],
    bench: &mut Bench,
    hashes: &mut HashCount<L>,
) -> Result<Bodies, NoMemory>
    requires range { IsInRange view.now }
    requires room { HasRoomFor view.now fact.now }
    ensures bodies { IfOk result (λ bodies. bodies ≡ bodies_by view.now fact.now draw.now) }
    ensures at_hand { IfOk result (λ bodies. IsSome bodies.outgoing → HasTree bench.new bodies.device) }
    ensures room { IsBare bench.old → HasRoom bench.new }
    ensures cost { hashes.new ≤ hashes.old + 2 * TREE_HASHES }
    ensures keys { IfOk result (λ bodies. hashes.new
        ≤ hashes.old + keys_made_by bodies.entries * TREE_HASHES) }
    ensures unhashed { OnErr result (hashes.new ≡ hashes.old) }
{
    let mut entries = Vec::with_capacity(alloc, MOST)?;
    let next_named = names_next(fact);
    let ready = make_ready(view, next_named, draw, &mut entries, bench, hashes);
    let own = own_addition(&ready, fact, draw, bench, hashes);
    put(&mut entries, own.entry);
    Ok(Bodies {
        entries: Entries::from_vec(entries),
        device: own.device,
        uses: own.uses,
        outgoing: outgoing(view, next_named),
        key: own.key,
    })
}

/// Whether the fact makes the next device key: it does if it is an ordinary load of layer 1.
fn names_next(fact: &Fact) -> bool
    ensures { result ≡ names_next fact.now }
{
    match fact {
        Fact::Change { kind, layer, .. } => renews(Some(*kind), *layer),
        Fact::NewKey { .. } => false,
    }
}

/// Adds an entry to a list that has room for it.
fn put(entries: &mut Vec<Entry>, entry: Entry)
    requires { vec_len entries.old < vec_capacity entries.old }
    ensures items { entries.new.items ≡ entries.old.items ++ entry ∷ [] }
    ensures len { vec_len entries.new ≡ vec_len entries.old + 1 }
    ensures capacity { vec_capacity entries.old ≤ vec_capacity entries.new }
{
    let Ok(()) = entries.push(entry) else {
        unreachable!();
    };
}

/// The view in which the device key has an index for the fact's own entry. If a succession is needed, it is the view
/// after the succession, whose entry is put into the list.
fn make_ready<L: Ledger>(
    view: &View,
    names_next: bool,
    draw: &[u8; 32],
    entries: &mut Vec<Entry>,
    bench: &mut Bench,
    hashes: &mut HashCount<L>,
) -> View
    requires empty { vec_len entries.old ≡ 0 }
    requires capacity { MOST ≤ vec_capacity entries.old }
    requires room { HasRoomWith view.now names_next }
    requires keys_made { view.now.keys_made ≤ ENTRY_LIMIT }
    ensures ready { result ≡ ready_by view.now names_next draw.now }
    ensures entries { entries.new.items ≡ entries.old.items ++ first_by view.now names_next draw.now }
    ensures room { vec_len entries.new < vec_capacity entries.new }
    ensures at_hand { needed_with view.now.uses names_next ≡ 2 → HasTree bench.new result.device }
    ensures same { names_next ≡ true → bench.new ≡ bench.old }
    ensures left { IsBare bench.old → HasRoom bench.new }
    ensures cost { hashes.new ≤ hashes.old + TREE_HASHES }
    ensures keys { hashes.new
        ≤ hashes.old + keys_made_by (first_by view.now names_next draw.now) * TREE_HASHES }
{
    if needed_with(view.uses, names_next) == 1 {
        return *view;
    }
    let next = next_device_key(view, draw, bench, hashes);
    let succession = Entry::Succession {
        position: view.length,
        key: next.public,
    };
    put(entries, succession);
    View {
        length: view.length + 1,
        keys_made: view.keys_made + 1,
        device: next.seed,
        uses: 0,
        ..*view
    }
}

/// A key and its public key.
#[derive(Drop)]
struct MadeKey {
    seed: KeySeed,
    public: PublicKey,
}

/// The key that the device makes next, as its device key. Its tree is on the bench afterwards.
fn next_device_key<L: Ledger>(
    view: &View,
    draw: &[u8; 32],
    bench: &mut Bench,
    hashes: &mut HashCount<L>,
) -> MadeKey
    ensures seed { result.seed ≡ next_key view.now draw.now }
    ensures public { result.public ≡ public_of (next_key view.now draw.now) }
    ensures at_hand { HasTree bench.new result.seed }
    ensures room { IsBare bench.old → HasRoom bench.new }
    ensures cost { hashes.new ≤ hashes.old + TREE_HASHES }
{
    let seed = born(draw, &view.serial, view.keys_made);
    MadeKey {
        seed,
        public: bench.public(&seed, hashes),
    }
}

/// The device key after a change.
#[derive(Drop)]
struct DeviceKey {
    /// The next key, if the change names one.
    named: Option<PublicKey>,
    seed: KeySeed,
    /// The number of its used indices.
    uses: u32,
}

/// The device key after a change that names the next key, or does not.
fn device_after<L: Ledger>(
    names_next: bool,
    view: &View,
    draw: &[u8; 32],
    bench: &mut Bench,
    hashes: &mut HashCount<L>,
) -> DeviceKey
    requires { view.now.uses ≤ LAST_INDEX }
    ensures named { result.named ≡ next_device_key names_next view.now draw.now }
    ensures seed { result.seed ≡ (if names_next then next_key view.now draw.now else view.now.device) }
    ensures uses { result.uses ≡ (if names_next then 0 else view.now.uses + 1) }
    ensures at_hand { names_next ≡ true → HasTree bench.new result.seed }
    ensures same { names_next ≡ false → bench.new ≡ bench.old }
    ensures room { IsBare bench.old → HasRoom bench.new }
    ensures cost { hashes.new ≤ hashes.old + TREE_HASHES }
    ensures unmade { names_next ≡ false → hashes.new ≡ hashes.old }
{
    if !names_next {
        return DeviceKey {
            named: None,
            seed: view.device,
            uses: view.uses + 1,
        };
    }
    let next = next_device_key(view, draw, bench, hashes);
    DeviceKey {
        named: Some(next.public),
        seed: next.seed,
        uses: 0,
    }
}

/// The fact's own entry, and the keys after it.
#[derive(Drop)]
struct Addition {
    entry: Entry,
    /// The device key afterwards.
    device: KeySeed,
    /// The number of its used indices.
    uses: u32,
    /// The new key of a region, if the fact makes one.
    key: Option<RegionKey>,
}

/// The fact's own entry, and the keys after it. The device key has an index left for the entry.
fn own_addition<L: Ledger>(
    view: &View,
    fact: &Fact,
    draw: &[u8; 32],
    bench: &mut Bench,
    hashes: &mut HashCount<L>,
) -> Addition
    requires uses { view.now.uses ≤ LAST_INDEX }
    requires number { view.now.number ≤ ENTRY_LIMIT }
    ensures entry { result.entry ≡ entry_of view.now fact.now draw.now }
    ensures device { result.device ≡ device_after (names_next fact.now) view.now draw.now }
    ensures uses { result.uses ≡ uses_after (names_next fact.now) view.now }
    ensures key { result.key ≡ key_by view.now fact.now draw.now }
    ensures at_hand { names_next fact.now ≡ true → HasTree bench.new result.device }
    ensures same { names_next fact.now ≡ false → bench.new ≡ bench.old }
    ensures room { IsBare bench.old → HasRoom bench.new }
    ensures cost { hashes.new ≤ hashes.old + TREE_HASHES }
    ensures keys { hashes.new ≤ hashes.old + keys_in result.entry * TREE_HASHES }
{
    match *fact {
        Fact::Change {
            kind,
            layer,
            cosigned,
            layers,
            kept,
        } => {
            let device = device_after(renews(Some(kind), layer), view, draw, bench, hashes);
            let entry = Entry::Change {
                version: 2,
                position: view.length,
                number: view.number + 1,
                kind,
                layer,
                cosigned,
                layers,
                kept,
                next: device.named,
            };
            Addition {
                entry,
                device: device.seed,
                uses: device.uses,
                key: None,
            }
        }
        Fact::NewKey { layer, kind } => key_addition(view, layer, kind, draw, hashes),
    }
}

/// The entry of a new key of a region, and the key.
fn key_addition<L: Ledger>(
    view: &View,
    layer: u8,
    kind: KeyKind,
    draw: &[u8; 32],
    hashes: &mut HashCount<L>,
) -> Addition
    requires { view.now.uses ≤ LAST_INDEX }
    ensures entry { result.entry ≡ entry_of view.now (Fact.NewKey layer kind) draw.now }
    ensures device { result.device ≡ view.now.device }
    ensures uses { result.uses ≡ view.now.uses + 1 }
    ensures key { result.key ≡ key_by view.now (Fact.NewKey layer kind) draw.now }
    ensures cost { hashes.new ≤ hashes.old + TREE_HASHES }
    ensures keys { hashes.new ≤ hashes.old + keys_in result.entry * TREE_HASHES }
{
    let seed = born(draw, &view.serial, view.keys_made);
    Addition {
        entry: Entry::NewKey {
            position: view.length,
            number: view.number,
            key_number: view.keys_made,
            layer,
            kind,
            key: public(&seed, hashes),
        },
        device: view.device,
        uses: view.uses + 1,
        key: Some(RegionKey {
            number: view.keys_made,
            kind,
            seed,
            uses: 0,
        }),
    }
}

/// The device key that gives way to the next, by a succession or by the fact's own entry, if it does.
fn outgoing(view: &View, names_next: bool) -> Option<Outgoing>
    requires { view.now.uses ≤ LAST_INDEX }
    ensures { result ≡ outgoing_by view.now names_next }
{
    if names_next || needed_with(view.uses, names_next) == 2 {
        Some(Outgoing {
            seed: view.device,
            uses: view.uses + 1,
        })
    } else {
        None
    }
}
