//! The keys that are alive by a log.

ghost use Rattle.std.specs.Prelude.{◌≡◌, ◌++◌, IfOk, OnOk, filter, option_to_list};
ghost use Rattle.mb_model.specs.owners.Lives.{ends_keys, alive_keys};
ghost use Rattle.mb_model.specs.owners.Log.{entries_of};
ghost use Rattle.mb_model_lemmas.specs.AliveLaws.{goes_on, made_by};
ghost use Rattle.mb_image.specs.Keys.{listed_keys};

use mb_log::ends;
use mb_model::{Entry, KeyKind, NoMemory, PublicKey, SignedEntry};
use std::alloc::Global;

/// A key that an entry made in a region.
#[derive(Clone, Copy, Drop)]
pub(crate) struct MadeKey {
    pub number: u32,
    pub kind: KeyKind,
    pub key: PublicKey,
}

/// The keys of the layer's region that are alive by a log, in the order of their birth.
pub(crate) fn alive_keys(
    alloc: Global,
    log: &[SignedEntry],
    layer: u8,
) -> Result<Vec<MadeKey>, NoMemory>
    ensures { IfOk result (λ keys. listed_keys keys.items ≡ alive_keys (entries_of log.now) layer) }
{
    let mut alive = Vec::new(alloc);
    for signed in log {
        pass(&mut alive, layer, &signed.entry)?;
    }
    Ok(alive)
}

/// Passes an entry: drops the keys that it ends, and adds the key that it makes.
fn pass(alive: &mut Vec<MadeKey>, layer: u8, entry: &Entry) -> Result<(), NoMemory>
    ensures { OnOk result (listed_keys alive.new.items ≡ filter (goes_on layer entry.now) (listed_keys alive.old.items) ++ made_by layer entry.now) }
{
    drop_ended(alive, layer, entry);
    if let Some(made) = made_by(layer, entry) {
        alive.push(made)?;
    }
    Ok(())
}

/// Drops the keys that an entry ends.
fn drop_ended(alive: &mut Vec<MadeKey>, layer: u8, entry: &Entry)
    ensures { listed_keys alive.new.items ≡ filter (goes_on layer entry.now) (listed_keys alive.old.items) }
{
    alive.retain(|made| !ends(made.kind, layer, entry));
}

/// The key that an entry makes in the layer's region, if it makes one.
fn made_by(layer: u8, entry: &Entry) -> Option<MadeKey>
    ensures { listed_keys (option_to_list result) ≡ made_by layer entry.now }
{
    match *entry {
        Entry::NewKey {
            key_number,
            layer: own,
            kind,
            key,
            ..
        } if own == layer => Some(MadeKey {
            number: key_number,
            kind,
            key,
        }),
        _ => None,
    }
}
