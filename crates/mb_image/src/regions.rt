//! The check that a region is one that its layer can have by the log.

ghost use Rattle.std.specs.Prelude.{◌≡◌, ◌≢◌, ◌↔◌, ◌+◌, ◌*◌, ◌≤◌, ℕ, false, length, map, All, AllPairs, Any, IfOk, IsTrue};
ghost use Rattle.mb_model.specs.owners.Layers.{layer_of, is_upper};
ghost use Rattle.mb_model.specs.owners.Log.{entries_of, number_of, RuledLog};
ghost use Rattle.mb_model.specs.owners.Regions.{empty_region, AdmittedSince};
ghost use Rattle.mb_model.specs.memories.Valid.{as_made, IsValidRegion};
ghost use Rattle.mb_image.specs.Keys.{as_listed, listed_keys};
ghost use Rattle.mb_image.specs.Losses.{loss};
ghost use Rattle.mb_model.specs.declared.limits.TheConstants.{KEY_LIMIT};
ghost use Rattle.mb_lms.specs.declared.hash_count.TheConstants.{TREE_HASHES};

use crate::alive::{MadeKey, alive_keys};
use mb_lms::HashCount;
use mb_log::ends;
use mb_model::{
    Entry, Figures, KEY_LIMIT, KeyKind, Layers, NoMemory, Region, RegionKey, Secret, SignedEntry,
};
use mb_signer::public;
use std::alloc::Global;
use std::sync::ledger::Ledger;

/// Whether this can be the region of the layer (2 or 3) in a device with this log. The log obeys the rules, and
/// `figures` are its figures. The public key of each key of the region is derived once.
pub(crate) fn is_valid_region<L: Ledger>(
    alloc: Global,
    log: &[SignedEntry],
    figures: &Figures,
    layer: u8,
    region: &Region,
    hashes: &mut HashCount<L>,
) -> Result<bool, NoMemory>
    requires ruled { RuledLog (entries_of log.now) }
    requires number { figures.now.number ≡ number_of (entries_of log.now) }
    requires layer { IsTrue (is_upper layer) }
    ensures valid { IfOk result (λ valid. IsTrue valid ↔ IsValidRegion (entries_of log.now) figures.now.layers layer region.now) }
    ensures cost { hashes.new ≤ hashes.old + TREE_HASHES * KEY_LIMIT }
{
    if !may_be_there(&figures.layers, layer, region)
        || region.keys.as_slice().len() > KEY_LIMIT as usize
    {
        return Ok(false);
    }
    if !are_kept(log, figures.number, layer, region.secrets.as_slice()) {
        return Ok(false);
    }
    let alive = alive_keys(alloc, log, layer)?;
    Ok(are_alive(region.keys.as_slice(), &alive, hashes))
}

/// Whether the region is empty or its layer is reliable.
fn may_be_there(layers: &Layers, layer: u8, region: &Region) -> bool
    requires { IsTrue (is_upper layer) }
    ensures { IsTrue result ↔ ((layer_of layers.now layer).reliable ≡ false → region.now ≡ empty_region) }
{
    let own = if layer == 2 {
        &layers.two
    } else {
        &layers.three
    };
    own.reliable || is_empty(region)
}

/// Whether the region has no secret and no key.
pub(crate) fn is_empty(region: &Region) -> bool
    ensures { IsTrue result ↔ (region.now ≡ empty_region) }
{
    region.secrets.as_slice().is_empty() && region.keys.as_slice().is_empty()
}

/// Whether the secrets have different names, each was put at a configuration number up to the log's, and the layer has
/// admitted each change since then.
fn are_kept(log: &[SignedEntry], number: u32, layer: u8, secrets: &[Secret]) -> bool
    requires ruled { RuledLog (entries_of log.now) }
    requires layer { IsTrue (is_upper layer) }
    ensures { IsTrue result ↔ (AllPairs (λ a b. a.name ≢ b.name) secrets.now × All (λ secret. secret.born ≤ number) secrets.now × All (λ secret. AdmittedSince (entries_of log.now) secret.born layer) secrets.now) }
{
    names_differ(secrets) && are_born_within(secrets, last_loss(log, layer), number)
}

/// Whether each secret was put at a configuration number between these two.
fn are_born_within(secrets: &[Secret], first: u32, last: u32) -> bool
    ensures { IsTrue result ↔ (All (λ secret. secret.born ≤ last) secrets.now × All (λ secret. first ≤ secret.born) secrets.now) }
{
    secrets
        .iter()
        .all(|secret| first <= secret.born && secret.born <= last)
}

/// Whether the secrets have different names.
fn names_differ(secrets: &[Secret]) -> bool
    ensures { IsTrue result ↔ AllPairs (λ a b. a.name ≢ b.name) secrets.now }
{
    for at in 0..secrets.len() {
        if has_name(&secrets[..at], secrets[at].name.as_slice()) {
            return false;
        }
    }
    true
}

/// Whether one of the secrets has the name.
fn has_name(secrets: &[Secret], name: &[u8]) -> bool
    ensures { IsTrue result ↔ Any (λ secret. secret.name ≡ name.now) secrets.now }
{
    secrets.iter().any(|secret| secret.name.as_slice() == name)
}

/// The number of the last change that took the secrets of the layer's region; 0 if there is none.
fn last_loss(log: &[SignedEntry], layer: u8) -> u32
    ensures upper { All (λ signed. loss layer signed.entry ≤ result) log.now }
    ensures least { (c : ℕ) → All (λ signed. loss layer signed.entry ≤ c) log.now → result ≤ c }
{
    let mut last = 0;
    for signed in log {
        last = last.max(loss(layer, &signed.entry));
    }
    last
}

/// The number of the entry if it is a change that took the secrets of the layer's region; else 0.
fn loss(layer: u8, entry: &Entry) -> u32
    ensures { result ≡ loss layer entry.now }
{
    match entry {
        Entry::Change { number, .. } if ends(KeyKind::Epoch, layer, entry) => *number,
        _ => 0,
    }
}

/// Whether the keys are the living ones, in order.
fn are_alive<L: Ledger>(keys: &[RegionKey], alive: &[MadeKey], hashes: &mut HashCount<L>) -> bool
    ensures alive { IsTrue result ↔ (map as_made keys.now ≡ listed_keys alive.now) }
    ensures cost { hashes.new ≤ hashes.old + TREE_HASHES * length keys.now }
{
    if keys.len() != alive.len() {
        return false;
    }
    for at in 0..keys.len() {
        if !is_same(&keys[at], &alive[at], hashes) {
            return false;
        }
    }
    true
}

/// Whether the key has the number, the kind and the public key of an entry.
fn is_same<L: Ledger>(key: &RegionKey, made: &MadeKey, hashes: &mut HashCount<L>) -> bool
    ensures same { IsTrue result ↔ (as_made key.now ≡ as_listed made.now) }
    ensures cost { hashes.new ≤ hashes.old + TREE_HASHES }
{
    key.number == made.number && key.kind == made.kind && public(&key.seed, hashes) == made.key
}
