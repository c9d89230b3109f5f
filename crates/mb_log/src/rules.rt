//! Whether an entry may follow those before it.

ghost use Rattle.std.specs.Prelude.{◌≡◌, ◌↔◌, ◌≤◌, List, length, IsTrue};
ghost use Rattle.mb_model.specs.declared.limits.TheConstants.{ENTRY_LIMIT};
ghost use Rattle.mb_model.specs.declared.entry.Entry.{Entry};
ghost use Rattle.mb_model.specs.owners.Layers.{layer_of};
ghost use Rattle.mb_model.specs.owners.Rules.{CanPlace, after};
ghost use Rattle.mb_model.specs.owners.Log.{figures_of, entries_of, StandsAt, AreFirst, HaveEqualTrusts, MayHaveVersion, Ordered, CountsRightly, MakesRightly, ChangesRightly, MayAllCosign, Ruled};
ghost use Rattle.mb_log.specs.Following.{FollowSays};

use crate::figures::figures_of;
use mb_authority::{after, kept_regions, layer_of, may_cosign, renews, stands_for_order};
use mb_model::{
    ChangeKind, Entry, Figures, Follow, LAST_INDEX, Layer, Layers, Pair, PublicKey, SignedEntry,
};

/// Whether the entry, with this index of its signature, may follow the at most 128 entries before it: `Order` exactly
/// if there are entries before it and its position or index is wrong, else `Rules` exactly if it breaks the rules of
/// the log.
pub fn follows(before: &[SignedEntry], entry: &Entry, index: u32) -> Follow
    requires { length before.now ≤ ENTRY_LIMIT }
    ensures { FollowSays (figures_of (entries_of before.now)) entry.now index result }
{
    follows_figures(&figures_of(before), entry, index)
}

/// Whether the entry, with this index of its signature, may follow a log with these figures; answers as `follows` does
/// for the log itself.
pub fn follows_figures(figures: &Figures, entry: &Entry, index: u32) -> Follow
    ensures { FollowSays figures.now entry.now index result }
{
    if figures.length > 0 && !is_next(figures, entry, index) {
        return Follow::Order;
    }
    if !allow(figures, entry) {
        return Follow::Rules;
    }
    Follow::Yes
}

/// Whether the entry has the right position, and its signature has the next index.
fn is_next(figures: &Figures, entry: &Entry, index: u32) -> bool
    ensures { IsTrue result ↔ Ordered figures.now entry.now index }
{
    stands_at(figures.length, entry) && index == figures.uses
}

/// Whether the rules allow the entry after a log with these figures.
fn allow(figures: &Figures, entry: &Entry) -> bool
    ensures { IsTrue result ↔ Ruled figures.now entry.now }
{
    match entry {
        Entry::Birth {
            version,
            layers,
            ..
        } => figures.length == 0
            && are_first(layers)
            && may_have_version(figures, *version, layers),
        Entry::Change {
            version,
            number,
            kind,
            layer,
            cosigned,
            layers,
            kept,
            next,
            ..
        } => {
            figures.length > 0
                && counts(figures, *number, *kind, *layer, next)
                && changes(&figures.layers, *kind, *layer, *cosigned, layers, *kept)
                && may_have_version(figures, *version, layers)
        }
        Entry::NewKey {
            number,
            key_number,
            layer,
            ..
        } => figures.length > 0 && makes(figures, *number, *key_number, *layer),
        Entry::Succession { .. } => figures.length > 0 && figures.uses == LAST_INDEX as u32,
    }
}

/// Whether a change has the right number, and names the next device key exactly if it has to.
fn counts(
    figures: &Figures,
    number: u32,
    kind: ChangeKind,
    layer: u8,
    next: &Option<PublicKey>,
) -> bool
    ensures { IsTrue result ↔ CountsRightly figures.now number kind layer next.now }
{
    number.checked_sub(1) == Some(figures.number)
        && next.is_some() == renews(Some(kind), layer)
        && (figures.uses != LAST_INDEX as u32 || next.is_some())
}

/// Whether a birth or change with these layers may have this version after a log with these figures.
fn may_have_version(figures: &Figures, version: u8, layers: &Layers) -> bool
    ensures { IsTrue result ↔ MayHaveVersion figures.now.version_two version layers.now }
{
    match version {
        1 => !figures.version_two && have_equal_trusts(layers),
        2 => true,
        _ => false,
    }
}

/// Whether a new key of the layer has the right numbers, and may be made.
fn makes(figures: &Figures, number: u32, key_number: u32, layer: u8) -> bool
    ensures { IsTrue result ↔ MakesRightly figures.now number key_number layer }
{
    number == figures.number
        && key_number == figures.keys_made
        && figures.uses != LAST_INDEX as u32
        && stands_for_order(&figures.layers, None, layer)
}

/// Whether the entry has this position; a birth has none.
fn stands_at(length: u32, entry: &Entry) -> bool
    ensures { IsTrue result ↔ StandsAt length entry.now }
{
    match entry {
        Entry::Birth { .. } => true,
        Entry::Change { position, .. }
        | Entry::NewKey { position, .. }
        | Entry::Succession { position, .. } => *position == length,
    }
}

/// Whether these can be the layers at a birth.
fn are_first(layers: &Layers) -> bool
    ensures { IsTrue result ↔ AreFirst layers.now }
{
    layers.one.owner.is_some()
        && layers.one.reliable
        && layers.two == Layer::unowned()
        && layers.three == Layer::unowned()
}

/// Whether each of the layers trusts changes of layer 1 and of layer 2 alike.
fn have_equal_trusts(layers: &Layers) -> bool
    ensures { IsTrue result ↔ HaveEqualTrusts layers.now }
{
    layers.one.trust.one == layers.one.trust.two
        && layers.two.trust.one == layers.two.trust.two
        && layers.three.trust.one == layers.three.trust.two
}

/// Whether by the rules a change of the layers `old` leaves the layers `new` and keeps these regions.
fn changes(
    old: &Layers,
    kind: ChangeKind,
    layer: u8,
    cosigned: Pair,
    new: &Layers,
    kept: Pair,
) -> bool
    ensures { IsTrue result ↔ ChangesRightly old.now kind layer cosigned new.now kept }
{
    stands_for_order(old, Some(kind), layer)
        && can_place(kind, &layer_of(old, layer), &layer_of(new, layer))
        && leaves(old, kind, layer, cosigned, new)
        && kept == kept_regions(old, kind, layer, cosigned)
        && may_all_cosign(old, kind, layer, cosigned)
}

/// Whether the layers `new` follow from the layer that the change puts at its own number.
fn leaves(old: &Layers, kind: ChangeKind, layer: u8, cosigned: Pair, new: &Layers) -> bool
    ensures { IsTrue result ↔ (new.now ≡ after old.now kind layer cosigned (layer_of new.now layer)) }
{
    *new == after(old, kind, layer, cosigned, &layer_of(new, layer))
}

/// Whether each owner that has countersigned the change may do so.
fn may_all_cosign(layers: &Layers, kind: ChangeKind, layer: u8, cosigned: Pair) -> bool
    ensures { IsTrue result ↔ MayAllCosign layers.now kind layer cosigned }
{
    (!cosigned.two || may_cosign(layers, kind, layer, 2))
        && (!cosigned.three || may_cosign(layers, kind, layer, 3))
}

/// Whether a change of the kind can put the new layer in place of the old.
fn can_place(kind: ChangeKind, old: &Layer, new: &Layer) -> bool
    ensures { IsTrue result ↔ CanPlace kind old.now new.now }
{
    match kind {
        ChangeKind::Establish => new.owner.is_some() && new.code.is_none() && !new.reliable,
        ChangeKind::Surrender => *new == Layer::unowned(),
        ChangeKind::Load | ChangeKind::Emergency => {
            new.owner == old.owner && new.code.is_some() && new.reliable
        }
    }
}
