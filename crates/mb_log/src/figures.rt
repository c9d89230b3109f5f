//! The figures of a log: counts, layers and device key after its entries.

ghost use Rattle.std.specs.Prelude.{◌≡◌, ◌+◌, ◌-◌, ◌^◌, ◌<◌, ◌≤◌, List, [], ◌∷◌, ◌++◌, length};
ghost use Rattle.mb_model.specs.declared.limits.TheConstants.{ENTRY_LIMIT};
ghost use Rattle.mb_model.specs.declared.entry.Entry.{Entry};
ghost use Rattle.mb_model.specs.owners.Layers.{unowned_layers};
ghost use Rattle.mb_model.specs.owners.Log.{figures_of, entries_of, is_change, is_version_two, layers_in, layers_of, device_in, keys_in};

use mb_model::{Entry, Figures, Layer, Layers, PublicKey, SignedEntry};

/// The figures of an empty log.
#[tactic(auto, using(crate::proofs::Pushes::figures_nil))]
pub fn no_figures() -> Figures
    ensures { result ≡ figures_of [] }
{
    Figures {
        length: 0,
        number: 0,
        layers: unowned_layers(),
        device: None,
        uses: 0,
        keys_made: 0,
        version_two: false,
    }
}

/// The figures of a log of at most 128 entries.
pub fn figures_of(log: &[SignedEntry]) -> Figures
    requires { length log.now ≤ ENTRY_LIMIT }
    ensures { result ≡ figures_of (entries_of log.now) }
{
    let mut figures = no_figures();
    for signed in log {
        add_entry(&mut figures, &signed.entry);
    }
    figures
}

/// Adds one entry to the figures. Counts saturate, at values that no list in memory can reach.
#[tactic(auto, using(crate::proofs::Pushes::figures_more))]
pub fn add_entry(figures: &mut Figures, entry: &Entry)
    ensures { (before : List Entry) → length before < 2 ^ 32 - 1 → figures.old ≡ figures_of before → figures.new ≡ figures_of (before ++ entry.now ∷ []) }
{
    let device = device_in(entry);
    let uses = if device.is_some() {
        0
    } else {
        figures.uses.saturating_add(1)
    };
    *figures = Figures {
        length: figures.length.saturating_add(1),
        number: figures.number.saturating_add(u32::from(is_change(entry))),
        layers: layers_in(entry).unwrap_or(figures.layers),
        device: device.or(figures.device),
        uses,
        keys_made: figures.keys_made.saturating_add(keys_in(entry)),
        version_two: figures.version_two || is_version_two(entry),
    };
}

/// Three layers without owners.
fn unowned_layers() -> Layers
    ensures { result ≡ unowned_layers }
{
    Layers {
        one: Layer::unowned(),
        two: Layer::unowned(),
        three: Layer::unowned(),
    }
}

/// Whether the entry is a birth or change of version 2.
fn is_version_two(entry: &Entry) -> bool
    ensures { result ≡ is_version_two entry.now }
{
    match entry {
        Entry::Birth { version, .. } | Entry::Change { version, .. } => *version == 2,
        Entry::NewKey { .. } | Entry::Succession { .. } => false,
    }
}

/// Whether the entry is a change, which counts for the configuration number.
fn is_change(entry: &Entry) -> bool
    ensures { result ≡ is_change entry.now }
{
    matches!(entry, Entry::Change { .. })
}

/// The layers after the last birth or change of the log; three layers without owners if there is none.
pub fn layers_of(log: &[SignedEntry]) -> Layers
    ensures { result ≡ layers_of (entries_of log.now) }
{
    let mut layers = unowned_layers();
    for signed in log {
        layers = layers_in(&signed.entry).unwrap_or(layers);
    }
    layers
}

/// The layers that an entry names, if it is a birth or a change.
fn layers_in(entry: &Entry) -> Option<Layers>
    ensures { result ≡ layers_in entry.now }
{
    match entry {
        Entry::Birth { layers, .. } | Entry::Change { layers, .. } => Some(*layers),
        Entry::NewKey { .. } | Entry::Succession { .. } => None,
    }
}

/// The device key that an entry names, if it names one.
fn device_in(entry: &Entry) -> Option<PublicKey>
    ensures { result ≡ device_in entry.now }
{
    match entry {
        Entry::Birth { key, .. } | Entry::Succession { key, .. } => Some(*key),
        Entry::Change { next, .. } => *next,
        Entry::NewKey { .. } => None,
    }
}

/// The number of keys that an entry names, 0 or 1.
fn keys_in(entry: &Entry) -> u32
    ensures { result ≡ keys_in entry.now }
{
    match entry {
        Entry::Birth { .. } | Entry::NewKey { .. } | Entry::Succession { .. } => 1,
        Entry::Change { next, .. } => u32::from(next.is_some()),
    }
}
