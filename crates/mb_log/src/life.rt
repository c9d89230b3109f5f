//! The life of one key of a region by the entries of a log: whether the key is alive, and the configurations in which
//! it lived.

ghost use Rattle.std.specs.Prelude.{◌≡◌, ℕ, ◌≤◌, not, ◌&&◌, List, [], ◌∷◌, ◌++◌, length, IfOk, OnOk, OnErr, if◌then◌else◌};
ghost use Rattle.std.specs.Option.{option_to_list};
ghost use Rattle.mb_model.specs.declared.limits.TheConstants.{ENTRY_LIMIT};
ghost use Rattle.mb_model.specs.declared.entry.Entry.{Entry};
ghost use Rattle.mb_model.specs.owners.Log.{figures_of, entries_of, RuledLog};
ghost use Rattle.mb_model.specs.owners.Lives.{ends_keys, layers_upto, configuration, configurations_opened_by};
ghost use Rattle.mb_model.specs.owners.Lives.{lives_of};
ghost use Rattle.mb_log.specs.KeyLife.{IsLifeOf};

use crate::figures::{add_entry, no_figures};
use mb_authority::is_in;
use mb_model::{
    Configuration, Entry, Figures, KeyKind, Layer, Layers, Lives, NoMemory, PublicKey, SignedEntry,
};
use std::alloc::Global;

/// A key of a region, as the entry that makes it names it.
#[derive(Clone, Copy)]
pub struct BornKey {
    /// The layer of the region, 2 or 3.
    pub layer: u8,
    pub kind: KeyKind,
    pub key: PublicKey,
}

/// The life of one key of a region, by entries that are added one after another.
#[derive(Drop)]
pub struct Life {
    /// The number of the key among all keys of the device.
    pub number: u32,
    /// The key as its entry names it, if an entry has made it.
    pub born: Option<BornKey>,
    /// Whether the key is born and no later entry has ended it.
    pub alive: bool,
    /// The configurations in which the key lived.
    pub lives: Lives,
}

impl Life {
    /// The life of the key `number` by an empty log: not born yet. Takes no memory.
    pub fn begin(alloc: Global, number: u32) -> Life
        ensures { IsLifeOf [] number result }
    {
        Life {
            number,
            born: None,
            alive: false,
            lives: Lives::new(alloc),
        }
    }

    /// Adds the next entry, which may follow the entries before it. These have the figures `figures`.
    ///
    /// The life is unchanged if an allocation fails.
    pub fn add(&mut self, figures: &Figures, entry: &Entry) -> Result<(), NoMemory>
        ensures ok { (before : List Entry) (n : ℕ) → figures.now ≡ figures_of before → RuledLog (before ++ entry.now ∷ []) → IsLifeOf before n self.old → OnOk result (IsLifeOf (before ++ entry.now ∷ []) n self.new) }
        ensures err { OnErr result (self.new ≡ self.old) }
    {
        match self.born {
            None => self.be_born(figures, entry),
            Some(born) => self.live_on(&born, entry),
        }
    }

    /// Adds the next entry, before which the key is not born.
    fn be_born(&mut self, figures: &Figures, entry: &Entry) -> Result<(), NoMemory>
        ensures ok { (before : List Entry) (n : ℕ) → figures.now ≡ figures_of before → self.old.born ≡ None → IsLifeOf before n self.old → OnOk result (IsLifeOf (before ++ entry.now ∷ []) n self.new) }
        ensures err { OnErr result (self.new ≡ self.old) }
    {
        let Entry::NewKey {
            number,
            key_number,
            layer,
            kind,
            key,
            ..
        } = *entry
        else {
            return Ok(());
        };
        if key_number != self.number {
            return Ok(());
        }
        self.lives
            .push(configuration(layer, number, &figures.layers))?;
        self.born = Some(BornKey { layer, kind, key });
        self.alive = true;
        Ok(())
    }

    /// Adds the next entry, after the one that made the key.
    fn live_on(&mut self, born: &BornKey, entry: &Entry) -> Result<(), NoMemory>
        ensures alive { OnOk result (self.new.alive ≡ (self.old.alive && not (ends_keys born.now.kind born.now.layer entry.now))) }
        ensures lives { OnOk result (self.new.lives ≡ self.old.lives ++ (if self.old.alive && not (ends_keys born.now.kind born.now.layer entry.now) then configurations_opened_by born.now.layer entry.now else [])) }
        ensures number { self.new.number ≡ self.old.number }
        ensures born { self.new.born ≡ self.old.born }
        ensures err { OnErr result (self.new ≡ self.old) }
    {
        if !self.alive {
            return Ok(());
        }
        if ends(born.kind, born.layer, entry) {
            self.alive = false;
            return Ok(());
        }
        if let Some(opened) = opened_by(born.layer, entry) {
            self.lives.push(opened)?;
        }
        Ok(())
    }
}

/// The configurations in which the key `key` lived, by a log of at most 128 entries.
///
/// Each entry of the log has to obey the rules, as entries do if `follows` answers `Yes`. The list is then empty
/// exactly if no entry makes such a key.
pub fn lives(alloc: Global, log: &[SignedEntry], key: u32) -> Result<Lives, NoMemory>
    requires { length log.now ≤ ENTRY_LIMIT }
    ensures { RuledLog (entries_of log.now) → IfOk result (λ list. list ≡ lives_of (entries_of log.now) key) }
{
    let mut figures = no_figures();
    let mut life = Life::begin(alloc, key);
    for signed in log {
        life.add(&figures, &signed.entry)?;
        add_entry(&mut figures, &signed.entry);
    }
    Ok(life.lives)
}

/// Whether the entry ends each key of this kind and layer that was born before it. A change ends an epoch key if it
/// does not keep the region, and a configuration key if it is at the layer or beneath.
pub fn ends(kind: KeyKind, layer: u8, entry: &Entry) -> bool
    ensures { result ≡ ends_keys kind layer entry.now }
{
    let Entry::Change {
        layer: changed,
        kept,
        ..
    } = entry
    else {
        return false;
    };
    match kind {
        KeyKind::Epoch => !is_in(layer, *kept),
        KeyKind::Configuration => *changed <= layer,
    }
}

/// The configuration that the entry opens for a key of the layer, if it is a change at the layer or beneath.
fn opened_by(layer: u8, entry: &Entry) -> Option<Configuration>
    ensures { option_to_list result ≡ configurations_opened_by layer entry.now }
{
    match entry {
        Entry::Change {
            number,
            layer: changed,
            layers,
            ..
        } if *changed <= layer => Some(configuration(layer, *number, layers)),
        _ => None,
    }
}

/// The configuration with this number and these layers, for a key of the layer.
fn configuration(layer: u8, number: u32, layers: &Layers) -> Configuration
    ensures { result ≡ configuration layer number layers.now }
{
    Configuration {
        number,
        upto: layer,
        layers: layers_upto(layer, layers),
    }
}

/// The layers up to this one, with each above it as unowned.
fn layers_upto(layer: u8, layers: &Layers) -> Layers
    ensures { result ≡ layers_upto layer layers.now }
{
    Layers {
        one: layers.one,
        two: if layer < 2 {
            Layer::unowned()
        } else {
            layers.two
        },
        three: if layer < 3 {
            Layer::unowned()
        } else {
            layers.three
        },
    }
}
