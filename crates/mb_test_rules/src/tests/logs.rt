//! A log like that of a device, and keys that another program made.

ghost use Rattle.std.specs.Prelude.{◌≡◌, ◌<◌};

use mb_lms::HashCount;
use mb_log::{Life, add_entry, bodies, follows, lives, no_figures};
use mb_model::{
    Bodies, Chains, ChangeKind, CodeName, Configuration, Entry, Fact, Follow, KeyKind, KeySeed,
    Layer, Layers, NoMemory, Pair, PublicKey, SignedEntry, Tree, Trust, Trusts, View,
};
use mb_signer::Bench;
use std::alloc::Global;
use std::marker::Brand;
use std::process::Abort;
use std::sync::ledger::{Blank, Ledger};
use std::test::Fail;

const SERIAL: [u8; 16] = [
    0xc1, 0x0b, 0x47, 0x1c, 0xef, 0xf8, 0x81, 0x27, 0x2a, 0xa5, 0xed, 0x81, 0x9f, 0xd9, 0xa0, 0xe0,
];

const DRAW: [u8; 32] = [
    0x67, 0xd8, 0x4c, 0x2e, 0x9f, 0x44, 0xb4, 0x15, 0xaa, 0xed, 0x06, 0x98, 0x2d, 0x74, 0x6d, 0x93,
    0x98, 0x5e, 0xca, 0xf0, 0x09, 0x5a, 0xc2, 0x80, 0xc4, 0x45, 0xbc, 0x05, 0xad, 0x58, 0xa2, 0x47,
];

/// The device's keys 1 and 2, each derived from the draw.
const IDENTIFIER_ONE: [u8; 16] = [
    0x7c, 0x2b, 0x6a, 0xbb, 0xe0, 0xfd, 0x7a, 0xfc, 0x4b, 0x81, 0x82, 0xb6, 0x1f, 0xdc, 0xc6, 0xb0,
];

const SEED_ONE: KeySeed = KeySeed {
    identifier: IDENTIFIER_ONE,
    seed: [
        0x06, 0x6d, 0x84, 0xda, 0x55, 0x84, 0x91, 0x27, 0xd5, 0x7f, 0x0e, 0x0d, 0x31, 0xcd, 0x68,
        0xb3, 0x65, 0xef, 0x96, 0x2d, 0x1d, 0x17, 0x84, 0x7d, 0xb1, 0x15, 0xa1, 0x58, 0xc9, 0x19,
        0x9e, 0x1f,
    ],
};

const KEY_ONE: PublicKey = PublicKey {
    tree: Tree::H5,
    chains: Chains::W4,
    identifier: IDENTIFIER_ONE,
    root: [
        0x36, 0x02, 0x42, 0x4a, 0xbd, 0x1f, 0x85, 0xf2, 0xf7, 0x60, 0x80, 0x60, 0x07, 0x36, 0x2d,
        0x5f, 0xdf, 0xf4, 0x75, 0x2c, 0x0c, 0x81, 0x94, 0x62, 0xd3, 0x0b, 0x4c, 0x75, 0x90, 0x08,
        0x61, 0xf7,
    ],
};

const IDENTIFIER_TWO: [u8; 16] = [
    0x7c, 0xe1, 0x4a, 0x98, 0xba, 0xeb, 0x83, 0xd5, 0x09, 0x00, 0xee, 0x90, 0xb2, 0x27, 0xd4, 0x53,
];

const SEED_TWO: KeySeed = KeySeed {
    identifier: IDENTIFIER_TWO,
    seed: [
        0x18, 0x69, 0xc5, 0xff, 0xff, 0xb6, 0xe1, 0xb3, 0x94, 0xe7, 0x88, 0x9b, 0xf3, 0x21, 0xb7,
        0xd2, 0x54, 0x00, 0x52, 0x6e, 0xb4, 0xd4, 0xc9, 0xb8, 0x85, 0x68, 0x83, 0x9f, 0x97, 0x6f,
        0x91, 0x34,
    ],
};

const KEY_TWO: PublicKey = PublicKey {
    tree: Tree::H5,
    chains: Chains::W4,
    identifier: IDENTIFIER_TWO,
    root: [
        0xaa, 0xa4, 0xea, 0x76, 0x72, 0x21, 0x99, 0x3d, 0x3b, 0x20, 0x88, 0xe3, 0xe3, 0xdc, 0xab,
        0xde, 0xcb, 0xd0, 0x28, 0x8d, 0x3c, 0x77, 0xf3, 0x60, 0xe6, 0xd1, 0xd3, 0x08, 0x00, 0x43,
        0x26, 0xe7,
    ],
};

/// A public key filled with this byte.
fn key(byte: u8) -> PublicKey {
    PublicKey {
        tree: Tree::H5,
        chains: Chains::W4,
        identifier: [byte; 16],
        root: [byte; 32],
    }
}

/// A layer of the owner with this byte, with code of this version. Without a version, it has no code and is not
/// reliable.
fn layer(owner: u8, version: Option<u32>) -> Layer {
    let code = match version {
        Some(version) => Some(CodeName {
            hash: [owner; 32],
            version,
        }),
        None => None,
    };
    Layer {
        owner: Some(key(owner)),
        code,
        reliable: code.is_some(),
        trust: Trusts {
            one: Trust::Countersigned,
            two: Trust::Countersigned,
        },
    }
}

const UNOWNED: Layer = Layer {
    owner: None,
    code: None,
    reliable: false,
    trust: Trusts {
        one: Trust::Never,
        two: Trust::Never,
    },
};

const NEITHER: Pair = Pair {
    two: false,
    three: false,
};

const LOWER: Pair = Pair {
    two: true,
    three: false,
};

const BOTH: Pair = Pair {
    two: true,
    three: true,
};

fn change(
    position: u32,
    kind: ChangeKind,
    layer: u8,
    cosigned: Pair,
    layers: [Layer; 3],
    kept: Pair,
) -> Entry {
    Entry::Change {
        version: 2,
        position,
        number: if position < 6 { position } else { position - 1 },
        kind,
        layer,
        cosigned,
        layers: layers_of(layers),
        kept,
        next: if layer == 1 { Some(key(9)) } else { None },
    }
}

fn layers_of(layers: [Layer; 3]) -> Layers {
    Layers {
        one: layers[0],
        two: layers[1],
        three: layers[2],
    }
}

fn birth(layers: [Layer; 3]) -> Entry {
    Entry::Birth {
        version: 2,
        serial: [0; 16],
        key: key(8),
        layers: layers_of(layers),
    }
}

/// The entry of key 1.
fn new_key(layer: u8, kind: KeyKind) -> Entry {
    Entry::NewKey {
        position: 5,
        number: 4,
        key_number: 1,
        layer,
        kind,
        key: key(7),
    }
}

/// Layers 2 and 3 are established and loaded in emergencies, key 1 is made, layer 1 is loaded with the consent of both,
/// and layer 3 is loaded.
fn life(key_layer: u8, kind: KeyKind) -> [Entry; 8] {
    let (one, next_one) = (layer(1, Some(1)), layer(1, Some(2)));
    let (two, loaded_two) = (layer(2, None), layer(2, Some(1)));
    let (three, loaded_three) = (layer(3, None), layer(3, Some(1)));
    let first = [one, UNOWNED, UNOWNED];
    let second = [one, two, UNOWNED];
    let third = [one, two, three];
    let fourth = [one, loaded_two, three];
    let fifth = [one, loaded_two, loaded_three];
    let sixth = [next_one, loaded_two, loaded_three];
    let last = [next_one, loaded_two, layer(3, Some(2))];
    [
        birth(first),
        change(1, ChangeKind::Establish, 2, NEITHER, second, NEITHER),
        change(2, ChangeKind::Establish, 3, NEITHER, third, LOWER),
        change(3, ChangeKind::Emergency, 2, NEITHER, fourth, NEITHER),
        change(4, ChangeKind::Emergency, 3, NEITHER, fifth, LOWER),
        new_key(key_layer, kind),
        change(6, ChangeKind::Load, 1, BOTH, sixth, BOTH),
        change(7, ChangeKind::Load, 3, NEITHER, last, BOTH),
    ]
}

/// The entries with a signature of zeros each.
fn signed(alloc: Global, entries: &[Entry]) -> Result<Vec<SignedEntry>, NoMemory> {
    let mut log = Vec::new(alloc);
    for entry in entries {
        log.push(SignedEntry {
            entry: *entry,
            signature: [0; 2348],
        })?;
    }
    Ok(log)
}

/// The configurations have these numbers.
fn has_numbers(lives: &[Configuration], numbers: &[u32]) -> bool {
    for (life, number) in lives.iter().zip(numbers) {
        if life.number != *number {
            return false;
        }
    }
    lives.len() == numbers.len()
}

/// Key 1 of the log lived in the configurations with these numbers.
fn lived(rt: &impl Abort, alloc: Global, entries: &[Entry], numbers: &[u32]) -> Result<(), Fail> {
    let log = signed(alloc, entries)?;
    assert!(rt; log.len() <= 128);
    let lives = lives(alloc, log.as_slice(), 1)?;
    assert!(rt; has_numbers(lives.as_slice(), numbers));
    Ok(())
}

/// Whether key 1 lives after the entries, and in how many configurations it lived.
fn life_of(alloc: Global, entries: &[Entry]) -> Result<(bool, usize), NoMemory> {
    let mut figures = no_figures();
    let mut life = Life::begin(alloc, 1);
    for entry in entries {
        life.add(&figures, entry)?;
        add_entry(&mut figures, entry);
    }
    Ok((life.alive, life.lives.as_slice().len()))
}

#[test]
fn an_epoch_key_lives_on_once_it_is_made(rt: HostRuntime) -> Result<(), Fail> {
    let entries = life(3, KeyKind::Epoch);
    lived(&rt, rt.alloc(), &entries[..5], &[])?;
    lived(&rt, rt.alloc(), &entries, &[4, 5, 6])
}

/// A configuration key of layer 2 outlives a load of layer 3, which opens no configuration for it, but no load of layer
/// 1.
#[test]
fn a_configuration_key(rt: HostRuntime) -> Result<(), Fail> {
    let entries = life(2, KeyKind::Configuration);
    let mut above = entries;
    above[6] = above[7];
    assert!(rt; life_of(rt.alloc(), &above[..7])? == (true, 1));
    let (alive, _) = life_of(rt.alloc(), &entries)?;
    assert!(rt; !alive);
    lived(&rt, rt.alloc(), &entries, &[4])
}

/// The answer on entry `at` of the entries, with a signature of this index, is the expected one.
fn expect(
    rt: &impl Abort,
    alloc: Global,
    entries: &[Entry],
    at: usize,
    index: u32,
    expected: Follow,
) -> Result<(), Fail> {
    let log = signed(alloc, entries)?;
    assert!(rt; at < log.len() && at <= 128);
    assert!(rt; follows(&log.as_slice()[..at], &log[at].entry, index) == expected);
    Ok(())
}

/// How a life is changed.
#[derive(Clone, Copy)]
enum Changed {
    /// Not at all.
    Nothing,
    /// Entries 1 and 2 change places.
    Swapped,
    /// Entry 3 says that it keeps both regions.
    Kept,
    /// Births and changes have these versions.
    Versions([u8; 8]),
    /// Births and changes have this version, and entry 2 gives layer 3 two trusts that differ.
    Apart(u8),
}

/// Gives a birth or a change the version.
fn set_version(entry: &mut Entry, new: u8) {
    match entry {
        Entry::Birth { version, .. } | Entry::Change { version, .. } => *version = new,
        Entry::NewKey { .. } | Entry::Succession { .. } => (),
    }
}

/// Gives births and changes these versions.
fn set_versions(entries: &mut [Entry; 8], versions: [u8; 8]) {
    for at in 0..8 {
        set_version(&mut entries[at], versions[at]);
    }
}

/// Gives layer 3 of a change two trusts that differ.
fn set_apart(entry: &mut Entry) {
    if let Entry::Change { layers, .. } = entry {
        layers.three.trust.two = Trust::Never;
    }
}

/// The entries of a life, changed as `how` says.
fn changed_life(how: Changed) -> [Entry; 8] {
    let mut entries = life(3, KeyKind::Epoch);
    match how {
        Changed::Nothing => (),
        Changed::Swapped => entries.swap(1, 2),
        Changed::Kept => {
            if let Entry::Change { kept, .. } = &mut entries[3] {
                *kept = BOTH;
            }
        }
        Changed::Versions(versions) => set_versions(&mut entries, versions),
        Changed::Apart(version) => {
            set_versions(&mut entries, [version; 8]);
            set_apart(&mut entries[2]);
        }
    }
    entries
}

/// How a life is changed, an entry, the index of its signature, and the answer.
const FOLLOWS: &[(Changed, usize, u32, Follow)] = &[
    (Changed::Nothing, 0, 7, Follow::Yes),
    (Changed::Nothing, 1, 0, Follow::Yes),
    (Changed::Nothing, 2, 1, Follow::Yes),
    (Changed::Nothing, 3, 2, Follow::Yes),
    (Changed::Nothing, 4, 3, Follow::Yes),
    (Changed::Nothing, 5, 4, Follow::Yes),
    (Changed::Nothing, 6, 5, Follow::Yes),
    (Changed::Nothing, 7, 0, Follow::Yes),
    // Two entries change places, an index is passed over, and a region is kept.
    (Changed::Swapped, 1, 0, Follow::Order),
    (Changed::Nothing, 1, 1, Follow::Order),
    (Changed::Kept, 3, 2, Follow::Rules),
    // Versions are 1 and 2 and only go up, also across a new key, which has none.
    (Changed::Versions([1; 8]), 0, 7, Follow::Yes),
    (Changed::Versions([1; 8]), 7, 0, Follow::Yes),
    (
        Changed::Versions([1, 1, 1, 1, 1, 0, 2, 2]),
        6,
        5,
        Follow::Yes,
    ),
    (
        Changed::Versions([1, 1, 2, 2, 2, 0, 2, 2]),
        7,
        0,
        Follow::Yes,
    ),
    (
        Changed::Versions([2, 1, 1, 1, 1, 0, 1, 1]),
        1,
        0,
        Follow::Rules,
    ),
    (
        Changed::Versions([1, 1, 1, 1, 2, 0, 1, 1]),
        6,
        5,
        Follow::Rules,
    ),
    (Changed::Versions([0; 8]), 0, 7, Follow::Rules),
    (Changed::Versions([3; 8]), 0, 7, Follow::Rules),
    (
        Changed::Versions([2, 3, 3, 3, 3, 0, 3, 3]),
        1,
        0,
        Follow::Rules,
    ),
    // Version 1 has one trust for both layers.
    (Changed::Apart(2), 2, 1, Follow::Yes),
    (Changed::Apart(1), 2, 1, Follow::Rules),
];

#[test]
fn entries_follow_by_the_rules(rt: HostRuntime) -> Result<(), Fail> {
    for (how, at, index, expected) in FOLLOWS {
        expect(&rt, rt.alloc(), &changed_life(*how), *at, *index, *expected)?;
    }
    Ok(())
}

/// What a new key of layer 2 adds to a device whose log has 32 entries, and whose device key has one index left.
fn added<L: Ledger>(alloc: Global, blank: Blank) -> Result<Bodies, NoMemory>
    requires name { blank.name ≡ L.name }
    requires parts { blank.parts ≡ L.parts }
    requires some { 0 < blank.parts }
{
    let view = View {
        serial: SERIAL,
        layers: layers_of([layer(1, Some(1)), layer(2, Some(30)), UNOWNED]),
        length: 32,
        number: 31,
        keys_made: 1,
        device: SEED_TWO,
        uses: 31,
        keys_two: 0,
        keys_three: 0,
    };
    let fact = Fact::NewKey {
        layer: 2,
        kind: KeyKind::Epoch,
    };
    let mut hashes = HashCount::<L>::begin(alloc, blank);
    bodies(alloc, &view, &fact, &DRAW, &mut Bench::new(), &mut hashes)
}

/// The entries of the succession and of the new key.
fn new_entries() -> [Entry; 2] {
    [
        Entry::Succession {
            position: 32,
            key: KEY_ONE,
        },
        Entry::NewKey {
            position: 33,
            number: 31,
            key_number: 2,
            layer: 2,
            kind: KeyKind::Epoch,
            key: KEY_TWO,
        },
    ]
}

#[test]
fn a_key_after_a_succession(rt: HostRuntime) -> Result<(), Fail> {
    let added = added::<Brand>(rt.alloc(), Blank::new(1))?;
    assert!(rt; added.entries.as_slice() == new_entries().as_slice());
    assert!(rt; added.device == SEED_ONE && added.uses == 1);
    Ok(())
}
