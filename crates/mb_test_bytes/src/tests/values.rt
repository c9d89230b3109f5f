//! The values whose bytes the other program spelled. A key is named by the byte that fills its identifier, and its root
//! or its seed is filled with the next byte.

use mb_model::{
    Chains, ChangeKind, CodeName, Entry, Fate, KeyKind, KeySeed, Layer, Layers, Outgoing, Pair,
    Pending, PublicKey, RegionKey, Root, Tree, Trust, Trusts,
};

/// Key 11.
const KEY_11: PublicKey = PublicKey {
    tree: Tree::H5,
    chains: Chains::W4,
    identifier: [0x11; 16],
    root: [0x12; 32],
};

/// Key 21.
const KEY_21: PublicKey = PublicKey {
    tree: Tree::H5,
    chains: Chains::W4,
    identifier: [0x21; 16],
    root: [0x22; 32],
};

/// Key 31.
const KEY_31: PublicKey = PublicKey {
    tree: Tree::H5,
    chains: Chains::W4,
    identifier: [0x31; 16],
    root: [0x32; 32],
};

/// Key 43.
pub const KEY_43: PublicKey = PublicKey {
    tree: Tree::H5,
    chains: Chains::W4,
    identifier: [0x43; 16],
    root: [0x44; 32],
};

/// Key 45.
const KEY_45: PublicKey = PublicKey {
    tree: Tree::H5,
    chains: Chains::W4,
    identifier: [0x45; 16],
    root: [0x46; 32],
};

/// Key 47.
const KEY_47: PublicKey = PublicKey {
    tree: Tree::H5,
    chains: Chains::W4,
    identifier: [0x47; 16],
    root: [0x48; 32],
};

/// Key 49.
const KEY_49: PublicKey = PublicKey {
    tree: Tree::H5,
    chains: Chains::W4,
    identifier: [0x49; 16],
    root: [0x4A; 32],
};

/// Seed 51.
const SEED_51: KeySeed = KeySeed {
    identifier: [0x51; 16],
    seed: [0x52; 32],
};

/// Seed 53.
const SEED_53: KeySeed = KeySeed {
    identifier: [0x53; 16],
    seed: [0x54; 32],
};

/// Seed 55.
const SEED_55: KeySeed = KeySeed {
    identifier: [0x55; 16],
    seed: [0x56; 32],
};

/// Seed 57.
const SEED_57: KeySeed = KeySeed {
    identifier: [0x57; 16],
    seed: [0x58; 32],
};

pub const RELIABLE: Layer = Layer {
    owner: Some(KEY_11),
    code: Some(CodeName {
        hash: [0x13; 32],
        version: 258,
    }),
    reliable: true,
    trust: Trusts {
        one: Trust::Always,
        two: Trust::Always,
    },
};

pub const LOADED: Layer = Layer {
    owner: Some(KEY_21),
    code: Some(CodeName {
        hash: [0x23; 32],
        version: 7,
    }),
    reliable: false,
    trust: Trusts {
        one: Trust::Countersigned,
        two: Trust::Countersigned,
    },
};

pub const OWNED: Layer = Layer {
    owner: Some(KEY_31),
    code: None,
    reliable: false,
    trust: Trusts {
        one: Trust::Always,
        two: Trust::Always,
    },
};

pub const UNOWNED: Layer = Layer {
    owner: None,
    code: None,
    reliable: false,
    trust: Trusts {
        one: Trust::Never,
        two: Trust::Never,
    },
};

/// The layer of owner 11, which trusts countersigned loads of layer 1 and all loads of layer 2.
pub const RELIABLE_APART: Layer = Layer {
    trust: Trusts {
        one: Trust::Countersigned,
        two: Trust::Always,
    },
    ..RELIABLE
};

/// The layer of owner 21, which trusts all loads of layer 1 and none of layer 2.
pub const LOADED_APART: Layer = Layer {
    trust: Trusts {
        one: Trust::Always,
        two: Trust::Never,
    },
    ..LOADED
};

/// The layer of owner 31, which trusts countersigned loads.
pub const OWNED_COUNTERSIGNED: Layer = Layer {
    trust: Trusts {
        one: Trust::Countersigned,
        two: Trust::Countersigned,
    },
    ..OWNED
};

/// The layer of owner 31, which trusts no loads of layer 1 and countersigned ones of layer 2.
pub const OWNED_APART: Layer = Layer {
    trust: Trusts {
        one: Trust::Never,
        two: Trust::Countersigned,
    },
    ..OWNED
};

const THREE: Layers = Layers {
    one: RELIABLE,
    two: LOADED,
    three: OWNED,
};

pub const BIRTH: Entry = Entry::Birth {
    version: 1,
    serial: [0x41; 16],
    key: KEY_43,
    layers: Layers {
        one: RELIABLE,
        two: UNOWNED,
        three: UNOWNED,
    },
};

pub const CHANGE: Entry = Entry::Change {
    version: 1,
    position: 5,
    number: 4,
    kind: ChangeKind::Load,
    layer: 1,
    cosigned: Pair {
        two: false,
        three: true,
    },
    layers: THREE,
    kept: Pair {
        two: true,
        three: false,
    },
    next: Some(KEY_45),
};

pub const EMERGENCY: Entry = Entry::Change {
    version: 1,
    position: 6,
    number: 5,
    kind: ChangeKind::Emergency,
    layer: 2,
    cosigned: Pair {
        two: false,
        three: true,
    },
    layers: THREE,
    kept: Pair {
        two: true,
        three: true,
    },
    next: None,
};

/// The birth in version 2.
pub const BIRTH_OF_TWO: Entry = Entry::Birth {
    version: 2,
    serial: [0x41; 16],
    key: KEY_43,
    layers: Layers {
        one: RELIABLE,
        two: UNOWNED,
        three: UNOWNED,
    },
};

/// The first change in version 2, with two trusts of layer 2 that differ.
pub const CHANGE_OF_TWO: Entry = Entry::Change {
    version: 2,
    position: 5,
    number: 4,
    kind: ChangeKind::Load,
    layer: 1,
    cosigned: Pair {
        two: false,
        three: true,
    },
    layers: Layers {
        one: RELIABLE,
        two: LOADED_APART,
        three: OWNED_COUNTERSIGNED,
    },
    kept: Pair {
        two: true,
        three: false,
    },
    next: Some(KEY_45),
};

pub const NEW_KEY: Entry = Entry::NewKey {
    position: 7,
    number: 5,
    key_number: 9,
    layer: 3,
    kind: KeyKind::Configuration,
    key: KEY_47,
};

pub const SUCCESSION: Entry = Entry::Succession {
    position: 8,
    key: KEY_49,
};

/// Key 9, configuration, with 3 uses.
pub const KEY_NINE: RegionKey = RegionKey {
    number: 9,
    kind: KeyKind::Configuration,
    seed: SEED_51,
    uses: 3,
};

/// Key 2, epoch, whose indices are all used.
pub const KEY_TWO: RegionKey = RegionKey {
    number: 2,
    kind: KeyKind::Epoch,
    seed: SEED_57,
    uses: 32,
};

pub const SETTLED: Root = Root {
    area: 1,
    serial: [0x41; 16],
    device: SEED_55,
    uses: 17,
    pending: None,
};

pub const PENDING: Root = Root {
    area: 0,
    serial: [0x41; 16],
    device: SEED_55,
    uses: 1,
    pending: Some(Pending {
        unsigned: 2,
        outgoing: Some(Outgoing {
            seed: SEED_53,
            uses: 31,
        }),
        two: Fate::DropConfiguration,
        three: Fate::AddKey(KEY_NINE),
    }),
};

pub const EMPTYING: Root = Root {
    area: 0,
    serial: [0x41; 16],
    device: SEED_55,
    uses: 6,
    pending: Some(Pending {
        unsigned: 1,
        outgoing: None,
        two: Fate::Keep,
        three: Fate::Empty,
    }),
};
