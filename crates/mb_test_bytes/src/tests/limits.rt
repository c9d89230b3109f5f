//! The limits: if there is memory, the largest order is read and written, the longest bytes are copied, and lists grow
//! to their limits.

use super::orders::is_written;
use super::spelled::joined;
use mb_command::read_order;
use mb_model::{
    Bytes, Chains, Entry, Items, KeyKind, KeySeed, NoMemory, Order, PublicKey, RegionKey, Secret,
    SignedEntry, Tree,
};
use std::alloc::Global;
use std::process::Abort;
use std::test::Fail;

/// The largest order: the body of a load of layer 1 with eight targets, two trusts and 32,768 bytes of code, its
/// signature, and the countersignatures of layers 2 and 3. Each signature has 9,324 bytes, after their length.
pub const LARGEST_ORDER: &[(&str, usize)] = &[
    ("130108", 1),
    ("0301", 1),
    ("11", 32),
    ("0200000007", 7),
    ("00000002020100008000", 1),
    ("ab", 32_768),
    ("246c", 1),
    ("c1", 9_324),
    ("0202", 1),
    ("246c", 1),
    ("c2", 9_324),
    ("03", 1),
    ("246c", 1),
    ("c3", 9_324),
];

/// The length of the body of `LARGEST_ORDER`.
pub const BODY: usize = 32_850;

/// The number of targets, the length of the signature, and the number of countersignatures of an order.
fn lengths(order: &Order) -> (usize, usize, usize) {
    (
        order.targets.as_slice().len(),
        order.signature.as_slice().len(),
        order.countersignatures.as_slice().len(),
    )
}

#[test]
fn the_largest_order_goes_both_ways(rt: HostRuntime) -> Result<(), Fail> {
    let alloc = rt.alloc();
    let bytes = joined(alloc, LARGEST_ORDER)?;
    let order = read_order(alloc, bytes.as_slice())?;
    assert!(rt; lengths(&order) == (8, 9_324, 2));
    assert!(rt; is_written(alloc, &order, bytes.as_slice(), BODY) == Ok(true));
    Ok(())
}

/// `count` bytes are copied.
fn copies(rt: &impl Abort, alloc: Global, count: usize) -> Result<(), Fail> {
    let bytes = vec![in alloc; 7; count]?;
    let copy = Bytes::copy(alloc, bytes.as_slice())?;
    assert!(rt; copy.as_slice() == bytes.as_slice());
    Ok(())
}

#[test]
fn long_bytes_are_copied(rt: HostRuntime) -> Result<(), Fail> {
    copies(&rt, rt.alloc(), 9_324)?;
    copies(&rt, rt.alloc(), 32_768)?;
    copies(&rt, rt.alloc(), 4_194_304)
}

/// The length of a list to which the item is added `times` times.
fn filled<T: Copy + Drop>(alloc: Global, item: T, times: usize) -> Result<usize, NoMemory> {
    let mut items = Items::new(alloc);
    for _i in 0..times {
        items.push(item)?;
    }
    Ok(items.as_slice().len())
}

/// A copy of `count` bytes, each of which is `byte`.
fn copied(alloc: Global, byte: u8, count: usize) -> Result<Bytes, NoMemory> {
    let bytes = vec![in alloc; byte; count]?;
    Bytes::copy(alloc, bytes.as_slice())
}

/// A secret whose name and value are as long as they may be.
fn longest_secret(alloc: Global) -> Result<Secret, NoMemory> {
    Ok(Secret {
        name: copied(alloc, 0x7E, 32)?,
        value: copied(alloc, 0xFF, 128)?,
        born: 0,
    })
}

/// The length of a list of `times` secrets, each as long as a secret may be.
fn secrets(alloc: Global, times: usize) -> Result<usize, NoMemory> {
    let mut items = Items::new(alloc);
    for _i in 0..times {
        items.push(longest_secret(alloc)?)?;
    }
    Ok(items.as_slice().len())
}

/// An entry of a log.
const ENTRY: SignedEntry = SignedEntry {
    entry: Entry::Succession {
        position: 1,
        key: PublicKey {
            tree: Tree::H5,
            chains: Chains::W8,
            identifier: [1; 16],
            root: [2; 32],
        },
    },
    signature: [3; 2348],
};

/// A key of a region.
const KEY: RegionKey = RegionKey {
    number: 1,
    kind: KeyKind::Epoch,
    seed: KeySeed {
        identifier: [1; 16],
        seed: [2; 32],
    },
    uses: 0,
};

#[test]
fn lists_grow_to_their_limits(rt: HostRuntime) -> Result<(), Fail> {
    let alloc = rt.alloc();
    assert!(rt; filled(alloc, ENTRY, 128)? == 128);
    assert!(rt; filled(alloc, KEY, 8)? == 8);
    assert!(rt; secrets(alloc, 16)? == 16);
    assert!(rt; filled(alloc, 7u64, 65_536)? == 65_536);
    Ok(())
}
