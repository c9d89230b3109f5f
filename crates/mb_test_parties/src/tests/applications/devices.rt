//! Devices on which codes run.

use mb_model::{Bytes, Items, Layer, Layers, Region, Secret, Secrets, Trust, Trusts};
use std::alloc::Global;
use std::test::Fail;

/// What the running layer may read.
#[derive(Clone, Copy)]
pub enum Sight {
    /// Layer 2 runs, and both regions may be read.
    Both,
    /// Layer 2 runs, and layer 3 may not.
    OnlyTwo,
    /// Layer 3 runs.
    FromThree,
}

impl Sight {
    /// The layer that runs.
    pub fn layer(self) -> u8 {
        match self {
            Sight::Both | Sight::OnlyTwo => 2,
            Sight::FromThree => 3,
        }
    }
}

/// A layer without an owner, reliable or not.
fn layer_of(reliable: bool) -> Layer {
    Layer {
        owner: None,
        code: None,
        reliable,
        trust: Trusts::equal(Trust::Never),
    }
}

/// The layers of a device in which this may be read.
pub fn layers_of(sight: Sight) -> Layers {
    Layers {
        one: layer_of(true),
        two: layer_of(true),
        three: layer_of(!matches!(sight, Sight::OnlyTwo)),
    }
}

/// Adds a secret.
fn keep(secrets: &mut Secrets, alloc: Global, name: &str, value: &[u8]) -> Result<(), Fail> {
    secrets.push(Secret {
        name: Bytes::copy(alloc, name.as_bytes())?,
        value: Bytes::copy(alloc, value)?,
        born: 1,
    })?;
    Ok(())
}

/// Region 2: `k` is 07 08, and `e` is empty.
pub fn region_two(alloc: Global) -> Result<Region, Fail> {
    let mut secrets = Items::new(alloc);
    keep(&mut secrets, alloc, "k", b"\x07\x08")?;
    keep(&mut secrets, alloc, "e", b"")?;
    Ok(Region {
        secrets,
        keys: Items::new(alloc),
    })
}

/// Region 3: `t` is 05.
pub fn region_three(alloc: Global) -> Result<Region, Fail> {
    let mut secrets = Items::new(alloc);
    keep(&mut secrets, alloc, "t", b"\x05")?;
    Ok(Region {
        secrets,
        keys: Items::new(alloc),
    })
}
