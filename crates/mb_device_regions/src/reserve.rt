//! Memory for the secrets of a region that are not known yet.

ghost use Rattle.std.specs.Prelude.{◌≡◌, ◌≤◌, [], All, length, vec_len, vec_capacity, IfOk};
ghost use Rattle.mb_model.specs.declared.limits.TheConstants.{SECRET_LIMIT, NAME_LIMIT, VALUE_LIMIT};
ghost use Rattle.mb_device_regions.specs.Demands.{shown_secret, shown_secrets, FitsSpare};

use crate::listed::{Listed, Shown};
use mb_model::{Bytes, NAME_LIMIT, NoMemory, SECRET_LIMIT, Secret, Secrets, VALUE_LIMIT};
use std::alloc::Global;

/// Memory for the longest secret.
#[derive(Drop)]
struct Pair {
    name: Vec<u8>,
    value: Vec<u8>,
    ghost name_room: { NAME_LIMIT ≤ vec_capacity name },
    ghost value_room: { VALUE_LIMIT ≤ vec_capacity value },
}

impl Pair {
    /// Takes the memory.
    fn new(alloc: Global) -> Result<Pair, NoMemory> {
        let name = Vec::with_capacity(alloc, NAME_LIMIT as usize)?;
        let value = Vec::with_capacity(alloc, VALUE_LIMIT as usize)?;
        Ok(Pair { name, value })
    }

    /// The secret, in this memory. Takes none.
    fn fill(self, shown: &Shown<'_>) -> Secret
        requires { FitsSpare (shown_secret shown.now) }
        ensures { result ≡ shown_secret shown.now }
    {
        let Pair { name, value } = self;
        Secret {
            name: written(name, shown.name),
            value: written(value, shown.value),
            born: shown.born,
        }
    }
}

/// The bytes, in memory that has room for them.
pub(crate) fn written(memory: Vec<u8>, bytes: &[u8]) -> Bytes
    requires { length bytes.now ≤ vec_capacity memory }
    ensures { result ≡ bytes.now }
{
    let mut memory = memory;
    memory.clear();
    let _ = memory.extend_from_slice(bytes);
    Bytes::from_vec(memory)
}

/// Memory for all secrets that a region can have, taken before it is known which they are.
#[derive(Drop)]
pub(crate) struct Spare {
    pairs: Vec<Pair>,
    secrets: Vec<Secret>,
    ghost enough: { vec_len pairs ≡ SECRET_LIMIT },
    ghost room: { SECRET_LIMIT ≤ vec_capacity secrets },
    ghost none: { secrets.items ≡ [] },
}

impl Spare {
    /// Takes the memory.
    pub(crate) fn new(alloc: Global) -> Result<Spare, NoMemory> {
        let mut pairs = Vec::with_capacity(alloc, SECRET_LIMIT as usize)?;
        for _ in 0..SECRET_LIMIT {
            pairs.push(Pair::new(alloc)?)?;
        }
        let secrets = Vec::with_capacity(alloc, SECRET_LIMIT as usize)?;
        Ok(Spare { pairs, secrets })
    }

    /// The secrets of the list, in this memory. Takes none.
    pub(crate) fn fill(self, listed: &Listed<'_>) -> Secrets
        requires { All FitsSpare (shown_secrets listed.now.items) }
        ensures { result ≡ shown_secrets listed.now.items }
    {
        let Spare {
            mut pairs,
            mut secrets,
        } = self;
        for shown in listed.as_slice() {
            if let Some(pair) = pairs.pop() {
                let _ = secrets.push(pair.fill(shown));
            }
        }
        Secrets::from_vec(secrets)
    }
}
