//! Indexes: for each layer a map from codes to the devices that have them, so that no question walks over the rows.

ghost use Rattle.std.specs.Prelude.{◌≡◌, ◌++◌, ℕ, List, [], IfOk, OnOk};
ghost use Rattle.mb_fleet.specs.Indexes.{serials_at, overlaid, lower, higher, without, among, AreListed, IsOfFewRows};
ghost use Rattle.mb_fleet.specs.Indexes.{HasCode, KeepsCodes, ListsSame, HasCodeOf, HasCodesOf};
ghost use Rattle.mb_fleet.specs.Indexes.{IsListingOf, IsChangeOf, IsChanged};

use crate::question::{CodeCount, Counts, Serials};
use mb_model::{Items, NoMemory};
use std::alloc::Global;
use std::cmp::Ordering;
use std::collections::BTreeMap;

/// A map from codes to the serials of the devices whose layer has the code, in ascending order. A code may have none. A
/// code that no device has any more stays: each has cost a chain that was shown, so a file of items leaves few.
#[derive(Drop)]
pub struct CodeIndex {
    serials: BTreeMap<[u8; 32], Serials>,
}

/// The serials that an index is to list for a code.
#[derive(Drop)]
pub struct Listing {
    hash: [u8; 32],
    serials: Serials,
}

/// What an index is to list when the code of a device changes. Putting it into the index takes no memory. The two lists
/// that change are copied, at most 512 serials each, which is little beside one signature.
#[derive(Drop)]
pub struct IndexChange {
    /// The listing of the code that the device had, without the device.
    left: Option<Listing>,
    /// The listing of the code that the device has now, with the device.
    joined: Option<Listing>,
}

impl CodeIndex {
    /// The index of no devices.
    pub(crate) fn new(alloc: Global) -> CodeIndex
        ensures { (hash : List ℕ) → serials_at result hash ≡ [] }
    {
        CodeIndex {
            serials: BTreeMap::new(alloc),
        }
    }

    /// The serials of the devices that have this code.
    pub(crate) fn find(&self, alloc: Global, hash: &[u8; 32]) -> Result<Serials, NoMemory>
        ensures { IfOk result (λ serials. serials ≡ serials_at self.now hash.now) }
    {
        Ok(Items::from_vec(Vec::from_slice(alloc, self.listed(hash))?))
    }

    /// The serials of the devices that have this code, borrowed from the index.
    fn listed(&self, hash: &[u8; 32]) -> &[[u8; 16]]
        ensures { result.now ≡ serials_at self.now hash.now }
    {
        match self.serials.get(hash) {
            Some(serials) => serials.as_slice(),
            None => &[],
        }
    }

    /// The codes that some device has, in ascending order, each with the number of the devices that have it.
    pub(crate) fn codes(&self, alloc: Global) -> Result<Counts, NoMemory>
        requires { IsOfFewRows self.now }
        ensures { IfOk result (AreListed self.now) }
    {
        let mut counts = Items::new(alloc);
        for (hash, serials) in &self.serials {
            let count = serials.as_slice().len();
            if count > 0 {
                counts.push(CodeCount {
                    hash: *hash,
                    count: count as u32,
                })?;
            }
        }
        Ok(counts)
    }

    /// Finds the memory for a change of the code of the device with this serial. What the index lists stays as it is.
    pub(crate) fn prepare(
        &mut self,
        alloc: Global,
        serial: &[u8; 16],
        from: &Option<[u8; 32]>,
        to: &Option<[u8; 32]>,
    ) -> Result<IndexChange, NoMemory>
        ensures same { ListsSame self.old self.new }
        ensures ready { IfOk result (IsChangeOf self.new serial.now from.now to.now) }
    {
        let left = self.prepare_left(alloc, serial, from)?;
        let joined = self.prepare_joined(alloc, serial, to)?;
        Ok(IndexChange { left, joined })
    }

    /// The listing of the code that a device leaves, without the device; `None` if it has none.
    fn prepare_left(
        &mut self,
        alloc: Global,
        serial: &[u8; 16],
        from: &Option<[u8; 32]>,
    ) -> Result<Option<Listing>, NoMemory>
        ensures same { ListsSame self.old self.new }
        ensures known { KeepsCodes self.old self.new }
        ensures ready { IfOk result (IsListingOf self.new (without serial.now) from.now) }
    {
        let Some(hash) = from else {
            return Ok(None);
        };
        self.make_room(alloc, hash)?;
        let serials = serials_without(alloc, self.listed(hash), serial)?;
        Ok(Some(Listing {
            hash: *hash,
            serials,
        }))
    }

    /// The listing of the code that a device comes to have, with the device; `None` if there is none.
    fn prepare_joined(
        &mut self,
        alloc: Global,
        serial: &[u8; 16],
        to: &Option<[u8; 32]>,
    ) -> Result<Option<Listing>, NoMemory>
        ensures same { ListsSame self.old self.new }
        ensures known { KeepsCodes self.old self.new }
        ensures ready { IfOk result (IsListingOf self.new (among serial.now) to.now) }
    {
        let Some(hash) = to else {
            return Ok(None);
        };
        self.make_room(alloc, hash)?;
        let serials = serials_with(alloc, self.listed(hash), serial)?;
        Ok(Some(Listing {
            hash: *hash,
            serials,
        }))
    }

    /// Puts a code into the index, without devices if it is new.
    fn make_room(&mut self, alloc: Global, hash: &[u8; 32]) -> Result<(), NoMemory>
        ensures same { ListsSame self.old self.new }
        ensures known { KeepsCodes self.old self.new }
        ensures there { OnOk result (HasCode self.new hash.now) }
    {
        if !self.serials.contains_key(hash) {
            self.serials.insert(*hash, Items::new(alloc))?;
        }
        Ok(())
    }

    /// Lists what a change says; takes no memory.
    pub(crate) fn change(&mut self, change: IndexChange)
        requires { HasCodesOf self.old change }
        ensures { IsChanged self.old change self.new }
    {
        self.put(change.left);
        self.put(change.joined);
    }

    /// Lists these serials for a code that the index knows.
    fn put(&mut self, listing: Option<Listing>)
        requires { HasCodeOf self.old listing }
        ensures lists { (hash : List ℕ) → serials_at self.new hash ≡ overlaid listing hash (serials_at self.old hash) }
        ensures known { KeepsCodes self.old self.new }
    {
        if let Some(listing) = listing {
            let hash = listing.hash;
            let Ok(_) = self.serials.insert(hash, listing.serials) else {
                unreachable!()
            };
        }
    }
}

/// The serials other than this one, in ascending order if the given ones are.
fn serials_without(
    alloc: Global,
    serials: &[[u8; 16]],
    serial: &[u8; 16],
) -> Result<Serials, NoMemory>
    ensures { IfOk result (λ rest. rest ≡ without serial.now serials.now) }
{
    let mut rest = Items::new(alloc);
    put_lower(&mut rest, serials, serial)?;
    put_higher(&mut rest, serials, serial)?;
    Ok(rest)
}

/// The serials and this one, in ascending order if the given ones are.
fn serials_with(alloc: Global, serials: &[[u8; 16]], serial: &[u8; 16]) -> Result<Serials, NoMemory>
    ensures { IfOk result (λ all. all ≡ among serial.now serials.now) }
{
    let mut all = Items::new(alloc);
    put_lower(&mut all, serials, serial)?;
    all.push(*serial)?;
    put_higher(&mut all, serials, serial)?;
    Ok(all)
}

/// Appends the serials that come before this one.
fn put_lower(out: &mut Serials, serials: &[[u8; 16]], serial: &[u8; 16]) -> Result<(), NoMemory>
    ensures { OnOk result (out.new ≡ out.old ++ lower serial.now serials.now) }
{
    for other in serials {
        if other.cmp(serial) == Ordering::Less {
            out.push(*other)?;
        }
    }
    Ok(())
}

/// Appends the serials that come after this one.
fn put_higher(out: &mut Serials, serials: &[[u8; 16]], serial: &[u8; 16]) -> Result<(), NoMemory>
    ensures { OnOk result (out.new ≡ out.old ++ higher serial.now serials.now) }
{
    for other in serials {
        if serial.cmp(other) == Ordering::Less {
            out.push(*other)?;
        }
    }
    Ok(())
}
