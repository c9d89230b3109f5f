//! The lists of the model: one generic list, with a name for each use.

ghost use Rattle.std.specs.Prelude.{◌≡◌, ◌<◌, ◌++◌, ◌∷◌, [], List, length, take, OnOk, OnErr, slice_set, remove};
ghost use Rattle.std.specs.Prelude.{slice_get, Some};

use crate::bytes::Bytes;
use crate::memory::NoMemory;
use std::alloc::Global;
use std::marker::Model;
use std::mem;

/// A list of items, which contracts see as a list.
#[derive(Drop)]
pub struct Items<T> {
    items: Vec<T>,
}

impl<T> Model for Items<T> {
    ghost use Rattle.std.specs.Prelude.{List};

    ghost Value = { List T };

    ghost view = { λ s. s.items.items };
}

/// A file of a host in memory: its name, as the bytes of a text, and its content.
#[derive(Drop)]
pub struct File {
    pub name: Bytes,
    pub bytes: Bytes,
}

/// Files by name; if two have one name, the first counts.
pub type Files = Items<File>;

/// Numbers of calls, from 0.
pub type Calls = Items<u64>;

impl<T> Items<T> {
    /// The empty list, which grows with memory from `alloc`.
    pub fn new(alloc: Global) -> Items<T>
        ensures { result ≡ [] }
    {
        Items {
            items: Vec::new(alloc),
        }
    }

    /// The items of a vector; allocates nothing.
    pub fn from_vec(items: Vec<T>) -> Items<T>
        ensures { result ≡ items.items }
    {
        Items { items }
    }

    /// The items as a vector; allocates nothing.
    pub fn into_vec(self) -> Vec<T>
        ensures { result.items ≡ self }
    {
        self.items
    }

    /// The items, as a slice.
    pub fn as_slice(&self) -> &[T]
        ensures { result.now ≡ self.now }
    {
        self.items.as_slice()
    }

    /// Adds an item at the end, or answers `NoMemory` and leaves the list as it was.
    pub fn push(&mut self, item: T) -> Result<(), NoMemory>
    where
        T: Drop,
        ensures ok { OnOk result (self.new ≡ self.old ++ item ∷ []) }
        ensures err { OnErr result (self.new ≡ self.old) }
    {
        self.items.push(item)?;
        Ok(())
    }

    /// Replaces the item at index `at`, and answers the old one.
    pub fn set(&mut self, at: u32, item: T) -> T
        requires { at < length self.old }
        ensures old { slice_get self.old at ≡ Some result }
        ensures new { self.new ≡ slice_set self.old at item }
    {
        mem::replace(&mut self.items[at as usize], item)
    }

    /// Removes the item at index `at`, closes the gap, and answers the item.
    pub fn remove(&mut self, at: u32) -> T
        requires { at < length self.old }
        ensures old { slice_get self.old at ≡ Some result }
        ensures new { self.new ≡ remove self.old at }
    {
        self.items.remove(at as usize)
    }

    /// Keeps the first `length` items, or all if there are fewer.
    pub fn truncate(&mut self, length: u32)
    where
        T: Drop,
        ensures { self.new ≡ take length self.old }
    {
        self.items.truncate(length as usize);
    }
}
