//! A buffer for the record that is written next.

ghost use Rattle.std.specs.Prelude.{◌≡◌, ◌≤◌, [], vec_capacity, IfOk};
ghost use Rattle.mb_model.specs.declared.limits.TheConstants.{RECORD_LIMIT};
ghost use Rattle.mb_model.specs.records.EntryFormat.{entry_format};
ghost use Rattle.mb_model.specs.records.RootFormat.{root_format};
ghost use Rattle.mb_model.specs.records.RegionFormat.{CanBeWritten, written_region};

use crate::regions::is_empty;
use mb_layout::{write_entry, write_region, write_root};
use mb_model::{Entry, NoMemory, RECORD_LIMIT, Region, Root};
use std::alloc::Global;

/// The bytes of one record, in a buffer with room for any: 4,094 bytes.
#[derive(Drop)]
pub(crate) struct RecordBuffer {
    pub(crate) bytes: Vec<u8>,
    ghost room: { RECORD_LIMIT ≤ vec_capacity bytes },
}

impl RecordBuffer {
    pub(crate) fn new(alloc: Global) -> Result<RecordBuffer, NoMemory> {
        let bytes = Vec::with_capacity(alloc, RECORD_LIMIT)?;
        Ok(RecordBuffer { bytes })
    }

    /// Replaces the bytes by those of an entry.
    pub(crate) fn spell_entry(&mut self, entry: &Entry)
        requires { entry_format.Allowed entry.now }
        ensures { self.new.bytes.items ≡ entry_format.spelling entry.now }
    {
        self.bytes.clear();
        let Ok(()) = write_entry(entry, &mut self.bytes) else {
            unreachable!();
        };
    }

    /// Replaces the bytes by those of a root record.
    pub(crate) fn spell_root(&mut self, root: &Root)
        requires { root_format.Allowed root.now }
        ensures { self.new.bytes.items ≡ root_format.spelling root.now }
    {
        self.bytes.clear();
        let Ok(()) = write_root(root, &mut self.bytes) else {
            unreachable!();
        };
    }

    /// Replaces the bytes by those of a region's record, or by none if the region is empty.
    pub(crate) fn spell_region(&mut self, region: &Region)
        requires { CanBeWritten region.now }
        ensures { self.new.bytes.items ≡ written_region region.now }
    {
        self.bytes.clear();
        if is_empty(region) {
            return;
        }
        let Ok(()) = write_region(region, &mut self.bytes) else {
            unreachable!();
        };
    }
}
