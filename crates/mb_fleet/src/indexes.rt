//! The indexes of the three layers, which change together.

ghost use Rattle.std.specs.Prelude.{◌≡◌, List, [], IfOk};
ghost use Rattle.mb_fleet.specs.declared.row.Row.{Row};
ghost use Rattle.mb_fleet.specs.Indexes.{AreIndexesOf, AreOfFewRows, AreChangesOf, HaveCodesOf, AreChanged};
ghost use Rattle.mb_fleet.specs.Questions.{serials_with, AreCounts};
ghost use Rattle.mb_fleet.specs.Rows.{AreOrdered};

use crate::index::{CodeIndex, IndexChange};
use crate::question::{Counts, Serials};
use crate::row::{CodeHashes, Row};
use mb_model::{Items, NoMemory};
use std::alloc::Global;

/// The index of each layer.
#[derive(Drop)]
pub struct CodeIndexes {
    one: CodeIndex,
    two: CodeIndex,
    three: CodeIndex,
}

/// What each index is to list when the code of a device changes.
#[derive(Drop)]
pub struct CodeChange {
    one: IndexChange,
    two: IndexChange,
    three: IndexChange,
}

impl CodeIndexes {
    /// The indexes of no devices.
    pub(crate) fn new(alloc: Global) -> CodeIndexes
        ensures { AreIndexesOf [] result }
    {
        CodeIndexes {
            one: CodeIndex::new(alloc),
            two: CodeIndex::new(alloc),
            three: CodeIndex::new(alloc),
        }
    }

    /// The indexes of these rows.
    pub(crate) fn of_rows(alloc: Global, rows: &[Row]) -> Result<CodeIndexes, NoMemory>
        requires { AreOrdered rows.now }
        ensures { IfOk result (AreIndexesOf rows.now) }
    {
        let mut indexes = CodeIndexes::new(alloc);
        for row in rows {
            let change = indexes.prepare(alloc, &row.serial, &CodeHashes::none(), &row.code)?;
            indexes.change(change);
        }
        Ok(indexes)
    }

    /// The serials of the devices whose layer has this code, in ascending order.
    pub(crate) fn find(
        &self,
        alloc: Global,
        layer: u8,
        hash: &[u8; 32],
    ) -> Result<Serials, NoMemory>
        ensures { (rows : List Row) → AreIndexesOf rows self.now
            → IfOk result (λ serials. serials ≡ serials_with layer hash.now rows) }
    {
        match layer {
            1 => self.one.find(alloc, hash),
            2 => self.two.find(alloc, hash),
            3 => self.three.find(alloc, hash),
            _ => Ok(Items::new(alloc)),
        }
    }

    /// The codes of the layer, in ascending order, each with the number of the devices that have it.
    pub(crate) fn codes(&self, alloc: Global, layer: u8) -> Result<Counts, NoMemory>
        requires { AreOfFewRows self.now }
        ensures { (rows : List Row) → AreIndexesOf rows self.now → IfOk result (AreCounts layer rows) }
    {
        match layer {
            1 => self.one.codes(alloc),
            2 => self.two.codes(alloc),
            3 => self.three.codes(alloc),
            _ => Ok(Items::new(alloc)),
        }
    }

    /// Finds the memory for a change of the code of the device with this serial. What the indexes list stays as it is.
    pub(crate) fn prepare(
        &mut self,
        alloc: Global,
        serial: &[u8; 16],
        from: &CodeHashes,
        to: &CodeHashes,
    ) -> Result<CodeChange, NoMemory>
        ensures same { (rows : List Row) → AreIndexesOf rows self.old → AreIndexesOf rows self.new }
        ensures ready { IfOk result (AreChangesOf self.new serial.now from.now to.now) }
    {
        let one = self.one.prepare(alloc, serial, &from.one, &to.one)?;
        let two = self.two.prepare(alloc, serial, &from.two, &to.two)?;
        let three = self.three.prepare(alloc, serial, &from.three, &to.three)?;
        Ok(CodeChange { one, two, three })
    }

    /// Lists what a change says; takes no memory.
    pub(crate) fn change(&mut self, change: CodeChange)
        requires { HaveCodesOf self.old change }
        ensures { AreChanged self.old change self.new }
    {
        self.one.change(change.one);
        self.two.change(change.two);
        self.three.change(change.three);
    }
}
