//! The register: its rows in ascending serials, and indexes by code beside them.

ghost use Rattle.std.specs.Prelude.{◌≡◌, ◌≤◌, [], length, IfOk, OnOk, OnErr};
ghost use Rattle.std.specs.List.{insert};
ghost use Rattle.mb_model.specs.declared.limits.TheConstants.{FILE_LIMIT, ENTRY_LIMIT};
ghost use Rattle.mb_bytes.specs.Reads.{ReadsWhole};
ghost use Rattle.mb_bytes.specs.Puts.{Writes};
ghost use Rattle.mb_bytes.specs.Ends.{end_at};
ghost use Rattle.mb_fleet.specs.Ends.{fleet_end_of, AnswersChain, AnswersRow};
ghost use Rattle.mb_fleet.specs.Lookups.{HasFewEntries, IsHeld, IsFree};
ghost use Rattle.mb_fleet.specs.Questions.{serials_with, AreCounts};
ghost use Rattle.mb_fleet.specs.RegisterFormat.{register_format};
ghost use Rattle.mb_fleet.specs.Rows.{serial_of_row};

use crate::comparison::{Comparison, compare};
use crate::end::{Added, FleetEnd, FleetReadEnd};
use crate::indexes::CodeIndexes;
use crate::limits::DEVICE_LIMIT;
use crate::lookup::{Lookup, look_up_serial};
use crate::question::{Counts, Serials};
use crate::register::{put_register, register_at};
use crate::row::{CodeHashes, Row, row_of};
use mb_bytes::{Cursor, Field, WriteField, read_whole, write_field};
use mb_model::{NoMemory, PublicKey};
use mb_verifier::{ChainRefusal, verify_shown};
use std::alloc::Global;
use std::marker::Model;

/// A register: what up to 512 devices have shown, which contracts see as its rows in ascending serials. A map from
/// codes to serials stands beside the rows for each layer, in the invariant, so that no public clause speaks of it.
#[derive(Drop)]
pub struct Fleet {
    rows: Vec<Row>,
    indexes: CodeIndexes,
}

impl Model for Fleet {
    ghost use Rattle.std.specs.Prelude.{List};
    ghost use Rattle.mb_fleet.specs.declared.row.Row.{Row};
    ghost use Rattle.mb_fleet.specs.Lookups.{FitsRegister};
    ghost use Rattle.mb_fleet.specs.Indexes.{AreIndexesOf};

    ghost Value = { List Row };

    ghost view = { λ fleet. fleet.rows.items };

    ghost invariant = { λ fleet. FitsRegister fleet.rows.items × AreIndexesOf fleet.rows.items fleet.indexes };
}

impl Fleet {
    /// The register of no devices.
    pub fn new(alloc: Global) -> Fleet
        ensures { result ≡ [] }
    {
        Fleet {
            rows: Vec::new(alloc),
            indexes: CodeIndexes::new(alloc),
        }
    }

    /// The register that the bytes as a whole spell. There are at most 4,194,304 bytes.
    ///
    /// Errors: `Bad` with the offset of the first field that lacks bytes or is not allowed, or of the first byte after
    /// the last field; and `NoMemory`.
    pub fn read(alloc: Global, bytes: &[u8]) -> Result<Fleet, FleetReadEnd>
        requires { length bytes.now ≤ FILE_LIMIT }
        ensures { ReadsWhole end_at register_format bytes.now result }
    {
        read_whole::<RegisterField>(alloc, bytes)
    }

    /// Appends the spelling of the register, or leaves `out` as it was. It does not fail if the capacity of `out` holds
    /// the spelling.
    pub fn write(&self, out: &mut Vec<u8>) -> Result<(), NoMemory>
        ensures { Writes (register_format.spelling self.now) out.old result out.new }
    {
        write_field::<RegisterField>(self, out)
    }

    /// Shows the register a chain of at most 4,194,304 bytes, whose entries have to be good under the maker's key
    /// `root`; of a statement only the form counts. After an error the register is as it was.
    ///
    /// Errors: those of `FleetEnd`. First the new lists are made, and their codes become keys, with an empty list if
    /// they are new, which changes no answer; then the row and the lists are put, which needs no memory. Neither is a
    /// change undone, nor are all maps made anew.
    pub fn add(&mut self, alloc: Global, root: &PublicKey, chain: &[u8]) -> Result<Added, FleetEnd>
        requires { length chain.now ≤ FILE_LIMIT }
        ensures { AnswersChain root.now self.old chain.now result self.new }
    {
        match verify_shown(alloc, root, chain) {
            Ok(shown) => self.meet(alloc, row_of(shown)),
            Err(refusal) => Err(end_of(refusal)),
        }
    }

    /// The serials of the devices whose layer, 1 to 3, has this code now, in ascending order.
    pub fn find(&self, alloc: Global, layer: u8, hash: &[u8; 32]) -> Result<Serials, NoMemory>
        ensures { IfOk result (λ serials. serials ≡ serials_with layer hash.now self.now) }
    {
        self.indexes.find(alloc, layer, hash)
    }

    /// The codes that the layer, 1 to 3, of some device has now, in ascending order, each with the number of the
    /// devices that have it.
    pub fn codes(&self, alloc: Global, layer: u8) -> Result<Counts, NoMemory>
        ensures { IfOk result (AreCounts layer self.now) }
    {
        self.indexes.codes(alloc, layer)
    }

    /// The rows, in ascending serials.
    pub fn rows(&self) -> &[Row]
        ensures { result.now ≡ self.now }
    {
        self.rows.as_slice()
    }

    /// Takes a row, if it is new or extends the one of its device.
    fn meet(&mut self, alloc: Global, row: Row) -> Result<Added, FleetEnd>
        requires { HasFewEntries row }
        ensures { AnswersRow self.old row result self.new }
    {
        match look_up_serial(self.rows.as_slice(), &row.serial) {
            Lookup::Held(at) => self.meet_old(alloc, at, row),
            Lookup::Free(at) => self.take_new(alloc, at, row),
        }
    }

    /// Takes the row of a new device, which belongs at this index.
    fn take_new(&mut self, alloc: Global, at: usize, row: Row) -> Result<Added, FleetEnd>
        requires few { HasFewEntries row }
        requires free { IsFree serial_of_row self.old row.serial at }
        ensures { AnswersRow self.old row result self.new }
    {
        if self.rows.len() >= DEVICE_LIMIT as usize {
            return Err(FleetEnd::Full);
        }
        let serial = row.serial;
        let length = count_entries(&row);
        let change = self
            .indexes
            .prepare(alloc, &serial, &CodeHashes::none(), &row.code)?;
        insert_row(&mut self.rows, at, row)?;
        self.indexes.change(change);
        Ok(Added::Added { serial, length })
    }

    /// Takes a row if it extends the one at this index, which is of the same device.
    fn meet_old(&mut self, alloc: Global, at: usize, row: Row) -> Result<Added, FleetEnd>
        requires few { HasFewEntries row }
        requires held { IsHeld serial_of_row self.old row.serial at }
        ensures { AnswersRow self.old row result self.new }
    {
        let serial = row.serial;
        let length = count_entries(&row);
        let have = count_entries(&self.rows[at]);
        match compare(self.rows[at].hashes.as_slice(), row.hashes.as_slice()) {
            Comparison::Same => Ok(Added::Same { serial, length }),
            Comparison::Shorter => Err(FleetEnd::Older { serial, have }),
            Comparison::Differs { place } => Err(FleetEnd::Fork { serial, place }),
            Comparison::Longer => {
                let from = self.rows[at].code;
                let change = self.indexes.prepare(alloc, &serial, &from, &row.code)?;
                self.rows[at] = row;
                self.indexes.change(change);
                Ok(Added::Extended { serial, length })
            }
        }
    }
}

/// A register as bytes.
struct RegisterField;

impl Field for RegisterField {
    ghost use Rattle.mb_fleet.specs.ExactFormats.{register_exact};

    type Value = Fleet;

    type Needs = Global;

    type End = FleetReadEnd;

    ghost format = { register_format };

    fn read_at(alloc: Global, cursor: &mut Cursor<'_>) -> Result<Fleet, FleetReadEnd> {
        let rows = register_at(alloc, cursor)?;
        let indexes = CodeIndexes::of_rows(alloc, rows.as_slice())?;
        Ok(Fleet {
            rows: rows.into_vec(),
            indexes,
        })
    }

    ghost exact = { register_exact };
}

impl WriteField for RegisterField {
    ghost Fits = { λ _. Unit {0} };

    fn put(fleet: &Fleet, out: &mut Vec<u8>) -> Result<(), NoMemory> {
        put_register(out, fleet.rows.as_slice())
    }
}

/// The end to which an error of the verifier leads.
fn end_of(refusal: ChainRefusal) -> FleetEnd
    ensures { result ≡ fleet_end_of refusal }
{
    match refusal {
        ChainRefusal::NoMemory => FleetEnd::NoMemory,
        _ => FleetEnd::Chain(refusal),
    }
}

/// Inserts a row at this index, or leaves the rows as they were.
fn insert_row(rows: &mut Vec<Row>, at: usize, row: Row) -> Result<(), NoMemory>
    requires { at ≤ length rows.old.items }
    ensures ok { OnOk result (rows.new.items ≡ insert rows.old.items at row) }
    ensures err { OnErr result (rows.new.items ≡ rows.old.items) }
{
    rows.insert(at, row)?;
    Ok(())
}

/// The number of the entries whose hashes a row has.
fn count_entries(row: &Row) -> u32
    requires { HasFewEntries row.now }
    ensures { result ≡ length row.now.hashes }
{
    row.hashes.as_slice().len() as u32
}
