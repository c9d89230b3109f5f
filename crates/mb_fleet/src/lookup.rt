//! A row of a device, looked up by its serial.

ghost use Rattle.mb_fleet.specs.Rows.{serial_of_row, AreOrdered};
ghost use Rattle.mb_fleet.specs.Lookups.{LooksUp};

use crate::row::Row;
use std::cmp::Ordering;

/// What the lookup of a key finds in a list in ascending order, by an index from 0.
#[derive(Clone, Copy)]
pub enum Lookup {
    /// The item at this index has the key.
    Held(usize),
    /// No item has the key; an item with it belongs at this index.
    Free(usize),
}

/// Looks up the row of the device with this serial.
pub(crate) fn look_up_serial(rows: &[Row], serial: &[u8; 16]) -> Lookup
    requires { AreOrdered rows.now }
    ensures { LooksUp serial_of_row rows.now serial.now result }
{
    for index in 0..rows.len() {
        match rows[index].serial.cmp(serial) {
            Ordering::Less => {}
            Ordering::Equal => return Lookup::Held(index),
            Ordering::Greater => return Lookup::Free(index),
        }
    }
    Lookup::Free(rows.len())
}
