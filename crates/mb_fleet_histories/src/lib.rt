//! What the definitions give for registers that are shown many chains: forks are caught, and honest devices are not
//! accused.
//!
//! This crate owns no type and does nothing when it runs. Each law stands on a function with an empty body.
#![tactic(auto)]

ghost use Rattle.mb_fleet_histories.specs.RegisterLaws.{RowsOnlyGrow, RegistersStayOrdered, DoubledRowsStay, GoodChainsMeet, ForksAreCaught, TwoRowsHideAFork, HashesTellOfEntries, PartedLogsAreCaught, HonestDevicesAreNotAccused, ForgedRowsAccuse, AccusedRowsDiffer};

/// Whatever items a register is served, each row stays or is prolonged, and the serials ascend if they did.
pub fn registers_only_grow()
    ensures rows { RowsOnlyGrow }
    ensures ordered { RegistersStayOrdered }
    ensures doubled { DoubledRowsStay }
{}

/// A good chain is answered as its row is. If two rows of one device are shown to a register whose serials ascend,
/// whatever items come between, either the hashes of one are a prefix of the other's, or the second is answered as a
/// fork. Where hashes agree, the entries do, or else two of them are spelled by texts that have one hash.
pub fn registers_catch_forks()
    ensures chains { GoodChainsMeet }
    ensures forks { ForksAreCaught }
    ensures hidden { TwoRowsHideAFork }
    ensures hashes { HashesTellOfEntries }
    ensures logs { PartedLogsAreCaught }
{}

/// A device is not answered as a fork as long as no chain with its serial is forged; one forged chain that is shown
/// first is enough for that. What is answered so differs from the register's row.
pub fn honest_devices_are_not_accused()
    ensures honest { HonestDevicesAreNotAccused }
    ensures forged { ForgedRowsAccuse }
    ensures differ { AccusedRowsDiffer }
{}
