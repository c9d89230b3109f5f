//! What the definitions of the commands give, as the contracts of functions that do nothing.

ghost use Rattle.mb_tools_fleet.specs.FleetCommand.{FleetIsNotRefused};
ghost use Rattle.mb_tools_fleet.specs.FleetLaws.{EnrolmentsAreARun, RegistersBeginEmpty, DevicesShowAllRows};

/// `fleet` is never refused, whatever the answers to the items are.
pub fn fleet_is_not_refused()
    ensures { FleetIsNotRefused }
{}

/// Chains that are enrolled one after another are served as the items of `fleet` that show them, and one `enrol` serves
/// one such item.
pub fn enrolments_are_a_run()
    ensures { EnrolmentsAreARun }
{}

/// What `register` writes is read as a register without devices.
pub fn registers_begin_empty()
    ensures { RegistersBeginEmpty }
{}

/// Registers that are shown alike have the same rows, but for the hashes of entries.
pub fn devices_show_all_rows()
    ensures { DevicesShowAllRows }
{}
