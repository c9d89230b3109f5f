//! The command `showorder`.

ghost use Rattle.std.specs.Prelude.{◌≡◌, map};
ghost use Rattle.mb_console.specs.Ending.{CarriesOut};
ghost use Rattle.mb_console.specs.Words.{given_argument};
ghost use Rattle.mb_tools_orders.specs.Names.{showorder_files, showorder_given};
ghost use Rattle.mb_tools_orders.specs.ShowOrder.{showorder};

use crate::shown::order_shown;
use mb_console::{Arguments, End, file, finish, read_as};
use mb_host::Host;
use mb_model_commands::Role;
use mb_tools::OrderLine;
use std::alloc::Global;

/// The name of the file of `showorder`.
#[derive(Clone, Copy)]
pub struct ShowOrderNames<'a> {
    pub order: &'a str,
}

impl<'a> ShowOrderNames<'a> {
    /// The name by its place among the arguments.
    pub fn of(given: &Arguments<'a>) -> Self
        ensures { showorder_files result ≡ showorder_given (map given_argument given.now.items) }
    {
        ShowOrderNames {
            order: file(given, 0),
        }
    }
}

/// Prints what the order of an order line says, line by line. Verifies nothing.
pub fn showorder<H: Host>(
    alloc: Global,
    names: &ShowOrderNames<'_>,
    host: &mut H,
) -> Result<(), End>
    ensures { CarriesOut (showorder (showorder_files names.now)) (H.outside host.old) result (H.outside host.new) }
{
    let order = read_as(alloc, host, Role::Order, names.order, OrderLine)?;
    let Ok(text) = order_shown(alloc, &order) else {
        return Err(End::NoMemory);
    };
    finish(host, &[], &text)
}
