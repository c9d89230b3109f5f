//! The forms of the inputs of `fleet`: a register, and items.

use mb_console::{Form, Unread};
use mb_fleet::{Fleet, FleetReadEnd, Item, read_items};
use mb_model::Items;
use mb_model_commands::Place;
use std::alloc::Global;

/// A register.
#[derive(Clone, Copy)]
pub struct RegisterForm;

impl Form for RegisterForm {
    ghost use Rattle.std.specs.Prelude.{List, []};
    ghost use Rattle.mb_fleet.specs.declared.row.Row.{Row};
    ghost use Rattle.mb_fleet.specs.Laws.{register_input};

    type Value = Fleet;

    ghost Meaning = { List Row };

    ghost meaning = { λ fleet. fleet };

    ghost Is = { λ form. (register_input []).Is };

    ghost FaultyAt = { λ form. (register_input []).FaultyAt };

    ghost Keeps = { λ fleet. Unit {0} };

    fn read(self, alloc: Global, bytes: Vec<u8>) -> Result<Fleet, Unread> {
        match Fleet::read(alloc, &bytes) {
            Ok(fleet) => Ok(fleet),
            Err(FleetReadEnd::Bad { at }) => Err(Unread::At(Place::At(at))),
            Err(FleetReadEnd::NoMemory) => Err(Unread::NoMemory),
        }
    }
}

/// Items, one after another.
#[derive(Clone, Copy)]
pub struct ItemsForm;

impl Form for ItemsForm {
    ghost use Rattle.std.specs.Prelude.{List, []};
    ghost use Rattle.std.specs.List.{AllByRecursion};
    ghost use Rattle.mb_fleet.specs.declared.item.Item.{Item};
    ghost use Rattle.mb_fleet.specs.Ends.{HasShortChain};
    ghost use Rattle.mb_fleet.specs.Laws.{items_input};

    type Value = Items<Item>;

    ghost Meaning = { List Item };

    ghost meaning = { λ items. items };

    ghost Is = { λ form. (items_input []).Is };

    ghost FaultyAt = { λ form. (items_input []).FaultyAt };

    ghost Keeps = { AllByRecursion HasShortChain };

    fn read(self, alloc: Global, bytes: Vec<u8>) -> Result<Items<Item>, Unread> {
        match read_items(alloc, &bytes) {
            Ok(items) => Ok(items),
            Err(FleetReadEnd::Bad { at }) => Err(Unread::At(Place::At(at))),
            Err(FleetReadEnd::NoMemory) => Err(Unread::NoMemory),
        }
    }
}
