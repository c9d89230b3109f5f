//! The command `cosign`.

ghost use Rattle.std.specs.Prelude.{◌+◌, ◌≤◌, ◌≡◌, ◌↔◌, IfOk, IsTrue, map};
ghost use Rattle.mb_model.specs.owners.Layers.{is_upper};
ghost use Rattle.mb_model.specs.records.OrderFormat.{order_body, order_format};
ghost use Rattle.mb_model_commands.specs.Cosign.{cosign};
ghost use Rattle.mb_console.specs.Words.{given_argument};
ghost use Rattle.mb_console.specs.Ending.{CarriesOut};
ghost use Rattle.mb_tools_orders.specs.Names.{cosign_files, cosign_given};
ghost use Rattle.mb_lms.specs.declared.hash_count.TheConstants.{SIGNING_HASHES};

use mb_command::order_body;
use mb_console::{Arguments, End, file, number, read_as, refused};
use mb_host::Host;
use mb_lms::HashCount;
use mb_model::{NoMemory, Order};
use mb_model_commands::Role;
use mb_officer::{countersign, is_countersignable};
use mb_tools::sign::{OutputNames, end_of, use_index};
use mb_tools::{DraftForm, KeyForm, OrderLine};
use std::alloc::Global;
use std::sync::ledger::Ledger;

/// The names of the files of `cosign`, and the layer whose owner countersigns.
#[derive(Clone, Copy)]
pub struct CosignNames<'a> {
    pub key: &'a str,
    /// 2 or 3.
    pub layer: u32,
    pub order: &'a str,
    pub draft: &'a str,
    pub out: &'a str,
}

impl<'a> CosignNames<'a> {
    /// The names by their places among the arguments.
    pub fn of(given: &Arguments<'a>) -> Self
        ensures { cosign_files result ≡ cosign_given (map given_argument given.now.items) }
    {
        CosignNames {
            key: file(given, 0),
            layer: number(given, 1),
            order: file(given, 2),
            draft: file(given, 3),
            out: file(given, 4),
        }
    }
}

/// Countersigns the order of an order line by an officer's key, as the owner of a layer, if the body of a draft's order
/// is that of the order: writes the key with its index advanced, then the order's line, and prints the index.
pub fn cosign<H: Host, L: Ledger>(
    alloc: Global,
    names: &CosignNames<'_>,
    host: &mut H,
    hashes: &mut HashCount<L>,
) -> Result<(), End>
    requires { IsTrue (is_upper names.now.layer) }
    ensures carried { CarriesOut (cosign (cosign_files names.now)) (H.outside host.old) result (H.outside host.new) }
    ensures cost { hashes.new ≤ hashes.old + SIGNING_HASHES }
{
    let mut key = read_as(alloc, host, Role::Key, names.key, KeyForm)?;
    let mut order = read_as(alloc, host, Role::Order, names.order, OrderLine)?;
    let drafted = read_as(alloc, host, Role::Draft, names.draft, DraftForm)?;
    let layer = names.layer as u8;
    if !is_countersignable(&order, layer) {
        return Err(refused("not countersignable"));
    }
    let Ok(same) = have_one_body(alloc, &drafted, &order) else {
        return Err(End::NoMemory);
    };
    if !same {
        return Err(refused("differs"));
    }
    let outputs = OutputNames {
        key: names.key,
        out: names.out,
    };
    match countersign(alloc, &mut key, layer, &mut order, hashes) {
        Ok(index) => use_index(alloc, outputs, &key, &order, index, host),
        Err(end) => Err(end_of(end)),
    }
}

/// Whether two orders, which have spellings, have one body.
fn have_one_body(alloc: Global, one: &Order, other: &Order) -> Result<bool, NoMemory>
    requires one { order_format.Allowed one.now }
    requires other { order_format.Allowed other.now }
    ensures { IfOk result (λ same. IsTrue same ↔ (order_body one.now ≡ order_body other.now)) }
{
    let one = order_body(alloc, one)?;
    let other = order_body(alloc, other)?;
    Ok(one.as_slice() == other.as_slice())
}
