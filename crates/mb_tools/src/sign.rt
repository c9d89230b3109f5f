//! The commands `sign` and `countersign`.

ghost use Rattle.std.specs.Prelude.{◌+◌, ◌≤◌, ◌≡◌, IfOk, IsTrue, string_bytes, map};
ghost use Rattle.mb_model.specs.declared.tools.Keyfile.{Keyfile};
ghost use Rattle.mb_model.specs.owners.Layers.{is_upper};
ghost use Rattle.mb_model.specs.records.OrderFormat.{order_format};
ghost use Rattle.mb_model.specs.machine.SignedOrders.{keyfile_after_use};
ghost use Rattle.mb_model_commands.specs.Sign.{sign, countersign, use_index, index_text};
ghost use Rattle.mb_tools.specs.Names.{sign_files, sign_given, countersign_files, countersign_given};
ghost use Rattle.mb_console.specs.Words.{given_argument};
ghost use Rattle.mb_console.specs.Ending.{CarriesOut};
ghost use Rattle.mb_tools.specs.Signing.{TellsUnsigned};
ghost use Rattle.mb_lms.specs.declared.hash_count.TheConstants.{SIGNING_HASHES};

use crate::input::keys::KeyForm;
use crate::input::orders::{DraftForm, OrderLine};
use mb_console::{Arguments, End, Output, file, finish, number, read_as, refused};
use mb_host::Host;
use mb_lms::HashCount;
use mb_model::{Keyfile, NoMemory, Order};
use mb_model_commands::Role;
use mb_officer::{
    SignEnd, countersign as add_countersignature, sign_order, write_keyfile, write_order_line,
};
use std::alloc::Global;
use std::sync::ledger::Ledger;

/// The names of the files of `sign`.
#[derive(Clone, Copy)]
pub struct SignNames<'a> {
    pub key: &'a str,
    pub draft: &'a str,
    pub out: &'a str,
}

impl<'a> SignNames<'a> {
    /// The names by their places among the arguments of `sign`.
    pub fn of(given: &Arguments<'a>) -> SignNames<'a>
        ensures { sign_files result ≡ sign_given (map given_argument given.now.items) }
    {
        SignNames {
            key: file(given, 0),
            draft: file(given, 1),
            out: file(given, 2),
        }
    }
}

/// The names of the files of `countersign`, and the layer whose owner countersigns.
#[derive(Clone, Copy)]
pub struct CountersignNames<'a> {
    pub key: &'a str,
    /// 2 or 3.
    pub layer: u32,
    pub order: &'a str,
    pub out: &'a str,
}

impl<'a> CountersignNames<'a> {
    /// The names by their places among the arguments of `countersign`.
    pub fn of(given: &Arguments<'a>) -> CountersignNames<'a>
        ensures { countersign_files result ≡ countersign_given (map given_argument given.now.items) }
    {
        CountersignNames {
            key: file(given, 0),
            layer: number(given, 1),
            order: file(given, 2),
            out: file(given, 3),
        }
    }
}

/// The names of the files that are written.
#[derive(Clone, Copy)]
pub struct OutputNames<'a> {
    pub key: &'a str,
    pub out: &'a str,
}

/// Signs the order of a draft by an officer's key: writes the key with its index advanced, then the order's line, and
/// prints the index.
pub fn sign<H: Host, L: Ledger>(
    alloc: Global,
    names: &SignNames<'_>,
    host: &mut H,
    hashes: &mut HashCount<L>,
) -> Result<(), End>
    ensures carried { CarriesOut (sign (sign_files names.now)) (H.outside host.old) result (H.outside host.new) }
    ensures cost { hashes.new ≤ hashes.old + SIGNING_HASHES }
{
    let mut key = read_as(alloc, host, Role::Key, names.key, KeyForm)?;
    let mut order = read_as(alloc, host, Role::Draft, names.draft, DraftForm)?;
    let outputs = OutputNames {
        key: names.key,
        out: names.out,
    };
    match sign_order(alloc, &mut key, &mut order, hashes) {
        Ok(index) => use_index(alloc, outputs, &key, &order, index, host),
        Err(end) => Err(end_of(end)),
    }
}

/// Countersigns the order of an order line by an officer's key, as the owner of a layer: writes the key with its index
/// advanced, then the order's line, and prints the index.
pub fn countersign<H: Host, L: Ledger>(
    alloc: Global,
    names: &CountersignNames<'_>,
    host: &mut H,
    hashes: &mut HashCount<L>,
) -> Result<(), End>
    requires { IsTrue (is_upper names.now.layer) }
    ensures carried { CarriesOut (countersign (countersign_files names.now)) (H.outside host.old) result (H.outside host.new) }
    ensures cost { hashes.new ≤ hashes.old + SIGNING_HASHES }
{
    let mut key = read_as(alloc, host, Role::Key, names.key, KeyForm)?;
    let mut order = read_as(alloc, host, Role::Order, names.order, OrderLine)?;
    let outputs = OutputNames {
        key: names.key,
        out: names.out,
    };
    match add_countersignature(alloc, &mut key, names.layer as u8, &mut order, hashes) {
        Ok(index) => use_index(alloc, outputs, &key, &order, index, host),
        Err(end) => Err(end_of(end)),
    }
}

/// The end of a command whose key has not signed.
pub fn end_of(end: SignEnd) -> End
    ensures { TellsUnsigned end result }
{
    match end {
        SignEnd::Spent => refused("spent"),
        SignEnd::NotCountersignable => refused("not countersignable"),
        SignEnd::NoMemory => End::NoMemory,
    }
}

/// Writes a key file with its index advanced, and the line of the order that the key signed, and prints the index.
pub fn use_index<H: Host>(
    alloc: Global,
    names: OutputNames<'_>,
    key: &Keyfile,
    order: &Order,
    index: u32,
    host: &mut H,
) -> Result<(), End>
    requires spelled { order_format.Allowed order.now }
    ensures { (before : Keyfile) → key.now ≡ keyfile_after_use before → index ≡ before.next
        → CarriesOut (use_index names.entry.key.now names.entry.out.now before order.now) (H.outside host.old) result (H.outside host.new) }
{
    let Ok(line) = write_order_line(alloc, order) else {
        return Err(End::NoMemory);
    };
    let Ok(text) = index_text(alloc, index) else {
        return Err(End::NoMemory);
    };
    let file = write_keyfile(key);
    let outputs = [
        Output {
            role: Role::Key,
            name: names.key,
            bytes: &file,
        },
        Output {
            role: Role::Out,
            name: names.out,
            bytes: &line,
        },
    ];
    finish(host, &outputs, text.as_bytes())
}

/// The line of an index.
fn index_text(alloc: Global, index: u32) -> Result<String, NoMemory>
    ensures { IfOk result (λ text. string_bytes text ≡ index_text index) }
{
    Ok(format!(in alloc; "index {index}\n")?)
}
