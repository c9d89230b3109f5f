//! The command `ordered`.

ghost use Rattle.std.specs.Prelude.{◌≡◌, ◌++◌, [], IfOk, OnOk, map};
ghost use Rattle.mb_model.specs.records.OrderFormat.{order_format};
ghost use Rattle.mb_console.specs.Ending.{CarriesOut};
ghost use Rattle.mb_console.specs.Words.{given_argument};
ghost use Rattle.mb_tools_orders.specs.Names.{ordered_files, ordered_given};
ghost use Rattle.mb_tools_orders.specs.Ordered.{ordered, signed_in_charge, signed_above, signatures_of};
ghost use Rattle.mb_tools_orders.specs.Telling.{AppendsIfVerified, AppendsNames};

use mb_command::order_body;
use mb_console::{Arguments, End, file, finish, read_as, refused};
use mb_host::Host;
use mb_lms::verify;
use mb_model::separators::{COUNTERSIGNED_TEXT, ORDER_TEXT};
use mb_model::{Countersignature, NoMemory, Order, PublicKey};
use mb_model_commands::Role;
use mb_tools::{OrderLine, PublicKeyForm};
use std::alloc::Global;

/// The names of the files of `ordered`.
#[derive(Clone, Copy)]
pub struct OrderedNames<'a> {
    pub public: &'a str,
    pub order: &'a str,
}

impl<'a> OrderedNames<'a> {
    /// The names by their places among the arguments.
    pub fn of(given: &Arguments<'a>) -> Self
        ensures { ordered_files result ≡ ordered_given (map given_argument given.now.items) }
    {
        OrderedNames {
            public: file(given, 0),
            order: file(given, 1),
        }
    }
}

/// Names the signatures of an order that verify under a public key, or refuses if none does.
pub fn ordered<H: Host>(alloc: Global, names: &OrderedNames<'_>, host: &mut H) -> Result<(), End>
    ensures { CarriesOut (ordered (ordered_files names.now)) (H.outside host.old) result (H.outside host.new) }
{
    let key = read_as(alloc, host, Role::Public, names.public, PublicKeyForm)?;
    let order = read_as(alloc, host, Role::Order, names.order, OrderLine)?;
    let Ok(text) = names_of(alloc, &key, &order) else {
        return Err(End::NoMemory);
    };
    if text.is_empty() {
        return Err(refused("refused 29"));
    }
    finish(host, &[], &text)
}

/// The names of the signatures of an order that verify under a key, a line each. The order has a spelling.
fn names_of(alloc: Global, key: &PublicKey, order: &Order) -> Result<Vec<u8>, NoMemory>
    requires { order_format.Allowed order.now }
    ensures { IfOk result (λ text. AppendsNames key.now (signatures_of order.now) [] text.items) }
{
    let body = order_body(alloc, order)?;
    let mut out = Vec::new(alloc);
    let signature = order.signature.as_slice();
    let line = "in charge\n";
    put_if_verified(
        key,
        &[ORDER_TEXT],
        body.as_slice(),
        signature,
        line,
        &mut out,
    )?;
    let above = order.countersignatures.as_slice();
    put_names(alloc, key, body.as_slice(), above, &mut out)?;
    Ok(out)
}

/// Appends the names of those countersignatures over this body that verify under a key.
fn put_names(
    alloc: Global,
    key: &PublicKey,
    body: &[u8],
    list: &[Countersignature],
    out: &mut Vec<u8>,
) -> Result<(), NoMemory>
    ensures { OnOk result (AppendsNames key.now (map (signed_above body.now) list.now) out.old.items out.new.items) }
{
    let Some((by, list)) = list.split_first() else {
        return Ok(());
    };
    let layer = by.layer;
    let line = format!(in alloc; "layer {layer}\n")?;
    let head = [COUNTERSIGNED_TEXT, layer];
    put_if_verified(
        key,
        &head,
        body,
        by.signature.as_slice(),
        line.as_str(),
        out,
    )?;
    put_names(alloc, key, body, list, out)
}

/// Appends a line if the signature verifies under the key, over the head and the body.
fn put_if_verified(
    key: &PublicKey,
    head: &[u8],
    body: &[u8],
    signature: &[u8],
    line: &str,
    out: &mut Vec<u8>,
) -> Result<(), NoMemory>
    ensures { OnOk result (AppendsIfVerified key.now (head.now ++ body.now) signature.now line.now out.old.items out.new.items) }
{
    if verify(key, head, body, signature) {
        out.extend_from_slice(line.as_bytes())?;
    }
    Ok(())
}
