//! Items, served one after another.

ghost use Rattle.std.specs.Prelude.{◌≤◌, length, OnOk};
ghost use Rattle.std.specs.List.{AllByRecursion};
ghost use Rattle.mb_model.specs.declared.limits.TheConstants.{FILE_LIMIT};
ghost use Rattle.mb_fleet.specs.Ends.{HasShortChain, ServesItems, AppendsStep};
ghost use Rattle.mb_fleet.specs.declared.item.Item.TheVariants.{Show};

use crate::answer::{put_added, put_codes, put_end, put_found};
use crate::end::ServeEnd;
use crate::fleet::Fleet;
use crate::item::Item;
use crate::limits::TEXT_LIMIT;
use mb_model::{Bytes, NoMemory, PublicKey};
use std::alloc::Global;

/// Serves the items one after another, and gives the text of all answers, at most 268,435,456 bytes. The register is
/// then the one after all items. After an error it may have taken the chains of some of them.
///
/// Errors: `TooLong` if the answers to a prefix of the items are a longer text, and `NoMemory`.
pub fn serve_items(
    alloc: Global,
    fleet: &mut Fleet,
    root: &PublicKey,
    items: &[Item],
) -> Result<Bytes, ServeEnd>
    requires { AllByRecursion HasShortChain items.now }
    ensures { ServesItems root.now fleet.old items.now result fleet.new }
{
    let mut text = Vec::new(alloc);
    for item in items {
        serve_item(alloc, fleet, root, item, &mut text)?;
        if text.len() > TEXT_LIMIT {
            return Err(ServeEnd::TooLong);
        }
    }
    Ok(Bytes::from_vec(text))
}

/// Serves an item, and appends the lines of its answer.
fn serve_item(
    alloc: Global,
    fleet: &mut Fleet,
    root: &PublicKey,
    item: &Item,
    out: &mut Vec<u8>,
) -> Result<(), NoMemory>
    requires { HasShortChain item.now }
    ensures { OnOk result (AppendsStep root.now fleet.old item.now out.old.items out.new.items fleet.new) }
{
    match item {
        Item::Show(chain) => show_chain(alloc, fleet, root, chain.as_slice(), out),
        Item::Find { layer, hash } => {
            let serials = fleet.find(alloc, *layer, hash)?;
            put_found(out, serials.as_slice())
        }
        Item::Codes { layer } => {
            let counts = fleet.codes(alloc, *layer)?;
            put_codes(out, counts.as_slice())
        }
    }
}

/// Shows a chain, and appends the line of the answer.
fn show_chain(
    alloc: Global,
    fleet: &mut Fleet,
    root: &PublicKey,
    chain: &[u8],
    out: &mut Vec<u8>,
) -> Result<(), NoMemory>
    requires { length chain.now ≤ FILE_LIMIT }
    ensures { OnOk result (AppendsStep root.now fleet.old (Show chain.now) out.old.items out.new.items fleet.new) }
{
    match fleet.add(alloc, root, chain) {
        Ok(added) => put_added(out, &added),
        Err(end) => put_end(out, &end),
    }
}
