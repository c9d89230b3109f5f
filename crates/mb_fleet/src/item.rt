//! Items: chains that are shown to a register, and questions.

ghost use Rattle.std.specs.Prelude.{◌≡◌, ◌≤◌, length, IfOk};
ghost use Rattle.std.specs.List.{AllByRecursion};
ghost use Rattle.mb_model.specs.declared.limits.TheConstants.{FILE_LIMIT};
ghost use Rattle.mb_bytes.specs.Reads.{bad_at, Reads};
ghost use Rattle.mb_bytes.specs.Ends.{end_at};
ghost use Rattle.mb_fleet.specs.Ends.{HasShortChain, ReadsItems};
ghost use Rattle.mb_fleet.specs.ItemFormat.{show_format, find_format, codes_item_format, item_format};

use crate::end::FleetReadEnd;
use mb_bytes::{Cursor, u8_between};
use mb_model::{BadRecord, Bytes, Items};
use std::alloc::Global;

/// An item for a register: a chain, or a question. A layer is 1, 2 or 3.
#[derive(Drop)]
pub enum Item {
    /// A chain is shown. The bytes need not spell one.
    Show(Bytes),
    /// Which devices have this code in this layer?
    Find {
        /// The layer.
        layer: u8,
        /// The hash of the code.
        hash: [u8; 32],
    },
    /// Which codes are there in this layer?
    Codes {
        /// The layer.
        layer: u8,
    },
}

/// The items that the bytes as a whole spell. There are at most 4,194,304 bytes.
///
/// Errors: `Bad` with the offset of the first field that lacks bytes or is not allowed, and `NoMemory`.
pub fn read_items(alloc: Global, bytes: &[u8]) -> Result<Items<Item>, FleetReadEnd>
    requires { length bytes.now ≤ FILE_LIMIT }
    ensures read { ReadsItems bytes.now result }
    ensures short { IfOk result (λ items. AllByRecursion HasShortChain items) }
{
    let mut cursor = Cursor::new(bytes);
    let mut items = Items::new(alloc);
    while cursor.left() > 0 {
        items.push(item_at(alloc, &mut cursor)?)?;
    }
    Ok(items)
}

/// An item, by its first byte.
#[tactic(auto, unfolding(crate::specs::ItemFormat::item_format))]
fn item_at(alloc: Global, cursor: &mut Cursor<'_>) -> Result<Item, FleetReadEnd>
    ensures reads { Reads end_at item_format cursor.old result cursor.new }
    ensures short { IfOk result HasShortChain }
{
    let at = cursor.offset();
    match cursor.take_u8()? {
        1 => show_at(alloc, cursor),
        2 => Ok(find_at(cursor)?),
        3 => Ok(codes_at(cursor)?),
        _ => Err(FleetReadEnd::Bad { at }),
    }
}

/// A chain's bytes after their number.
#[tactic(auto, unfolding(crate::specs::ItemFormat::show_format))]
fn show_at(alloc: Global, cursor: &mut Cursor<'_>) -> Result<Item, FleetReadEnd>
    ensures reads { Reads end_at show_format cursor.old result cursor.new }
    ensures short { IfOk result HasShortChain }
{
    let length = cursor.take_u32()?;
    let chain = cursor.take_slice(length)?;
    Ok(Item::Show(Bytes::copy(alloc, chain)?))
}

/// A layer and the hash of a code.
#[tactic(auto, unfolding(crate::specs::ItemFormat::find_format))]
fn find_at(cursor: &mut Cursor<'_>) -> Result<Item, BadRecord>
    ensures reads { Reads bad_at find_format cursor.old result cursor.new }
    ensures short { IfOk result HasShortChain }
{
    let layer = u8_between(cursor, 1, 3)?;
    let hash = cursor.take_array::<32>()?;
    Ok(Item::Find { layer, hash })
}

/// A layer.
#[tactic(auto, unfolding(crate::specs::ItemFormat::codes_item_format))]
fn codes_at(cursor: &mut Cursor<'_>) -> Result<Item, BadRecord>
    ensures reads { Reads bad_at codes_item_format cursor.old result cursor.new }
    ensures short { IfOk result HasShortChain }
{
    let layer = u8_between(cursor, 1, 3)?;
    Ok(Item::Codes { layer })
}
