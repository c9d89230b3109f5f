//! The signatures of an order: its owner's, and those of the owners above.

ghost use Rattle.std.specs.Prelude.{◌≤◌, ◌-◌, length, IfOk};
ghost use Rattle.std.specs.List.{All};
ghost use Rattle.mb_model.specs.declared.limits.TheConstants.{SIGNATURE_LIMIT};
ghost use Rattle.mb_model.specs.records.OrderFormat.{Body, sized_signature_format, countersignature_format, countersignatures_format};
ghost use Rattle.mb_bytes.specs.Reads.{Reads};
ghost use Rattle.mb_bytes.specs.Puts.{Puts};
ghost use Rattle.mb_bytes.specs.Ends.{end_at};
ghost use Rattle.mb_command.specs.Parts.{body_in, HasLayer, countersignature_bytes};
ghost use Rattle.mb_command.specs.Writing.{HasShortSignature};

use crate::body::SignedPart;
use crate::end::OrderEnd;
use crate::kind::{countersignature_limit, kind_of};
use mb_bytes::{Cursor, bytes_after_u16, put_after_u16, put_u8, u8_between};
use mb_model::{Bytes, Countersignature, Countersignatures, Items, NoMemory, SIGNATURE_LIMIT};
use std::alloc::Global;

/// Reads a signature after its length in two bytes.
#[tactic(auto, unfolding(mb_model::specs::records::OrderFormat::sized_signature_format))]
pub fn signature_at(alloc: Global, cursor: &mut Cursor) -> Result<Bytes, OrderEnd>
    ensures { Reads end_at sized_signature_format cursor.old result cursor.new }
{
    let signature = bytes_after_u16(cursor, 0, SIGNATURE_LIMIT)?;
    Ok(Bytes::copy(alloc, signature)?)
}

/// Reads a countersignature of a layer above `below`, low enough that each of those still to come has a layer of its
/// own. `left` counts them and this one.
fn countersignature_at(
    alloc: Global,
    cursor: &mut Cursor,
    below: u8,
    left: u8,
) -> Result<Countersignature, OrderEnd>
    requires below { below ≤ 3 }
    requires left { left ≤ 3 }
    ensures reads { Reads end_at (countersignature_format (record { below = below; left = left })) cursor.old result cursor.new }
    ensures layer { IfOk result (λ c. c.layer ≤ 4 - left) }
{
    let layer = u8_between(cursor, below + 1, 4 - left)?;
    let signature = signature_at(alloc, cursor)?;
    Ok(Countersignature { layer, signature })
}

/// Reads the countersignatures of an order with this signed part: a byte for their number, and as many, their layers
/// ascending.
#[tactic(auto, unfolding(mb_model::specs::records::OrderFormat::countersignatures_format))]
pub fn countersignatures_at(
    alloc: Global,
    cursor: &mut Cursor,
    body: &SignedPart,
) -> Result<Countersignatures, OrderEnd>
    requires { HasLayer body.now }
    ensures { Reads end_at (countersignatures_format (body_in body.now)) cursor.old result cursor.new }
{
    let most = countersignature_limit(kind_of(&body.act), body.layer);
    let count = u8_between(cursor, 0, most)?;
    let mut list = Items::new(alloc);
    let mut below = body.layer;
    for i in 0..count {
        let countersignature = countersignature_at(alloc, cursor, below, count - i)?;
        below = countersignature.layer;
        list.push(countersignature)?;
    }
    Ok(list)
}

/// Appends the length of a signature, in two bytes, and the signature.
#[tactic(auto, unfolding(mb_model::specs::records::OrderFormat::sized_signature_format))]
pub fn put_signature(out: &mut Vec<u8>, signature: &Bytes) -> Result<(), NoMemory>
    requires { length signature.now ≤ SIGNATURE_LIMIT }
    ensures { Puts (sized_signature_format.spelling signature.now) out.old result out.new }
{
    put_after_u16(out, signature.as_slice())
}

fn put_countersignature(
    out: &mut Vec<u8>,
    countersignature: &Countersignature,
) -> Result<(), NoMemory>
    requires { HasShortSignature countersignature.now }
    ensures { Puts (countersignature_bytes countersignature.now) out.old result out.new }
{
    put_u8(out, countersignature.layer)?;
    put_signature(out, &countersignature.signature)
}

/// Appends the number of the countersignatures, in a byte, and the countersignatures.
pub fn put_countersignatures(out: &mut Vec<u8>, list: &Countersignatures) -> Result<(), NoMemory>
    requires count { length list.now ≤ 2 }
    requires signatures { All HasShortSignature list.now }
    ensures { (body : Body) → Puts ((countersignatures_format body).spelling list.now) out.old result out.new }
{
    put_u8(out, list.as_slice().len() as u8)?;
    for countersignature in list.as_slice() {
        put_countersignature(out, countersignature)?;
    }
    Ok(())
}
