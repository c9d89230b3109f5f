//! Surveys of an order whose last bytes may be missing.
//!
//! A survey takes no memory and skips raw bytes, so it costs some forty steps for the largest order.

ghost use Rattle.std.specs.Prelude.{◌≤◌, ◌+◌, ◌-◌, length, IfOk};
ghost use Rattle.mb_format.specs.Format.{IsBytes};
ghost use Rattle.mb_model.specs.declared.limits.TheConstants.{FILE_LIMIT};
ghost use Rattle.mb_model.specs.records.OrderFormat.{countersignature_format, order_format};
ghost use Rattle.mb_command.specs.Surveys.{Surveys, NothingTold, IsLayerOf, countersignatures_above, IsSettled};

use crate::kind::countersignature_limit;
use crate::stuck::{Heading, Stuck};
use crate::survey_body::survey_body;
use crate::survey_fields::{survey_signature, survey_u8};
use mb_bytes::Cursor;

/// Surveys a countersignature of a layer above `below`, low enough that each of those still to come has a layer of its
/// own. `left` counts them and this one. Answers its layer.
fn survey_countersignature(cursor: &mut Cursor, below: u8, left: u8) -> Result<u8, Stuck>
    requires { below + left ≤ 3 }
    ensures surveys { Surveys IsLayerOf (countersignature_format (record { below = below; left = left })) cursor.old result cursor.new }
    ensures layer { IfOk result (λ layer. layer ≤ 4 - left) }
{
    let layer = survey_u8(cursor, below + 1, 4 - left)?;
    survey_signature(cursor)?;
    Ok(layer)
}

/// Surveys the countersignatures of an order: a byte for their number, and as many, their layers ascending.
fn survey_countersignatures(cursor: &mut Cursor, heading: Heading) -> Result<(), Stuck>
    requires { heading.layer ≤ 3 }
    ensures { Surveys NothingTold (countersignatures_above heading.kind heading.layer) cursor.old result cursor.new }
{
    let most = countersignature_limit(heading.kind, heading.layer);
    let count = survey_u8(cursor, 0, most)?;
    let mut below = heading.layer;
    for i in 0..count {
        below = survey_countersignature(cursor, below, count - i)?;
    }
    Ok(())
}

fn survey_order(cursor: &mut Cursor) -> Result<(), Stuck>
    ensures { Surveys NothingTold order_format cursor.old result cursor.new }
{
    let heading = survey_body(cursor)?;
    survey_signature(cursor)?;
    survey_countersignatures(cursor, heading)
}

/// The offset at which bytes fail as an order whatever follows; `None` if some bytes can complete them.
pub fn failing_offset(bytes: &[u8]) -> Option<u32>
    requires { length bytes.now ≤ FILE_LIMIT }
    ensures settled { IsSettled bytes.now result }
    ensures bytes { IsBytes bytes.now }
{
    let mut cursor = Cursor::new(bytes);
    match survey_order(&mut cursor) {
        Ok(()) => {
            if cursor.left() > 0 {
                Some(cursor.offset())
            } else {
                None
            }
        }
        Err(Stuck::Lost { at }) => Some(at),
        Err(Stuck::Open) => None,
    }
}
