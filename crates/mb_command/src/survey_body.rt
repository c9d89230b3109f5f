//! Surveys of the signed part of an order; the last bytes may be missing.

ghost use Rattle.std.specs.Prelude.{◌≤◌};
ghost use Rattle.std.specs.Int.{w8};
ghost use Rattle.mb_format.specs.Combinators.{raw, between, pair, table, listed, counted};
ghost use Rattle.mb_model.specs.declared.limits.TheConstants.{TARGET_LIMIT};
ghost use Rattle.mb_model.specs.records.OrderFormat.{target_rows, target_byte, target_format, form_rows, form_byte, body_by, body_format};
ghost use Rattle.mb_command.specs.Surveys.{Surveys, NothingTold, IsTold, IsHeadingOf};

use crate::kind::{form_at, least_layer};
use crate::stuck::{Heading, Stuck};
use crate::survey_act::survey_act;
use crate::survey_fields::{survey_number, survey_raw, survey_u8};
use mb_bytes::Cursor;
use mb_model::{OrderForm, TARGET_LIMIT};

/// Surveys a layer and a hash.
fn survey_named(cursor: &mut Cursor) -> Result<(), Stuck>
    ensures { Surveys NothingTold (pair (between w8 1 3) (raw 32)) cursor.old result cursor.new }
{
    survey_u8(cursor, 1, 3)?;
    survey_raw(cursor, 32)
}

fn survey_target(cursor: &mut Cursor) -> Result<(), Stuck>
    ensures { Surveys NothingTold target_format cursor.old result cursor.new }
{
    match survey_u8(cursor, 1, 4)? {
        1 => survey_raw(cursor, 16),
        2 => survey_number(cursor),
        _ => survey_named(cursor),
    }
}

/// Surveys the targets of an order, after a byte for their number.
fn survey_targets(cursor: &mut Cursor) -> Result<(), Stuck>
    ensures { Surveys NothingTold (counted (between w8 0 TARGET_LIMIT) target_format) cursor.old result cursor.new }
{
    let count = survey_u8(cursor, 0, TARGET_LIMIT)?;
    for _i in 0..count {
        survey_target(cursor)?;
    }
    Ok(())
}

fn survey_form(cursor: &mut Cursor) -> Result<OrderForm, Stuck>
    ensures { Surveys IsTold (listed w8 form_rows form_byte) cursor.old result cursor.new }
{
    if cursor.left() == 0 {
        return Err(Stuck::Open);
    }
    Ok(form_at(cursor)?)
}

fn survey_after_form(cursor: &mut Cursor, form: OrderForm) -> Result<Heading, Stuck>
    ensures { Surveys IsHeadingOf (body_by form) cursor.old result cursor.new }
{
    let layer = survey_u8(cursor, least_layer(form.kind), 3)?;
    survey_targets(cursor)?;
    survey_act(cursor, form)?;
    Ok(Heading {
        kind: form.kind,
        layer,
    })
}

/// Surveys the signed part of an order, and answers its heading.
pub fn survey_body(cursor: &mut Cursor) -> Result<Heading, Stuck>
    ensures { Surveys IsHeadingOf body_format cursor.old result cursor.new }
{
    let form = survey_form(cursor)?;
    survey_after_form(cursor, form)
}
