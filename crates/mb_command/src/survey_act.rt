//! Surveys of what an order does; the last bytes may be missing.

ghost use Rattle.std.specs.Prelude.{false};
ghost use Rattle.std.specs.Int.{w8};
ghost use Rattle.mb_format.specs.Combinators.{listed};
ghost use Rattle.mb_model.specs.records.LayerFormat.{trust_byte, trust_format};
ghost use Rattle.mb_model.specs.records.EntryFormat.{key_kind_format};
ghost use Rattle.mb_model.specs.records.OrderFormat.{other_rows, differing_trusts, given_trusts, payload_format};
ghost use Rattle.mb_model.specs.records.OrderFormat.{act_by};
ghost use Rattle.mb_command.specs.Surveys.{Surveys, NothingTold, IsTold};

use crate::act::other_trust_at;
use crate::stuck::Stuck;
use crate::survey_fields::{survey_code, survey_key, survey_number};
use mb_bytes::{Cursor, key_kind_at, trust_at};
use mb_model::{OrderForm, OrderKind, Trust};

fn survey_trust(cursor: &mut Cursor) -> Result<Trust, Stuck>
    ensures { Surveys IsTold trust_format cursor.old result cursor.new }
{
    if cursor.left() == 0 {
        return Err(Stuck::Open);
    }
    Ok(trust_at(cursor)?)
}

/// Surveys a trust other than this one.
fn survey_other(cursor: &mut Cursor, one: Trust) -> Result<(), Stuck>
    ensures { Surveys NothingTold (listed w8 (other_rows one) trust_byte) cursor.old result cursor.new }
{
    if cursor.left() == 0 {
        return Err(Stuck::Open);
    }
    other_trust_at(cursor, one)?;
    Ok(())
}

fn survey_differing(cursor: &mut Cursor) -> Result<(), Stuck>
    ensures { Surveys NothingTold differing_trusts cursor.old result cursor.new }
{
    let one = survey_trust(cursor)?;
    survey_other(cursor, one)
}

fn survey_one(cursor: &mut Cursor) -> Result<(), Stuck>
    ensures { Surveys NothingTold (given_trusts false) cursor.old result cursor.new }
{
    survey_trust(cursor)?;
    Ok(())
}

/// Surveys the trusts that an act gives its layer: one trust if they are equal, else both.
fn survey_given(cursor: &mut Cursor, differs: bool) -> Result<(), Stuck>
    ensures { Surveys NothingTold (given_trusts differs) cursor.old result cursor.new }
{
    if differs {
        survey_differing(cursor)
    } else {
        survey_one(cursor)
    }
}

fn survey_payload(cursor: &mut Cursor, differs: bool) -> Result<(), Stuck>
    ensures { Surveys NothingTold (payload_format differs) cursor.old result cursor.new }
{
    survey_number(cursor)?;
    survey_given(cursor, differs)?;
    survey_code(cursor)
}

fn survey_establish(cursor: &mut Cursor, differs: bool) -> Result<(), Stuck>
    ensures { Surveys NothingTold (act_by OrderKind.Establish differs) cursor.old result cursor.new }
{
    survey_key(cursor)?;
    survey_given(cursor, differs)
}

fn survey_key_kind(cursor: &mut Cursor) -> Result<(), Stuck>
    ensures { Surveys NothingTold key_kind_format cursor.old result cursor.new }
{
    if cursor.left() == 0 {
        return Err(Stuck::Open);
    }
    key_kind_at(cursor)?;
    Ok(())
}

/// Surveys what an order of the form does.
pub fn survey_act(cursor: &mut Cursor, form: OrderForm) -> Result<(), Stuck>
    ensures { Surveys NothingTold (act_by form.kind form.differs) cursor.old result cursor.new }
{
    match form.kind {
        OrderKind::Establish => survey_establish(cursor, form.differs),
        OrderKind::Surrender => Ok(()),
        OrderKind::Load => survey_payload(cursor, form.differs),
        OrderKind::Emergency => survey_payload(cursor, form.differs),
        OrderKind::NewKey => survey_key_kind(cursor),
    }
}
