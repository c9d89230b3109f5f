//! The targets of an order.

ghost use Rattle.std.specs.Prelude.{◌≡◌, ◌+◌, ◌≤◌, length};
ghost use Rattle.std.specs.Int.{w8};
ghost use Rattle.mb_model.specs.declared.limits.TheConstants.{TARGET_LIMIT};
ghost use Rattle.mb_format.specs.Combinators.{between, counted};
ghost use Rattle.mb_model.specs.records.OrderFormat.{serial_tag, length_tag, owner_tag, code_tag, target_by};
ghost use Rattle.mb_model.specs.records.OrderFormat.{target_format};
ghost use Rattle.mb_bytes.specs.Reads.{bad_at, Reads};
ghost use Rattle.mb_bytes.specs.Puts.{Puts};
ghost use Rattle.mb_bytes.specs.Ends.{end_at};
ghost use Rattle.mb_command.specs.Parts.{named_bytes};

use crate::end::OrderEnd;
use mb_bytes::{
    Cursor, Field, WriteField, items_at, put_items, put_slice, put_u8, put_u32, u8_between,
};
use mb_model::{BadRecord, NoMemory, TARGET_LIMIT, Target, Targets};
use std::alloc::Global;

fn serial_at(cursor: &mut Cursor) -> Result<Target, BadRecord>
    ensures { Reads bad_at (target_by serial_tag) cursor.old result cursor.new }
{
    Ok(Target::Serial(cursor.take_array()?))
}

fn length_at(cursor: &mut Cursor) -> Result<Target, BadRecord>
    ensures { Reads bad_at (target_by length_tag) cursor.old result cursor.new }
{
    Ok(Target::Length(cursor.take_u32()?))
}

fn owner_at(cursor: &mut Cursor) -> Result<Target, BadRecord>
    ensures { Reads bad_at (target_by owner_tag) cursor.old result cursor.new }
{
    let layer = u8_between(cursor, 1, 3)?;
    let hash = cursor.take_array()?;
    Ok(Target::Owner { layer, hash })
}

fn code_at(cursor: &mut Cursor) -> Result<Target, BadRecord>
    ensures { Reads bad_at (target_by code_tag) cursor.old result cursor.new }
{
    let layer = u8_between(cursor, 1, 3)?;
    let hash = cursor.take_array()?;
    Ok(Target::Code { layer, hash })
}

/// A target, after the byte that says which of the four kinds it is.
struct TargetField;

#[tactic(auto, unfolding(mb_model::specs::records::OrderFormat::target_format))]
impl Field for TargetField {
    ghost use Rattle.mb_model.specs.records.OrderFormat.{target_format};
    ghost use Rattle.mb_model.proofs.OrderFormatLaws.{target_exact};

    type Value = Target;

    type Needs = ();

    type End = BadRecord;

    ghost format = { target_format };

    fn read_at(_needs: (), cursor: &mut Cursor<'_>) -> Result<Target, BadRecord> {
        let at = cursor.offset();
        match cursor.take_u8()? {
            1 => serial_at(cursor),
            2 => length_at(cursor),
            3 => owner_at(cursor),
            4 => code_at(cursor),
            _ => Err(BadRecord { at }),
        }
    }

    ghost exact = { target_exact };
}

#[tactic(auto, unfolding(mb_model::specs::records::OrderFormat::target_format))]
impl WriteField for TargetField {
    ghost Fits = { λ _. Unit {0} };

    fn put(target: &Target, out: &mut Vec<u8>) -> Result<(), NoMemory> {
        match target {
            Target::Serial(serial) => {
                put_u8(out, 1)?;
                put_slice(out, serial)
            }
            Target::Length(length) => {
                put_u8(out, 2)?;
                put_u32(out, *length)
            }
            Target::Owner { layer, hash } => put_named(out, 3, *layer, hash),
            Target::Code { layer, hash } => put_named(out, 4, *layer, hash),
        }
    }
}

/// Reads the targets of an order, after a byte for their number.
pub fn targets_at(alloc: Global, cursor: &mut Cursor) -> Result<Targets, OrderEnd>
    ensures { Reads end_at (counted (between w8 0 TARGET_LIMIT) target_format) cursor.old result cursor.new }
{
    let count = u8_between(cursor, 0, TARGET_LIMIT)?;
    items_at::<TargetField>(alloc, (), cursor, count as u32)
}

fn put_named(out: &mut Vec<u8>, tag: u8, layer: u8, hash: &[u8; 32]) -> Result<(), NoMemory>
    ensures { Puts (named_bytes tag layer hash.now) out.old result out.new }
{
    put_u8(out, tag)?;
    put_u8(out, layer)?;
    put_slice(out, hash)
}

/// Appends the number of the targets, in a byte, and the targets.
pub fn put_targets(out: &mut Vec<u8>, targets: &Targets) -> Result<(), NoMemory>
    requires { length targets.now ≤ TARGET_LIMIT }
    ensures { Puts ((counted (between w8 0 TARGET_LIMIT) target_format).spelling targets.now) out.old result out.new }
{
    put_u8(out, targets.as_slice().len() as u8)?;
    put_items::<TargetField>(out, targets.as_slice())
}

#[tactic(auto, unfolding(mb_model::specs::records::OrderFormat::target_format))]
fn target_length(target: &Target) -> u32
    requires { target_format.Allowed target.now }
    ensures length { result ≡ length (target_format.spelling target.now) }
    ensures most { result ≤ 34 }
{
    match target {
        Target::Serial(_) => 17,
        Target::Length(_) => 5,
        Target::Owner { .. } | Target::Code { .. } => 34,
    }
}

/// The length of the targets of an order with the byte for their number, in bytes.
pub fn targets_length(targets: &Targets) -> u32
    requires { (counted (between w8 0 TARGET_LIMIT) target_format).Allowed targets.now }
    ensures length { result ≡ length ((counted (between w8 0 TARGET_LIMIT) target_format).spelling targets.now) }
    ensures most { result ≤ 273 }
{
    let mut total = 1;
    for target in targets.as_slice() {
        total += target_length(target);
    }
    total
}
