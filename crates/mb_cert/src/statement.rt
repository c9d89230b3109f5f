//! Whole statements in bytes.

ghost use Rattle.std.specs.Prelude.{◌≤◌, length};
ghost use Rattle.mb_model.specs.declared.limits.TheConstants.{FILE_LIMIT};
ghost use Rattle.mb_model.specs.records.ChainFormat.{answered_format, asked_format, statement_format};
ghost use Rattle.mb_bytes.specs.Reads.{Reads, ReadsWhole};
ghost use Rattle.mb_bytes.specs.Puts.{Puts, Writes};
ghost use Rattle.mb_bytes.specs.Ends.{end_at};

use crate::end::ChainEnd;
use mb_bytes::{
    Cursor, Field, WriteField, bytes_after_u8, put_after_u8, put_slice, put_u8, put_u32,
    read_whole, u8_between, write_field,
};
use mb_model::{Bytes, CALL_MARK, MESSAGE_LIMIT, NoMemory, Said, Statement};
use std::alloc::Global;

/// What a call's statement says, after the byte that marks it.
#[tactic(auto, unfolding(mb_model::specs::records::ChainFormat::answered_format))]
fn answer_at(alloc: Global, cursor: &mut Cursor<'_>) -> Result<Said, ChainEnd>
    ensures { Reads end_at answered_format cursor.old result cursor.new }
{
    let input = cursor.take_array()?;
    let answer = bytes_after_u8(cursor, 0, MESSAGE_LIMIT)?;
    Ok(Said::Answer {
        input,
        answer: Bytes::copy(alloc, answer)?,
    })
}

/// A message of this many bytes.
#[tactic(auto, unfolding(mb_model::specs::records::ChainFormat::asked_format))]
fn message_at(alloc: Global, cursor: &mut Cursor<'_>, size: u8) -> Result<Said, ChainEnd>
    ensures { Reads end_at (asked_format size) cursor.old result cursor.new }
{
    let message = cursor.take_slice(size as u32)?;
    Ok(Said::Message(Bytes::copy(alloc, message)?))
}

/// What a statement says: a message after its length, or an answer after the byte that marks it.
struct SaidField;

#[tactic(auto, unfolding(mb_model::specs::records::ChainFormat::said_format))]
impl Field for SaidField {
    ghost use Rattle.mb_model.specs.records.ChainFormat.{said_format};
    ghost use Rattle.mb_model.proofs.EntryFormatLaws.{said_exact};

    type Value = Said;

    type Needs = Global;

    type End = ChainEnd;

    ghost format = { said_format };

    fn read_at(alloc: Global, cursor: &mut Cursor<'_>) -> Result<Said, ChainEnd> {
        let size = u8_between(cursor, 0, CALL_MARK)?;
        if size == CALL_MARK {
            answer_at(alloc, cursor)
        } else {
            message_at(alloc, cursor, size)
        }
    }

    ghost exact = { said_exact };
}

#[tactic(auto, unfolding(mb_model::specs::records::ChainFormat::said_format, mb_model::specs::records::ChainFormat::answered_format, mb_model::specs::records::ChainFormat::asked_format))]
impl WriteField for SaidField {
    ghost use Rattle.mb_cert.specs.Bounds.{SaidFits};

    ghost Fits = { SaidFits };

    fn put(said: &Said, out: &mut Vec<u8>) -> Result<(), NoMemory> {
        match said {
            Said::Message(message) => put_after_u8(out, message.as_slice()),
            Said::Answer { input, answer } => {
                put_u8(out, CALL_MARK)?;
                put_slice(out, input)?;
                put_after_u8(out, answer.as_slice())
            }
        }
    }
}

/// A statement.
pub(crate) struct StatementField;

#[tactic(auto, unfolding(mb_model::specs::records::ChainFormat::statement_format))]
impl Field for StatementField {
    ghost use Rattle.mb_model.specs.records.ChainFormat.{statement_format};
    ghost use Rattle.mb_model.proofs.EntryFormatLaws.{statement_exact};

    type Value = Statement;

    type Needs = Global;

    type End = ChainEnd;

    ghost format = { statement_format };

    fn read_at(alloc: Global, cursor: &mut Cursor<'_>) -> Result<Statement, ChainEnd> {
        let number = cursor.take_u32()?;
        let said = SaidField::read_at(alloc, cursor)?;
        let signature = cursor.take_array()?;
        Ok(Statement {
            number,
            said,
            signature,
        })
    }

    ghost exact = { statement_exact };
}

#[tactic(auto, unfolding(mb_model::specs::records::ChainFormat::statement_format))]
impl WriteField for StatementField {
    ghost use Rattle.mb_cert.specs.Bounds.{StatementFits};

    ghost Fits = { StatementFits };

    fn put(statement: &Statement, out: &mut Vec<u8>) -> Result<(), NoMemory> {
        put_u32(out, statement.number)?;
        SaidField::put(&statement.said, out)?;
        put_slice(out, &statement.signature)
    }
}

/// The statement that all of the bytes spell, at most 4,194,304 of them.
///
/// Errors: `Bad` with the offset of the first field that lacks bytes or is not allowed, or of the first byte after
/// the last field; and `NoMemory`.
pub fn read_statement(alloc: Global, bytes: &[u8]) -> Result<Statement, ChainEnd>
    requires { length bytes.now ≤ FILE_LIMIT }
    ensures { ReadsWhole end_at statement_format bytes.now result }
{
    read_whole::<StatementField>(alloc, bytes)
}

/// Appends the spelling of the statement, whose message or answer has at most 128 bytes, or leaves `out` as it was. It
/// does not fail if the capacity of `out` holds the spelling.
#[tactic(auto, using(crate::proofs::Sizes::statement_fits))]
pub fn write_statement(statement: &Statement, out: &mut Vec<u8>) -> Result<(), NoMemory>
    requires { statement_format.Allowed statement.now }
    ensures { Writes (statement_format.spelling statement.now) out.old result out.new }
{
    write_field::<StatementField>(statement, out)
}
