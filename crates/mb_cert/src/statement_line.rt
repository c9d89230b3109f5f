//! The line of a statement, as it is handed on.

ghost use Rattle.std.specs.Prelude.{◌∷◌, [], IfOk};
ghost use Rattle.mb_format.specs.Format.{Spells};
ghost use Rattle.mb_model.specs.records.ChainFormat.{statement_format};
ghost use Rattle.mb_model.specs.chains.OrderLines.{IsStatementLine};
ghost use Rattle.mb_words.specs.Words.{Finds, ReadsTextOf};

use crate::end::ChainEnd;
use crate::statement::read_statement;
use mb_model::{STATEMENT_LIMIT, Statement};
use mb_words::{NotSaid, TextEnd, read_hex, split_line};
use std::alloc::Global;

/// Why the line of a statement was not read: line 1 is not that of a statement, or is not there, or line 2 follows it;
/// or an allocation failed.
pub type StatementLineEnd = TextEnd;

/// The statement of the text, whose one line is its bytes in hexadecimal. The line may lack its LF.
///
/// Errors: `BadLine` with 1 if there is no line or the first is not that of a statement, and with 2 if another line
/// follows that of a statement, even an empty one; and `NoMemory`.
pub fn read_statement_line(alloc: Global, text: &[u8]) -> Result<Statement, StatementLineEnd>
    ensures read { ReadsTextOf IsStatementLine text.now result }
    ensures spelled { IfOk result (λ statement. statement_format.Allowed statement) }
{
    if text.is_empty() {
        return Err(StatementLineEnd::BadLine { line: 1 });
    }
    let (line, rest) = split_line(text);
    match statement_in(alloc, line) {
        Ok(statement) => {
            if rest.is_empty() {
                Ok(statement)
            } else {
                Err(StatementLineEnd::BadLine { line: 2 })
            }
        }
        Err(NotSaid::Form) => Err(StatementLineEnd::BadLine { line: 1 }),
        Err(NotSaid::NoMemory) => Err(StatementLineEnd::NoMemory),
    }
}

/// The statement that the line spells in hexadecimal.
fn statement_in(alloc: Global, line: &[u8]) -> Result<Statement, NotSaid>
    ensures { Finds (IsStatementLine (line.now ∷ [])) result }
{
    let bytes = read_hex(alloc, line)?;
    statement_of(alloc, bytes.as_slice())
}

/// The statement that the bytes spell.
fn statement_of(alloc: Global, bytes: &[u8]) -> Result<Statement, NotSaid>
    ensures { Finds (Spells statement_format bytes.now) result }
{
    if bytes.len() > STATEMENT_LIMIT {
        return Err(NotSaid::Form);
    }
    match read_statement(alloc, bytes) {
        Ok(statement) => Ok(statement),
        Err(ChainEnd::Bad { .. }) => Err(NotSaid::Form),
        Err(ChainEnd::NoMemory) => Err(NotSaid::NoMemory),
    }
}
