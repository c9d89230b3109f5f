//! The forms of the chains among the inputs, and of the line of a statement.

use mb_cert::{ChainEnd, StatementLineEnd, read_chain, read_statement_line};
use mb_console::{Form, Unread};
use mb_model::{Chain, Statement};
use mb_model_commands::Place;
use std::alloc::Global;

/// A chain.
#[derive(Clone, Copy)]
pub struct ChainForm;

impl Form for ChainForm {
    ghost use Rattle.std.specs.Prelude.{[]};
    ghost use Rattle.mb_model.specs.declared.entry.Chain.{Chain};
    ghost use Rattle.mb_model.specs.records.ChainFormat.{chain_format};
    ghost use Rattle.mb_model_commands.specs.Inputs.{chain_input};

    type Value = Chain;

    ghost Meaning = { Chain };

    ghost meaning = { λ chain. chain };

    ghost Is = { λ form. (chain_input []).Is };

    ghost FaultyAt = { λ form. (chain_input []).FaultyAt };

    ghost Keeps = { chain_format.Allowed };

    fn read(self, alloc: Global, bytes: Vec<u8>) -> Result<Chain, Unread> {
        match read_chain(alloc, &bytes) {
            Ok(chain) => Ok(chain),
            Err(ChainEnd::Bad { at }) => Err(Unread::At(Place::At(at))),
            Err(ChainEnd::NoMemory) => Err(Unread::NoMemory),
        }
    }
}

/// Arbitrary bytes, such as those of a chain that is verified later; they may spell none.
#[derive(Clone, Copy)]
pub struct AnyBytes;

impl Form for AnyBytes {
    ghost use Rattle.std.specs.Prelude.{ℕ, ◌≤◌, List, [], length};
    ghost use Rattle.mb_model.specs.declared.limits.TheConstants.{FILE_LIMIT};
    ghost use Rattle.mb_model_commands.specs.Inputs.{chain_bytes_input};

    type Value = Vec<u8>;

    ghost Meaning = { List ℕ };

    ghost meaning = { λ bytes. bytes.items };

    ghost Is = { λ form. (chain_bytes_input []).Is };

    ghost FaultyAt = { λ form. (chain_bytes_input []).FaultyAt };

    ghost Keeps = { λ bytes. length bytes.items ≤ FILE_LIMIT };

    fn read(self, _alloc: Global, bytes: Vec<u8>) -> Result<Vec<u8>, Unread> {
        Ok(bytes)
    }
}

/// The line of a statement.
#[derive(Clone, Copy)]
pub struct StatementLine;

impl Form for StatementLine {
    ghost use Rattle.std.specs.Prelude.{[]};
    ghost use Rattle.mb_model.specs.declared.entry.Statement.{Statement};
    ghost use Rattle.mb_model.specs.records.ChainFormat.{statement_format};
    ghost use Rattle.mb_model_commands.specs.Inputs.{statement_input};

    type Value = Statement;

    ghost Meaning = { Statement };

    ghost meaning = { λ statement. statement };

    ghost Is = { λ form. (statement_input []).Is };

    ghost FaultyAt = { λ form. (statement_input []).FaultyAt };

    ghost Keeps = { statement_format.Allowed };

    fn read(self, alloc: Global, bytes: Vec<u8>) -> Result<Statement, Unread> {
        match read_statement_line(alloc, &bytes) {
            Ok(statement) => Ok(statement),
            Err(StatementLineEnd::BadLine { line }) => Err(Unread::At(Place::Line(line))),
            Err(StatementLineEnd::NoMemory) => Err(Unread::NoMemory),
        }
    }
}
