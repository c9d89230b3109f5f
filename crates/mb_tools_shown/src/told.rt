//! What is found of a chain, if no key is asked for, and the text that tells its history.

ghost use Rattle.std.specs.Prelude.{◌≡◌, ◌≤◌, [], ◌++◌, length, unwrap_or, IfErr, IfOk, IfSome, OnOk};
ghost use Rattle.mb_model.specs.declared.limits.TheConstants.{ENTRY_LIMIT, FILE_LIMIT};
ghost use Rattle.mb_model.specs.outside.Texts.{line_with_lf};
ghost use Rattle.mb_model.specs.owners.Log.{entries_of, serial_of, RuledLog};
ghost use Rattle.mb_model.specs.chains.Lines.{text_of};
ghost use Rattle.mb_verifier.specs.Ends.{chain_refusal_of};
ghost use Rattle.mb_tools_shown.specs.HistoryCommand.{has_history, is_untold, IsFinding};
ghost use Rattle.mb_tools_shown.specs.HistoryShown.{history_shown};
ghost use Rattle.mb_tools_shown.specs.StateShown.{serial_shown};

use crate::entries::{put_entries, put_lives, put_signed};
use crate::lines::put;
use crate::state::serial_line;
use mb_log::serial_of;
use mb_model::{Chain, NoMemory, PublicKey, SignedEntry};
use mb_verifier::{ChainRefusal, signer_of, verify_entries};
use std::alloc::Global;

/// A chain whose entries are good, and the number of the key that signed its statement, if it has one.
#[derive(Drop)]
pub(crate) struct Told {
    pub chain: Chain,
    pub signer: Option<u32>,
}

/// The chain of these bytes, if its entries are good under the maker's key, and its statement is current for the key
/// that signed it.
pub(crate) fn find_history(
    alloc: Global,
    root: &PublicKey,
    bytes: &[u8],
) -> Result<Told, ChainRefusal>
    requires { length bytes.now ≤ FILE_LIMIT }
    ensures found { IfOk result (λ told. IsFinding root.now bytes.now (has_history told.chain told.signer)) }
    ensures refused { IfErr result (λ why. IfSome (chain_refusal_of why) (λ reason. IsFinding root.now bytes.now (is_untold reason))) }
{
    let chain = verify_entries(alloc, root, bytes)?;
    let signer = match &chain.statement {
        Some(statement) => Some(signer_of(alloc, chain.entries.as_slice(), statement)?),
        None => None,
    };
    Ok(Told { chain, signer })
}

/// The lines of a history: the serial, the entries, the keys, and the statement.
pub(crate) fn history_text(alloc: Global, told: &Told) -> Result<Vec<u8>, NoMemory>
    requires short { length told.now.chain.entries ≤ ENTRY_LIMIT }
    requires ruled { RuledLog (entries_of told.now.chain.entries) }
    ensures { IfOk result (λ text. text.items ≡ text_of (history_shown told.now.chain told.now.signer)) }
{
    let log = told.chain.entries.as_slice();
    let mut out = Vec::new(alloc);
    put_serial(alloc, log, &mut out)?;
    put_entries(alloc, log, &mut out)?;
    put_lives(alloc, log, &mut out)?;
    put_signed(alloc, &told.chain.statement, told.signer, &mut out)?;
    Ok(out)
}

/// Appends the line of the serial that a log names; it has a dash if the log names none.
fn put_serial(alloc: Global, log: &[SignedEntry], out: &mut Vec<u8>) -> Result<(), NoMemory>
    ensures { OnOk result (out.new.items ≡ out.old.items ++ line_with_lf (serial_shown (unwrap_or (serial_of (entries_of log.now)) []))) }
{
    let line = match serial_of(log) {
        Some(serial) => serial_line(alloc, &serial)?,
        None => serial_line(alloc, &[])?,
    };
    put(line.as_str(), out)
}
