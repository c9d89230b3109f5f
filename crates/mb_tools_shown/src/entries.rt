//! The lines that tell the entries of a log, the keys that they make, and a statement.

ghost use Rattle.std.specs.Prelude.{◌≡◌, ◌≤◌, ◌++◌, length, flat_map, IfOk, OnOk, string_bytes};
ghost use Rattle.mb_model.specs.declared.limits.TheConstants.{ENTRY_LIMIT};
ghost use Rattle.mb_model.specs.outside.Texts.{line_with_lf};
ghost use Rattle.mb_model.specs.owners.Log.{entries_of, RuledLog};
ghost use Rattle.mb_model.specs.chains.Lines.{text_of};
ghost use Rattle.mb_tools_shown.specs.HistoryShown.{change_word, pair_word, change_line, new_key_line, succession_line};
ghost use Rattle.mb_tools_shown.specs.HistoryShown.{entry_lines, life_line, life_lines, signed_line, signed_lines};

use crate::lines::{put, put_layers};
use mb_model::{ChangeKind, Entry, KeyKind, NoMemory, Pair, Said, SignedEntry, Statement};
use mb_verifier::{kind_word, life_of, life_word};
use mb_words::hex_word;
use std::alloc::Global;

/// Appends the lines of each entry.
pub(crate) fn put_entries(
    alloc: Global,
    log: &[SignedEntry],
    out: &mut Vec<u8>,
) -> Result<(), NoMemory>
    ensures { OnOk result (out.new.items ≡ out.old.items ++ text_of (flat_map entry_lines (entries_of log.now))) }
{
    for signed in log {
        put_entry(alloc, &signed.entry, out)?;
    }
    Ok(())
}

/// Appends the lines of an entry: its own, and after a birth or a change those of the layers that it leaves.
fn put_entry(alloc: Global, entry: &Entry, out: &mut Vec<u8>) -> Result<(), NoMemory>
    ensures { OnOk result (out.new.items ≡ out.old.items ++ text_of (entry_lines entry.now)) }
{
    match entry {
        Entry::Birth { layers, .. } => {
            put("entry 0 birth\n", out)?;
            put_layers(alloc, layers, out)
        }
        Entry::Change {
            position,
            number,
            kind,
            layer,
            cosigned,
            layers,
            kept,
            ..
        } => {
            let line = change_line(alloc, *position, *kind, *layer, *number, *cosigned, *kept)?;
            put(line.as_str(), out)?;
            put_layers(alloc, layers, out)
        }
        Entry::NewKey {
            position,
            key_number,
            layer,
            kind,
            ..
        } => {
            let line = new_key_line(alloc, *position, *key_number, *kind, *layer)?;
            put(line.as_str(), out)
        }
        Entry::Succession { position, .. } => {
            let line = succession_line(alloc, *position)?;
            put(line.as_str(), out)
        }
    }
}

/// The line of a change, with its LF.
fn change_line(
    alloc: Global,
    position: u32,
    kind: ChangeKind,
    layer: u8,
    number: u32,
    cosigned: Pair,
    kept: Pair,
) -> Result<String, NoMemory>
    ensures { IfOk result (λ line. string_bytes line ≡ line_with_lf (change_line position kind layer number cosigned kept)) }
{
    let word = change_word(kind);
    let by = pair_word(cosigned);
    let regions = pair_word(kept);
    Ok(format!(in alloc;
        "entry {position} {word} {layer} configuration {number} countersigned {by} kept {regions}\n"
    )?)
}

/// The line of a new key, with its LF.
fn new_key_line(
    alloc: Global,
    position: u32,
    key_number: u32,
    kind: KeyKind,
    layer: u8,
) -> Result<String, NoMemory>
    ensures { IfOk result (λ line. string_bytes line ≡ line_with_lf (new_key_line position key_number kind layer)) }
{
    let word = kind_word(kind);
    Ok(format!(in alloc; "entry {position} newkey {key_number} {word} layer {layer}\n")?)
}

/// The line of a succession, with its LF.
fn succession_line(alloc: Global, position: u32) -> Result<String, NoMemory>
    ensures { IfOk result (λ line. string_bytes line ≡ line_with_lf (succession_line position)) }
{
    Ok(format!(in alloc; "entry {position} succession\n")?)
}

/// The word for what a change does to its layer.
fn change_word(kind: ChangeKind) -> &'static str
    ensures { result.now ≡ change_word kind }
{
    match kind {
        ChangeKind::Establish => "establish",
        ChangeKind::Surrender => "surrender",
        ChangeKind::Load => "load",
        ChangeKind::Emergency => "emergency",
    }
}

/// The word for a set of layers: their numbers, or a dash for none.
fn pair_word(pair: Pair) -> &'static str
    ensures { result.now ≡ pair_word pair }
{
    match (pair.two, pair.three) {
        (true, true) => "2,3",
        (true, false) => "2",
        (false, true) => "3",
        (false, false) => "-",
    }
}

/// Appends a line for each key that the log makes in a region.
pub(crate) fn put_lives(
    alloc: Global,
    log: &[SignedEntry],
    out: &mut Vec<u8>,
) -> Result<(), NoMemory>
    requires short { length log.now ≤ ENTRY_LIMIT }
    requires ruled { RuledLog (entries_of log.now) }
    ensures { OnOk result (out.new.items ≡ out.old.items ++ text_of (flat_map (life_lines (entries_of log.now)) (entries_of log.now))) }
{
    for signed in log {
        if let Entry::NewKey {
            key_number,
            layer,
            kind,
            ..
        } = &signed.entry
        {
            let life = life_of(alloc, log, *key_number)?;
            let line = life_line(alloc, *key_number, *kind, *layer, life.alive)?;
            put(line.as_str(), out)?;
        }
    }
    Ok(())
}

/// The line of a region's key, with its LF.
fn life_line(
    alloc: Global,
    key_number: u32,
    kind: KeyKind,
    layer: u8,
    alive: bool,
) -> Result<String, NoMemory>
    ensures { IfOk result (λ line. string_bytes line ≡ line_with_lf (life_line key_number kind layer alive)) }
{
    let word = kind_word(kind);
    let life = life_word(alive);
    Ok(format!(in alloc; "key {key_number} {word} layer {layer} {life}\n")?)
}

/// Appends the line of a statement that this key signed, if there is one.
pub(crate) fn put_signed(
    alloc: Global,
    statement: &Option<Statement>,
    signer: Option<u32>,
    out: &mut Vec<u8>,
) -> Result<(), NoMemory>
    ensures { OnOk result (out.new.items ≡ out.old.items ++ text_of (signed_lines statement.now signer)) }
{
    match (statement, signer) {
        (Some(statement), Some(signer)) => {
            let line = signed_line(alloc, signer, statement)?;
            put(line.as_str(), out)
        }
        _ => Ok(()),
    }
}

/// The line of a statement that this key signed, with its LF.
fn signed_line(alloc: Global, signer: u32, statement: &Statement) -> Result<String, NoMemory>
    ensures { IfOk result (λ line. string_bytes line ≡ line_with_lf (signed_line signer statement.now)) }
{
    let number = statement.number;
    match &statement.said {
        Said::Message(message) => {
            let message = hex_word(alloc, message.as_slice())?;
            Ok(format!(in alloc; "statement {signer} {number} {message}\n")?)
        }
        Said::Answer { input, answer } => {
            let input = hex_word(alloc, input)?;
            let answer = hex_word(alloc, answer.as_slice())?;
            Ok(format!(in alloc; "called {signer} {number} {input} {answer}\n")?)
        }
    }
}
