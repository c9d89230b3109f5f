//! The listing of a report.

ghost use Rattle.std.specs.Prelude.{◌≡◌, [], ◌++◌, IfOk, OnOk, flat_map};
ghost use Rattle.std.specs.String.{string_bytes};
ghost use Rattle.mb_model.specs.outside.Texts.{line_with_lf};
ghost use Rattle.mb_model.specs.chains.Lines.{spaced_words, text_of};
ghost use Rattle.mb_model.specs.chains.Drafts.{kind_word, trust_word};
ghost use Rattle.mb_model.specs.chains.Listing.{trust_words, life_word, reliable_word, owner_word, code_words, layer_line, configuration_lines, said_words, statement_lines, listing};
ghost use Rattle.mb_verifier.specs.Lines.{key_line, line_upto};

use mb_lms::key_hash;
use mb_model::{
    CodeName, Configuration, KeyKind, Layer, NoMemory, PublicKey, Report, Said, Trust, Trusts,
};
use mb_words::hex_word;
use std::alloc::Global;

/// The listing of the report on the key with the number `key`: the line of the key, the lines of each configuration in
/// which it lived, and the line of the statement, if the chain has one. Each ends with an LF.
pub fn write_listing(alloc: Global, key: u32, report: &Report) -> Result<Vec<u8>, NoMemory>
    ensures { IfOk result (λ text. text.items ≡ text_of (listing key report.now)) }
{
    let mut out = key_line(alloc, key, report)?.into_bytes();
    put_lives(alloc, report.lives.as_slice(), &mut out)?;
    put_statement(alloc, &report.said, &mut out)?;
    Ok(out)
}

/// The line of the key, with its LF.
fn key_line(alloc: Global, key: u32, report: &Report) -> Result<String, NoMemory>
    ensures { IfOk result (λ line. string_bytes line ≡ line_with_lf (key_line key report.now)) }
{
    let kind = kind_word(report.kind);
    let layer = report.layer;
    let life = life_word(report.alive);
    Ok(format!(in alloc; "key {key} {kind} layer {layer} {life}\n")?)
}

/// Appends the lines of each configuration.
fn put_lives(alloc: Global, lives: &[Configuration], out: &mut Vec<u8>) -> Result<(), NoMemory>
    ensures { OnOk result (out.new.items ≡ out.old.items ++ text_of (flat_map configuration_lines lives.now)) }
{
    for item in lives {
        put_configuration(alloc, item, out)?;
    }
    Ok(())
}

/// Appends the line of a configuration, and the lines of its layers.
fn put_configuration(alloc: Global, item: &Configuration, out: &mut Vec<u8>) -> Result<(), NoMemory>
    ensures { OnOk result (out.new.items ≡ out.old.items ++ text_of (configuration_lines item.now)) }
{
    let number = item.number;
    let line = format!(in alloc; "configuration {number}\n")?;
    out.extend_from_slice(line.as_bytes())?;
    put_layer(alloc, item.upto, 1, &item.layers.one, out)?;
    put_layer(alloc, item.upto, 2, &item.layers.two, out)?;
    put_layer(alloc, item.upto, 3, &item.layers.three, out)
}

/// Appends the line of layer `number`, if that is at most `last`.
fn put_layer(
    alloc: Global,
    last: u8,
    number: u8,
    layer: &Layer,
    out: &mut Vec<u8>,
) -> Result<(), NoMemory>
    ensures { OnOk result (out.new.items ≡ out.old.items ++ text_of (line_upto last number layer.now)) }
{
    if number <= last {
        let line = layer_line(alloc, number, layer)?;
        out.extend_from_slice(line.as_bytes())?;
    }
    Ok(())
}

/// The line of layer `number`, with its LF.
pub fn layer_line(alloc: Global, number: u8, layer: &Layer) -> Result<String, NoMemory>
    ensures { IfOk result (λ line. string_bytes line ≡ line_with_lf (layer_line number layer.now)) }
{
    let owner = owner_word(alloc, &layer.owner)?;
    let code = code_words(alloc, &layer.code)?;
    let reliable = reliable_word(layer.reliable);
    let trust = trust_words(alloc, layer.trust)?;
    Ok(format!(in alloc; "layer {number} {owner} {code} {reliable} {trust}\n")?)
}

/// Appends the line of a statement that says this, if there is one.
fn put_statement(alloc: Global, said: &Option<Said>, out: &mut Vec<u8>) -> Result<(), NoMemory>
    ensures { OnOk result (out.new.items ≡ out.old.items ++ text_of (statement_lines said.now)) }
{
    if let Some(said) = said {
        let line = statement_line(alloc, said)?;
        out.extend_from_slice(line.as_bytes())?;
    }
    Ok(())
}

/// The line of a statement that says this, with its LF: its message; or the hash of a call's input, and the answer.
fn statement_line(alloc: Global, said: &Said) -> Result<String, NoMemory>
    ensures { IfOk result (λ line. string_bytes line ≡ line_with_lf (spaced_words (said_words said.now))) }
{
    match said {
        Said::Message(message) => {
            let message = hex_word(alloc, message.as_slice())?;
            Ok(format!(in alloc; "statement {message}\n")?)
        }
        Said::Answer { input, answer } => {
            let input = hex_word(alloc, input)?;
            let answer = hex_word(alloc, answer.as_slice())?;
            Ok(format!(in alloc; "called {input} {answer}\n")?)
        }
    }
}

/// The hash of the owner's key, or a dash.
fn owner_word(alloc: Global, owner: &Option<PublicKey>) -> Result<String, NoMemory>
    ensures { IfOk result (λ word. string_bytes word ≡ owner_word owner.now) }
{
    match owner {
        Some(owner) => hex_word(alloc, &key_hash(owner)),
        None => hex_word(alloc, &[]),
    }
}

/// The hash and the version of the code, or two dashes.
fn code_words(alloc: Global, code: &Option<CodeName>) -> Result<String, NoMemory>
    ensures { IfOk result (λ words. string_bytes words ≡ spaced_words (code_words code.now)) }
{
    match code {
        Some(code) => {
            let hash = hex_word(alloc, &code.hash)?;
            let version = code.version;
            Ok(format!(in alloc; "{hash} {version}")?)
        }
        None => Ok(format!(in alloc; "- -")?),
    }
}

/// The word for the kind of a key.
pub fn kind_word(kind: KeyKind) -> &'static str
    ensures { result.now ≡ kind_word kind }
{
    match kind {
        KeyKind::Epoch => "epoch",
        KeyKind::Configuration => "configuration",
    }
}

/// The words for the trusts of a layer: one word if it trusts changes of layer 1 and of layer 2 alike.
pub fn trust_words(alloc: Global, trusts: Trusts) -> Result<String, NoMemory>
    ensures { IfOk result (λ words. string_bytes words ≡ spaced_words (trust_words trusts)) }
{
    let one = trust_word(trusts.one);
    if trusts.are_equal() {
        return Ok(format!(in alloc; "{one}")?);
    }
    let two = trust_word(trusts.two);
    Ok(format!(in alloc; "{one} {two}")?)
}

/// The word for a trust.
fn trust_word(trust: Trust) -> &'static str
    ensures { result.now ≡ trust_word trust }
{
    match trust {
        Trust::Always => "always",
        Trust::Never => "never",
        Trust::Countersigned => "countersigned",
    }
}

/// The word for whether a key is alive.
pub fn life_word(alive: bool) -> &'static str
    ensures { result.now ≡ life_word alive }
{
    if alive { "alive" } else { "ended" }
}

/// The word for whether a layer is reliable.
fn reliable_word(reliable: bool) -> &'static str
    ensures { result.now ≡ reliable_word reliable }
{
    if reliable { "reliable" } else { "unreliable" }
}
