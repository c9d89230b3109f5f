//! The lines of a policy, and its whole text.

ghost use Rattle.std.specs.Prelude.{◌≡◌, ◌↔◌, ◌≤◌, ◌∷◌, codes, length, IsTrue};
ghost use Rattle.std.specs.List.{list_any};
ghost use Rattle.mb_model.specs.declared.limits.TheConstants.{FILE_LIMIT};
ghost use Rattle.mb_model.specs.chains.Script.{IsName};
ghost use Rattle.mb_words.specs.Words.{ReadsTextAs};
ghost use Rattle.mb_policy.specs.Policies.{IsPolicy};
ghost use Rattle.mb_policy.specs.Meanings.{items_of, line_has_rule, FindsHashes};
ghost use Rattle.mb_policy.specs.Meanings.{policy_items, ReadsLine, ReadsSet, ReadsRule, ReadsTest};
ghost use Rattle.mb_policy.specs.Meanings.{EndsTest, MakesSet, MakesRule};

use crate::keyword::{Verb, find_verb};
use crate::limits::{DEPTH_LIMIT, HASH_LIMIT, LINE_LIMIT};
use crate::operands::find_set;
use crate::policy::{Line, NamedSet, Policy, Rule, Test};
use crate::reading::read_test;
use crate::words::Words;
use mb_model::{Bytes, Items, NAME_LIMIT};
use mb_words::{NotSaid, TextEnd, is_skipped, read_array, split_line};
use std::alloc::Global;

/// Why a policy was not read: a line is not in the grammar, repeats a name, names a set that does not stand before it,
/// or is the 257th that is not skipped; or an allocation failed.
pub type PolicyEnd = TextEnd;

/// The policy of a text. A line ends with LF, which the last may lack; empty lines and lines that begin with `#` are
/// skipped. The text has at most 4,194,304 bytes.
///
/// Errors: `BadLine` with the first line that is wrong, and `NoMemory`. No clause says when the latter comes; the tests
/// read with ample memory.
pub fn read_policy(alloc: Global, text: &[u8]) -> Result<Policy, PolicyEnd>
    requires { length text.now ≤ FILE_LIMIT }
    ensures { ReadsTextAs policy_items IsPolicy text.now result }
{
    let mut lines = Items::new(alloc);
    let mut number: u32 = 0;
    let mut rest = text;
    while !rest.is_empty() {
        let (line, remaining) = split_line(rest);
        number += 1;
        rest = remaining;
        if is_skipped(line) {
            continue;
        }
        let is_full = lines.as_slice().len() == LINE_LIMIT;
        if is_full {
            return Err(PolicyEnd::BadLine { line: number });
        }
        match read_line(alloc, line, lines.as_slice()) {
            Ok(line) => lines.push(line)?,
            Err(NotSaid::Form) => return Err(PolicyEnd::BadLine { line: number }),
            Err(NotSaid::NoMemory) => return Err(PolicyEnd::NoMemory),
        }
    }
    Ok(Policy { lines })
}

/// What a line says after the lines before it.
fn read_line(alloc: Global, line: &[u8], before: &[Line]) -> Result<Line, NotSaid>
    ensures { ReadsLine (items_of before.now) line.now result }
{
    let mut words = Words::of(line);
    let Some(word) = words.take() else {
        return Err(NotSaid::Form);
    };
    match find_verb(word) {
        Some(Verb::Set) => match read_set(alloc, &mut words, before) {
            Ok(set) => Ok(Line::Set(set)),
            Err(why) => Err(why),
        },
        Some(Verb::Allow) => match read_rule(alloc, true, &mut words, before) {
            Ok(rule) => Ok(Line::Rule(rule)),
            Err(why) => Err(why),
        },
        Some(Verb::Deny) => match read_rule(alloc, false, &mut words, before) {
            Ok(rule) => Ok(Line::Rule(rule)),
            Err(why) => Err(why),
        },
        None => Err(NotSaid::Form),
    }
}

/// The set that the words after `set` say.
fn read_set(alloc: Global, words: &mut Words<'_>, before: &[Line]) -> Result<NamedSet, NotSaid>
    ensures { ReadsSet (items_of before.now) (codes "set" ∷ words.old) result }
{
    let Some(name) = words.take() else {
        return Err(NotSaid::Form);
    };
    if !is_name(name) {
        return Err(NotSaid::Form);
    }
    if find_set(before, name).is_some() {
        return Err(NotSaid::Form);
    }
    match read_hashes(alloc, words) {
        Ok(hashes) => make_set(alloc, name, hashes),
        Err(why) => Err(why),
    }
}

/// The set of this name with these hashes.
fn make_set(alloc: Global, name: &[u8], hashes: Items<[u8; 32]>) -> Result<NamedSet, NotSaid>
    ensures { MakesSet name.now hashes result }
{
    let name = Bytes::copy(alloc, name)?;
    Ok(NamedSet { name, hashes })
}

/// The hashes that all the words say, 1 to 64.
fn read_hashes(alloc: Global, words: &mut Words<'_>) -> Result<Items<[u8; 32]>, NotSaid>
    ensures { FindsHashes words.old result }
{
    let mut hashes = Items::new(alloc);
    while let Some(word) = words.take() {
        let is_full = hashes.as_slice().len() == HASH_LIMIT;
        if is_full {
            return Err(NotSaid::Form);
        }
        match read_array::<32>(word) {
            Some(hash) => hashes.push(hash)?,
            None => return Err(NotSaid::Form),
        }
    }
    if hashes.as_slice().is_empty() {
        return Err(NotSaid::Form);
    }
    Ok(hashes)
}

/// The rule that the words after `allow` or `deny` say.
fn read_rule(
    alloc: Global,
    allows: bool,
    words: &mut Words<'_>,
    before: &[Line],
) -> Result<Rule, NotSaid>
    ensures { ReadsRule allows (items_of before.now) words.old result }
{
    let Some(name) = words.take() else {
        return Err(NotSaid::Form);
    };
    if !is_name(name) {
        return Err(NotSaid::Form);
    }
    if name == b"default".as_slice() {
        return Err(NotSaid::Form);
    }
    if has_rule(before, name) {
        return Err(NotSaid::Form);
    }
    match read_whole_test(alloc, words, before) {
        Ok(test) => make_rule(alloc, name, allows, test),
        Err(why) => Err(why),
    }
}

/// The rule of this name with this test.
fn make_rule(alloc: Global, name: &[u8], allows: bool, test: Test) -> Result<Rule, NotSaid>
    ensures { MakesRule name.now allows test result }
{
    let name = Bytes::copy(alloc, name)?;
    Ok(Rule { name, allows, test })
}

/// The test that all the words say.
fn read_whole_test(alloc: Global, words: &mut Words<'_>, before: &[Line]) -> Result<Test, NotSaid>
    ensures { ReadsTest (items_of before.now) words.old result }
{
    match read_test(alloc, words, DEPTH_LIMIT, before) {
        Ok(test) => end_test(test, words),
        Err(why) => Err(why),
    }
}

/// The test, if no word is left after it.
fn end_test(test: Test, words: &Words<'_>) -> Result<Test, NotSaid>
    ensures { EndsTest words.now test result }
{
    if words.are_over() {
        Ok(test)
    } else {
        Err(NotSaid::Form)
    }
}

/// Whether a line before is the rule with this name.
fn has_rule(before: &[Line], name: &[u8]) -> bool
    ensures { result ≡ list_any (line_has_rule name.now) before.now }
{
    before.iter().any(|line| is_rule_named(line, name))
}

/// Whether the line says the rule with this name.
fn is_rule_named(line: &Line, name: &[u8]) -> bool
    ensures { result ≡ line_has_rule name.now line.now }
{
    match line {
        Line::Set(_) => false,
        Line::Rule(rule) => rule.name.as_slice() == name,
    }
}

/// Whether the word may be the name of a set or of a rule: the form of a secret's name.
fn is_name(word: &[u8]) -> bool
    ensures { IsTrue result ↔ IsName word.now }
{
    !word.is_empty()
        && word.len() <= NAME_LIMIT as usize
        && word.iter().all(|byte| 0x21 <= *byte && *byte <= 0x7E)
}
