//! The judgement of a report by a policy.

ghost use Rattle.std.specs.Prelude.{◌≡◌, IfOk};
ghost use Rattle.mb_policy.specs.declared.judging.Judgement.TheVariants as judgement;
ghost use Rattle.mb_policy.specs.Judging.{IsJudged};
ghost use Rattle.mb_policy.specs.Meanings.{policy_items};
ghost use Rattle.mb_policy.specs.Tables.{situation_meant, FindsRule, GivesRuling};
ghost use Rattle.mb_policy.specs.Tables.{test_passes, owner_seen, code_seen, input_seen, answer_seen};

use crate::policy::{Line, Policy, Test};
use crate::situation::Situation;
use crate::tables::{Members, find_hashes, members_of};
use mb_model::{Bytes, Items, NoMemory, Report};
use std::alloc::Global;

/// What a policy comes to for a report.
#[derive(Drop)]
pub enum Judgement {
    /// Each configuration of the report is allowed.
    Allowed,
    /// A configuration is denied, and each before it is allowed.
    Denied {
        /// The number of the configuration.
        number: u32,
        /// The name of the rule that denies it, or `default`.
        rule: Bytes,
    },
}

/// A rule that decides about a configuration: its name, and whether it allows.
#[derive(Clone, Copy)]
pub struct DecidingRule<'a> {
    pub name: &'a [u8],
    pub allows: bool,
}

/// The judgement of the report by the policy: for each configuration the first rule whose test holds decides, or
/// `default`, which denies, if there is none.
///
/// Errors: `NoMemory`. No clause says when it comes; the tests judge with ample memory.
pub fn judge_report(alloc: Global, policy: &Policy, report: &Report) -> Result<Judgement, NoMemory>
    ensures { IfOk result (λ judged. IsJudged (policy_items policy.now) report.now judged) }
{
    let lives = report.lives.as_slice();
    for index in 0..lives.len() {
        let configuration = &lives[index];
        let situation = Situation {
            report,
            index,
            configuration,
        };
        let rule = find_rule(alloc, policy.lines.as_slice(), &situation)?;
        if !rule.allows {
            return deny(alloc, configuration.number, rule.name);
        }
    }
    Ok(Judgement::Allowed)
}

/// The judgement that denies the configuration with this number by this rule.
fn deny(alloc: Global, number: u32, rule: &[u8]) -> Result<Judgement, NoMemory>
    ensures { IfOk result (λ judged. judged ≡ judgement.Denied number rule.now) }
{
    let rule = Bytes::copy(alloc, rule)?;
    Ok(Judgement::Denied { number, rule })
}

/// The first rule whose test holds, or `default`, which denies. Owners and codes are looked up in the sets once a
/// configuration, in a table, and not searched or hashed at each test.
fn find_rule<'a>(
    alloc: Global,
    lines: &'a [Line],
    situation: &Situation<'_>,
) -> Result<DecidingRule<'a>, NoMemory>
    ensures { IfOk result (FindsRule lines.now (situation_meant situation.now)) }
{
    let hashes = find_hashes(situation);
    let mut seen = Items::new(alloc);
    for index in 0..lines.len() {
        let line = &lines[index];
        match deciding_rule(line, seen.as_slice(), situation) {
            Some(rule) => return Ok(rule),
            None => seen.push(members_of(line, &hashes))?,
        }
    }
    Ok(DecidingRule {
        name: b"default",
        allows: false,
    })
}

/// The rule of a line, if its test holds; `None` for a set. `seen` has the members of the sets before the line.
fn deciding_rule<'a>(
    line: &'a Line,
    seen: &[Members],
    situation: &Situation<'_>,
) -> Option<DecidingRule<'a>>
    ensures { GivesRuling seen.now (situation_meant situation.now) line.now result }
{
    match line {
        Line::Set(_) => None,
        Line::Rule(rule) => {
            if rule.test.passes(seen, situation) {
                Some(DecidingRule {
                    name: rule.name.as_slice(),
                    allows: rule.allows,
                })
            } else {
                None
            }
        }
    }
}

impl Test {
    /// Whether the test holds. `seen` has the members of the sets before its rule.
    fn passes(&self, seen: &[Members], situation: &Situation<'_>) -> bool
        ensures { result ≡ test_passes seen.now (situation_meant situation.now) self.now }
    {
        match self {
            Test::And(first, second) => {
                first.passes(seen, situation) && second.passes(seen, situation)
            }
            Test::Or(first, second) => {
                first.passes(seen, situation) || second.passes(seen, situation)
            }
            Test::Not(test) => !test.passes(seen, situation),
            Test::Owner { layer, set } => has_owner(seen, *set, *layer),
            Test::Code { layer, set } => has_code(seen, *set, *layer),
            Test::Version { layer, least, most } => situation.has_version(*layer, *least, *most),
            Test::Trust {
                layer,
                lower,
                trust,
            } => situation.has_trust(*layer, *lower, *trust),
            Test::Reliable { layer } => situation.is_reliable(*layer),
            Test::Number { least, most } => situation.has_number(*least, *most),
            Test::First => situation.is_first(),
            Test::Last => situation.is_last(),
            Test::Kind(kind) => situation.is_of_kind(*kind),
            Test::Alive => situation.report.alive,
            Test::Statement => situation.has_statement(),
            Test::Called => situation.has_call(),
            Test::Input { set } => has_input(seen, *set),
            Test::Answer { set } => has_answer(seen, *set),
        }
    }
}

/// Whether the layer's owner is in the set at this index.
fn has_owner(seen: &[Members], set: usize, layer: u8) -> bool
    ensures { result ≡ owner_seen seen.now set layer }
{
    match seen.get(set) {
        Some(members) => members.owners.at(layer),
        None => false,
    }
}

/// Whether the layer's code is in the set at this index.
fn has_code(seen: &[Members], set: usize, layer: u8) -> bool
    ensures { result ≡ code_seen seen.now set layer }
{
    match seen.get(set) {
        Some(members) => members.codes.at(layer),
        None => false,
    }
}

/// Whether the input of the call is in the set at this index.
fn has_input(seen: &[Members], set: usize) -> bool
    ensures { result ≡ input_seen seen.now set }
{
    match seen.get(set) {
        Some(members) => members.input,
        None => false,
    }
}

/// Whether the answer of the call is in the set at this index.
fn has_answer(seen: &[Members], set: usize) -> bool
    ensures { result ≡ answer_seen seen.now set }
{
    match seen.get(set) {
        Some(members) => members.answer,
        None => false,
    }
}
