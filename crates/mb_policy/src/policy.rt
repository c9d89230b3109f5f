//! The policy, as it is kept.

ghost use Rattle.std.specs.Prelude.{◌≡◌, IfOk};

use mb_model::{Bytes, Items, KeyKind, NoMemory, Trust};
use std::alloc::Global;

/// A relying party's policy, as `read_policy` makes it.
#[derive(Drop)]
pub struct Policy {
    /// What the lines that are not skipped say, in order.
    pub(crate) lines: Items<Line>,
}

/// What a line says.
#[derive(Drop)]
pub enum Line {
    Set(NamedSet),
    Rule(Rule),
}

/// A set of hashes, under its name.
#[derive(Drop)]
pub struct NamedSet {
    pub name: Bytes,
    pub hashes: Items<[u8; 32]>,
}

/// A rule, under its name.
#[derive(Drop)]
pub struct Rule {
    pub name: Bytes,
    /// Whether the rule allows a configuration for which its test is the first that holds.
    pub allows: bool,
    pub test: Test,
}

/// A test of a configuration. A set is given by its index among the lines before the rule.
#[derive(Drop)]
pub enum Test {
    /// `and`: both hold.
    And(Box<Test>, Box<Test>),
    /// `or`: one or both hold.
    Or(Box<Test>, Box<Test>),
    /// `not`: the inner test does not hold.
    Not(Box<Test>),
    /// `owner`: the layer is listed, and the hash of its owner is in the set.
    Owner { layer: u8, set: usize },
    /// `code`: the layer is listed, and the hash of its code is in the set.
    Code { layer: u8, set: usize },
    /// `version`: the layer is listed with code of one of these versions.
    Version { layer: u8, least: u32, most: u32 },
    /// `trust`: the layer is listed, and this is its trust in changes of the lower layer.
    Trust { layer: u8, lower: u8, trust: Trust },
    /// `reliable`: the layer is listed and reliable.
    Reliable { layer: u8 },
    /// `number`: the configuration has one of these numbers.
    Number { least: u32, most: u32 },
    /// `first`: the configuration is the first of the report.
    First,
    /// `last`: the configuration is the last of the report.
    Last,
    /// `kind`: the key is of this kind.
    Kind(KeyKind),
    /// `alive`: the key is alive.
    Alive,
    /// `statement`: the chain has a statement, a message or the answer of a call.
    Statement,
    /// `called`: the chain has the statement of a call.
    Called,
    /// `input`: the statement is one of a call, and the hash of the input is in the set.
    Input { set: usize },
    /// `answer`: the statement is one of a call, and the SHA-256 of the answer is in the set.
    Answer { set: usize },
}

/// The test on the heap.
pub(crate) fn boxed(alloc: Global, test: Test) -> Result<Box<Test>, NoMemory>
    ensures { IfOk result (λ b. b.value ≡ test) }
{
    Ok(Box::new(alloc, test)?)
}
