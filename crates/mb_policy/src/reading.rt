//! The test of a rule, read from its words.

ghost use Rattle.mb_policy.specs.Meanings.{ReadsFirst, MakesPair, MakesOpposite};

use crate::keyword::{Keyword, Pairing, find_keyword};
use crate::operands::read_leaf;
use crate::policy::{Line, Test, boxed};
use crate::words::Words;
use mb_words::NotSaid;
use std::alloc::Global;

/// The test at the front of the words, nested at most to this depth. The sets are among the lines before.
pub(crate) fn read_test(
    alloc: Global,
    words: &mut Words<'_>,
    depth: u32,
    before: &[Line],
) -> Result<Test, NotSaid>
    ensures { ReadsFirst before.now depth words.old result words.new }
{
    if depth == 0 {
        return Err(NotSaid::Form);
    }
    let Some(word) = words.take() else {
        return Err(NotSaid::Form);
    };
    match find_keyword(word) {
        Some(Keyword::Pair(pairing)) => match read_test(alloc, words, depth - 1, before) {
            Ok(first) => match read_test(alloc, words, depth - 1, before) {
                Ok(second) => join(alloc, pairing, first, second),
                Err(why) => Err(why),
            },
            Err(why) => Err(why),
        },
        Some(Keyword::Not) => match read_test(alloc, words, depth - 1, before) {
            Ok(test) => negate(alloc, test),
            Err(why) => Err(why),
        },
        Some(Keyword::Leaf(leaf)) => read_leaf(leaf, words, before).ok_or(NotSaid::Form),
        None => Err(NotSaid::Form),
    }
}

/// The test that joins two others.
fn join(alloc: Global, pairing: Pairing, first: Test, second: Test) -> Result<Test, NotSaid>
    ensures { MakesPair pairing first second result }
{
    let first = boxed(alloc, first)?;
    let second = boxed(alloc, second)?;
    match pairing {
        Pairing::And => Ok(Test::And(first, second)),
        Pairing::Or => Ok(Test::Or(first, second)),
    }
}

/// The opposite of a test.
fn negate(alloc: Global, test: Test) -> Result<Test, NotSaid>
    ensures { MakesOpposite test result }
{
    let test = boxed(alloc, test)?;
    Ok(Test::Not(test))
}
