//! The first words of lines.

ghost use Rattle.std.specs.Prelude.{◌≡◌};
ghost use Rattle.mb_words.specs.Words.{FindsSome};
ghost use Rattle.mb_appvm.specs.Assembly.{keyword_word};

use mb_model::{Operation, Plain};

/// A kind of jump.
#[derive(Clone, Copy, Debug, PartialEq, Eq)]
pub enum Jump {
    /// `jump`
    Always,
    /// `jumpzero`
    IfZero,
    /// `call`
    Calling,
}

/// The first word of a line: `label`, or the name of an instruction.
#[derive(Clone, Copy, Debug, PartialEq, Eq)]
pub enum Keyword {
    Plain(Plain),
    Push,
    Jump(Jump),
    Get,
    Label,
}

/// The keyword that a word is.
pub(crate) fn find_keyword(word: &[u8]) -> Option<Keyword>
    ensures { FindsSome (λ key. word.now ≡ keyword_word key) result }
{
    match word {
        b"push" => Some(Keyword::Push),
        b"jump" => Some(Keyword::Jump(Jump::Always)),
        b"jumpzero" => Some(Keyword::Jump(Jump::IfZero)),
        b"call" => Some(Keyword::Jump(Jump::Calling)),
        b"get" => Some(Keyword::Get),
        b"label" => Some(Keyword::Label),
        b"halt" => Some(Keyword::Plain(Plain::Halt)),
        b"pop" => Some(Keyword::Plain(Plain::Pop)),
        b"dup" => Some(Keyword::Plain(Plain::Dup)),
        b"swap" => Some(Keyword::Plain(Plain::Swap)),
        b"over" => Some(Keyword::Plain(Plain::Over)),
        b"return" => Some(Keyword::Plain(Plain::Return)),
        b"load" => Some(Keyword::Plain(Plain::Load)),
        b"store" => Some(Keyword::Plain(Plain::Store)),
        b"input" => Some(Keyword::Plain(Plain::Input)),
        b"length" => Some(Keyword::Plain(Plain::Length)),
        b"emit" => Some(Keyword::Plain(Plain::Emit)),
        b"add" => Some(Keyword::Plain(Plain::Compute(Operation::Add))),
        b"sub" => Some(Keyword::Plain(Plain::Compute(Operation::Sub))),
        b"mul" => Some(Keyword::Plain(Plain::Compute(Operation::Mul))),
        b"div" => Some(Keyword::Plain(Plain::Compute(Operation::Div))),
        b"rem" => Some(Keyword::Plain(Plain::Compute(Operation::Rem))),
        b"and" => Some(Keyword::Plain(Plain::Compute(Operation::And))),
        b"or" => Some(Keyword::Plain(Plain::Compute(Operation::Or))),
        b"xor" => Some(Keyword::Plain(Plain::Compute(Operation::Xor))),
        b"equal" => Some(Keyword::Plain(Plain::Compute(Operation::Equal))),
        b"less" => Some(Keyword::Plain(Plain::Compute(Operation::Less))),
        _ => None,
    }
}
