//! The lines of a text, and the text after them, each with a table of the labels that it gives. The text after the first
//! line that says nothing is read on for its labels alone, since a jump of a line before it may name one.

ghost use Rattle.std.specs.Prelude.{◌≡◌, ◌↔◌, ◌<◌, ◌==◌, length, IsTrue, Some, MatchOption, IfOk};
ghost use Rattle.std.specs.List.{list_any, position_from};
ghost use Rattle.mb_appvm.specs.Assembly.{is_label};
ghost use Rattle.mb_appvm.specs.Checking.{TextGives};

use crate::lines::Said;
use crate::table::Labels;
use mb_model::NoMemory;
use std::alloc::Global;
use std::marker::Model;

/// The lines at the front of a text, which contracts see as what they say.
#[derive(Drop)]
pub(crate) struct Lines<'a> {
    said: Vec<Said<'a>>,
    labels: Labels<'a>,
}

impl<'a> Model for Lines<'a> {
    ghost use Rattle.std.specs.Prelude.{List};
    ghost use Rattle.mb_appvm.specs.declared.lines.Said.{Said};
    ghost use Rattle.mb_appvm.specs.Labels.{AreOfLines};

    ghost Value = { List Said };

    ghost view = { λ lines. lines.said.items };

    ghost invariant = { λ lines. AreOfLines lines.said.items lines.labels };
}

impl<'a> Lines<'a> {
    /// The lines, with the labels that they give.
    pub(crate) fn of(alloc: Global, said: Vec<Said<'a>>) -> Result<Lines<'a>, NoMemory>
        ensures { IfOk result (λ lines. lines ≡ said.entry.items) }
    {
        let labels = Labels::of_lines(alloc, said.as_slice())?;
        Ok(Lines { said, labels })
    }

    /// What the lines say.
    pub(crate) fn as_slice(&self) -> &[Said<'a>]
        ensures { result.now ≡ self.now }
    {
        self.said.as_slice()
    }

    /// The number, from 0, of the first line that gives the label; `None` if none does.
    pub(crate) fn line_of(&self, name: &[u8]) -> Option<usize>
        ensures first { result ≡ position_from (is_label name.now) 0 self.now }
        ensures within { MatchOption result (Unit {0}) (λ line. line < length self.now) }
    {
        self.labels.line_of(name)
    }

    /// Whether the line with this number, from 0, is the first that gives the label.
    pub(crate) fn is_first(&self, name: &[u8], at: usize) -> bool
        ensures { IsTrue result ↔ (position_from (is_label name.now) 0 self.now ≡ Some at) }
    {
        match self.line_of(name) {
            Some(first) => first == at,
            None => false,
        }
    }

    /// Whether one of the lines gives the label.
    pub(crate) fn gives(&self, name: &[u8]) -> bool
        ensures { result ≡ list_any (is_label name.now) self.now }
    {
        self.line_of(name).is_some()
    }
}

/// The text after lines that were read, which contracts see as its bytes.
#[derive(Drop)]
pub(crate) struct Later<'a> {
    text: &'a [u8],
    labels: Labels<'a>,
}

impl<'a> Model for Later<'a> {
    ghost use Rattle.std.specs.Prelude.{List, ℕ};
    ghost use Rattle.mb_appvm.specs.Labels.{AreOfText};

    ghost Value = { List ℕ };

    ghost view = { λ later. later.text.now };

    ghost invariant = { λ later. AreOfText later.text.now later.labels };
}

impl<'a> Later<'a> {
    /// The text, with the labels that its lines give.
    pub(crate) fn of(alloc: Global, text: &'a [u8]) -> Result<Later<'a>, NoMemory>
        ensures { IfOk result (λ later. later ≡ text.now) }
    {
        let labels = Labels::of_text(alloc, text)?;
        Ok(Later { text, labels })
    }

    /// Whether the text has no lines.
    pub(crate) fn is_empty(&self) -> bool
        ensures { result ≡ (length self.now == 0) }
    {
        self.text.is_empty()
    }

    /// Whether a line of the text gives the label.
    pub(crate) fn gives(&self, name: &[u8]) -> bool
        ensures { IsTrue result ↔ TextGives self.now name.now }
    {
        self.labels.line_of(name).is_some()
    }
}
