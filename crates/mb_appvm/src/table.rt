//! A table of labels, so that no question walks over the lines of a text. It is a map, and no list that is sorted once: a
//! sort by the label alone would lose which of two lines with one label is the first.

ghost use Rattle.std.specs.Prelude.{◌≡◌, ℕ, List, None, IfOk, OnOk};
ghost use Rattle.mb_appvm.specs.Labels.{line_at, IsAdded, AreOfLines, AreOfText, HasMore};
ghost use Rattle.mb_appvm.specs.declared.lines.Said.TheVariants as says;

use crate::lines::{Said, read_line};
use mb_model::NoMemory;
use mb_words::split_line;
use std::alloc::Global;
use std::collections::BTreeMap;

/// Labels, each with the number, from 0, of a line that gives it.
#[derive(Drop)]
pub(crate) struct Labels<'a> {
    lines: BTreeMap<&'a [u8], usize>,
}

impl<'a> Labels<'a> {
    /// The table of no labels.
    fn new(alloc: Global) -> Labels<'a>
        ensures { (name : List ℕ) → line_at result name ≡ None }
    {
        Labels {
            lines: BTreeMap::new(alloc),
        }
    }

    /// The labels that lines give, each with the first line that gives it.
    pub(crate) fn of_lines(alloc: Global, said: &[Said<'a>]) -> Result<Labels<'a>, NoMemory>
        ensures { IfOk result (AreOfLines said.now) }
    {
        let mut labels = Labels::new(alloc);
        for at in 0..said.len() {
            labels.add_line(&said[at], at)?;
        }
        Ok(labels)
    }

    /// The labels that the lines of a text give. The numbers of the lines are not kept.
    pub(crate) fn of_text(alloc: Global, text: &'a [u8]) -> Result<Labels<'a>, NoMemory>
        ensures { IfOk result (AreOfText text.now) }
    {
        let mut labels = Labels::new(alloc);
        let mut rest = text;
        while !rest.is_empty() {
            let (line, later) = split_line(rest);
            labels.add_text(line)?;
            rest = later;
        }
        Ok(labels)
    }

    /// The number of the line of a label; `None` if the table lacks the label.
    pub(crate) fn line_of(&self, name: &[u8]) -> Option<usize>
        ensures { result ≡ line_at self.now name.now }
    {
        self.lines.get(name).copied()
    }

    /// Adds what the bytes of a line give, if they are the line of a label.
    fn add_text(&mut self, line: &'a [u8]) -> Result<(), NoMemory>
        ensures { OnOk result (HasMore self.old line.now self.new) }
    {
        match read_line(line) {
            Some(said) => self.add_line(&said, 0),
            None => Ok(()),
        }
    }

    /// Adds the label that a line gives, if it gives one that the table lacks.
    fn add_line(&mut self, line: &Said<'a>, at: usize) -> Result<(), NoMemory>
        ensures { OnOk result (IsAdded self.old line.now at self.new) }
    {
        match line {
            Said::Label(name) => self.add(name.as_slice(), at),
            Said::Whole(_) | Said::JumpTo(_, _) => Ok(()),
        }
    }

    /// Adds a label with its line, unless the table has the label.
    fn add(&mut self, name: &'a [u8], at: usize) -> Result<(), NoMemory>
        ensures { OnOk result (IsAdded self.old (says.Label name.now) at self.new) }
    {
        if !self.lines.contains_key(name) {
            self.lines.insert(name, at)?;
        }
        Ok(())
    }
}
