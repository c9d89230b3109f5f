//! The chain of a device with a statement attached.

ghost use Rattle.std.specs.Prelude.{◌≡◌, take, None};
ghost use Rattle.std.specs.List.{position};
ghost use Rattle.mb_model.specs.chains.Attach.{is_change_above, cut_at, stated_chain};
ghost use Rattle.mb_model.specs.records.ChainFormat.{statement_format, chain_format};

use mb_model::{Chain, Entry, Items, SignedEntry, Statement};

/// The chain, which has no statement, with this one attached. It keeps its first entry, and the entries after it that
/// come before the first change with a configuration number above the statement's. Takes no memory.
pub fn attach(chain: Chain, statement: Statement) -> Chain
    requires { chain.statement ≡ None }
    ensures is { result ≡ stated_chain chain.entries statement }
    ensures allowed { chain_format.Allowed chain → statement_format.Allowed statement → chain_format.Allowed result }
{
    let mut entries = chain.entries.into_vec();
    let count = count_before_cut(&entries, statement.number);
    entries.truncate(count);
    Chain {
        entries: Items::from_vec(entries),
        statement: Some(statement),
    }
}

/// The number of entries that the chain keeps beside a statement of this configuration number.
fn count_before_cut(entries: &[SignedEntry], number: u32) -> usize
    ensures { take result entries.now ≡ cut_at number entries.now }
{
    let Some((_birth, rest)) = entries.split_first() else {
        return 0;
    };
    match first_change_above(number, rest) {
        Some(before) => 1 + before,
        None => entries.len(),
    }
}

/// The index of the first change with a configuration number above this one, if there is one.
fn first_change_above(number: u32, entries: &[SignedEntry]) -> Option<usize>
    ensures { result ≡ position (λ signed. is_change_above number signed.entry) entries.now }
{
    entries
        .iter()
        .position(|signed| is_change_above(number, &signed.entry))
}

/// Whether the entry is a change with a configuration number above this one.
fn is_change_above(number: u32, entry: &Entry) -> bool
    ensures { result ≡ is_change_above number entry.now }
{
    match entry {
        Entry::Change { number: later, .. } => number < *later,
        Entry::Birth { .. } | Entry::NewKey { .. } | Entry::Succession { .. } => false,
    }
}
