//! Chains, and statements that are attached to them.

ghost use Rattle.std.specs.Prelude.{◌≡◌, IfOk, None};

use super::spelled::{entry_of, joined};
use super::statements::FIRST;
use super::values::{BIRTH, CHANGE, EMERGENCY, KEY_43, NEW_KEY, SUCCESSION};
use super::vectors;
use mb_cert::{Chain, Statement, attach, certifies, leaf_number, read_chain, write_chain};
use mb_layout::entry_bytes;
use mb_model::{Bytes, Entry, Items, Said, SignedEntry};
use std::alloc::Global;
use std::process::Abort;
use std::test::Fail;

/// A birth and a new key, signed with bytes 0x61 and 0x62, and a statement.
const CHAIN: &[(&str, usize)] = &[
    ("4d4243310002", 1),
    (vectors::BIRTH, 1),
    ("61", 2_348),
    (vectors::NEW_KEY, 1),
    ("62", 2_348),
    ("01", 1),
    FIRST,
    ("63", 2_348),
];

#[test]
fn a_chain_goes_both_ways(rt: HostRuntime) -> Result<(), Fail> {
    let alloc = rt.alloc();
    let bytes = joined(alloc, CHAIN)?;
    let chain = read_chain(alloc, &bytes)?;
    assert!(rt; bytes.len() == 7_303 && has_statement(&chain, 2));
    let mut out = Vec::with_capacity(alloc, 7_303)?;
    write_chain(&chain, &mut out)?;
    assert!(rt; out.as_slice() == bytes.as_slice());
    Ok(())
}

/// Whether the chain has `count` entries and a statement.
fn has_statement(chain: &Chain, count: usize) -> bool {
    chain.entries.as_slice().len() == count && chain.statement.is_some()
}

/// A chain of these entries, without a statement.
fn chain_of(alloc: Global, log: &[Entry]) -> Result<Chain, Fail>
    ensures { IfOk result (λ chain. chain.statement ≡ None) }
{
    let mut entries = Items::new(alloc);
    for entry in log {
        entries.push(SignedEntry {
            entry: *entry,
            signature: [0x61; 2348],
        })?;
    }
    Ok(Chain {
        entries,
        statement: None,
    })
}

/// Attaching a statement of configuration `number` to a chain of the log leaves `count` entries beside it.
fn keeps(
    rt: &impl Abort,
    alloc: Global,
    log: &[Entry],
    number: u32,
    count: usize,
) -> Result<(), Fail> {
    let statement = Statement {
        number,
        said: Said::Message(Bytes::copy(alloc, b"hello")?),
        signature: [0x63; 2348],
    };
    let chain = attach(chain_of(alloc, log)?, statement);
    assert!(rt; has_statement(&chain, count));
    Ok(())
}

/// A log in which the configuration numbers 4 and 5 begin with the third entry and the fifth.
const LOG: &[Entry] = &[BIRTH, NEW_KEY, CHANGE, SUCCESSION, EMERGENCY, NEW_KEY];

/// Logs, the configuration number of a statement, and how many of the entries stand beside it.
const ATTACHED: &[(&[Entry], u32, usize)] = &[
    (LOG, 3, 2),
    (LOG, 4, 4),
    (LOG, 5, 6),
    (&[EMERGENCY, EMERGENCY], 0, 1),
];

#[test]
fn a_statement_is_attached(rt: HostRuntime) -> Result<(), Fail> {
    for (log, number, count) in ATTACHED {
        keeps(&rt, rt.alloc(), log, *number, *count)?;
    }
    Ok(())
}

#[test]
fn no_key_signed_an_entry_whose_signature_is_none(rt: HostRuntime) -> Result<(), Fail> {
    let signed = SignedEntry {
        entry: entry_of(rt.alloc(), vectors::BIRTH)?,
        signature: [0x61; 2348],
    };
    assert!(rt; leaf_number(&signed.signature) == 0x6161_6161);
    let spelling = entry_bytes(rt.alloc(), &signed.entry)?;
    assert!(rt; !certifies(&KEY_43, &signed, spelling.as_slice()));
    Ok(())
}
