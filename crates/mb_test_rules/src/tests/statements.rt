//! Chains with statements of messages and of calls. The entries, the keys, the texts that are signed and the listings are
//! another program's, and the signatures are made here.

ghost use Rattle.std.specs.Prelude.{◌≡◌, ◌<◌, ◌≤◌, vec_len, IfOk};

use super::public_key;
use super::versions::{ROOT, put_entry, put_signed, right_at};
use hex::FromHex;
use mb_lms::HashCount;
use mb_model::KeySeed;
use mb_signer::sign;
use mb_verifier::{ChainRefusal, verify, write_listing};
use std::alloc::Global;
use std::marker::Brand;
use std::process::Abort;
use std::sync::ledger::{Blank, Ledger};
use std::test::Fail;

/// The entry that makes key 1 in region 2, after the four of `versions`.
const NEW_KEY: &str = "0200000004000000030000000102000000000500\
    0000038699b2852d3dd54ee330540c6a807a9f4f0b75593e49c141847b7139c4b26d86aade3dc1742354dfa3d7a23bc4169b5c";

/// The identifier and the seed of key 1.
const KEY: (&str, &str) = (
    "8699b2852d3dd54ee330540c6a807a9f",
    "adc463ca61ada2a3b980bf92636af6c12fc5b22648aa0b8861b05954959bfdc5",
);

/// The listing of key 1 before the line of the statement.
const LISTED: &str = "key 1 epoch layer 2 alive\n\
configuration 3\n\
layer 1 a40bf9d678da59a9e050d292356cbcb44ba41a7e2df7a4cc8f77c8f3acf75b0f f191e625176e7514249870c60bc24622131b04927a418001d1969c9cecd260f1 1 reliable always\n\
layer 2 68cd35f6dc5234d9a7e9df889d48ec8302912dee6f7c9fe17efeffa7bf970b63 ba7816bf8f01cfea414140de5dae2223b00361a396177a9cb410ff61f20015ad 1 reliable countersigned\n";

/// Statements before their signature, the text that key 1 signed, and the line of the statement, which is accepted.
const ACCEPTED: &[(&str, &str, &str)] = &[
    // the answer abc to the input `an input`
    (
        "00000003814fddb6e92a8333684779335007eda9426ddd8ea849ce4ab7c8340016d9d9d89a03616263",
        "06c10b471ceff881272aa5ed819fd9a0e000000001000000034fddb6e92a8333684779335007eda9426ddd8ea849ce4ab7c8340016\
         d9d9d89a616263",
        "called 4fddb6e92a8333684779335007eda9426ddd8ea849ce4ab7c8340016d9d9d89a 616263\n",
    ),
    // the empty answer
    (
        "00000003814fddb6e92a8333684779335007eda9426ddd8ea849ce4ab7c8340016d9d9d89a00",
        "06c10b471ceff881272aa5ed819fd9a0e000000001000000034fddb6e92a8333684779335007eda9426ddd8ea849ce4ab7c8340016\
         d9d9d89a",
        "called 4fddb6e92a8333684779335007eda9426ddd8ea849ce4ab7c8340016d9d9d89a -\n",
    ),
    (
        "000000030568656c6c6f",
        "04c10b471ceff881272aa5ed819fd9a0e0000000010000000368656c6c6f",
        "statement 68656c6c6f\n",
    ),
    // the message is what stands after the key number in the text of the call
    (
        "0000000327000000034fddb6e92a8333684779335007eda9426ddd8ea849ce4ab7c8340016d9d9d89a616263",
        "04c10b471ceff881272aa5ed819fd9a0e00000000100000003000000034fddb6e92a8333684779335007eda9426ddd8ea849ce4ab7\
         c8340016d9d9d89a616263",
        "statement 000000034fddb6e92a8333684779335007eda9426ddd8ea849ce4ab7c8340016d9d9d89a616263\n",
    ),
];

/// Statements before their signature, the text that key 1 signed, and why the chain is refused.
const REFUSED: &[(&str, &str, ChainRefusal)] = &[
    // another input, and another answer, than was signed
    (
        "00000003819779765541c59829a4e2196d1f3de1e33ac57753ef039737273b11af7734d7ac03616263",
        "06c10b471ceff881272aa5ed819fd9a0e000000001000000034fddb6e92a8333684779335007eda9426ddd8ea849ce4ab7c8340016\
         d9d9d89a616263",
        ChainRefusal::StatementSignature,
    ),
    (
        "00000003814fddb6e92a8333684779335007eda9426ddd8ea849ce4ab7c8340016d9d9d89a03616264",
        "06c10b471ceff881272aa5ed819fd9a0e000000001000000034fddb6e92a8333684779335007eda9426ddd8ea849ce4ab7c8340016\
         d9d9d89a616263",
        ChainRefusal::StatementSignature,
    ),
    // the text of a message is none of a call, and the other way round
    (
        "00000003814fddb6e92a8333684779335007eda9426ddd8ea849ce4ab7c8340016d9d9d89a03616263",
        "04c10b471ceff881272aa5ed819fd9a0e000000001000000034fddb6e92a8333684779335007eda9426ddd8ea849ce4ab7c8340016\
         d9d9d89a616263",
        ChainRefusal::StatementSignature,
    ),
    (
        "00000003234fddb6e92a8333684779335007eda9426ddd8ea849ce4ab7c8340016d9d9d89a616263",
        "06c10b471ceff881272aa5ed819fd9a0e000000001000000034fddb6e92a8333684779335007eda9426ddd8ea849ce4ab7c8340016\
         d9d9d89a616263",
        ChainRefusal::StatementSignature,
    ),
    // a call for key 2, and one of an earlier configuration
    (
        "00000003814fddb6e92a8333684779335007eda9426ddd8ea849ce4ab7c8340016d9d9d89a03616263",
        "06c10b471ceff881272aa5ed819fd9a0e000000002000000034fddb6e92a8333684779335007eda9426ddd8ea849ce4ab7c8340016\
         d9d9d89a616263",
        ChainRefusal::StatementSignature,
    ),
    (
        "00000002814fddb6e92a8333684779335007eda9426ddd8ea849ce4ab7c8340016d9d9d89a03616263",
        "06c10b471ceff881272aa5ed819fd9a0e000000001000000024fddb6e92a8333684779335007eda9426ddd8ea849ce4ab7c8340016\
         d9d9d89a616263",
        ChainRefusal::StatementNumber { named: 2, last: 3 },
    ),
];

/// The five signed entries of a chain, after its word and their number.
fn entries_counted<L: Ledger>(alloc: Global, blank: Blank) -> Result<Vec<u8>, Fail>
    requires name { blank.name ≡ L.name }
    requires parts { blank.parts ≡ L.parts }
    requires some { 0 < blank.parts }
{
    let mut hashes = HashCount::<L>::begin(alloc, blank);
    let mut chain = Vec::from_slice(alloc, b"MBC1\0\x05")?;
    for number in 0..4 {
        put_entry(alloc, &mut chain, number, 1, &mut hashes)?;
    }
    put_signed(&mut chain, 4, &hex::decode(alloc, NEW_KEY)?, &mut hashes)?;
    Ok(chain)
}

/// The signature of the text by key 1.
fn signature_counted<L: Ledger>(
    alloc: Global,
    text: &[u8],
    blank: Blank,
) -> Result<[u8; 2348], Fail>
    requires name { blank.name ≡ L.name }
    requires parts { blank.parts ≡ L.parts }
    requires some { 0 < blank.parts }
{
    let mut hashes = HashCount::<L>::begin(alloc, blank);
    let seed = KeySeed {
        identifier: <[u8; 16] as FromHex>::from_hex(KEY.0)?,
        seed: <[u8; 32] as FromHex>::from_hex(KEY.1)?,
    };
    let mut signature = [0; 2348];
    sign(right_at(0)?, &seed, &[], text, &mut signature, &mut hashes);
    Ok(signature)
}

/// The chain of the entries with this statement, and the signature of the text.
fn stated(alloc: Global, entries: &[u8], statement: &str, text: &str) -> Result<Vec<u8>, Fail>
    ensures { IfOk result (λ bytes. vec_len bytes ≤ 20000) }
{
    let text = hex::decode(alloc, text)?;
    let signature = signature_counted::<Brand>(alloc, &text, Blank::new(1))?;
    let mut chain = Vec::from_slice(alloc, entries)?;
    chain.push(1)?;
    chain.extend_from_slice(&hex::decode(alloc, statement)?)?;
    chain.extend_from_slice(&signature)?;
    chain.truncate(20_000);
    Ok(chain)
}

/// The chain with this statement is accepted for key 1, and its listing ends with `line`.
fn is_accepted(
    rt: &impl Abort,
    alloc: Global,
    entries: &[u8],
    (statement, text, line): &(&str, &str, &str),
) -> Result<(), Fail> {
    let chain = stated(alloc, entries, statement, text)?;
    let report = verify(alloc, &public_key(ROOT)?, &chain, 1)?;
    let listing = write_listing(alloc, 1, &report)?;
    let mut expected = Vec::from_slice(alloc, LISTED.as_bytes())?;
    expected.extend_from_slice(line.as_bytes())?;
    assert!(rt; listing.as_slice() == expected.as_slice(), "{line}");
    Ok(())
}

/// The chain with this statement is refused for key 1 for the reason of its row.
fn is_refused(
    rt: &impl Abort,
    alloc: Global,
    entries: &[u8],
    (statement, text, why): &(&str, &str, ChainRefusal),
) -> Result<(), Fail> {
    let chain = stated(alloc, entries, statement, text)?;
    assert!(rt;
        verify(alloc, &public_key(ROOT)?, &chain, 1).err() == Some(*why),
        "{statement}"
    );
    Ok(())
}

#[test]
fn statements_in_a_chain(rt: HostRuntime) -> Result<(), Fail> {
    let alloc = rt.alloc();
    let entries = entries_counted::<Brand>(alloc, Blank::new(1))?;
    for row in ACCEPTED {
        is_accepted(&rt, alloc, &entries, row)?;
    }
    for row in REFUSED {
        is_refused(&rt, alloc, &entries, row)?;
    }
    Ok(())
}
