//! Keys and signatures that another program made.

ghost use Rattle.std.specs.Prelude.{◌≡◌, ◌<◌};
ghost use Rattle.mb_signer.specs.Tree.{IsTreeOf};

use hex::FromHex;
use mb_lms::{HashCount, hash, key_bytes, verify};
use mb_model::{KeySeed, PublicKey};
use mb_signer::{KeptTree, OneUse, Uses, public, sign, sign_kept, take_index};
use std::alloc::Global;
use std::marker::Brand;
use std::process::Abort;
use std::sync::ledger::{Blank, Ledger};
use std::test::Fail;

/// The key of the rows of signatures.
const IDENTIFIER: &str = "61bfe257a003e66e7ab5fb601a681801";

const SEED: &str = "5a929626d5789865b25233b20c6b0fbf6e3b3e58e4db4e2884d2cbfaa52f98b1";

fn seed_of(identifier: &str, seed: &str) -> Result<KeySeed, Fail> {
    Ok(KeySeed {
        identifier: <[u8; 16] as FromHex>::from_hex(identifier)?,
        seed: <[u8; 32] as FromHex>::from_hex(seed)?,
    })
}

/// The right to sign at an index.
fn right_at(index: u32) -> OneUse
    requires { index < 32 }
    ensures { result ≡ index }
{
    let mut uses = Uses::stored(index);
    let Some(right) = take_index(&mut uses) else {
        unreachable!()
    };
    right
}

fn no_signature() -> [u8; 2348] {
    [0; 2348]
}

/// The seed has this public key.
fn expect_public<L: Ledger>(
    rt: &impl Abort,
    identifier: &str,
    seed: &str,
    key: &str,
    hashes: &mut HashCount<L>,
) -> Result<(), Fail> {
    let seed = seed_of(identifier, seed)?;
    let found = key_bytes(&public(&seed, hashes));
    assert!(rt; found == <[u8; 56] as FromHex>::from_hex(key)?, "{key}");
    Ok(())
}

/// The signature of the text, handed over in two pieces, has this hash and verifies.
fn expect_signature<L: Ledger>(
    rt: &impl Abort,
    alloc: Global,
    seed: &KeySeed,
    key: &PublicKey,
    (index, text, expected): &(u32, &str, &str),
    hashes: &mut HashCount<L>,
) -> Result<(), Fail> {
    assert!(rt; *index < 32);
    let text = hex::decode(alloc, text)?;
    let (head, body) = text.split_at(text.len() / 2);
    let mut signature = no_signature();
    sign(right_at(*index), seed, head, body, &mut signature, hashes);
    let found = hash(&signature, &[], &[], hashes);
    assert!(rt;
        found == <[u8; 32] as FromHex>::from_hex(expected)?,
        "{expected}"
    );
    assert!(rt; verify(key, head, body, &signature), "{expected}");
    Ok(())
}

/// Identifiers and seeds, and the public key of each.
const KEYS: &[(&str, &str, &str)] = &[
    (
        "415f9f8fc3e618dd8524180f3db6a7c9",
        "eb495b20b522240648df79d22ec304c592f6d73c19b49bf70f19f34f72888b1a",
        "0000000500000003415f9f8fc3e618dd8524180f3db6a7c9a7881c4ccb3521694cbdd14fd42b0822cdfb7c6f9fc531cab957f755e6a2d2bc",
    ),
    (
        "f5d541e6c1f5736fac8d67703916a7e4",
        "b7b94ea512bd312bfcd9eedbebef91090a23420ddbc50323fc7193e510217f8c",
        "0000000500000003f5d541e6c1f5736fac8d67703916a7e43b6ec035344e351fe5527a7c1f6b590c34bc0a1eca4c29075b6155648ccc2b87",
    ),
    (
        "45e47fb59aa5a55f0f83d81c6d9de2ea",
        "ffbfddc10c0c223395dda0609b99feeda3baded74bf09ba9881a083b49fe63e4",
        "000000050000000345e47fb59aa5a55f0f83d81c6d9de2ea40811d1aa53e467789ef706d859ed038b16e8bee901fca5c6f44384e54216c13",
    ),
];

/// Signatures of no text, of one byte, and of texts of 64 bytes: the index of each, its text, and its hash.
const SIGNATURES: &[(u32, &str, &str)] = &[
    (
        0,
        "",
        "13e0938ccd22b084d874c3744c6395ead6eb2660041b949906bae4f640908654",
    ),
    (
        1,
        "",
        "6de6f475b9a6952dc27e2cf89c628a6bf398e5b80d82bc12effb1227d2e3b3c3",
    ),
    (
        15,
        "",
        "54bfb5ea4a0714788b3dc256a9fdaae038c2299cbe35ed8d9e1ec1644281137d",
    ),
    (
        16,
        "",
        "d2c7616c14e830d0d6f93ff39e5fe76de29e71185e842d72b476e79e55b5b42b",
    ),
    (
        31,
        "",
        "f2180b692061d6f2c400566e14dc5c02026c109510b006562c19e461c7cff0d9",
    ),
    (
        0,
        "61",
        "3d8a0c2e747cb4afdb3c89983029d091650e033b6a330fadee831d736c09fb57",
    ),
    (
        1,
        "61",
        "97d82028171595d9f3d1a0b32b6d3c77ee5b70d4967024c3d2f1bf3155259836",
    ),
    (
        15,
        "61",
        "563e65d791b83bbb3cada7986b949879c857438049289a76c2bcef4836a85608",
    ),
    (
        16,
        "61",
        "bd22dbf2874a5dc7995513d7523f1a5fcca22e97ed736745ad7873f8789a902b",
    ),
    (
        31,
        "61",
        "8440bed289ddb508e642e80d560e6d3b7bc583ac597ed1301aafbf0e846798a7",
    ),
    (
        0,
        "7dbb80edfa073bf605b4a8f69cb16df1042d89807a850da0e63a8d88174f0ab0baab012084e81df99e5188e7b1e49f1d4c91e9a442f2978f81ee1e9e07c2ca6e",
        "eefe0fe6796882f760995656222b798c4832c794e9c6680635982375bfbfd76b",
    ),
    (
        1,
        "0f571f2c96c3f0d227ceae2f2588f94c281b91bc408f625e19debafa91c64fa0b58b55bc4440592c9adf3441954f6f7580998458451cb12cac116b6731538bdf",
        "08a11bd1e7eaf4cf8b52f50a48c2962904985f165085f1d1def9a45601439d30",
    ),
    (
        15,
        "6abc2b7c46d191e2ca84ce609073c26c213ee7075ba7d5614ecef0192a08d29db2ccda2b2f0bc33df5e9f47676716ffce5556ccf02e4d6b5c526d6d0fa9b28a3",
        "452c8c123a8f2708ae85d58a5685662b8de95a93a9b9fdcee83a898f8c2f39e9",
    ),
    (
        16,
        "aca6bba5594c41a7718923834bd3cb6191d8bf9f0814c244a242f43e47bd7cfc18e261764fa0e5833e0a1e4956e0bbf771b179ca80576a9287d680230884b512",
        "7b9eee7091aab9d2e8ed20ab59a41871d795b74323f729d7540d0cb2de3d75d9",
    ),
    (
        31,
        "bb7b510ae921fd172f784c40ce09093065fb77cb8cfecd1e4e1c69534a4924a747e36a61e5e115d5c77bfd25257ab866bc9fb4351bf026617312cffb6e204aa3",
        "680d6918dbc5ae8d852f9598490488d872b45cf85a6744007ca6b9e012154bf2",
    ),
];

/// A signature by a kept tree is the one that is made without it.
fn expect_kept<L: Ledger>(
    rt: &impl Abort,
    index: u32,
    tree: &KeptTree,
    seed: &KeySeed,
    hashes: &mut HashCount<L>,
)
    requires index { index < 32 }
    requires tree { IsTreeOf seed.now tree.now }
{
    let mut kept = no_signature();
    sign_kept(
        right_at(index),
        tree,
        seed,
        b"kept ",
        b"tree",
        &mut kept,
        hashes,
    );
    let mut anew = no_signature();
    sign(right_at(index), seed, b"kept ", b"tree", &mut anew, hashes);
    assert!(rt; kept == anew, "{index}");
}

/// Each key and each signature is that of its row, and the signatures of a kept tree are those that are made without it.
fn expect_all<L: Ledger>(rt: &impl Abort, alloc: Global, blank: Blank) -> Result<(), Fail>
    requires name { blank.name ≡ L.name }
    requires parts { blank.parts ≡ L.parts }
    requires some { 0 < blank.parts }
{
    let mut hashes = HashCount::<L>::begin(alloc, blank);
    for (identifier, seed, key) in KEYS {
        expect_public(rt, identifier, seed, key, &mut hashes)?;
    }
    let seed = seed_of(IDENTIFIER, SEED)?;
    let key = public(&seed, &mut hashes);
    for row in SIGNATURES {
        expect_signature(rt, alloc, &seed, &key, row, &mut hashes)?;
    }
    let tree = KeptTree::build(&seed, &mut hashes);
    expect_kept(rt, 0, &tree, &seed, &mut hashes);
    expect_kept(rt, 1, &tree, &seed, &mut hashes);
    Ok(())
}

#[test]
fn keys_and_signatures(rt: HostRuntime) -> Result<(), Fail> {
    expect_all::<Brand>(&rt, rt.alloc(), Blank::new(1))
}
