//! Chains whose births and changes have one version or the other. The entries and keys are another program's, and the
//! signatures are made here.

ghost use Rattle.std.specs.Prelude.{◌≡◌, ◌<◌, ◌≤◌, vec_len, IfOk};

use super::public_key;
use hex::FromHex;
use mb_lms::HashCount;
use mb_model::KeySeed;
use mb_signer::{OneUse, Uses, sign, take_index};
use mb_verifier::{ChainRefusal, verify};
use std::alloc::Global;
use std::marker::Brand;
use std::process::Abort;
use std::sync::ledger::{Blank, Ledger};
use std::test::Fail;

/// The maker's key, which signs the birth.
pub const ROOT: &str = "0000000500000003abc79a08451338fa701ede4a2dce0108\
    536f6628cdae7a4a1b32657c5bc5a7f2186341c948daa70955a08dfd899cde3a";

/// The identifier and the seed of the maker's key.
const MAKER: (&str, &str) = (
    "abc79a08451338fa701ede4a2dce0108",
    "fd9509691deba24454b97c4c547dcaf949f4315085cb9f83cae75a316a58902b",
);

/// The identifier and the seed of the device's key, which signs the changes.
const DEVICE: (&str, &str) = (
    "508e3ea9591a42a7ac26572be34701ad",
    "271f729e829f128a0ae659f3fccf28888d9a2123be7cc22c3683992563c6e145",
);

/// A birth, and the changes that give layers 2 and 3 their owners and layer 2 its code: each in version 1 and in
/// version 2.
const ENTRIES: [[&str; 2]; 4] = [
    [
        "00c10b471ceff881272aa5ed819fd9a0e00000000500000003508e3ea9591a42a7ac26572be34701ad7ccc5eecd66b18d58b\
            bcd5d20d341c905e3841eb7bb25b02750e4fb00b8bc163070000000005000000032c1e471084d7886d5f0740149d4a4dd663\
            675ac2fc0917d5ccba80ed9aa73ad44c990ee150f972892aeb3c35912a162ef191e625176e7514249870c60bc24622131b04\
            927a418001d1969c9cecd260f10000000100010001",
        "10c10b471ceff881272aa5ed819fd9a0e00000000500000003508e3ea9591a42a7ac26572be34701ad7ccc5eecd66b18d58b\
            bcd5d20d341c905e3841eb7bb25b02750e4fb00b8bc16307000000000005000000032c1e471084d7886d5f0740149d4a4dd6\
            63675ac2fc0917d5ccba80ed9aa73ad44c990ee150f972892aeb3c35912a162ef191e625176e7514249870c60bc24622131b\
            04927a418001d1969c9cecd260f100000001000101000101",
    ],
    [
        "01000000010000000101020000070000000005000000032c1e471084d7886d5f0740149d4a4dd663675ac2fc0917d5ccba80\
            ed9aa73ad44c990ee150f972892aeb3c35912a162ef191e625176e7514249870c60bc24622131b04927a418001d1969c9cec\
            d260f10000000101020000000500000003456f47e33661bea750d0d7834df1866ee01637b5c1d8b439b648b48180b105614f\
            e7f19f31e54ccdcdab1be127d73256000100",
        "1100000001000000010102000007000000000005000000032c1e471084d7886d5f0740149d4a4dd663675ac2fc0917d5ccba\
            80ed9aa73ad44c990ee150f972892aeb3c35912a162ef191e625176e7514249870c60bc24622131b04927a418001d1969c9c\
            ecd260f1000000010102020000000500000003456f47e33661bea750d0d7834df1866ee01637b5c1d8b439b648b48180b105\
            614fe7f19f31e54ccdcdab1be127d7325600010100",
    ],
    [
        "01000000020000000201030001070000000005000000032c1e471084d7886d5f0740149d4a4dd663675ac2fc0917d5ccba80\
            ed9aa73ad44c990ee150f972892aeb3c35912a162ef191e625176e7514249870c60bc24622131b04927a418001d1969c9cec\
            d260f10000000101020000000500000003456f47e33661bea750d0d7834df1866ee01637b5c1d8b439b648b48180b105614f\
            e7f19f31e54ccdcdab1be127d73256010200000005000000032b3c1b4e3d51a925d662ac9ab43d1e6d57db50033b2205b89c\
            b11153586437879a1a9f1c382306bb2ba53efd5549e35800",
        "1100000002000000020103000107000000000005000000032c1e471084d7886d5f0740149d4a4dd663675ac2fc0917d5ccba\
            80ed9aa73ad44c990ee150f972892aeb3c35912a162ef191e625176e7514249870c60bc24622131b04927a418001d1969c9c\
            ecd260f1000000010102020000000500000003456f47e33661bea750d0d7834df1866ee01637b5c1d8b439b648b48180b105\
            614fe7f19f31e54ccdcdab1be127d7325601020200000005000000032b3c1b4e3d51a925d662ac9ab43d1e6d57db50033b22\
            05b89cb11153586437879a1a9f1c382306bb2ba53efd5549e35800",
    ],
    [
        "01000000030000000304020000070000000005000000032c1e471084d7886d5f0740149d4a4dd663675ac2fc0917d5ccba80\
            ed9aa73ad44c990ee150f972892aeb3c35912a162ef191e625176e7514249870c60bc24622131b04927a418001d1969c9cec\
            d260f10000000107020000000500000003456f47e33661bea750d0d7834df1866ee01637b5c1d8b439b648b48180b105614f\
            e7f19f31e54ccdcdab1be127d73256ba7816bf8f01cfea414140de5dae2223b00361a396177a9cb410ff61f20015ad000000\
            01010200000005000000032b3c1b4e3d51a925d662ac9ab43d1e6d57db50033b2205b89cb11153586437879a1a9f1c382306\
            bb2ba53efd5549e35800",
        "1100000003000000030402000007000000000005000000032c1e471084d7886d5f0740149d4a4dd663675ac2fc0917d5ccba\
            80ed9aa73ad44c990ee150f972892aeb3c35912a162ef191e625176e7514249870c60bc24622131b04927a418001d1969c9c\
            ecd260f1000000010702020000000500000003456f47e33661bea750d0d7834df1866ee01637b5c1d8b439b648b48180b105\
            614fe7f19f31e54ccdcdab1be127d73256ba7816bf8f01cfea414140de5dae2223b00361a396177a9cb410ff61f20015ad00\
            00000101020200000005000000032b3c1b4e3d51a925d662ac9ab43d1e6d57db50033b2205b89cb11153586437879a1a9f1c\
            382306bb2ba53efd5549e35800",
    ],
];

/// The key that signs the entry of this number.
fn signer_of(number: usize) -> Result<KeySeed, Fail> {
    let (identifier, seed) = if number == 0 { MAKER } else { DEVICE };
    Ok(KeySeed {
        identifier: <[u8; 16] as FromHex>::from_hex(identifier)?,
        seed: <[u8; 32] as FromHex>::from_hex(seed)?,
    })
}

/// The right to sign the entry of this number. The birth and the first change have the first index.
pub fn right_at(number: usize) -> Result<OneUse, Fail> {
    let before = u32::try_from(number)?.saturating_sub(1);
    if before > 32 {
        return Err("no index is left")?;
    }
    Ok(take_index(&mut Uses::stored(before)).ok_or("no index is left")?)
}

/// The entry of this number in this version.
fn entry_of(alloc: Global, number: usize, version: u8) -> Result<Vec<u8>, Fail> {
    let [one, two] = ENTRIES.get(number).ok_or("no entry")?;
    Ok(hex::decode(alloc, if version == 1 { one } else { two })?)
}

/// Appends the entry of this number in this version, and its signature.
pub fn put_entry<L: Ledger>(
    alloc: Global,
    chain: &mut Vec<u8>,
    number: usize,
    version: u8,
    hashes: &mut HashCount<L>,
) -> Result<(), Fail> {
    let entry = entry_of(alloc, number, version)?;
    put_signed(chain, number, &entry, hashes)
}

/// Appends this entry, and the signature that an entry of this number has.
pub fn put_signed<L: Ledger>(
    chain: &mut Vec<u8>,
    number: usize,
    entry: &[u8],
    hashes: &mut HashCount<L>,
) -> Result<(), Fail> {
    let signer = signer_of(number)?;
    let mut signature = [0; 2348];
    sign(
        right_at(number)?,
        &signer,
        &[3],
        entry,
        &mut signature,
        hashes,
    );
    chain.extend_from_slice(entry)?;
    chain.extend_from_slice(&signature)?;
    Ok(())
}

/// The chain of the entries in these versions.
fn chain_counted<L: Ledger>(alloc: Global, versions: [u8; 4], blank: Blank) -> Result<Vec<u8>, Fail>
    requires name { blank.name ≡ L.name }
    requires parts { blank.parts ≡ L.parts }
    requires some { 0 < blank.parts }
    ensures { IfOk result (λ bytes. vec_len bytes ≤ 20000) }
{
    let mut hashes = HashCount::<L>::begin(alloc, blank);
    let mut chain = Vec::from_slice(alloc, b"MBC1\0\x04")?;
    for (number, version) in versions.iter().enumerate() {
        put_entry(alloc, &mut chain, number, *version, &mut hashes)?;
    }
    chain.push(0)?;
    chain.truncate(20_000);
    Ok(chain)
}

/// The chain in these versions, verified for a key that no entry makes, is refused for the reason `why`.
fn is_refused(
    rt: &impl Abort,
    alloc: Global,
    versions: [u8; 4],
    why: ChainRefusal,
) -> Result<(), Fail> {
    let root = public_key(ROOT)?;
    let chain = chain_counted::<Brand>(alloc, versions, Blank::new(1))?;
    assert!(rt; verify(alloc, &root, &chain, 9).err() == Some(why));
    Ok(())
}

/// Versions of the entries, and why the chain is refused. A version is no reason unless it goes back.
const CHAINS: &[([u8; 4], ChainRefusal)] = &[
    ([1, 1, 1, 1], ChainRefusal::KeyUnknown),
    ([1, 1, 2, 2], ChainRefusal::KeyUnknown),
    ([2, 2, 2, 2], ChainRefusal::KeyUnknown),
    ([2, 2, 1, 2], ChainRefusal::Rules { entry: 2 }),
    ([1, 2, 2, 1], ChainRefusal::Rules { entry: 3 }),
];

#[test]
fn versions_in_a_chain(rt: HostRuntime) -> Result<(), Fail> {
    for (versions, why) in CHAINS {
        is_refused(&rt, rt.alloc(), *versions, *why)?;
    }
    Ok(())
}
