//! Makers, keys and endorsements that another program made. The keys of the levels are tested by what the maker shows
//! of them: the public key before the last of the signatures. A public call that derives the key of a level is needed
//! by no crate.

ghost use Rattle.std.specs.Prelude.{◌≡◌, ◌<◌, ◌≤◌, IfOk};
ghost use Rattle.mb_hss.specs.declared.limits.TheConstants.{LEVEL_LIMIT};
ghost use Rattle.mb_hss.specs.MakerKeys.{IsMaker};

use hex::FromHex;
use mb_bytes::put_at;
use mb_hss::{HssEnd, HssKey, Maker, make_maker, public, read_maker, sign, write_maker};
use mb_lms::HashCount;
use mb_model::{KeySeed, PublicKey};
use std::alloc::Global;
use std::marker::Brand;
use std::sync::ledger::{Blank, Ledger};
use std::test::Fail;

mod files;
mod levels;
mod signatures;
mod verdicts;

/// The noise of the maker that signs.
const NOISE: &str = "000102030405060708090a0b0c0d0e0f101112131415161718191a1b1c1d1e1f";

/// The text that is endorsed: the head of an endorsement, and the bytes of a factory root key.
const HEAD: [u8; 1] = [0x05];

const ROOT: &str = "00000005000000037051ba5d3680f56ccdc72fffce8c33c2f40bb5bd\
    489e2a41ddf67f10a026cea5b33a14ad098e3fe12d8d1b16c8d4189d";

fn root_bytes() -> Result<[u8; 56], Fail> {
    Ok(<[u8; 56] as FromHex>::from_hex(ROOT)?)
}

/// The file of the maker from `NOISE`, with `number` as its next number.
fn file_of(levels: u8, number: u64) -> Result<[u8; 45], Fail>
    requires least { 1 ≤ levels }
    requires most { levels ≤ LEVEL_LIMIT }
{
    let noise = <[u8; 32] as FromHex>::from_hex(NOISE)?;
    let mut file = write_maker(&make_maker(&noise, levels));
    put_at(&mut file, 37, &number.to_be_bytes());
    Ok(file)
}

/// The maker from `NOISE`, with `number` as its next number.
fn maker_at(levels: u8, number: u64) -> Result<Maker, Fail>
    requires least { 1 ≤ levels }
    requires most { levels ≤ LEVEL_LIMIT }
    ensures { IfOk result IsMaker }
{
    let file = file_of(levels, number)?;
    Ok(read_maker(&file)?)
}

/// The public key of a seed.
fn key_counted<L: Ledger>(alloc: Global, seed: &KeySeed, blank: Blank) -> PublicKey
    requires name { blank.name ≡ L.name }
    requires parts { blank.parts ≡ L.parts }
    requires some { 0 < blank.parts }
{
    mb_signer::public(seed, &mut HashCount::<L>::begin(alloc, blank))
}

/// The maker's public key, on a count of its own.
fn public_of(alloc: Global, maker: &Maker) -> HssKey
    requires { IsMaker maker.now }
{
    public_counted::<Brand>(alloc, maker, Blank::new(1))
}

fn public_counted<L: Ledger>(alloc: Global, maker: &Maker, blank: Blank) -> HssKey
    requires maker { IsMaker maker.now }
    requires name { blank.name ≡ L.name }
    requires parts { blank.parts ≡ L.parts }
    requires some { 0 < blank.parts }
{
    public(maker, &mut HashCount::<L>::begin(alloc, blank))
}

/// Signs the root with the maker's next number, on a count of its own.
fn endorse(
    alloc: Global,
    maker: &mut Maker,
    root: &[u8; 56],
    out: &mut Vec<u8>,
) -> Result<u64, HssEnd>
    requires { IsMaker maker.old }
{
    endorse_counted::<Brand>(alloc, maker, root, out, Blank::new(1))
}

fn endorse_counted<L: Ledger>(
    alloc: Global,
    maker: &mut Maker,
    root: &[u8; 56],
    out: &mut Vec<u8>,
    blank: Blank,
) -> Result<u64, HssEnd>
    requires maker { IsMaker maker.old }
    requires name { blank.name ≡ L.name }
    requires parts { blank.parts ≡ L.parts }
    requires some { 0 < blank.parts }
{
    sign(
        maker,
        &HEAD,
        root,
        out,
        &mut HashCount::<L>::begin(alloc, blank),
    )
}
