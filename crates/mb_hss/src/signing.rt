//! A maker's public key, and its signatures (RFC 8554, sections 6.1 and 6.2).

ghost use Rattle.std.specs.Prelude.{◌≡◌, ◌↔◌, ◌+◌, ◌-◌, ◌*◌, ◌^◌, ◌≤◌, ◌<◌, ◌++◌};
ghost use Rattle.std.specs.Prelude.{length, vec_len, vec_capacity, IfOk, OnOk, OnErr, IsErrOf};
ghost use Rattle.mb_bytes.specs.Puts.{Appends, HasNoRoom};
ghost use Rattle.mb_hss.specs.declared.limits.TheConstants.{LEVEL_LIMIT};
ghost use Rattle.mb_hss.specs.MakerKeys.{IsMaker, maker_key};
ghost use Rattle.mb_hss.specs.MakerSignatures.{maker_signature, SignsOnto, IsUnsigned};
ghost use Rattle.mb_lms.specs.declared.hash_count.TheConstants.{SIGNING_HASHES, TREE_HASHES};

use crate::key::HssKey;
use crate::level::{Level, level_key};
use crate::maker::{Maker, number_count};
use mb_bytes::put_slice;
use mb_lms::HashCount;
use mb_model::{NoMemory, SIGNATURE_LENGTH};
use mb_signer::public as public_of_seed;
use std::alloc::AllocError;
use std::sync::ledger::Ledger;

/// The length of a level's public key, in bytes.
const KEY_LENGTH: usize = 56;

/// Why nothing was signed. The maker, the output and the count of hashes are then as before.
#[derive(Clone, Copy, Debug, PartialEq, Eq)]
pub enum HssEnd {
    /// The maker has no number left.
    Spent,
    /// An allocation failed.
    NoMemory,
}

impl From<AllocError> for HssEnd {
    ghost use Rattle.mb_hss.specs.declared.signing.HssEnd.TheVariants as end;

    ghost from_gives = { λ _ e. e ≡ end.NoMemory };

    fn from(_error: AllocError) -> HssEnd {
        HssEnd::NoMemory
    }
}

/// The maker's public key, in 34,401 hashes: two derive the key of the first level, and its tree takes the others (RFC
/// 8554, section 6.1).
#[tactic(auto, unfolding(crate::specs::MakerKeys::maker_key))]
pub fn public<L: Ledger>(maker: &Maker, hashes: &mut HashCount<L>) -> HssKey
    requires { IsMaker maker.now }
    ensures key { result ≡ maker_key maker.now }
    ensures counted { hashes.new ≡ hashes.old + TREE_HASHES + 2 }
{
    let seed = level_key(&maker.seed, 0, 0, hashes);
    HssKey {
        levels: maker.levels,
        top: public_of_seed(&seed, hashes),
    }
}

/// The length of the signatures of a maker of 1 to 8 levels, in bytes.
fn signature_length(levels: u8) -> usize
    requires least { 1 ≤ levels }
    requires most { levels ≤ LEVEL_LIMIT }
    ensures { result ≡ 2404 * levels - 52 }
{
    let levels = usize::from(levels);
    4 + SIGNATURE_LENGTH * levels + KEY_LENGTH * (levels - 1)
}

/// Appends the piece, for which there is room.
fn append(out: &mut Vec<u8>, piece: &[u8])
    requires { vec_len out.old + length piece.now ≤ vec_capacity out.old }
    ensures { Appends piece.now out.old out.new }
{
    match put_slice(out, piece) {
        Ok(()) => {}
        Err(NoMemory) => unreachable!(),
    }
}

/// Appends the signature of `head` followed by `body` with the number, for which there is room. Each level's tree is
/// built once: its root is the key that the level above signs, and its nodes are in the level's own signature.
fn put_signature<L: Ledger>(
    maker: &Maker,
    number: u64,
    head: &[u8],
    body: &[u8],
    out: &mut Vec<u8>,
    hashes: &mut HashCount<L>,
)
    requires maker { IsMaker maker.now }
    requires room { vec_len out.old + (2404 * maker.now.levels - 52) ≤ vec_capacity out.old }
    ensures signature { Appends (maker_signature maker.now number (head.now ++ body.now)) out.old out.new }
    ensures cost { hashes.new ≤ hashes.old + (SIGNING_HASHES + 2) * maker.now.levels }
{
    append(out, &u32::from(maker.levels - 1).to_be_bytes());
    let mut level = Level::at(maker, number, 0, hashes);
    for above in 0..maker.levels - 1 {
        let below = Level::at(maker, number, above + 1, hashes);
        let key = below.public_bytes();
        append(out, &level.sign(&key, &[], hashes));
        append(out, &key);
        level = below;
    }
    append(out, &level.sign(head, body, hashes));
}

/// Signs `head` followed by `body` with the maker's next number, and appends the signature, in at most 35,475 hashes a
/// level (RFC 8554, section 6.2). Answers that number; the maker's next one is then one higher.
///
/// Errors: `Spent` exactly if the next number is 32^levels; and `NoMemory`, only if the capacity of `out` does not hold
/// the signature.
pub fn sign<L: Ledger>(
    maker: &mut Maker,
    head: &[u8],
    body: &[u8],
    out: &mut Vec<u8>,
    hashes: &mut HashCount<L>,
) -> Result<u64, HssEnd>
    requires { IsMaker maker.old }
    ensures number { IfOk result (λ number. number ≡ maker.old.next) }
    ensures signed { OnOk result (SignsOnto maker.old (head.now ++ body.now) out.old out.new maker.new) }
    ensures spent { IsErrOf result HssEnd.Spent ↔ (maker.old.next ≡ 32 ^ maker.old.levels) }
    ensures room { IsErrOf result HssEnd.NoMemory
        → HasNoRoom (maker_signature maker.old maker.old.next (head.now ++ body.now)) out.old }
    ensures unchanged { OnErr result (IsUnsigned maker.old maker.new out.old out.new hashes.old hashes.new) }
    ensures valid { IsMaker maker.new }
    ensures cost { hashes.new ≤ hashes.old + (SIGNING_HASHES + 2) * maker.old.levels }
{
    let number = maker.next;
    if number == number_count(maker.levels) {
        return Err(HssEnd::Spent);
    }
    out.reserve(signature_length(maker.levels))?;
    put_signature(maker, number, head, body, out, hashes);
    maker.next = number + 1;
    Ok(number)
}
