//! The checks of the entries of a chain: signed by the key in charge, in order, and within the rules.

ghost use Rattle.sha2.specs.Sha256.{sha256};
ghost use Rattle.std.specs.Prelude.{◌≡◌, ◌↔◌, ◌≤◌, List, length, map, All, IfOk, IfErr, IfSome, OnOk, IsTrue};
ghost use Rattle.mb_model.specs.declared.limits.TheConstants.{ENTRY_LIMIT};
ghost use Rattle.mb_model.specs.records.EntryFormat.{entry_format, entry_hash};
ghost use Rattle.mb_model.specs.owners.Log.{figures_of, entries_of};
ghost use Rattle.mb_model.specs.chains.Acceptance.{in_charge, IsCertified, IsGood, AreGood};
ghost use Rattle.mb_log.specs.KeyLife.{IsLifeOf};
ghost use Rattle.mb_verifier.specs.Checked.{IsBadEntry, HasBadEntry};
ghost use Rattle.mb_verifier.specs.Ends.{chain_refusal_of};

use crate::refusal::ChainRefusal;
use mb_cert::{certifies, leaf_number};
use mb_layout::entry_bytes;
use mb_log::{Life, add_entry, follows_figures, no_figures};
use mb_model::{Figures, Follow, Items, PublicKey, SignedEntry};
use sha2::{Digest, Sha256};
use std::alloc::Global;

/// The results of a log with good entries.
#[derive(Drop)]
pub(crate) struct Judged {
    /// The figures of the log.
    pub figures: Figures,
    /// The life of the key by the log.
    pub life: Life,
}

/// The figures of the log and the life of the key with the number `key`, if each entry is good; else why the first
/// entry that is not good is refused. Each signature is checked once.
pub(crate) fn judge(
    alloc: Global,
    maker: &PublicKey,
    log: &[SignedEntry],
    key: u32,
) -> Result<Judged, ChainRefusal>
    requires spelled { All (λ signed. entry_format.Allowed signed.entry) log.now }
    requires short { length log.now ≤ ENTRY_LIMIT }
    ensures good { IfOk result (λ judged. AreGood maker.now log.now) }
    ensures figures { IfOk result (λ judged. judged.figures ≡ figures_of (entries_of log.now)) }
    ensures life { IfOk result (λ judged. IsLifeOf (entries_of log.now) key judged.life) }
    ensures refused { IfErr result (λ why. IfSome (chain_refusal_of why) (HasBadEntry maker.now log.now)) }
{
    let mut figures = no_figures();
    let mut life = Life::begin(alloc, key);
    for signed in log {
        let spelling = entry_bytes(alloc, &signed.entry)?;
        check(maker, &figures, signed, spelling.as_slice())?;
        life.add(&figures, &signed.entry)?;
        add_entry(&mut figures, &signed.entry);
    }
    Ok(Judged { figures, life })
}

/// The figures of a log with good entries, and the hash of each entry, without its signature.
#[derive(Drop)]
pub(crate) struct Hashed {
    pub figures: Figures,
    pub hashes: Items<[u8; 32]>,
}

/// The figures of the log and the hashes of its entries, if each is good; else why the first entry that is not good is
/// refused. Each entry is spelled once, to be verified and hashed.
pub(crate) fn hash_entries(
    alloc: Global,
    maker: &PublicKey,
    log: &[SignedEntry],
) -> Result<Hashed, ChainRefusal>
    requires spelled { All (λ signed. entry_format.Allowed signed.entry) log.now }
    requires short { length log.now ≤ ENTRY_LIMIT }
    ensures good { IfOk result (λ hashed. AreGood maker.now log.now) }
    ensures figures { IfOk result (λ hashed. hashed.figures ≡ figures_of (entries_of log.now)) }
    ensures hashes { IfOk result (λ hashed. hashed.hashes ≡ map entry_hash (entries_of log.now)) }
    ensures refused { IfErr result (λ why. IfSome (chain_refusal_of why) (HasBadEntry maker.now log.now)) }
{
    let mut figures = no_figures();
    let mut hashes = Items::new(alloc);
    for signed in log {
        let spelling = entry_bytes(alloc, &signed.entry)?;
        check(maker, &figures, signed, spelling.as_slice())?;
        hashes.push(hash_of(spelling.as_slice()))?;
        add_entry(&mut figures, &signed.entry);
    }
    Ok(Hashed { figures, hashes })
}

/// The hash of an entry's spelling.
fn hash_of(spelling: &[u8]) -> [u8; 32]
    ensures { result ≡ sha256 spelling.now }
{
    Sha256::digest(spelling)
}

/// Checks that the entry is good after a log with these figures; else answers why it is refused. `spelling` is the
/// entry's spelling.
fn check(
    maker: &PublicKey,
    figures: &Figures,
    signed: &SignedEntry,
    spelling: &[u8],
) -> Result<(), ChainRefusal>
    requires { spelling.now ≡ entry_format.spelling signed.now.entry }
    ensures good { OnOk result (IsGood maker.now figures.now signed.now) }
    ensures refused { IfErr result (λ why. IfSome (chain_refusal_of why) (IsBadEntry maker.now figures.now signed.now)) }
{
    let entry = figures.length;
    if !is_certified(maker, figures, signed, spelling) {
        return Err(ChainRefusal::Signature { entry });
    }
    match follows_figures(figures, &signed.entry, leaf_number(&signed.signature)) {
        Follow::Yes => Ok(()),
        Follow::Order => Err(ChainRefusal::Order { entry }),
        Follow::Rules => Err(ChainRefusal::Rules { entry }),
    }
}

/// Whether the key in charge after a log with these figures signed the next entry, whose spelling is given.
fn is_certified(maker: &PublicKey, figures: &Figures, signed: &SignedEntry, spelling: &[u8]) -> bool
    requires { spelling.now ≡ entry_format.spelling signed.now.entry }
    ensures { IsTrue result ↔ IsCertified maker.now figures.now signed.now }
{
    match in_charge(maker, figures) {
        Some(key) => certifies(&key, signed, spelling),
        None => false,
    }
}

/// The key in charge after a log with these figures: the maker's before the first entry, and then the device key that
/// the entries name last.
fn in_charge(maker: &PublicKey, figures: &Figures) -> Option<PublicKey>
    ensures { result ≡ in_charge maker.now figures.now }
{
    if figures.length == 0 {
        Some(*maker)
    } else {
        figures.device
    }
}
