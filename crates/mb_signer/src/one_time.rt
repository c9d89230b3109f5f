//! The one-time keys of the leaves: private values, chains and public keys (RFC 8554, section 4 and appendix A).

ghost use Rattle.std.specs.Prelude.{◌≡◌, ℕ, ◌+◌, ◌<◌, ◌++◌, List};
ghost use Rattle.std.specs.Int.{w16, w32, to_be_bytes};
ghost use Rattle.mb_model.specs.signatures.Winternitz.{chain_step, value_after_steps as taken, message_hash};
ghost use Rattle.mb_model.specs.signatures.Signing.{private_value, randomizer_of, public_ends, one_time_public};

use crate::bytes::marked;
use mb_bytes::put_at;
use mb_lms::{HashCount, chain_prefix, hash};
use mb_model::KeySeed;
use mb_model::separators::{MESSAGE_MARK, ONE_TIME_KEY_MARK};
use std::sync::ledger::Ledger;

/// The number of chains of a one-time key.
pub(crate) const CHAINS: u16 = 67;

/// The number of steps of a chain.
const CHAIN_STEPS: u8 = 15;

/// The number that replaces a chain's when the randomizer of a signature is derived.
const RANDOMIZER: u16 = 0xfffd;

/// The number that replaces a step's when a private value is derived from the seed (RFC 8554, appendix A).
const SEED: u8 = 0xff;

/// One step of a chain, whose text of 55 bytes is hashed at once (RFC 8554, section 4.3).
#[tactic(auto, unfolding(mb_model::specs::signatures::Winternitz::chain_step))]
fn chain_step<L: Ledger>(
    prefix: &[u8; 22],
    step: u8,
    value: &[u8; 32],
    hashes: &mut HashCount<L>,
) -> [u8; 32]
    ensures value { (id : List ℕ) (q chain : ℕ) → prefix.now ≡ id ++ to_be_bytes w32 q ++ to_be_bytes w16 chain → result ≡ chain_step id q chain step value.now }
    ensures counted { hashes.new ≡ hashes.old + 1 }
{
    let mut text = [0; 55];
    put_at(&mut text, 0, prefix);
    put_at(&mut text, 22, &[step]);
    put_at(&mut text, 23, value);
    hash(&text, &[], &[], hashes)
}

/// Private value `number` of leaf `q` (RFC 8554, appendix A).
#[tactic(auto, unfolding(mb_model::specs::signatures::Winternitz::chain_step, mb_model::specs::signatures::Signing::private_value))]
fn private_value<L: Ledger>(
    seed: &KeySeed,
    q: u32,
    number: u16,
    hashes: &mut HashCount<L>,
) -> [u8; 32]
    ensures value { result ≡ private_value seed.now q number }
    ensures counted { hashes.new ≡ hashes.old + 1 }
{
    chain_step(
        &chain_prefix(&seed.identifier, q, number),
        SEED,
        &seed.seed,
        hashes,
    )
}

/// C of the signature at leaf `q`. The randomizer is derived from the seed, with a number that no chain has. So a
/// signature is a function of key, index and text, can be compared with another program's, and needs no noise.
#[tactic(auto, unfolding(mb_model::specs::signatures::Signing::randomizer_of))]
pub(crate) fn randomizer_at<L: Ledger>(
    seed: &KeySeed,
    q: u32,
    hashes: &mut HashCount<L>,
) -> [u8; 32]
    ensures value { result ≡ randomizer_of seed.now q }
    ensures counted { hashes.new ≡ hashes.old + 1 }
{
    private_value(seed, q, RANDOMIZER, hashes)
}

/// The value of a chain after its first `last` steps (RFC 8554, sections 4.3 and 4.5).
#[tactic(auto, using(crate::proofs::Chains::chain_rules))]
pub(crate) fn chain_value<L: Ledger>(
    seed: &KeySeed,
    q: u32,
    chain: u16,
    last: u8,
    hashes: &mut HashCount<L>,
) -> [u8; 32]
    ensures value { result ≡ taken seed.now.identifier q chain 0 last (private_value seed.now q chain) }
    ensures counted { hashes.new ≡ hashes.old + 1 + last }
{
    let prefix = chain_prefix(&seed.identifier, q, chain);
    let mut link = private_value(seed, q, chain, hashes);
    for step in 0..last {
        link = chain_step(&prefix, step, &link, hashes);
    }
    link
}

/// Room for the ends of all chains.
fn no_ends() -> [u8; 2144] {
    [0; 2144]
}

/// The ends of all chains of leaf `q` (RFC 8554, section 4.3).
#[tactic(auto, using(crate::proofs::Chains::end_rules))]
fn public_ends<L: Ledger>(seed: &KeySeed, q: u32, hashes: &mut HashCount<L>) -> [u8; 2144]
    ensures value { result ≡ public_ends seed.now q CHAINS }
    ensures counted { hashes.new ≡ hashes.old + 1072 }
{
    let mut ends = no_ends();
    for chain in 0..CHAINS {
        let end = chain_value(seed, q, chain, CHAIN_STEPS, hashes);
        put_at(&mut ends, 32 * usize::from(chain), &end);
    }
    ends
}

/// K of leaf `q`, its one-time public key (RFC 8554, section 4.3).
#[tactic(auto, unfolding(mb_model::specs::signatures::Signing::one_time_public))]
pub(crate) fn one_time_public<L: Ledger>(
    seed: &KeySeed,
    q: u32,
    hashes: &mut HashCount<L>,
) -> [u8; 32]
    ensures value { result ≡ one_time_public seed.now q }
    ensures counted { hashes.new ≡ hashes.old + 1073 }
{
    let ends = public_ends(seed, q, hashes);
    hash(
        &marked(&seed.identifier, q, ONE_TIME_KEY_MARK),
        &ends,
        &[],
        hashes,
    )
}

/// Q, the hash of the text that a signature signs (RFC 8554, section 4.5).
#[tactic(auto, unfolding(mb_model::specs::signatures::Winternitz::message_hash))]
pub(crate) fn message_hash<L: Ledger>(
    seed: &KeySeed,
    q: u32,
    randomizer: &[u8; 32],
    head: &[u8],
    body: &[u8],
    hashes: &mut HashCount<L>,
) -> [u8; 32]
    ensures value { result ≡ message_hash seed.now.identifier q randomizer.now (head.now ++ body.now) }
    ensures counted { hashes.new ≡ hashes.old + 1 }
{
    let mut start = [0; 54];
    put_at(&mut start, 0, &marked(&seed.identifier, q, MESSAGE_MARK));
    put_at(&mut start, 22, randomizer);
    hash(&start, head, body, hashes)
}
