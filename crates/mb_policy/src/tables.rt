//! Which owners and codes of a configuration, and which input and answer of a call, are in which set. Each is looked up
//! once, and not for each test.

ghost use Rattle.std.specs.Prelude.{◌≡◌};
ghost use Rattle.mb_format.specs.Combinators.{same_bytes};
ghost use Rattle.mb_policy.specs.Judging.{listed_layer, has_hash, some_passes};
ghost use Rattle.mb_policy.specs.Judging.{owner_hash, code_hash};
ghost use Rattle.sha2.specs.Sha256.{sha256};
ghost use Rattle.mb_policy.specs.Meanings.{set_meant};
ghost use Rattle.mb_policy.specs.Tables.{situation_meant, passes_at, layer_hashes, call_hashes, asked_hashes};
ghost use Rattle.mb_policy.specs.Tables.{members_of_set, members_of_line};

use crate::policy::{Line, NamedSet};
use crate::situation::Situation;
use mb_lms::key_hash;
use mb_model::{Layer, Report, Said};
use sha2::{Digest, Sha256};

/// The hashes of a layer's owner and of its code.
#[derive(Clone, Copy)]
pub struct LayerHashes {
    pub owner: Option<[u8; 32]>,
    pub code: Option<[u8; 32]>,
}

/// The hash of a call's input, and the SHA-256 of its answer.
#[derive(Clone, Copy)]
pub struct CallHashes {
    pub input: Option<[u8; 32]>,
    pub answer: Option<[u8; 32]>,
}

/// The hashes of a configuration's layers, and of the call that its report states. A layer that is not listed has none,
/// nor has a report without the statement of a call.
#[derive(Clone, Copy)]
pub struct Hashes {
    pub one: LayerHashes,
    pub two: LayerHashes,
    pub three: LayerHashes,
    pub call: CallHashes,
}

/// An answer for each layer.
#[derive(Clone, Copy)]
pub struct PerLayer {
    pub one: bool,
    pub two: bool,
    pub three: bool,
}

/// Whether the owner and the code of each layer are in a set, and the input and the answer of a call.
#[derive(Clone, Copy)]
pub struct Members {
    pub owners: PerLayer,
    pub codes: PerLayer,
    pub input: bool,
    pub answer: bool,
}

impl PerLayer {
    /// The answer for a layer; false for a number that no layer has.
    pub(crate) fn at(&self, layer: u8) -> bool
        ensures { result ≡ passes_at self.now layer }
    {
        match layer {
            1 => self.one,
            2 => self.two,
            3 => self.three,
            _ => false,
        }
    }
}

/// The hashes of the layers that a configuration lists, and of the call that its report states.
pub(crate) fn find_hashes(situation: &Situation<'_>) -> Hashes
    ensures { result ≡ asked_hashes (situation_meant situation.now) }
{
    Hashes {
        one: hash_listed(situation, 1),
        two: hash_listed(situation, 2),
        three: hash_listed(situation, 3),
        call: hash_call(situation.report),
    }
}

/// The hashes of the call that the report states, or none if it states no call.
fn hash_call(report: &Report) -> CallHashes
    ensures { result ≡ call_hashes report.now }
{
    match &report.said {
        Some(Said::Answer { input, answer }) => CallHashes {
            input: Some(*input),
            answer: Some(hash_of(answer.as_slice())),
        },
        Some(Said::Message(_)) | None => CallHashes {
            input: None,
            answer: None,
        },
    }
}

/// The SHA-256 of the bytes.
fn hash_of(bytes: &[u8]) -> [u8; 32]
    ensures { result ≡ sha256 bytes.now }
{
    Sha256::digest(bytes)
}

/// The hashes of a layer, or none if it is not listed.
fn hash_listed(situation: &Situation<'_>, layer: u8) -> LayerHashes
    ensures { result ≡ layer_hashes (listed_layer situation.now.configuration.now layer) }
{
    match situation.listed_layer(layer) {
        Some(listed) => hash_layer(listed),
        None => LayerHashes {
            owner: None,
            code: None,
        },
    }
}

/// The hashes of a layer.
fn hash_layer(layer: &Layer) -> LayerHashes
    ensures { result ≡ record { owner = owner_hash layer.now; code = code_hash layer.now } }
{
    let owner = match &layer.owner {
        Some(owner) => Some(key_hash(owner)),
        None => None,
    };
    let code = match &layer.code {
        Some(code) => Some(code.hash),
        None => None,
    };
    LayerHashes { owner, code }
}

/// Which layers have their owner and their code in the set of a line, and whether the input and the answer of the call
/// are in it; none for a rule.
pub(crate) fn members_of(line: &Line, hashes: &Hashes) -> Members
    ensures { result ≡ members_of_line line.now hashes.now }
{
    match line {
        Line::Set(set) => members_of_set(set, hashes),
        Line::Rule(_) => Members {
            owners: PerLayer {
                one: false,
                two: false,
                three: false,
            },
            codes: PerLayer {
                one: false,
                two: false,
                three: false,
            },
            input: false,
            answer: false,
        },
    }
}

/// Which layers have their owner and their code in a set, and whether the input and the answer of the call are in it.
fn members_of_set(set: &NamedSet, hashes: &Hashes) -> Members
    ensures { result ≡ members_of_set (set_meant set.now) hashes.now }
{
    Members {
        owners: PerLayer {
            one: has_some(set, &hashes.one.owner),
            two: has_some(set, &hashes.two.owner),
            three: has_some(set, &hashes.three.owner),
        },
        codes: PerLayer {
            one: has_some(set, &hashes.one.code),
            two: has_some(set, &hashes.two.code),
            three: has_some(set, &hashes.three.code),
        },
        input: has_some(set, &hashes.call.input),
        answer: has_some(set, &hashes.call.answer),
    }
}

/// Whether there is a hash, and it is in the set.
fn has_some(set: &NamedSet, hash: &Option<[u8; 32]>) -> bool
    ensures { result ≡ some_passes (has_hash (set_meant set.now)) hash.now }
{
    match hash {
        Some(hash) => has_hash(set, hash),
        None => false,
    }
}

/// Whether the hash is in the set.
fn has_hash(set: &NamedSet, hash: &[u8; 32]) -> bool
    ensures { result ≡ has_hash (set_meant set.now) hash.now }
{
    set.hashes
        .as_slice()
        .iter()
        .any(|other| is_same(hash, other))
}

/// Whether two hashes are the same.
fn is_same(hash: &[u8; 32], other: &[u8; 32]) -> bool
    ensures { result ≡ same_bytes hash.now other.now }
{
    hash.as_slice() == other.as_slice()
}
