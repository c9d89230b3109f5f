//! The draft of an order, read line by line.

ghost use Rattle.std.specs.Prelude.{◌≡◌, ◌≤◌, ◌++◌, [], List, length, codes, IfOk, MatchOption, None, Some};
ghost use Rattle.std.specs.Fmt.{decimal};
ghost use Rattle.mb_model.specs.declared.limits.TheConstants.{FILE_LIMIT};
ghost use Rattle.mb_model.specs.declared.order.OrderKind.TheVariants.{Surrender};
ghost use Rattle.mb_model.specs.owners.Rules.{MayBeFor};
ghost use Rattle.mb_model.specs.chains.Drafts.{kind_word, IsDraft};
ghost use Rattle.mb_model.specs.records.OrderFormat.{order_format};
ghost use Rattle.mb_words.specs.Words.{FindsSome, ReadsTextOf};
ghost use Rattle.mb_officer.specs.Drafting.{IsHeading, load_act, drafted, IsSoundDraft, SaysRest, TellsNext, AddsTarget, IsFirst};

use crate::words::{
    read_code, read_layer, read_owner, read_target, read_trusts, read_version, split_layer,
};
use mb_model::{
    Act, Bytes, Countersignatures, KeyKind, NoMemory, Order, Payload, PublicKey, TARGET_LIMIT,
    Target, Targets, Trusts,
};
use mb_words::{NotSaid, TextEnd, after_word, split_line};
use std::alloc::Global;

/// Why a draft was not read: a line is not in the grammar, or the text ends too early; or an allocation failed.
pub type DraftEnd = TextEnd;

/// One of the two kinds of loads.
#[derive(Clone, Copy, Debug, PartialEq, Eq)]
pub(crate) enum Loading {
    Ordinary,
    Emergency,
}

/// What the first line of a draft orders.
#[derive(Clone, Copy, PartialEq, Eq)]
pub(crate) enum Kind {
    Establish,
    Surrender,
    Load(Loading),
    NewKey(KeyKind),
}

/// What the lines of a draft up to some line say, besides the targets.
#[derive(Drop)]
pub(crate) enum Said {
    /// No line has been read.
    Nothing,
    /// The first line, and targets.
    Heading {
        kind: Kind,
        layer: u8,
    },
    /// The lines up to the new owner.
    Owner {
        layer: u8,
        owner: PublicKey,
    },
    /// The lines up to the version of the code.
    Version {
        loading: Loading,
        layer: u8,
        version: u32,
    },
    /// The lines up to the trusts.
    Trust {
        loading: Loading,
        layer: u8,
        version: u32,
        trust: Trusts,
    },
    /// All lines.
    All {
        layer: u8,
        act: Act,
    },
}

/// Reads the order of a draft of at most 4,194,304 bytes. Its signature is empty, and it has no countersignatures.
///
/// Errors: `BadLine` with the first line that is not in the grammar, or with the line after the last if the text ends
/// too early, and `NoMemory`.
pub fn read_draft(alloc: Global, text: &[u8]) -> Result<Order, DraftEnd>
    requires { length text.now ≤ FILE_LIMIT }
    ensures read { ReadsTextOf IsDraft text.now result }
    ensures spelled { IfOk result (λ order. order_format.Allowed order) }
{
    let mut said = Said::Nothing;
    let mut targets = Targets::new(alloc);
    let mut number: u32 = 1;
    let mut rest = text;
    while !rest.is_empty() {
        let (line, later) = split_line(rest);
        match read_line(alloc, said, &mut targets, line) {
            Ok(next) => said = next,
            Err(NotSaid::Form) => return Err(DraftEnd::BadLine { line: number }),
            Err(NotSaid::NoMemory) => return Err(DraftEnd::NoMemory),
        }
        number += 1;
        rest = later;
    }
    match finish(alloc, said, targets) {
        Some(order) => Ok(order),
        None => Err(DraftEnd::BadLine { line: number }),
    }
}

/// The order of a draft whose lines are all read; `None` if lines are missing.
fn finish(alloc: Global, said: Said, targets: Targets) -> Option<Order>
    requires { IsSoundDraft said targets }
    ensures { FindsSome (SaysRest said targets []) result }
{
    match said {
        Said::Heading { kind, layer } => match kind {
            Kind::Surrender => Some(unsigned(alloc, layer, targets, Act::Surrender)),
            Kind::NewKey(kind) => Some(unsigned(alloc, layer, targets, Act::NewKey { kind })),
            Kind::Establish => None,
            Kind::Load(_) => None,
        },
        Said::All { layer, act } => Some(unsigned(alloc, layer, targets, act)),
        Said::Nothing => None,
        Said::Owner { .. } => None,
        Said::Version { .. } => None,
        Said::Trust { .. } => None,
    }
}

/// An order that nobody has signed.
fn unsigned(alloc: Global, layer: u8, targets: Targets, act: Act) -> Order
    ensures { result ≡ drafted layer targets act }
{
    Order {
        layer,
        targets,
        act,
        signature: Bytes::from_vec(Vec::new(alloc)),
        countersignatures: Countersignatures::new(alloc),
    }
}

/// Reads one more line of a draft.
fn read_line(alloc: Global, said: Said, targets: &mut Targets, line: &[u8]) -> Result<Said, NotSaid>
    requires { IsSoundDraft said targets.old }
    ensures { TellsNext said targets.old line.now result targets.new }
{
    match said {
        Said::Nothing => {
            let Some((kind, layer)) = read_heading(line) else {
                return Err(NotSaid::Form);
            };
            Ok(Said::Heading { kind, layer })
        }
        Said::Heading { kind, layer } => match read_target(line) {
            Some(target) => add_target(kind, layer, targets, target),
            None => read_first(kind, layer, line).ok_or(NotSaid::Form),
        },
        Said::Owner { layer, owner } => end_establish(layer, owner, line),
        Said::Version {
            loading,
            layer,
            version,
        } => trust_load(loading, layer, version, line),
        Said::Trust {
            loading,
            layer,
            version,
            trust,
        } => {
            let code = read_code(alloc, line)?;
            let act = load_of(loading, version, trust, code);
            Ok(Said::All { layer, act })
        }
        Said::All { .. } => Err(NotSaid::Form),
    }
}

/// Reads the trusts of an establish, which end its draft.
fn end_establish(layer: u8, owner: PublicKey, line: &[u8]) -> Result<Said, NotSaid>
    ensures { (targets : List Target) → IsSoundDraft (Said.Owner layer owner) targets → TellsNext (Said.Owner layer owner) targets line.now result targets }
{
    match read_trusts(line) {
        Some(trust) => Ok(Said::All {
            layer,
            act: Act::Establish { owner, trust },
        }),
        None => Err(NotSaid::Form),
    }
}

/// Reads the trusts of a load.
fn trust_load(loading: Loading, layer: u8, version: u32, line: &[u8]) -> Result<Said, NotSaid>
    ensures { (targets : List Target) → IsSoundDraft (Said.Version loading layer version) targets → TellsNext (Said.Version loading layer version) targets line.now result targets }
{
    match read_trusts(line) {
        Some(trust) => Ok(Said::Trust {
            loading,
            layer,
            version,
            trust,
        }),
        None => Err(NotSaid::Form),
    }
}

/// Adds a target to those of a draft, unless there are already as many as an order may have.
fn add_target(kind: Kind, layer: u8, targets: &mut Targets, target: Target) -> Result<Said, NotSaid>
    ensures { AddsTarget kind layer targets.old target result targets.new }
{
    if targets.as_slice().len() == TARGET_LIMIT as usize {
        return Err(NotSaid::Form);
    }
    targets.push(target)?;
    Ok(Said::Heading { kind, layer })
}

/// Reads the first line after the targets.
fn read_first(kind: Kind, layer: u8, line: &[u8]) -> Option<Said>
    ensures { FindsSome (IsFirst kind layer line.now) result }
{
    match kind {
        Kind::Establish => match read_owner(line) {
            Some(owner) => Some(Said::Owner { layer, owner }),
            None => None,
        },
        Kind::Load(loading) => match read_version(line) {
            Some(version) => Some(Said::Version {
                loading,
                layer,
                version,
            }),
            None => None,
        },
        Kind::Surrender => None,
        Kind::NewKey(_) => None,
    }
}

/// A load of this kind.
fn load_of(loading: Loading, version: u32, trust: Trusts, code: Bytes) -> Act
    ensures { result ≡ load_act loading version trust code }
{
    let payload = Payload {
        version,
        trust,
        code,
    };
    match loading {
        Loading::Ordinary => Act::Load(payload),
        Loading::Emergency => Act::Emergency(payload),
    }
}

/// Reads the first line of a draft: what is ordered, and the layer.
fn read_heading(line: &[u8]) -> Option<(Kind, u8)>
    ensures { FindsSome (λ heading. IsHeading line.now heading.0 heading.1) result }
{
    let Some(words) = after_word(line, b"order ") else {
        return None;
    };
    if let Some(word) = after_word(words, b"establish ") {
        return with_layer(Kind::Establish, read_upper(word));
    }
    if let Some(word) = after_word(words, b"surrender ") {
        return with_layer(Kind::Surrender, read_upper(word));
    }
    if let Some(word) = after_word(words, b"load ") {
        return with_layer(Kind::Load(Loading::Ordinary), read_layer(word));
    }
    if let Some(word) = after_word(words, b"emergency ") {
        return with_layer(Kind::Load(Loading::Emergency), read_upper(word));
    }
    match after_word(words, b"newkey ") {
        Some(words) => read_key(words),
        None => None,
    }
}

/// The pair of what is ordered and the layer; `None` without a layer.
fn with_layer(kind: Kind, layer: Option<u8>) -> Option<(Kind, u8)>
    ensures { MatchOption layer (result ≡ None) (λ n. result ≡ Some (kind, n)) }
{
    match layer {
        Some(layer) => Some((kind, layer)),
        None => None,
    }
}

/// Reads a layer, 2 or 3, from a whole word.
fn read_upper(word: &[u8]) -> Option<u8>
    ensures { FindsSome (λ layer. MayBeFor Surrender layer × (word.now ≡ decimal layer)) result }
{
    if word == b"2".as_slice() {
        Some(2)
    } else if word == b"3".as_slice() {
        Some(3)
    } else {
        None
    }
}

/// Reads the first line of an order of a new key without its first two words: the kind of key, and the layer, 2 or 3.
fn read_key(words: &[u8]) -> Option<(Kind, u8)>
    ensures { FindsSome (λ heading. IsHeading (codes "order newkey " ++ words.now) heading.0 heading.1) result }
{
    let Some((layer, word)) = split_layer(words) else {
        return None;
    };
    if layer == 1 {
        return None;
    }
    match read_kind(word) {
        Some(kind) => Some((Kind::NewKey(kind), layer)),
        None => None,
    }
}

/// Reads a kind of key from a whole word.
fn read_kind(word: &[u8]) -> Option<KeyKind>
    ensures { FindsSome (λ kind. word.now ≡ kind_word kind) result }
{
    if word == b"epoch".as_slice() {
        Some(KeyKind::Epoch)
    } else if word == b"configuration".as_slice() {
        Some(KeyKind::Configuration)
    } else {
        None
    }
}
