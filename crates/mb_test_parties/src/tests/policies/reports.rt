//! Reports, and what a policy comes to for each.

ghost use Rattle.std.specs.Prelude.{◌≤◌, length};

use hex::FromHex;
use mb_lms::parse_key;
use mb_model::{
    Bytes, CodeName, Configuration, KeyKind, Layer, Layers, Lives, NoMemory, Report, Said, Trust,
    Trusts,
};
use mb_policy::{Judgement, PolicyEnd, judge_report, read_policy};
use std::alloc::Global;
use std::test::Fail;

/// What a policy is expected to come to.
#[derive(Clone, Copy)]
pub enum Expected {
    Allowed,
    /// The number of the configuration, and the name of the rule.
    Denied(u32, &'static str),
    /// The first line that is wrong.
    Line(u32),
}

/// The owners of layers 1 to 3.
const OWNERS: [&str; 3] = [
    "0000000500000003177259b19ada0342a2cb752604d98547d14648e7ab80ded61fed0bd8fafb46f1fe1f4763bc7f99415c15143811e919\
     fc",
    "0000000500000003de54c29e73641fd3240a8214a89021464f2df24d4d5f731814fefea7e51c0ca55ddd0a28b534e8ef32e672f89ec4f5\
     8e",
    "0000000500000003b93a09dad5710b99d3fd5051cbb42be4e4fb532b7b35fc984bd85773624d7bb3a3ace116cbac3388954b275d143883\
     94",
];

/// The hash of the code with which the device leaves its maker.
const FIRST_CODE: &str = "f191e625176e7514249870c60bc24622131b04927a418001d1969c9cecd260f1";

/// The hash of the code of each layer afterwards.
const CODE: &str = "ba7816bf8f01cfea414140de5dae2223b00361a396177a9cb410ff61f20015ad";

/// A reliable layer with this owner, code of version 1, and trust.
fn layer(owner: &str, code: &str, trust: Trust) -> Result<Layer, Fail> {
    Ok(Layer {
        owner: parse_key(&<[u8; 56] as FromHex>::from_hex(owner)?),
        code: Some(CodeName {
            hash: <[u8; 32] as FromHex>::from_hex(code)?,
            version: 1,
        }),
        reliable: true,
        trust: Trusts::equal(trust),
    })
}

/// A configuration of the key, with this layer 1.
fn configuration(number: u32, one: Layer) -> Result<Configuration, Fail> {
    Ok(Configuration {
        number,
        upto: 3,
        layers: Layers {
            one,
            two: layer(OWNERS[1], CODE, Trust::Countersigned)?,
            three: layer(OWNERS[2], CODE, Trust::Countersigned)?,
        },
    })
}

/// The report on the key that is alive.
pub fn report(alloc: Global) -> Result<Report, Fail> {
    let first = layer(OWNERS[0], FIRST_CODE, Trust::Always)?;
    let later = layer(OWNERS[0], CODE, Trust::Countersigned)?;
    let mut lives = Lives::new(alloc);
    lives.push(configuration(4, first)?)?;
    lives.push(configuration(5, later)?)?;
    lives.push(configuration(6, later)?)?;
    Ok(Report {
        layer: 3,
        kind: KeyKind::Epoch,
        alive: true,
        lives,
        entries: 8,
        said: None,
    })
}

/// A key with a report.
#[derive(Clone, Copy)]
pub enum Whose {
    /// An epoch key of layer 3 that is alive, and lived in configurations 4 to 6.
    Living,
    /// An epoch key of layer 3 that has ended. It lived in configuration 7, where layer 2 is not reliable, in 8, where
    /// that layer has no code, and in 9, where it has no owner either.
    Ended,
    /// A configuration key of layer 2 that is alive, and lived in configuration 5. Layer 3 is not listed there, and the
    /// chain has a statement of a message.
    Configured,
    /// The key of `Configured`, whose chain has the statement of a call.
    Called,
    /// The key of `Configured`, whose chain has a statement of a message that is the hash of the call's input.
    Hashed,
}

/// A configuration of a key that has ended, with this layer 2.
fn weakened(number: u32, two: Layer) -> Result<Configuration, Fail> {
    let whole = configuration(number, layer(OWNERS[0], CODE, Trust::Countersigned)?)?;
    Ok(Configuration {
        layers: Layers {
            two,
            ..whole.layers
        },
        ..whole
    })
}

/// The report on the key that has ended.
fn ended(alloc: Global) -> Result<Report, Fail> {
    let whole = layer(OWNERS[1], CODE, Trust::Countersigned)?;
    let unreliable = Layer {
        reliable: false,
        ..whole
    };
    let bare = Layer {
        code: None,
        ..unreliable
    };
    let mut lives = Lives::new(alloc);
    lives.push(weakened(7, unreliable)?)?;
    lives.push(weakened(8, bare)?)?;
    lives.push(weakened(9, Layer::unowned())?)?;
    Ok(Report {
        layer: 3,
        kind: KeyKind::Epoch,
        alive: false,
        lives,
        entries: 12,
        said: None,
    })
}

/// The report on the configuration key, whose chain has a statement that says this.
fn configured(alloc: Global, said: Said) -> Result<Report, Fail> {
    let whole = configuration(5, layer(OWNERS[0], CODE, Trust::Countersigned)?)?;
    let mut lives = Lives::new(alloc);
    lives.push(Configuration {
        upto: 2,
        layers: Layers {
            three: Layer::unowned(),
            ..whole.layers
        },
        ..whole
    })?;
    Ok(Report {
        layer: 2,
        kind: KeyKind::Configuration,
        alive: true,
        lives,
        entries: 9,
        said: Some(said),
    })
}

/// The SHA-256 of `an input`.
pub const INPUT: &str = "4fddb6e92a8333684779335007eda9426ddd8ea849ce4ab7c8340016d9d9d89a";

/// The answer `abc` of a call with the input `an input`. The SHA-256 of the answer is that of the later code.
fn called(alloc: Global) -> Result<Said, Fail> {
    Ok(Said::Answer {
        input: <[u8; 32] as FromHex>::from_hex(INPUT)?,
        answer: Bytes::copy(alloc, b"abc")?,
    })
}

/// The message of 32 bytes that are the SHA-256 of `an input`.
fn message_of_a_hash(alloc: Global) -> Result<Said, Fail> {
    let hash = <[u8; 32] as FromHex>::from_hex(INPUT)?;
    Ok(Said::Message(Bytes::copy(alloc, &hash)?))
}

/// The report on this key.
pub fn report_on(alloc: Global, whose: Whose) -> Result<Report, Fail> {
    match whose {
        Whose::Living => report(alloc),
        Whose::Ended => ended(alloc),
        Whose::Configured => configured(alloc, Said::Message(Bytes::copy(alloc, b"today")?)),
        Whose::Called => configured(alloc, called(alloc)?),
        Whose::Hashed => configured(alloc, message_of_a_hash(alloc)?),
    }
}

/// Whether the judgement is this.
fn is_judged(judgement: &Judgement, expected: Expected) -> bool {
    match (judgement, expected) {
        (Judgement::Allowed, Expected::Allowed) => true,
        (Judgement::Denied { number, rule }, Expected::Denied(configuration, name)) => {
            *number == configuration && rule.as_slice() == name.as_bytes()
        }
        _ => false,
    }
}

/// Whether the policy of a text comes to this.
pub fn comes_to(
    alloc: Global,
    report: &Report,
    text: &[u8],
    expected: Expected,
) -> Result<bool, Fail>
    requires { length text.now ≤ 4194304 }
{
    match read_policy(alloc, text) {
        Ok(policy) => Ok(is_judged(&judge_report(alloc, &policy, report)?, expected)),
        Err(PolicyEnd::BadLine { line }) => Ok(match expected {
            Expected::Line(first) => line == first,
            _ => false,
        }),
        Err(PolicyEnd::NoMemory) => Err(NoMemory.into()),
    }
}
