//! The text that shows an order.

ghost use Rattle.std.specs.Prelude.{◌≡◌, ◌++◌, ◌∷◌, [], IfOk, OnOk, codes, length, map};
ghost use Rattle.std.specs.String.{string_bytes};
ghost use Rattle.mb_model.specs.outside.Texts.{line_with_lf};
ghost use Rattle.mb_model.specs.records.OrderFormat.{order_format};
ghost use Rattle.mb_model.specs.chains.Lines.{spaced_words, text_of};
ghost use Rattle.mb_model.specs.chains.Drafts.{order_words, version_line};
ghost use Rattle.mb_model.specs.chains.Listing.{number_line};
ghost use Rattle.mb_tools_orders.specs.ShowOrder.{target_line, owner_line, given_trusts_line, code_line, load_lines, act_lines, body_line, countersignature_line, signature_lines, order_shown};

use mb_command::order_body;
use mb_lms::key_hash;
use mb_model::{Act, Bytes, Countersignature, NoMemory, Order, Payload, PublicKey, Target, Trusts};
use mb_verifier::{kind_word, trust_words};
use mb_words::hex_word;
use sha2::{Digest, Sha256};
use std::alloc::Global;

/// What an order says, line by line. The order has a spelling.
pub(crate) fn order_shown(alloc: Global, order: &Order) -> Result<Vec<u8>, NoMemory>
    requires { order_format.Allowed order.now }
    ensures { IfOk result (λ text. text.items ≡ text_of (order_shown order.now)) }
{
    let mut out = first_line(alloc, order)?.into_bytes();
    put_targets(alloc, order.targets.as_slice(), &mut out)?;
    put_act(alloc, &order.act, &mut out)?;
    put_body(alloc, order, &mut out)?;
    put_signature(alloc, &order.signature, &mut out)?;
    put_countersignatures(alloc, order.countersignatures.as_slice(), &mut out)?;
    Ok(out)
}

/// Appends a text.
fn put(out: &mut Vec<u8>, text: &str) -> Result<(), NoMemory>
    ensures { OnOk result (out.new.items ≡ out.old.items ++ text.now) }
{
    out.extend_from_slice(text.as_bytes())?;
    Ok(())
}

/// The line of what is ordered for which layer, with its LF.
fn first_line(alloc: Global, order: &Order) -> Result<String, NoMemory>
    ensures { IfOk result (λ line. string_bytes line ≡ line_with_lf (spaced_words (order_words order.now.act order.now.layer))) }
{
    let layer = order.layer;
    match &order.act {
        Act::Establish { .. } => Ok(format!(in alloc; "order establish {layer}\n")?),
        Act::Surrender => Ok(format!(in alloc; "order surrender {layer}\n")?),
        Act::Load(_) => Ok(format!(in alloc; "order load {layer}\n")?),
        Act::Emergency(_) => Ok(format!(in alloc; "order emergency {layer}\n")?),
        Act::NewKey { kind } => {
            let kind = kind_word(*kind);
            Ok(format!(in alloc; "order newkey {layer} {kind}\n")?)
        }
    }
}

/// Appends the lines of targets.
fn put_targets(alloc: Global, targets: &[Target], out: &mut Vec<u8>) -> Result<(), NoMemory>
    ensures { OnOk result (out.new.items ≡ out.old.items ++ text_of (map target_line targets.now)) }
{
    for target in targets {
        let line = target_line(alloc, target)?;
        put(out, line.as_str())?;
    }
    Ok(())
}

/// The line of a target, with its LF.
fn target_line(alloc: Global, target: &Target) -> Result<String, NoMemory>
    ensures { IfOk result (λ line. string_bytes line ≡ line_with_lf (target_line target.now)) }
{
    match target {
        Target::Serial(serial) => {
            let serial = hex_word(alloc, serial)?;
            Ok(format!(in alloc; "target serial {serial}\n")?)
        }
        Target::Length(length) => Ok(format!(in alloc; "target length {length}\n")?),
        Target::Owner { layer, hash } => {
            let hash = hex_word(alloc, hash)?;
            Ok(format!(in alloc; "target owner {layer} {hash}\n")?)
        }
        Target::Code { layer, hash } => {
            let hash = hex_word(alloc, hash)?;
            Ok(format!(in alloc; "target code {layer} {hash}\n")?)
        }
    }
}

/// Appends the lines of what goes with an act.
fn put_act(alloc: Global, act: &Act, out: &mut Vec<u8>) -> Result<(), NoMemory>
    ensures { OnOk result (out.new.items ≡ out.old.items ++ text_of (act_lines act.now)) }
{
    match act {
        Act::Establish { owner, trust } => put_owner(alloc, owner, *trust, out),
        Act::Load(payload) => put_load(alloc, payload, out),
        Act::Emergency(payload) => put_load(alloc, payload, out),
        Act::Surrender => Ok(()),
        Act::NewKey { .. } => Ok(()),
    }
}

/// Appends the lines of a new owner, and of the trusts that its layer gets.
fn put_owner(
    alloc: Global,
    owner: &PublicKey,
    trust: Trusts,
    out: &mut Vec<u8>,
) -> Result<(), NoMemory>
    ensures { OnOk result (out.new.items ≡ out.old.items ++ text_of (owner_line owner.now ∷ given_trusts_line trust ∷ [])) }
{
    let owner = owner_line(alloc, owner)?;
    put(out, owner.as_str())?;
    let trust = trusts_line(alloc, trust)?;
    put(out, trust.as_str())
}

/// Appends the lines of a load.
fn put_load(alloc: Global, payload: &Payload, out: &mut Vec<u8>) -> Result<(), NoMemory>
    ensures { OnOk result (out.new.items ≡ out.old.items ++ text_of (load_lines payload.now)) }
{
    let version = version_line(alloc, payload.version)?;
    put(out, version.as_str())?;
    let trust = trusts_line(alloc, payload.trust)?;
    put(out, trust.as_str())?;
    let code = code_line(alloc, payload.code.as_slice())?;
    put(out, code.as_str())
}

/// The line of the hash of an owner's key, with its LF.
fn owner_line(alloc: Global, owner: &PublicKey) -> Result<String, NoMemory>
    ensures { IfOk result (λ line. string_bytes line ≡ line_with_lf (owner_line owner.now)) }
{
    let hash = hex_word(alloc, &key_hash(owner))?;
    Ok(format!(in alloc; "owner {hash}\n")?)
}

/// The line of the trusts that an order gives its layer, with its LF.
fn trusts_line(alloc: Global, trusts: Trusts) -> Result<String, NoMemory>
    ensures { IfOk result (λ line. string_bytes line ≡ line_with_lf (given_trusts_line trusts)) }
{
    let words = trust_words(alloc, trusts)?;
    Ok(format!(in alloc; "trust {words}\n")?)
}

/// The line of a version, with its LF.
fn version_line(alloc: Global, version: u32) -> Result<String, NoMemory>
    ensures { IfOk result (λ line. string_bytes line ≡ line_with_lf (version_line version)) }
{
    Ok(format!(in alloc; "version {version}\n")?)
}

/// The line of the hash of code, and of how many bytes it has, with its LF.
fn code_line(alloc: Global, code: &[u8]) -> Result<String, NoMemory>
    ensures { IfOk result (λ line. string_bytes line ≡ line_with_lf (code_line code.now)) }
{
    let hash = hex_word(alloc, &Sha256::digest(code))?;
    let length = code.len();
    Ok(format!(in alloc; "code {hash} {length}\n")?)
}

/// Appends the line of the hash of the body of an order, which has a spelling.
fn put_body(alloc: Global, order: &Order, out: &mut Vec<u8>) -> Result<(), NoMemory>
    requires { order_format.Allowed order.now }
    ensures { OnOk result (out.new.items ≡ out.old.items ++ line_with_lf (body_line order.now)) }
{
    let body = order_body(alloc, order)?;
    let hash = hex_word(alloc, &Sha256::digest(body.as_slice()))?;
    let line = format!(in alloc; "body {hash}\n")?;
    put(out, line.as_str())
}

/// Appends the line of how many bytes the signature of the owner in charge has.
fn put_signature(alloc: Global, signature: &Bytes, out: &mut Vec<u8>) -> Result<(), NoMemory>
    ensures { OnOk result (out.new.items ≡ out.old.items ++ line_with_lf (number_line (codes "signature") (length signature.now))) }
{
    let length = signature.as_slice().len();
    let line = format!(in alloc; "signature {length}\n")?;
    put(out, line.as_str())
}

/// Appends the lines of countersignatures.
fn put_countersignatures(
    alloc: Global,
    list: &[Countersignature],
    out: &mut Vec<u8>,
) -> Result<(), NoMemory>
    ensures { OnOk result (out.new.items ≡ out.old.items ++ text_of (map countersignature_line list.now)) }
{
    for by in list {
        let line = countersignature_line(alloc, by)?;
        put(out, line.as_str())?;
    }
    Ok(())
}

/// The line of a countersignature's layer, and of how many bytes it has, with its LF.
fn countersignature_line(alloc: Global, by: &Countersignature) -> Result<String, NoMemory>
    ensures { IfOk result (λ line. string_bytes line ≡ line_with_lf (countersignature_line by.now)) }
{
    let layer = by.layer;
    let length = by.signature.as_slice().len();
    Ok(format!(in alloc; "countersignature {layer} {length}\n")?)
}
