//! What an order does.

ghost use Rattle.std.specs.Prelude.{◌≡◌, ◌+◌, ◌≤◌, not, length};
ghost use Rattle.mb_model.specs.declared.limits.TheConstants.{CODE_LIMIT};
ghost use Rattle.mb_model.specs.owners.Rules.{kind_of};
ghost use Rattle.std.specs.Int.{w8};
ghost use Rattle.mb_format.specs.Combinators.{listed};
ghost use Rattle.mb_model.specs.owners.Layers.{are_equal};
ghost use Rattle.mb_model.specs.records.LayerFormat.{trust_byte};
ghost use Rattle.mb_model.specs.records.OrderFormat.{other_rows, differing_trusts, given_trusts, differs_in, payload_format, act_by};
ghost use Rattle.mb_bytes.specs.Reads.{bad_at, Reads};
ghost use Rattle.mb_bytes.specs.Puts.{Puts};
ghost use Rattle.mb_bytes.specs.Ends.{end_at};
ghost use Rattle.mb_command.specs.Writing.{HasShortCode};

use crate::end::OrderEnd;
use mb_bytes::{
    Cursor, bytes_after_u32, key_kind_at, one_trust_at, public_key_at, put_after_u32, put_key_kind,
    put_public_key, put_trust, put_u32, trust_at,
};
use mb_model::{
    Act, BadRecord, Bytes, CODE_LIMIT, NoMemory, OrderForm, OrderKind, Payload, Trust, Trusts,
};
use std::alloc::Global;

/// Reads a trust other than this one.
pub fn other_trust_at(cursor: &mut Cursor, one: Trust) -> Result<Trust, BadRecord>
    ensures { Reads bad_at (listed w8 (other_rows one) trust_byte) cursor.old result cursor.new }
{
    let at = cursor.offset();
    match (one, cursor.take_u8()?) {
        (Trust::Never | Trust::Countersigned, 0) => Ok(Trust::Always),
        (Trust::Always | Trust::Countersigned, 1) => Ok(Trust::Never),
        (Trust::Always | Trust::Never, 2) => Ok(Trust::Countersigned),
        _ => Err(BadRecord { at }),
    }
}

/// Reads two trusts that differ.
fn differing_trusts_at(cursor: &mut Cursor) -> Result<Trusts, BadRecord>
    ensures { Reads bad_at differing_trusts cursor.old result cursor.new }
{
    let one = trust_at(cursor)?;
    let two = other_trust_at(cursor, one)?;
    Ok(Trusts { one, two })
}

/// Reads the trusts that an act gives its layer: one trust if they are equal, else both.
fn given_trusts_at(cursor: &mut Cursor, differs: bool) -> Result<Trusts, BadRecord>
    ensures { Reads bad_at (given_trusts differs) cursor.old result cursor.new }
{
    if differs {
        differing_trusts_at(cursor)
    } else {
        one_trust_at(cursor)
    }
}

#[tactic(auto, unfolding(mb_model::specs::records::OrderFormat::payload_format))]
fn payload_at(alloc: Global, cursor: &mut Cursor, differs: bool) -> Result<Payload, OrderEnd>
    ensures { Reads end_at (payload_format differs) cursor.old result cursor.new }
{
    let version = cursor.take_u32()?;
    let trust = given_trusts_at(cursor, differs)?;
    let code = bytes_after_u32(cursor, 0, CODE_LIMIT)?;
    Ok(Payload {
        version,
        trust,
        code: Bytes::copy(alloc, code)?,
    })
}

fn establish_at(cursor: &mut Cursor, differs: bool) -> Result<Act, OrderEnd>
    ensures { Reads end_at (act_by OrderKind.Establish differs) cursor.old result cursor.new }
{
    let owner = public_key_at(cursor)?;
    let trust = given_trusts_at(cursor, differs)?;
    Ok(Act::Establish { owner, trust })
}

fn load_at(alloc: Global, cursor: &mut Cursor, differs: bool) -> Result<Act, OrderEnd>
    ensures { Reads end_at (act_by OrderKind.Load differs) cursor.old result cursor.new }
{
    Ok(Act::Load(payload_at(alloc, cursor, differs)?))
}

fn emergency_at(alloc: Global, cursor: &mut Cursor, differs: bool) -> Result<Act, OrderEnd>
    ensures { Reads end_at (act_by OrderKind.Emergency differs) cursor.old result cursor.new }
{
    Ok(Act::Emergency(payload_at(alloc, cursor, differs)?))
}

fn new_key_at(cursor: &mut Cursor, differs: bool) -> Result<Act, OrderEnd>
    ensures { Reads end_at (act_by OrderKind.NewKey differs) cursor.old result cursor.new }
{
    let kind = key_kind_at(cursor)?;
    Ok(Act::NewKey { kind })
}

/// Reads what an order of the form does.
pub fn act_at(alloc: Global, cursor: &mut Cursor, form: OrderForm) -> Result<Act, OrderEnd>
    ensures { Reads end_at (act_by form.kind form.differs) cursor.old result cursor.new }
{
    match form.kind {
        OrderKind::Establish => establish_at(cursor, form.differs),
        OrderKind::Surrender => Ok(Act::Surrender),
        OrderKind::Load => load_at(alloc, cursor, form.differs),
        OrderKind::Emergency => emergency_at(alloc, cursor, form.differs),
        OrderKind::NewKey => new_key_at(cursor, form.differs),
    }
}

/// Appends the trusts that an act gives its layer: one trust if they are equal, else both.
#[tactic(auto, unfolding(mb_model::specs::records::LayerFormat::trust_format))]
fn put_given(out: &mut Vec<u8>, trusts: Trusts, differs: bool) -> Result<(), NoMemory>
    ensures { Puts ((given_trusts differs).spelling trusts) out.old result out.new }
{
    put_trust(out, trusts.one)?;
    if !differs {
        return Ok(());
    }
    put_trust(out, trusts.two)
}

#[tactic(auto, unfolding(mb_model::specs::records::OrderFormat::payload_format))]
fn put_payload(out: &mut Vec<u8>, payload: &Payload) -> Result<(), NoMemory>
    requires { length payload.now.code ≤ CODE_LIMIT }
    ensures { Puts ((payload_format (not (are_equal payload.now.trust))).spelling payload.now) out.old result out.new }
{
    put_u32(out, payload.version)?;
    put_given(out, payload.trust, !payload.trust.are_equal())?;
    put_after_u32(out, payload.code.as_slice())
}

/// Appends what an order does.
pub fn put_act(out: &mut Vec<u8>, act: &Act) -> Result<(), NoMemory>
    requires { HasShortCode act.now }
    ensures { Puts ((act_by (kind_of act.now) (differs_in act.now)).spelling act.now) out.old result out.new }
{
    match act {
        Act::Establish { owner, trust } => {
            put_public_key(out, owner)?;
            put_given(out, *trust, !trust.are_equal())
        }
        Act::Surrender => Ok(()),
        Act::Load(payload) | Act::Emergency(payload) => put_payload(out, payload),
        Act::NewKey { kind } => put_key_kind(out, *kind),
    }
}

/// The length of the trusts that an act gives its layer, in bytes.
#[tactic(auto, using(crate::proofs::Lengths::one_given, crate::proofs::Lengths::two_given))]
fn given_length(trusts: Trusts) -> u32
    ensures length { result ≡ length ((given_trusts (not (are_equal trusts))).spelling trusts) }
    ensures most { result ≤ 2 }
{
    if trusts.are_equal() { 1 } else { 2 }
}

/// The length of what an order does, in bytes.
#[tactic(auto, unfolding(mb_model::specs::records::OrderFormat::payload_format))]
pub fn act_length(act: &Act) -> u32
    requires { (act_by (kind_of act.now) (differs_in act.now)).Allowed act.now }
    ensures length { result ≡ length ((act_by (kind_of act.now) (differs_in act.now)).spelling act.now) }
    ensures most { result ≤ 32778 }
{
    match act {
        Act::Establish { trust, .. } => 56 + given_length(*trust),
        Act::Surrender => 0,
        Act::Load(payload) | Act::Emergency(payload) => {
            8 + given_length(payload.trust) + payload.code.as_slice().len() as u32
        }
        Act::NewKey { .. } => 1,
    }
}
