//! The script of a workload.

ghost use Rattle.std.specs.Prelude.{◌≡◌, ◌+◌, ◌-◌, ◌*◌, ◌≤◌, ◌<◌, ◌++◌, [], length, IfOk, OnOk};
ghost use Rattle.mb_model.specs.declared.limits.TheConstants.{CODE_LIMIT, KEY_USES};
ghost use Rattle.mb_model.specs.declared.key.Trust.TheVariants.{Countersigned};
ghost use Rattle.mb_model.specs.owners.Layers.{equal_trusts};
ghost use Rattle.mb_model.specs.declared.order.Act.TheVariants as act;
ghost use Rattle.mb_model.specs.signatures.Signing.{public_of};
ghost use Rattle.mb_model.specs.outside.Texts.{line_with_lf};
ghost use Rattle.mb_model.specs.chains.Lines.{text_of};
ghost use Rattle.mb_model.specs.records.OrderFormat.{order_format};
ghost use Rattle.mb_model.specs.chains.OrderLines.{order_line};
ghost use Rattle.mb_model.specs.machine.SignedOrders.{keyfile_after_use, signed_order};
ghost use Rattle.mb_model_commands.specs.Workload.{first_plans, put_line, workload_lines};
ghost use Rattle.mb_generate.specs.declared.limits.TheConstants.{ROUND_LIMIT};
ghost use Rattle.mb_generate.specs.Drawing.{round_of, draws_of};
ghost use Rattle.mb_generate.specs.Orders.{AreOfficers, HaveUsed, DrawsFit};
ghost use Rattle.mb_generate.specs.Scripts.{puts_text, first_orders_text, sign_line, AppendsRound, SignsRound};
ghost use Rattle.mb_lms.specs.declared.hash_count.TheConstants.{SIGNING_HASHES, TREE_HASHES};

use crate::draws::{Drawn, RoundDrawn};
use crate::officers::{Officers, load_of, round_order, sign, targeted};
use mb_lms::HashCount;
use mb_model::{Act, Bytes, KeyKind, Keyfile, NoMemory, Order, Trust, Trusts};
use mb_officer::write_order_line;
use mb_signer::public;
use mb_words::hex_word;
use std::alloc::Global;
use std::sync::ledger::Ledger;

/// The text of the script, in which the officers give their orders. None of them has signed before.
pub(crate) fn script_of<L: Ledger>(
    alloc: Global,
    drawn: &Drawn,
    officers: &mut Officers,
    hashes: &mut HashCount<L>,
) -> Result<Vec<u8>, NoMemory>
    requires rounds { length drawn.now.rounds ≤ ROUND_LIMIT }
    requires fit { DrawsFit (draws_of drawn.now) }
    requires officers { AreOfficers (draws_of drawn.now) [] officers.old }
    ensures text { IfOk result (λ script. script.items ≡ text_of (workload_lines (draws_of drawn.now))) }
    ensures cost { hashes.new ≤ hashes.old + 2 * TREE_HASHES + 5 * SIGNING_HASHES + 3 * SIGNING_HASHES * length drawn.now.rounds }
{
    let mut script = Vec::new(alloc);
    script.extend_from_slice(b"boot\n")?;
    put_first_orders(alloc, drawn, officers, &mut script, hashes)?;
    let mut number = 1;
    for round in drawn.rounds.as_slice() {
        put_round(alloc, number, round, officers, &mut script, hashes)?;
        number += 1;
    }
    script.extend_from_slice(b"off\n")?;
    Ok(script)
}

/// Appends the orders before the rounds: layers 2 and 3 get their owners and their first code, and layer 3 a key.
fn put_first_orders<L: Ledger>(
    alloc: Global,
    drawn: &Drawn,
    officers: &mut Officers,
    script: &mut Vec<u8>,
    hashes: &mut HashCount<L>,
) -> Result<(), NoMemory>
    requires fit { DrawsFit (draws_of drawn.now) }
    requires officers { AreOfficers (draws_of drawn.now) [] officers.old }
    ensures text { OnOk result (script.new.items ≡ script.old.items ++ first_orders_text (draws_of drawn.now)) }
    ensures officers { OnOk result (AreOfficers (draws_of drawn.now) (first_plans (draws_of drawn.now)) officers.new) }
    ensures used { OnOk result (HaveUsed 6 officers.new) }
    ensures cost { hashes.new ≤ hashes.old + 2 * TREE_HASHES + 5 * SIGNING_HASHES }
{
    let two = establish_of(&officers.two, hashes);
    let three = establish_of(&officers.three, hashes);
    let code_two = load_of(alloc, 1, drawn.code_two.as_slice())?;
    let code_three = load_of(alloc, 1, drawn.code_three.as_slice())?;
    let key = Act::NewKey {
        kind: KeyKind::Epoch,
    };
    put_order(
        alloc,
        &mut officers.one,
        targeted(alloc, 2, 1, two)?,
        script,
        hashes,
    )?;
    put_order(
        alloc,
        &mut officers.two,
        targeted(alloc, 3, 2, three)?,
        script,
        hashes,
    )?;
    let two = targeted(alloc, 2, 3, Act::Emergency(code_two))?;
    put_order(alloc, &mut officers.one, two, script, hashes)?;
    let three = targeted(alloc, 3, 4, Act::Emergency(code_three))?;
    put_order(alloc, &mut officers.two, three, script, hashes)?;
    put_order(
        alloc,
        &mut officers.three,
        targeted(alloc, 3, 5, key)?,
        script,
        hashes,
    )
}

/// The act that makes this officer the owner of a layer, which then trusts countersigned changes.
fn establish_of<L: Ledger>(officer: &Keyfile, hashes: &mut HashCount<L>) -> Act
    ensures act { result ≡ act.Establish (public_of officer.now.seed) (equal_trusts Countersigned) }
    ensures cost { hashes.new ≡ hashes.old + TREE_HASHES }
{
    Act::Establish {
        owner: public(&officer.seed, hashes),
        trust: Trusts::equal(Trust::Countersigned),
    }
}

/// Signs an order with the officer's key, and appends its line.
fn put_order<L: Ledger>(
    alloc: Global,
    officer: &mut Keyfile,
    order: Order,
    script: &mut Vec<u8>,
    hashes: &mut HashCount<L>,
) -> Result<(), NoMemory>
    requires left { officer.old.next < KEY_USES }
    requires spelled { order_format.Allowed order }
    ensures text { OnOk result (script.new.items ≡ script.old.items ++ line_with_lf (order_line (signed_order officer.old order))) }
    ensures used { OnOk result (officer.new ≡ keyfile_after_use officer.old) }
    ensures cost { hashes.new ≤ hashes.old + SIGNING_HASHES }
{
    let mut order = order;
    sign(alloc, officer, &mut order, hashes)?;
    let line = write_order_line(alloc, &order)?;
    script.extend_from_slice(line.as_slice())?;
    Ok(())
}

/// Appends the lines of round `number`, from 1.
fn put_round<L: Ledger>(
    alloc: Global,
    number: u32,
    round: &RoundDrawn,
    officers: &mut Officers,
    script: &mut Vec<u8>,
    hashes: &mut HashCount<L>,
) -> Result<(), NoMemory>
    requires least { 1 ≤ number }
    requires most { number ≤ ROUND_LIMIT }
    requires fits { length round.now.code ≤ CODE_LIMIT }
    requires used { HaveUsed (5 + number) officers.old }
    requires values { length round.now.values ≤ 4 }
    ensures text { OnOk result (AppendsRound number (round_of round.now) officers.old script.old.items script.new.items) }
    ensures officers { OnOk result (SignsRound number (round_of round.now) officers.old officers.new) }
    ensures used { OnOk result (HaveUsed (6 + number) officers.new) }
    ensures cost { hashes.new ≤ hashes.old + 3 * SIGNING_HASHES }
{
    let order = round_order(alloc, number, round.code.as_slice(), officers, hashes)?;
    let line = write_order_line(alloc, &order)?;
    script.extend_from_slice(b"off\nboot\n")?;
    script.extend_from_slice(line.as_slice())?;
    script.extend_from_slice(b"go\ngo\n")?;
    put_secrets(alloc, 4 * (number - 1), round.values.as_slice(), script)?;
    put_statement(alloc, round.message.as_slice(), script)
}

/// Appends a line for each secret; the first is put after `n` others.
fn put_secrets(
    alloc: Global,
    n: u32,
    values: &[Bytes],
    script: &mut Vec<u8>,
) -> Result<(), NoMemory>
    requires n { n ≤ 92 }
    requires values { length values.now ≤ 4 }
    ensures { OnOk result (script.new.items ≡ script.old.items ++ puts_text n values.now) }
{
    let mut number = n;
    for value in values {
        put_secret(alloc, number, value.as_slice(), script)?;
        number += 1;
    }
    Ok(())
}

/// Appends the line of a secret that is put after `n` others.
fn put_secret(alloc: Global, n: u32, value: &[u8], script: &mut Vec<u8>) -> Result<(), NoMemory>
    ensures { OnOk result (script.new.items ≡ script.old.items ++ line_with_lf (put_line n value.now)) }
{
    let word = hex_word(alloc, value)?;
    let digits = [b'0' + (n % 16 / 10) as u8, b'0' + (n % 16 % 10) as u8];
    script.extend_from_slice(b"put 3 s")?;
    script.extend_from_slice(&digits)?;
    script.extend_from_slice(b" ")?;
    script.extend_from_slice(word.as_bytes())?;
    script.extend_from_slice(b"\n")?;
    Ok(())
}

/// Appends the line that has key 1 of layer 3 sign the message.
fn put_statement(alloc: Global, message: &[u8], script: &mut Vec<u8>) -> Result<(), NoMemory>
    ensures { OnOk result (script.new.items ≡ script.old.items ++ line_with_lf (sign_line message.now)) }
{
    let word = hex_word(alloc, message)?;
    script.extend_from_slice(b"sign 3 1 ")?;
    script.extend_from_slice(word.as_bytes())?;
    script.extend_from_slice(b"\n")?;
    Ok(())
}
