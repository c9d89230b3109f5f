//! A whole workload.

ghost use Rattle.std.specs.Prelude.{◌+◌, ◌*◌, ◌≤◌, [], length, IfOk};
ghost use Rattle.mb_model.specs.declared.limits.TheConstants.{CODE_LIMIT};
ghost use Rattle.mb_model.specs.owners.Born.{officer_key};
ghost use Rattle.mb_model.specs.signatures.Signing.{public_of};
ghost use Rattle.mb_model.specs.memories.Factory.{IsFactoryImage};
ghost use Rattle.mb_model_commands.specs.Workload.{IsWorkload};
ghost use Rattle.mb_generate.specs.declared.limits.TheConstants.{ROUND_LIMIT};
ghost use Rattle.mb_generate.specs.Drawing.{draws_of};
ghost use Rattle.mb_generate.specs.Orders.{AreOfficers};
ghost use Rattle.mb_generate.specs.Serving.{CanBeServed};
ghost use Rattle.mb_lms.specs.declared.hash_count.TheConstants.{SIGNING_HASHES, TREE_HASHES};

use crate::draws::{Drawn, draw_all};
use crate::officers::Officers;
use crate::script::script_of;
use mb_lms::HashCount;
use mb_model::{Bytes, Keyfile, NoMemory};
use mb_model_commands::Workload;
use mb_officer::{SignEnd, factory, make_key};
use mb_signer::public;
use std::alloc::Global;
use std::sync::ledger::Ledger;

/// Makes the workload of a number, with 1 to 24 rounds: the image of a new device, a script in which officers load each
/// layer in turn, and the noise of the script's commands. It takes at most 350,434 hashes, and 106,419 more a round.
///
/// The script can be read, its noise has 32 bytes for each of its commands, and neither is longer than an input may be.
pub fn workload<L: Ledger>(
    alloc: Global,
    number: u32,
    rounds: u32,
    hashes: &mut HashCount<L>,
) -> Result<Workload, NoMemory>
    requires least { 1 ≤ rounds }
    requires most { rounds ≤ ROUND_LIMIT }
    ensures made { IfOk result (IsWorkload number rounds) }
    ensures served { IfOk result CanBeServed }
    ensures cost { hashes.new ≤ hashes.old + 4 * TREE_HASHES + 6 * SIGNING_HASHES + 3 * SIGNING_HASHES * rounds }
{
    let drawn = draw_all(alloc, number, rounds)?;
    let mut officers = officers_of(&drawn);
    let image = image_of(alloc, &drawn, &officers.one, hashes)?;
    let script = script_of(alloc, &drawn, &mut officers, hashes)?;
    Ok(Workload {
        image: Bytes::from_vec(image),
        script: Bytes::from_vec(script),
        noise: drawn.noise,
    })
}

/// The officers before any of them has signed.
fn officers_of(drawn: &Drawn) -> Officers
    ensures { AreOfficers (draws_of drawn.now) [] result }
{
    Officers {
        one: make_key(&drawn.officer_one),
        two: make_key(&drawn.officer_two),
        three: make_key(&drawn.officer_three),
    }
}

/// The image of a new device, whose layer 1 this officer owns, and whose birth the maker's key signs.
fn image_of<L: Ledger>(
    alloc: Global,
    drawn: &Drawn,
    officer: &Keyfile,
    hashes: &mut HashCount<L>,
) -> Result<Vec<u8>, NoMemory>
    requires { length drawn.now.code_one ≤ CODE_LIMIT }
    ensures image { IfOk result (λ image. IsFactoryImage (officer_key drawn.now.root) 0 (public_of officer.now.seed) drawn.now.code_one drawn.now.factory image.items) }
    ensures cost { hashes.new ≤ hashes.old + 2 * TREE_HASHES + SIGNING_HASHES }
{
    let mut maker = make_key(&drawn.root);
    let owner = public(&officer.seed, hashes);
    let code = drawn.code_one.as_slice();
    match factory(alloc, &mut maker, &owner, code, &drawn.factory, hashes) {
        Ok(image) => Ok(image),
        Err(SignEnd::NoMemory) => Err(NoMemory),
        Err(SignEnd::Spent) => unreachable!(),
        Err(SignEnd::NotCountersignable) => unreachable!(),
    }
}
