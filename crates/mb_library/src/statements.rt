//! Chains, and what the statement of one that is accepted says.

ghost use Rattle.std.specs.Prelude.{◌≤◌, length};
ghost use Rattle.mb_model.specs.declared.limits.TheConstants.{FILE_LIMIT};
ghost use Rattle.mb_library.specs.Stated.{SaidAnswer, SaidEnd};

use crate::codes::{ACCEPTED, NO_KEY, TOO_LONG, code_of};
use crate::details::Details;
use crate::stated::Stated;
use mb_lms::parse_key;
use mb_model::{FILE_LIMIT, PublicKey};
use mb_verifier::verify;
use std::alloc::Global;

/// Whether a chain is accepted under the maker's key that the 56 bytes spell, for the key with the number `key`, and
/// what its statement says: nothing, if it has none; a message, which the host chose; or what the code of the key's
/// layer answered to an input. At any code but `ACCEPTED` nothing is said.
///
/// The code is `ACCEPTED`, `NO_KEY`, `TOO_LONG`, `NO_MEMORY`, or 20 to 27 for the first check that fails.
#[unsafe(no_mangle)]
pub extern "C" fn mb_chain_said(
    alloc: Global,
    maker: &[u8; 56],
    chain: &[u8],
    key: u32,
    stated: &mut Stated,
    details: &mut Details,
) -> u32
    ensures { SaidAnswer maker.now chain.now key stated.new details.new result }
{
    *stated = Stated::none();
    *details = Details::none();
    let Some(maker) = parse_key(maker) else {
        return NO_KEY;
    };
    if chain.len() > FILE_LIMIT {
        return TOO_LONG;
    }
    say_chain(alloc, &maker, chain, key, stated, details)
}

/// Verifies a chain under this maker's key, and tells what its statement says.
fn say_chain(
    alloc: Global,
    maker: &PublicKey,
    chain: &[u8],
    key: u32,
    stated: &mut Stated,
    details: &mut Details,
) -> u32
    requires { length chain.now ≤ FILE_LIMIT }
    ensures { SaidEnd maker.now chain.now key stated.new details.new result }
{
    *stated = Stated::none();
    *details = Details::none();
    match verify(alloc, maker, chain, key) {
        Ok(report) => {
            *stated = Stated::of(&report.said);
            ACCEPTED
        }
        Err(why) => {
            *details = Details::of_end(why);
            code_of(why)
        }
    }
}
