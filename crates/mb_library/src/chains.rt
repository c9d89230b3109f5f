//! Chains, and the listing of the report by one that is accepted.

ghost use Rattle.std.specs.Prelude.{◌≡◌, ◌≤◌, length};
ghost use Rattle.mb_model.specs.declared.limits.TheConstants.{FILE_LIMIT};
ghost use Rattle.mb_library.specs.Chains.{ChainAnswer, ChainEnd, ListingEnd};

use crate::codes::{ACCEPTED, NO_KEY, NO_MEMORY, NO_ROOM, TOO_LONG, code_of};
use crate::details::Details;
use mb_bytes::put_at;
use mb_lms::parse_key;
use mb_model::{FILE_LIMIT, PublicKey};
use mb_verifier::{verify, write_listing};
use std::alloc::Global;

/// Whether a chain is accepted under the maker's key that the 56 bytes spell, and what it says of the key with the
/// number `key`. At `ACCEPTED` the listing of the report stands at the front of `listing`; at any other code `listing`
/// is as before.
///
/// The code is `ACCEPTED`, `NO_KEY`, `TOO_LONG`, `NO_MEMORY`, `NO_ROOM` if `listing` is shorter than the listing, or 20
/// to 27 for the first check that fails. A `Vec` cannot cross, so the listing goes into memory of the caller, and
/// nobody gives back what another allocator has taken. A second call verifies the chain once more.
#[unsafe(no_mangle)]
pub extern "C" fn mb_chain_verify(
    alloc: Global,
    maker: &[u8; 56],
    chain: &[u8],
    key: u32,
    listing: &mut [u8],
    details: &mut Details,
) -> u32
    ensures { ChainAnswer maker.now chain.now key listing.old listing.new details.new result }
{
    *details = Details::none();
    let Some(maker) = parse_key(maker) else {
        return NO_KEY;
    };
    if chain.len() > FILE_LIMIT {
        return TOO_LONG;
    }
    verify_chain(alloc, &maker, chain, key, listing, details)
}

/// Verifies a chain under this maker's key, and puts the listing of the report.
fn verify_chain(
    alloc: Global,
    maker: &PublicKey,
    chain: &[u8],
    key: u32,
    listing: &mut [u8],
    details: &mut Details,
) -> u32
    requires { length chain.now ≤ FILE_LIMIT }
    ensures { ChainEnd maker.now chain.now key listing.old listing.new details.new result }
{
    *details = Details::none();
    match verify(alloc, maker, chain, key) {
        Ok(report) => match write_listing(alloc, key, &report) {
            Ok(text) => put_listing(text.as_slice(), listing, details),
            Err(_) => NO_MEMORY,
        },
        Err(why) => {
            *details = Details::of_end(why);
            code_of(why)
        }
    }
}

/// Puts the text to the front of `listing`, if it has room.
fn put_listing(text: &[u8], listing: &mut [u8], details: &mut Details) -> u32
    ensures { ListingEnd text.now listing.old listing.new details.new result }
{
    *details = Details::of_listing(text.len());
    if text.len() > listing.len() {
        return NO_ROOM;
    }
    put_at(listing, 0, text);
    ACCEPTED
}
