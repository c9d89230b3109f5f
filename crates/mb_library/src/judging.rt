//! The judgement of a chain by a relying party's policy.

ghost use Rattle.std.specs.Prelude.{◌≡◌, ◌≤◌, length};
ghost use Rattle.mb_model.specs.declared.limits.TheConstants.{FILE_LIMIT};
ghost use Rattle.mb_policy.specs.Meanings.{policy_items};
ghost use Rattle.mb_library.specs.Judging.{TrustAnswer, TrustEnd, ReportEnd};

use crate::codes::{ACCEPTED, BAD_POLICY, DENIED, NO_KEY, NO_MEMORY, TOO_LONG, code_of};
use crate::details::Details;
use mb_lms::parse_key;
use mb_model::{FILE_LIMIT, PublicKey, Report};
use mb_policy::{Judgement, Policy, PolicyEnd, judge_report, read_policy};
use mb_verifier::verify;
use std::alloc::Global;

/// Whether a chain is accepted under the maker's key that the 56 bytes spell, and the policy allows each configuration
/// in which the key with the number `key` lived.
///
/// The code is `ACCEPTED`, `NO_KEY`, `TOO_LONG`, `NO_MEMORY`, `BAD_POLICY`, 20 to 27 for the first check of the chain
/// that fails, or `DENIED`. The policy is read before the chain is verified.
#[unsafe(no_mangle)]
pub extern "C" fn mb_trust(
    alloc: Global,
    maker: &[u8; 56],
    chain: &[u8],
    key: u32,
    policy: &[u8],
    details: &mut Details,
) -> u32
    ensures { TrustAnswer maker.now chain.now key policy.now details.new result }
{
    *details = Details::none();
    let Some(maker) = parse_key(maker) else {
        return NO_KEY;
    };
    if chain.len() > FILE_LIMIT || policy.len() > FILE_LIMIT {
        return TOO_LONG;
    }
    match read_policy(alloc, policy) {
        Ok(policy) => trust_chain(alloc, &maker, chain, key, &policy, details),
        Err(PolicyEnd::BadLine { line }) => {
            *details = Details::of_line(line);
            BAD_POLICY
        }
        Err(PolicyEnd::NoMemory) => NO_MEMORY,
    }
}

/// Verifies a chain under this maker's key, and judges the report by this policy.
fn trust_chain(
    alloc: Global,
    maker: &PublicKey,
    chain: &[u8],
    key: u32,
    policy: &Policy,
    details: &mut Details,
) -> u32
    requires { length chain.now ≤ FILE_LIMIT }
    ensures { TrustEnd maker.now chain.now key (policy_items policy.now) details.new result }
{
    match verify(alloc, maker, chain, key) {
        Ok(report) => judge(alloc, policy, &report, details),
        Err(why) => {
            *details = Details::of_end(why);
            code_of(why)
        }
    }
}

/// Judges the report by the policy.
fn judge(alloc: Global, policy: &Policy, report: &Report, details: &mut Details) -> u32
    ensures { ReportEnd (policy_items policy.now) report.now details.new result }
{
    *details = Details::none();
    match judge_report(alloc, policy, report) {
        Ok(Judgement::Allowed) => ACCEPTED,
        Ok(Judgement::Denied { number, .. }) => {
            *details = Details::of_configuration(number);
            DENIED
        }
        Err(_) => NO_MEMORY,
    }
}
