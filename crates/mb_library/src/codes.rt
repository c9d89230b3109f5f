//! The codes that the calls answer. Those from 20 to 27 are the numbers of refusals of a chain, as `verify` prints them.

ghost use Rattle.std.specs.Prelude.{◌≡◌};
ghost use Rattle.mb_library.specs.Details.{end_code};

use mb_verifier::ChainRefusal;

/// The signature verifies, the chain is accepted, or the policy allows what the chain says.
pub const ACCEPTED: u32 = 0;

/// The bytes of the key spell no key.
pub const NO_KEY: u32 = 1;

/// The signature is not one of the text under the key.
pub const BAD_SIGNATURE: u32 = 2;

/// The chain or the policy has more than 4,194,304 bytes.
pub const TOO_LONG: u32 = 3;

/// An allocation failed.
pub const NO_MEMORY: u32 = 4;

/// The chain is accepted, and there is no room for its listing.
pub const NO_ROOM: u32 = 5;

/// The text of the policy is none.
pub const BAD_POLICY: u32 = 6;

/// The chain is accepted, and the policy denies a configuration.
pub const DENIED: u32 = 7;

/// The code of a chain that is not accepted.
pub(crate) fn code_of(why: ChainRefusal) -> u32
    ensures { result ≡ end_code why }
{
    match why {
        ChainRefusal::Form { .. } => 20,
        ChainRefusal::Signature { .. } => 21,
        ChainRefusal::Order { .. } => 22,
        ChainRefusal::Rules { .. } => 23,
        ChainRefusal::KeyUnknown => 24,
        ChainRefusal::StatementSignature => 25,
        ChainRefusal::StatementNumber { .. } => 26,
        ChainRefusal::NotAlive => 27,
        ChainRefusal::NoMemory => NO_MEMORY,
    }
}
