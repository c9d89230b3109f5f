//! Why a chain is not accepted.

ghost use Rattle.std.specs.Prelude.{◌≡◌};

use mb_cert::ChainEnd;
use mb_model::NoMemory;

/// Why a chain is not accepted: the first check that fails, in the order of this list. The three checks of an entry are
/// made for one entry after another. `NoMemory` may come in place of any.
#[derive(Clone, Copy, Debug, PartialEq, Eq)]
pub enum ChainRefusal {
    /// The bytes are no chain.
    Form {
        /// The offset of the first field that lacks bytes or is not allowed, or of the first byte after the last field.
        at: u32,
    },
    /// An entry is not signed by the key in charge: the maker's key for the first entry, and for each later one the
    /// device key that the entries before it name last.
    Signature {
        /// The index of the entry, from 0.
        entry: u32,
    },
    /// An entry after the first has a wrong position, or its signature a wrong index.
    Order {
        /// The index of the entry, from 0.
        entry: u32,
    },
    /// An entry breaks the rules of the log.
    Rules {
        /// The index of the entry, from 0.
        entry: u32,
    },
    /// No entry makes the key.
    KeyUnknown,
    /// The statement is not signed by the key.
    StatementSignature,
    /// The statement is of another configuration than the chain's last.
    StatementNumber {
        /// The configuration number that the statement names.
        named: u32,
        /// The configuration number at the chain's end.
        last: u32,
    },
    /// There is a statement, and the key has ended.
    NotAlive,
    /// An allocation failed.
    NoMemory,
}

impl From<NoMemory> for ChainRefusal {
    ghost use Rattle.mb_verifier.specs.declared.refusal.ChainRefusal.TheVariants as why;

    ghost from_gives = { λ _ e. e ≡ why.NoMemory };

    fn from(_error: NoMemory) -> ChainRefusal {
        ChainRefusal::NoMemory
    }
}
