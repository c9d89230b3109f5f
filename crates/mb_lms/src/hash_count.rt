//! Hashes that are counted.

ghost use Rattle.std.specs.Prelude.{◌≡◌, ◌+◌, ◌<◌, ◌++◌};
ghost use Rattle.sha2.specs.Sha256.{sha256};

use sha2::{Digest, Sha256};
use std::alloc::Global;
use std::marker::Model;
use std::sync::ledger::{Blank, Book, Ledger, Share};

/// The hashes that a leaf of a key's tree takes: the starts of 67 chains, 15 steps of each chain, and one hash each for
/// the one-time key and the leaf (RFC 8554, sections 4.3 and 5.3).
pub const LEAF_HASHES: u64 = 1_074;

/// The hashes that a key's tree takes: its 32 leaves and the 31 nodes above them.
pub const TREE_HASHES: u64 = 34_399;

/// The most hashes that a signature takes, with the tree of its key.
pub const SIGNING_HASHES: u64 = 35_473;

/// The number of hashes that were taken. The count occupies no bytes, and only `hash` raises it. It can be neither
/// copied nor reset.
#[derive(Drop)]
pub struct HashCount<L: Ledger> {
    book: Book<L>,
    share: Share<L>,
}

impl<L: Ledger> Model for HashCount<L> {
    ghost use Rattle.std.specs.Prelude.{ℕ, ◌<◌};

    ghost Value = { ℕ };

    ghost view = { λ hashes. hashes.book.total };

    ghost invariant = { λ hashes. 0 < hashes.share.parts };
}

impl<L: Ledger> HashCount<L> {
    /// A count of no hashes, over a ledger of at least one part. It takes no memory. The allocator is a permission,
    /// which a function has only if its caller gives it. No call that hashes is given one, here or in `mb_signer`, so
    /// none can begin a count of its own beside its caller's.
    pub fn begin(_permission: Global, blank: Blank) -> HashCount<L>
        requires name { blank.name ≡ L.name }
        requires parts { blank.parts ≡ L.parts }
        requires some { 0 < blank.parts }
        ensures { result ≡ 0 }
    {
        let (book, share) = blank.open::<L>();
        HashCount { book, share }
    }

    fn count(&mut self)
        ensures { self.new ≡ self.old + 1 }
    {
        self.book.add(&mut self.share, 1);
    }
}

/// The SHA-256 hash of three pieces joined, which counts as one.
pub fn hash<L: Ledger>(a: &[u8], b: &[u8], c: &[u8], hashes: &mut HashCount<L>) -> [u8; 32]
    ensures value { result ≡ sha256 (a.now ++ b.now ++ c.now) }
    ensures counted { hashes.new ≡ hashes.old + 1 }
{
    hashes.count();
    let mut hasher = Sha256::new();
    hasher.update(a);
    hasher.update(b);
    hasher.update(c);
    hasher.finalize()
}
