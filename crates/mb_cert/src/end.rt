//! Why no chain or statement was read.

use mb_bytes::ReadEnd;

/// Why no chain or statement was read: the bytes spell none, or an allocation failed.
pub type ChainEnd = ReadEnd;
