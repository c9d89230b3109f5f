//! Why no order was read.

use mb_bytes::ReadEnd;

/// Why no order was read: the bytes spell none, or an allocation failed.
pub type OrderEnd = ReadEnd;
