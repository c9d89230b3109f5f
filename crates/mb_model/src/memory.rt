//! Allocations that fail.

use std::alloc::{AllocError, AllocFailed};

/// An allocation failed. No clause says when one does: any call that takes an allocator may give this answer. Nothing
/// has changed then, unless the call says otherwise.
#[derive(Clone, Copy, Debug, PartialEq, Eq)]
pub struct NoMemory;

impl From<AllocError> for NoMemory {
    fn from(_error: AllocError) -> NoMemory {
        NoMemory
    }
}

impl<T: Drop> From<AllocFailed<T>> for NoMemory {
    fn from(_error: AllocFailed<T>) -> NoMemory {
        NoMemory
    }
}
