// The error of every call that allocates: out of memory.
use std::alloc::{AllocError, AllocFailed};

/// Out of memory: an allocation failed, or a size or a count would exceed its limit. Every call that allocates may return
/// this.
#[derive(Clone, Copy, Debug, PartialEq, Eq)]
pub struct OutOfMemory;

impl From<AllocError> for OutOfMemory {
    fn from(_: AllocError) -> Self {
        OutOfMemory
    }
}

impl<T> From<AllocFailed<T>> for OutOfMemory
where
    T: Drop,
{
    fn from(_: AllocFailed<T>) -> Self {
        OutOfMemory
    }
}
