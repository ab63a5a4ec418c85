//! Memory ran out.

use std::alloc::{AllocError, AllocFailed};

/// Memory ran out: an allocation was refused, or something would need a number past 2^32 - 1.
#[derive(Clone, Copy, Debug, PartialEq, Eq)]
pub struct Memory;

impl From<AllocError> for Memory {
    fn from(_e: AllocError) -> Memory {
        Memory
    }
}

impl<T: Drop> From<AllocFailed<T>> for Memory {
    fn from(_e: AllocFailed<T>) -> Memory {
        Memory
    }
}
