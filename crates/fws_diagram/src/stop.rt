//! Why a search ends early.

use fws_num::Memory;
use std::alloc::{AllocError, AllocFailed};

/// Why a search ends early.
#[derive(Clone, Copy, Debug, PartialEq, Eq)]
pub enum Stop {
    /// Memory ran out.
    Memory,
    /// It took all the steps that it may take.
    Late,
}

impl From<Memory> for Stop {
    fn from(_e: Memory) -> Stop {
        Stop::Memory
    }
}

impl From<AllocError> for Stop {
    fn from(_e: AllocError) -> Stop {
        Stop::Memory
    }
}

impl<T: Drop> From<AllocFailed<T>> for Stop {
    fn from(_e: AllocFailed<T>) -> Stop {
        Stop::Memory
    }
}
