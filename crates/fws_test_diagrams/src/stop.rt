//! Why a job can't be done.

use fws_io::ShelfAnswer;
use fws_num::Memory;

/// Why a job can't be done.
#[derive(Clone, Copy)]
pub enum Stop {
    /// Memory was wanting.
    Memory,
    /// A file or the command line couldn't be read.
    Unread,
    /// A text isn't as it should be.
    Malformed,
}

impl From<Memory> for Stop {
    fn from(_e: Memory) -> Stop {
        Stop::Memory
    }
}

impl From<ShelfAnswer> for Stop {
    fn from(answer: ShelfAnswer) -> Stop {
        match answer {
            ShelfAnswer::Memory => Stop::Memory,
            ShelfAnswer::Failed | ShelfAnswer::TooLong(_) => Stop::Unread,
        }
    }
}
