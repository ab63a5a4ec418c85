//! Why a line of the table can't be followed.

use fws_io::ShelfAnswer;
use fws_num::Memory;

/// Why a line of the table can't be followed.
#[derive(Clone, Copy, Debug, PartialEq, Eq)]
pub enum Stop {
    /// Memory was wanting.
    Memory,
    /// A file couldn't be read.
    Unread,
    /// The line isn't as it should be.
    Malformed,
}

impl From<Memory> for Stop {
    fn from(_e: Memory) -> Stop {
        Stop::Memory
    }
}

impl From<ShelfAnswer> for Stop {
    fn from(answer: ShelfAnswer) -> Stop {
        match answer {
            ShelfAnswer::Memory => Stop::Memory,
            ShelfAnswer::Failed | ShelfAnswer::TooLong(_) => Stop::Unread,
        }
    }
}
