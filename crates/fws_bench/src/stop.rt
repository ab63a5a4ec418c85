//! Why the program prints nothing.

use fws_io::ShelfAnswer;
use fws_net::TextAnswer;
use fws_num::Memory;
use fws_unfold::UnfoldAnswer;
use std::fmt::Debug;

/// Why nothing is printed.
#[derive(Clone, Copy, Debug, PartialEq, Eq)]
pub enum Stop {
    /// The words ask for nothing that there is.
    Words,
    /// A file can't be read, or is refused.
    File,
    /// Memory was wanting.
    Memory,
}

impl From<Memory> for Stop {
    fn from(_e: Memory) -> Stop {
        Stop::Memory
    }
}

impl From<ShelfAnswer> for Stop {
    fn from(answer: ShelfAnswer) -> Stop {
        match answer {
            ShelfAnswer::Memory => Stop::Memory,
            ShelfAnswer::Failed | ShelfAnswer::TooLong(_) => Stop::File,
        }
    }
}

impl<C: Debug + Drop> From<TextAnswer<C>> for Stop {
    fn from(answer: TextAnswer<C>) -> Stop {
        match answer {
            TextAnswer::Memory => Stop::Memory,
            TextAnswer::Refused { .. } => Stop::File,
        }
    }
}

impl From<UnfoldAnswer> for Stop {
    fn from(answer: UnfoldAnswer) -> Stop {
        match answer {
            UnfoldAnswer::Memory => Stop::Memory,
            UnfoldAnswer::Loop(_) | UnfoldAnswer::Deep(_) | UnfoldAnswer::Long(_) => Stop::File,
        }
    }
}
