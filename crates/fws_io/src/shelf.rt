//! Where files come from.

ghost use Rattle.std.specs.Prelude.{◌≡◌, ℕ, ◌+◌, ◌<◌, ◌≤◌, List, Option, length, IfOk, IsErrOf};
ghost use Rattle.fws_io.specs.Outside.{Rose};

use fws_num::{Memory, Text};
use std::alloc::Global;

/// Why a shelf gave no content.
#[derive(Clone, Copy, Debug, PartialEq, Eq)]
pub enum ShelfAnswer {
    /// A fault of the outside, as an absent file.
    Failed,
    /// So many bytes were taken, and they are more than the limit.
    TooLong(usize),
    /// Memory ran out.
    Memory,
}

impl From<Memory> for ShelfAnswer {
    ghost use Rattle.fws_io.specs.declared.shelf.ShelfAnswer.TheVariants.{Memory as NoMemory};

    ghost from_gives = { λ _ answer. answer ≡ NoMemory };

    fn from(_e: Memory) -> ShelfAnswer {
        ShelfAnswer::Memory
    }
}

/// Names and the bytes that each of them holds.
pub trait Shelf {
    // Which bytes each name holds, where the shelf tells it.
    ghost told: { Self → Option (List ℕ → List ℕ) };

    // How many faults each name has had.
    ghost faults: { Self → List ℕ → ℕ };

    // How often the outside was asked for bytes.
    ghost turns: { Self → ℕ };

    /// The whole content of the name. Answers `Failed` where a fault was counted for the name, `TooLong` where the content has more
    /// than `limit` bytes, and `Memory` because memory ran out. A call takes at most `limit` and 1 turns, whatever the outside
    /// gives.
    fn read(&mut self, alloc: Global, name: &[u8], limit: usize) -> Result<Text, ShelfAnswer>
        ensures same { told self.new ≡ told self.old }
        ensures whole { IfOk result (λ text. (held : List ℕ → List ℕ) → told self.old ≡ Some held → text ≡ held name.now) }
        ensures within { IfOk result (λ text. length text ≤ limit) }

        // A fault of the asked name was counted in this call.
        ensures failed { IsErrOf result ShelfAnswer.Failed → Rose (faults self.old name.now) (faults self.new name.now) }
        ensures counts { (IsErrOf result ShelfAnswer.Failed → ⊥) → faults self.new ≡ faults self.old }
        ensures never_falls { (any : List ℕ) → faults self.old any ≤ faults self.new any }

        // Each turn takes a byte, but for the one that finds the end or fails.
        ensures turns { turns self.new ≤ turns self.old + limit + 1 }

        // So many bytes were taken, and they are above the limit.
        ensures over { (taken : ℕ) → IsErrOf result (ShelfAnswer.TooLong taken) → limit < taken }
        ensures over_told { (taken : ℕ) (held : List ℕ → List ℕ) → IsErrOf result (ShelfAnswer.TooLong taken) → told self.old ≡ Some held → limit < length (held name.now) }
        ensures taken_told { (taken : ℕ) (held : List ℕ → List ℕ) → IsErrOf result (ShelfAnswer.TooLong taken) → told self.old ≡ Some held → taken ≤ length (held name.now) };
}
