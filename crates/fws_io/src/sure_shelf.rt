//! A shelf in memory that never fails.

ghost use Rattle.std.specs.Prelude.{◌≡◌, ℕ, ◌+◌, ◌<◌, ◌≤◌, List, [], length, IfOk, OnOk, OnErr, IsErrOf};
ghost use Rattle.fws_io.specs.Outside.{Rose};

use crate::contents::{Contents, read_within};
use crate::shelf::{Shelf, ShelfAnswer};
use fws_num::{Memory, Text};
use std::alloc::Global;

/// Names and contents in memory, every other name holding the empty text. No call fails.
#[derive(Drop)]
pub struct SureShelf {
    contents: Contents,
}

impl SureShelf {
    ghost use Rattle.fws_io.specs.Contents.{with_content};

    /// A shelf that holds no name yet.
    pub fn new(alloc: Global) -> SureShelf
        ensures told { ⟦<SureShelf as Shelf>⟧.told result ≡ Some (λ name. []) }
        ensures faults { ⟦<SureShelf as Shelf>⟧.faults result ≡ (λ name. 0) }
    {
        SureShelf {
            contents: Contents::new(alloc),
        }
    }

    /// Gives the name this content in place of an earlier one and changes nothing else. If memory runs out the shelf is as before.
    pub fn hold(&mut self, name: &[u8], content: &[u8]) -> Result<(), Memory>
        ensures told { OnOk result ((held : List ℕ → List ℕ) → ⟦<SureShelf as Shelf>⟧.told self.old ≡ Some held → ⟦<SureShelf as Shelf>⟧.told self.new ≡ Some (with_content held name.now content.now)) }
        ensures none { ⟦<SureShelf as Shelf>⟧.faults self.new ≡ (λ name. 0) }
        ensures err { OnErr result (self.new ≡ self.old) }
    {
        self.contents.hold(name, content)
    }
}

impl Shelf for SureShelf {
    ghost use Rattle.std.specs.Prelude.{Some, []};
    ghost use Rattle.fws_io.specs.Contents.{content_of};

    ghost told = { λ s. Some (content_of s.contents) };

    ghost faults = { λ s name. 0 };

    // All contents are at hand, so that no turn is taken.
    ghost turns = { λ s. 0 };

    fn read(&mut self, alloc: Global, name: &[u8], limit: usize) -> Result<Text, ShelfAnswer>
        ensures same { ⟦<SureShelf as Shelf>⟧.told self.new ≡ ⟦<SureShelf as Shelf>⟧.told self.old }
        ensures whole { IfOk result (λ text. (held : List ℕ → List ℕ) → ⟦<SureShelf as Shelf>⟧.told self.old ≡ Some held → text ≡ held name.now) }
        ensures within { IfOk result (λ text. length text ≤ limit) }
        ensures failed { IsErrOf result ShelfAnswer.Failed → Rose (⟦<SureShelf as Shelf>⟧.faults self.old name.now) (⟦<SureShelf as Shelf>⟧.faults self.new name.now) }
        ensures counts { (IsErrOf result ShelfAnswer.Failed → ⊥) → ⟦<SureShelf as Shelf>⟧.faults self.new ≡ ⟦<SureShelf as Shelf>⟧.faults self.old }
        ensures never_falls { (any : List ℕ) → ⟦<SureShelf as Shelf>⟧.faults self.old any ≤ ⟦<SureShelf as Shelf>⟧.faults self.new any }
        ensures turns { ⟦<SureShelf as Shelf>⟧.turns self.new ≤ ⟦<SureShelf as Shelf>⟧.turns self.old + limit + 1 }
        ensures over { (taken : ℕ) → IsErrOf result (ShelfAnswer.TooLong taken) → limit < taken }
        ensures over_told { (taken : ℕ) (held : List ℕ → List ℕ) → IsErrOf result (ShelfAnswer.TooLong taken) → ⟦<SureShelf as Shelf>⟧.told self.old ≡ Some held → limit < length (held name.now) }
        ensures taken_told { (taken : ℕ) (held : List ℕ → List ℕ) → IsErrOf result (ShelfAnswer.TooLong taken) → ⟦<SureShelf as Shelf>⟧.told self.old ≡ Some held → taken ≤ length (held name.now) }

        // No call fails, and a content is too long exactly where it is longer than the limit.
        ensures never { IsErrOf result ShelfAnswer.Failed → ⊥ }
        ensures none { ⟦<SureShelf as Shelf>⟧.faults self.new ≡ (λ name. 0) }
        ensures exact { (taken : ℕ) (held : List ℕ → List ℕ) → IsErrOf result (ShelfAnswer.TooLong taken) → ⟦<SureShelf as Shelf>⟧.told self.old ≡ Some held → taken ≡ length (held name.now) }
        ensures long { (held : List ℕ → List ℕ) → ⟦<SureShelf as Shelf>⟧.told self.old ≡ Some held → limit < length (held name.now) → IsErrOf result (ShelfAnswer.TooLong (length (held name.now))) }
    {
        read_within(alloc, self.contents.content(name), limit)
    }
}
