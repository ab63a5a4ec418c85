//! A shelf in memory, of which chosen calls fail.

ghost use Rattle.std.specs.Prelude.{◌≡◌, ℕ, ◌+◌, ◌-◌, ◌^◌, ◌<◌, ◌≤◌, ◌↔◌, min, false, not, ◌||◌, IsTrue, List, [], length, IfOk, OnOk, OnErr, IsErrOf};
ghost use Rattle.std.specs.Str.{bytes_eq};
ghost use Rattle.fws_io.specs.Outside.{Rose, is_listed};

use crate::contents::{Contents, read_within};
use crate::faults::{FailingCalls, FaultCount};
use crate::shelf::{Shelf, ShelfAnswer};
use fws_num::{Items, Memory, Text};
use std::alloc::Global;

/// Names and contents in memory, and a list of the reads that fail. A read that fails, or asks for
/// a name that is not held, raises the one counter, which is the count of every name.
#[derive(Drop)]
pub struct MemShelf {
    contents: Contents,
    failing: FailingCalls,
    faults: FaultCount,
}

impl MemShelf {
    ghost use Rattle.fws_io.specs.Contents.{with_content};
    ghost use Rattle.fws_io.specs.Failing.{shelf_fails, reads_made, shelf_holds};

    /// A shelf that holds no name yet. The reads whose numbers are in `fails` will fail; they are
    /// numbered from 1, and the number stays at its last value.
    pub fn new(alloc: Global, fails: Items<u64>) -> MemShelf
        ensures told { ⟦<MemShelf as Shelf>⟧.told result ≡ Some (λ name. []) }
        ensures faults { ⟦<MemShelf as Shelf>⟧.faults result ≡ (λ name. 0) }
        ensures fails { shelf_fails result ≡ fails }
        ensures made { reads_made result ≡ 0 }
        ensures empty { (name : List ℕ) → shelf_holds result name ≡ false }
    {
        MemShelf {
            contents: Contents::new(alloc),
            failing: FailingCalls::new(fails),
            faults: FaultCount::none(),
        }
    }

    /// Gives the name this content in place of an earlier one and changes nothing else. If memory runs out the shelf is as before.
    pub fn hold(&mut self, name: &[u8], content: &[u8]) -> Result<(), Memory>
        ensures told { OnOk result ((held : List ℕ → List ℕ) → ⟦<MemShelf as Shelf>⟧.told self.old ≡ Some held → ⟦<MemShelf as Shelf>⟧.told self.new ≡ Some (with_content held name.now content.now)) }
        ensures held { OnOk result ((asked : List ℕ) → shelf_holds self.new asked ≡ (bytes_eq name.now asked || shelf_holds self.old asked)) }
        ensures faults { ⟦<MemShelf as Shelf>⟧.faults self.new ≡ ⟦<MemShelf as Shelf>⟧.faults self.old }
        ensures fails { shelf_fails self.new ≡ shelf_fails self.old }
        ensures made { reads_made self.new ≡ reads_made self.old }
        ensures err { OnErr result (self.new ≡ self.old) }
    {
        self.contents.hold(name, content)
    }

    /// Counts one read of the name, says whether it fails, and counts the fault if it does.
    fn fails_at(&mut self, name: &[u8]) -> bool
        ensures contents { self.new.contents ≡ self.old.contents }
        ensures list { shelf_fails self.new ≡ shelf_fails self.old }
        ensures number { reads_made self.new ≡ min (reads_made self.old + 1) (2 ^ 64 - 1) }
        ensures fails { result ≡ (is_listed (shelf_fails self.old) (reads_made self.new) || not (shelf_holds self.old name.now)) }
        ensures fault { IsTrue result → self.new.faults.count ≡ min (self.old.faults.count + 1) (2 ^ 64 - 1) }
        ensures rose { IsTrue result → Rose self.old.faults.count self.new.faults.count }
        ensures never_falls { self.old.faults.count ≤ self.new.faults.count }
        ensures no_fault { result ≡ false → self.new.faults ≡ self.old.faults }
    {
        let fails = self.failing.next_fails() || self.contents.find(name).is_none();
        if fails {
            self.faults.raise();
        }
        fails
    }
}

impl Shelf for MemShelf {
    ghost use Rattle.std.specs.Prelude.{Some};
    ghost use Rattle.fws_io.specs.Contents.{content_of};
    ghost use Rattle.fws_io.specs.Failing.{shelf_fails, reads_made, shelf_holds};

    ghost told = { λ s. Some (content_of s.contents) };

    ghost faults = { λ s name. s.faults.count };

    // The whole content is at hand, so that a read is one turn.
    ghost turns = { λ s. reads_made s };

    fn read(&mut self, alloc: Global, name: &[u8], limit: usize) -> Result<Text, ShelfAnswer>
        ensures same { ⟦<MemShelf as Shelf>⟧.told self.new ≡ ⟦<MemShelf as Shelf>⟧.told self.old }
        ensures whole { IfOk result (λ text. (held : List ℕ → List ℕ) → ⟦<MemShelf as Shelf>⟧.told self.old ≡ Some held → text ≡ held name.now) }
        ensures within { IfOk result (λ text. length text ≤ limit) }
        ensures failed { IsErrOf result ShelfAnswer.Failed → Rose (⟦<MemShelf as Shelf>⟧.faults self.old name.now) (⟦<MemShelf as Shelf>⟧.faults self.new name.now) }
        ensures counts { (IsErrOf result ShelfAnswer.Failed → ⊥) → ⟦<MemShelf as Shelf>⟧.faults self.new ≡ ⟦<MemShelf as Shelf>⟧.faults self.old }
        ensures never_falls { (any : List ℕ) → ⟦<MemShelf as Shelf>⟧.faults self.old any ≤ ⟦<MemShelf as Shelf>⟧.faults self.new any }
        ensures turns { ⟦<MemShelf as Shelf>⟧.turns self.new ≤ ⟦<MemShelf as Shelf>⟧.turns self.old + limit + 1 }
        ensures over { (taken : ℕ) → IsErrOf result (ShelfAnswer.TooLong taken) → limit < taken }
        ensures over_told { (taken : ℕ) (held : List ℕ → List ℕ) → IsErrOf result (ShelfAnswer.TooLong taken) → ⟦<MemShelf as Shelf>⟧.told self.old ≡ Some held → limit < length (held name.now) }
        ensures taken_told { (taken : ℕ) (held : List ℕ → List ℕ) → IsErrOf result (ShelfAnswer.TooLong taken) → ⟦<MemShelf as Shelf>⟧.told self.old ≡ Some held → taken ≤ length (held name.now) }

        // A read fails exactly where its number is listed or the name isn't held, and then counts.
        ensures fails { IsErrOf result ShelfAnswer.Failed ↔ IsTrue (is_listed (shelf_fails self.old) (reads_made self.new) || not (shelf_holds self.old name.now)) }
        ensures counted { IsErrOf result ShelfAnswer.Failed → (any : List ℕ) → ⟦<MemShelf as Shelf>⟧.faults self.new any ≡ min (⟦<MemShelf as Shelf>⟧.faults self.old any + 1) (2 ^ 64 - 1) }
        ensures number { reads_made self.new ≡ min (reads_made self.old + 1) (2 ^ 64 - 1) }
        ensures list { shelf_fails self.new ≡ shelf_fails self.old }
        ensures held { (any : List ℕ) → shelf_holds self.new any ≡ shelf_holds self.old any }
        ensures exact { (taken : ℕ) (held : List ℕ → List ℕ) → IsErrOf result (ShelfAnswer.TooLong taken) → ⟦<MemShelf as Shelf>⟧.told self.old ≡ Some held → taken ≡ length (held name.now) }
        ensures long { (held : List ℕ → List ℕ) → ⟦<MemShelf as Shelf>⟧.told self.old ≡ Some held → limit < length (held name.now) → (IsErrOf result ShelfAnswer.Failed → ⊥) → IsErrOf result (ShelfAnswer.TooLong (length (held name.now))) }
    {
        if self.fails_at(name) {
            return Err(ShelfAnswer::Failed);
        }
        read_within(alloc, self.contents.content(name), limit)
    }
}
