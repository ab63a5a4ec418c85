//! What was merged already.

ghost use Rattle.std.specs.Prelude.{◌≡◌, Some, None, ℕ, OnOk};
ghost use Rattle.std.specs.HashMap.{get, Updates};
ghost use Rattle.fws_tree.specs.Held.{pair_eq};

use fws_num::Memory;
use std::alloc::Global;
use std::collections::HashMap;

/// The merged cells of pairs of cells.
#[derive(Drop)]
pub struct Memo {
    found: HashMap<(u32, u32), u32>,
}

impl Memo {
    /// The memo of no pair.
    pub fn new(alloc: Global) -> Memo
        ensures { (a b : ℕ) → get pair_eq result.found (a, b) ≡ None }
    {
        Memo {
            found: HashMap::new(alloc),
        }
    }

    /// The merged cell of the pair, if it is known.
    pub fn recall(&self, a: u32, b: u32) -> Option<u32>
        ensures { result ≡ get pair_eq self.now.found (a, b) }
    {
        self.found.get(&(a, b)).copied()
    }

    /// Notes the merged cell of the pair.
    pub fn note(&mut self, a: u32, b: u32, r: u32) -> Result<(), Memory>
        ensures { OnOk result (Updates pair_eq self.old.found self.new.found (a, b) (Some r)) }
    {
        self.found.insert((a, b), r)?;
        Ok(())
    }
}
