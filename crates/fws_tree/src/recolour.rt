//! A cell recoloured where another has labels.

ghost use Rattle.std.specs.Prelude.{◌≡◌, ◌<◌, ◌≤◌, ◌^◌, ℕ, List, Some, take, nat_eq, length, IfOk, OnOk, MatchOption, All, bit_and};
ghost use Rattle.fws_tree.specs.Bits.{bits_in, AreMasks};
ghost use Rattle.fws_tree.specs.Building.{Extends};
ghost use Rattle.fws_tree.specs.Held.{AreOrderedFrom, held_at};
ghost use Rattle.fws_tree.specs.Recoloured.{IsRecoloured, StaysMoved, AreAsked};

use crate::memo::Memo;
use crate::merge::{Merging, Skips, merge_where};
use crate::moves::Moves;
use crate::store::{Cell, Store};
use crate::together::held_by;
use crate::values::Values;
use fws_num::Memory;
use std::alloc::Global;

/// Values become others where the second cell has a label.
#[derive(Drop)]
struct Recolouring<'a, M> {
    by: &'a mut M,
    values: &'a mut Values,
    // How many values there were at the beginning.
    known: usize,
    wanted: u64,
    // What was asked before.
    asked: &'a mut Memo,
}

impl<M: Moves> Recolouring<'_, M> {
    // Whether the value has none of the wanted bits. One that is new has all.
    fn is_unwanted(&self, value: u32) -> bool
        requires { self.now.known ≤ length self.now.values.now }
        ensures { result ≡ nat_eq (bit_and (bits_in (take self.now.known self.now.values.now) value) self.now.wanted) 0 }
    {
        let bits = if (value as usize) < self.known {
            self.values.bits_of(value)
        } else {
            u64::MAX
        };
        bits & self.wanted == 0
    }

    // What the value becomes at the label.
    fn moved(&mut self, value: u32, label: u32) -> Result<u32, Memory>
        requires asked { AreAsked (M.moves self.old.by.now) self.old.asked.now }
        ensures asked { OnOk result (AreAsked (M.moves self.new.by.now) self.new.asked.now) }
        ensures moved { IfOk result (λ r. M.moves self.new.by.now value label r) }
        ensures kept { StaysMoved (M.moves self.old.by.now) (M.moves self.new.by.now) }
        ensures later { M.later self.old.by.now self.new.by.now }
        ensures values { Extends self.old.values.now self.new.values.now }
        ensures known { self.new.known ≡ self.old.known }
        ensures wanted { self.new.wanted ≡ self.old.wanted }
        ensures same_by { self.new.by.ghost_name ≡ self.old.by.ghost_name }
        ensures same_values { self.new.values.ghost_name ≡ self.old.values.ghost_name }
    {
        if let Some(r) = self.asked.recall(value, label) {
            return Ok(r);
        }
        let r = self.by.moved(self.values, value, label)?;
        self.asked.note(value, label, r)?;
        Ok(r)
    }
}

impl<M: Moves> Merging for Recolouring<'_, M> {
    ghost use Rattle.std.specs.Prelude.{◌≡◌, ◌≤◌, take, length};
    ghost use Rattle.std.proofs.Common.{refl, ◌∙◌};
    ghost use Rattle.fws_tree.specs.Building.{Extends};
    ghost use Rattle.fws_tree.specs.Recoloured.{IsRecoloured, StaysMoved, AreAsked};
    ghost use Rattle.fws_tree.specs.RecolouringLaws.{extends-same, extends-then, recoloured-kept};

    ghost gives = { λ s x l z. IsRecoloured (M.moves s.by.now) (take s.known s.values.now) s.wanted x l z };

    ghost sound = { λ s. (s.known ≤ length s.values.now) × AreAsked (M.moves s.by.now) s.asked.now };

    ghost later = { λ s t. (take s.known s.values.now ≡ take t.known t.values.now) × (s.wanted ≡ t.wanted) × Extends s.values.now t.values.now × StaysMoved (M.moves s.by.now) (M.moves t.by.now) × M.later s.by.now t.by.now × (s.by.ghost_name ≡ t.by.ghost_name) × (s.values.ghost_name ≡ t.values.ghost_name) };

    fn early(&mut self, store: &mut Store, a: u32, b: u32) -> Result<Option<u32>, Memory> {
        let label = held_by(store, b);
        if label == Some(0) {
            return Ok(Some(a));
        }
        let Some(value) = held_by(store, a) else {
            return Ok(None);
        };
        if self.is_unwanted(value) {
            return Ok(Some(a));
        }
        let Some(label) = label else {
            return Ok(None);
        };
        let moved = self.moved(value, label)?;
        let r = store.intern(Cell::Leaf(moved))?;
        Ok(Some(r))
    }

    ghost same = { λ s. (refl, refl, extends-same s.values.now, (λ x l z m. m), M.same s.by.now, refl, refl) };

    ghost then = { λ s t u e f. (e.0 ∙ f.0, e.1 ∙ f.1, extends-then s.values.now t.values.now u.values.now e.2 f.2, (λ x l z m. f.3 x l z (e.3 x l z m)), M.then s.by.now t.by.now u.by.now e.4 f.4, e.5 ∙ f.5, e.6 ∙ f.6) };

    ghost kept = { λ s t e x y z g. recoloured-kept (M.moves s.by.now) (M.moves t.by.now) (take s.known s.values.now) (take t.known t.values.now) s.wanted t.wanted x y z e.3 e.0 e.1 g };
}

// The cell `root` with each value moved that has a wanted bit, where cell `marked` has a label. What stays may be a cell
// without a label.
fn recoloured_but<M: Moves>(
    alloc: Global,
    store: &mut Store,
    values: &mut Values,
    skips: Skips<'_>,
    root: u32,
    marked: u32,
    by: &mut M,
) -> Result<u32, Memory>
    requires ordered { AreOrderedFrom 0 store.old }
    requires root { root < length store.old }
    requires marked { marked < length store.old }
    requires masks { AreMasks values.old store.old skips.masks.now }
    requires stay { (k : ℕ) → skips.stay ≡ Some k → (k < length store.old) × ((p : List ℕ) → held_at store.old k p ≡ 0) }
    ensures ordered { AreOrderedFrom 0 store.new }
    ensures extends { Extends store.old store.new }
    ensures masks { AreMasks values.new store.new skips.entry.masks.now }
    ensures values { Extends values.old values.new }
    ensures kept { StaysMoved (M.moves by.old) (M.moves by.new) }
    ensures later { M.later by.old by.new }
    ensures inside { IfOk result (λ r. r < length store.new) }
    ensures recoloured { IfOk result (λ r. (p : List ℕ) → IsRecoloured (M.moves by.new) values.old skips.entry.wanted (held_at store.old root p) (held_at store.old marked p) (held_at store.new r p)) }
{
    let mut asked = Memo::new(alloc);
    let mut rule = Recolouring {
        by,
        known: values.len(),
        values,
        wanted: skips.wanted,
        asked: &mut asked,
    };
    let outcome = merge_where(alloc, &mut rule, skips, store, root, marked);
    rule.values.told();
    outcome
}

/// The cell `root` with each value moved that has a wanted bit, where cell `marked` has a label.
pub(crate) fn recoloured<M: Moves>(
    alloc: Global,
    store: &mut Store,
    values: &mut Values,
    skips: Skips<'_>,
    root: u32,
    marked: u32,
    by: &mut M,
) -> Result<u32, Memory>
    requires ordered { AreOrderedFrom 0 store.old }
    requires root { root < length store.old }
    requires marked { marked < length store.old }
    requires masks { AreMasks values.old store.old skips.masks.now }
    ensures ordered { AreOrderedFrom 0 store.new }
    ensures extends { Extends store.old store.new }
    ensures masks { AreMasks values.new store.new skips.entry.masks.now }
    ensures values { Extends values.old values.new }
    ensures kept { StaysMoved (M.moves by.old) (M.moves by.new) }
    ensures later { M.later by.old by.new }
    ensures inside { IfOk result (λ r. r < length store.new) }
    ensures recoloured { IfOk result (λ r. (p : List ℕ) → IsRecoloured (M.moves by.new) values.old skips.entry.wanted (held_at store.old root p) (held_at store.old marked p) (held_at store.new r p)) }
{
    let stay = store.intern(Cell::Leaf(0))?;
    let skips = Skips {
        stay: Some(stay),
        ..skips
    };
    recoloured_but(alloc, store, values, skips, root, marked, by)
}
