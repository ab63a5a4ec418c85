//! Two cells merged into one by a rule.

ghost use Rattle.std.specs.Prelude.{◌≡◌, ℕ, ◌<◌, List, Some, true, length, slice_index, if◌then◌else◌, IfOk, OnOk, MatchOption, All};
ghost use Rattle.fws_tree.specs.Building.{Extends};
ghost use Rattle.fws_tree.specs.Held.{AreOrderedFrom, child_at, held_at};
ghost use Rattle.fws_tree.specs.Merged.{HaveCut, IsMerged, AreKnown, IsSkipped, CanSkip};
ghost use Rattle.fws_tree.specs.Parts.{CanStay};

use crate::memo::Memo;
use crate::narrow::{add_run, parted, room_for};
use crate::store::{Step, Store, add_step};
use crate::together::{cut_field, lesser};
use fws_num::Memory;
use std::alloc::Global;

/// What is made of what two cells hold. A rule may keep a table that grows.
pub(crate) trait Merging {
    ghost use Rattle.std.specs.Prelude.{ℕ, ◌<◌, length, IfOk, OnOk, MatchOption};
    ghost use Rattle.fws_tree.specs.Building.{Extends};
    ghost use Rattle.fws_tree.specs.Held.{AreOrderedFrom};
    ghost use Rattle.fws_tree.specs.Merged.{IsMerged, HaveCut};

    // Where two cells hold the first two numbers, the merged cell may hold the third.
    ghost gives: { Self → ℕ → ℕ → ℕ → Type 0 };

    // What the rule's own table keeps.
    ghost sound: { Self → Type 0 };

    // The second is the first at a later time.
    ghost later: { Self → Self → Type 0 };

    /// The merged cell where no walk is needed. There is one where both cells are leaves.
    fn early(&mut self, store: &mut Store, a: u32, b: u32) -> Result<Option<u32>, Memory>
        requires sound { sound self.old }
        requires ordered { AreOrderedFrom 0 store.old }
        requires a { a < length store.old }
        requires b { b < length store.old }
        ensures sound { OnOk result (sound self.new) }
        ensures later { later self.old self.new }
        ensures ordered { AreOrderedFrom 0 store.new }
        ensures extends { Extends store.old store.new }
        ensures found { IfOk result (λ o. MatchOption o (HaveCut store.new a b) (λ r. (r < length store.new) × IsMerged (gives self.new) store.old store.new a b r)) };

    ghost same: { (s : Self) → later s s };

    ghost then: { (s t u : Self) → later s t → later t u → later s u };

    // What is given never goes away.
    ghost kept: { (s t : Self) → later s t → (x y z : ℕ) → gives s x y z → gives t x y z };
}

/// Masks of cells, and bits that are wanted: a cell whose mask has none of them is left as it is. And a
/// second cell at which each first one is left as it is.
#[derive(Clone, Copy)]
pub(crate) struct Skips<'a> {
    /// The masks of the first cells.
    pub(crate) masks: &'a [u64],
    /// The bits that are wanted.
    pub(crate) wanted: u64,
    /// The second cell at which all stays, if there is one.
    pub(crate) stay: Option<u32>,
}

impl Skips<'_> {
    /// Whether the cell is left as it is.
    pub(crate) fn has(&self, at: u32) -> bool
        ensures { result ≡ true → IsSkipped self.now.masks.now self.now.wanted at }
    {
        let at = at as usize;
        at < self.masks.len() && self.masks[at] & self.wanted == 0
    }

    /// Whether each first cell stays at this second one.
    pub(crate) fn keeps(&self, right: u32) -> bool
        ensures { result ≡ true → self.now.stay ≡ Some right }
    {
        match self.stay {
            Some(stay) => stay == right,
            None => false,
        }
    }
}

// Whether all was the same so far, and this cell is.
fn stays(so_far: bool, node: u32, left: u32) -> bool
    ensures { result ≡ true → (so_far ≡ true) × (node ≡ left) }
{
    so_far && node == left
}

// The merged cell, if no walk is needed for it. The memo has what was merged before.
fn merged_early<M: Merging>(
    by: &mut M,
    skips: Skips<'_>,
    store: &mut Store,
    memo: &Memo,
    a: u32,
    b: u32,
) -> Result<Option<u32>, Memory>
    requires sound { M.sound by.old }
    requires skips { CanSkip (M.gives by.old) store.old skips.masks.now skips.wanted }
    requires ordered { AreOrderedFrom 0 store.old }
    requires a { a < length store.old }
    requires b { b < length store.old }
    requires known { AreKnown (M.gives by.old) store.old memo.now }
    ensures sound { OnOk result (M.sound by.new) }
    ensures later { M.later by.old by.new }
    ensures ordered { AreOrderedFrom 0 store.new }
    ensures extends { Extends store.old store.new }
    ensures found { IfOk result (λ o. MatchOption o (HaveCut store.new a b) (λ r. (r < length store.new) × IsMerged (M.gives by.new) store.old store.new a b r)) }
    ensures known { OnOk result (AreKnown (M.gives by.new) store.new memo.now) }
{
    if skips.has(a) {
        return Ok(Some(a));
    }
    if let Some(r) = by.early(store, a, b)? {
        return Ok(Some(r));
    }
    if let Some(r) = memo.recall(a, b) {
        return Ok(Some(r));
    }
    Ok(None)
}

// The cell of a cut: cell `a` where all stayed the same, else that of the steps.
fn cut_or_same(
    store: &mut Store,
    field: u8,
    steps: Vec<Step>,
    last: u32,
    same: bool,
    a: u32,
) -> Result<u32, Memory>
    requires ordered { AreOrderedFrom 0 store.old }
    requires below { All (λ s. s.node < length store.old) steps.items }
    requires last { last < length store.old }
    requires a { a < length store.old }
    ensures ordered { AreOrderedFrom 0 store.new }
    ensures extends { Extends store.old store.new }
    ensures inside { IfOk result (λ r. r < length store.new) }
    ensures held { IfOk result (λ r. (p : List ℕ) → held_at store.new r p ≡ (if same then held_at store.old a p else held_at store.old (child_at steps.items last (slice_index p field)) p)) }
{
    if same {
        return Ok(a);
    }
    store.cut(field, steps, last)
}

/// The two cells merged. The memo has what was merged before. What stays at a field is asked for nothing and
/// copied in runs. Where no cell changed, the first one is handed on as it is.
fn merge_known<M: Merging>(
    alloc: Global,
    by: &mut M,
    skips: Skips<'_>,
    store: &mut Store,
    memo: &mut Memo,
    a: u32,
    b: u32,
) -> Result<u32, Memory>
    requires sound { M.sound by.old }
    requires skips { CanSkip (M.gives by.old) store.old skips.masks.now skips.wanted }
    requires stays { CanStay (M.gives by.old) store.old skips.stay }
    requires ordered { AreOrderedFrom 0 store.old }
    requires a { a < length store.old }
    requires b { b < length store.old }
    requires known { AreKnown (M.gives by.old) store.old memo.old }
    ensures sound { OnOk result (M.sound by.new) }
    ensures later { M.later by.old by.new }
    ensures ordered { AreOrderedFrom 0 store.new }
    ensures extends { Extends store.old store.new }
    ensures inside { IfOk result (λ r. r < length store.new) }
    ensures merged { IfOk result (λ r. IsMerged (M.gives by.new) store.old store.new a b r) }
    ensures known { OnOk result (AreKnown (M.gives by.new) store.new memo.new) }
{
    if let Some(r) = merged_early(by, skips, store, memo, a, b)? {
        return Ok(r);
    }
    let Some(field) = lesser(cut_field(store, a), cut_field(store, b)) else {
        unreachable!();
    };
    let met = parted(alloc, store, skips, a, b, field)?;
    let mut steps = Vec::with_capacity(alloc, room_for(&met))?;
    let mut same = true;
    for part in &met.parts {
        add_run(&mut steps, store, a, field, part.from, part.to)?;
        let node = merge_known(alloc, by, skips, store, memo, part.left, part.right)?;
        add_step(&mut steps, part.hi, node)?;
        same = stays(same, node, part.left);
    }
    add_run(&mut steps, store, a, field, met.from, met.to)?;
    let last = merge_known(alloc, by, skips, store, memo, met.left, met.right)?;
    let same = stays(same, last, met.left);
    let whole = cut_or_same(store, field, steps, last, same, a)?;
    memo.note(a, b, whole)?;
    Ok(whole)
}

/// The two cells merged.
pub(crate) fn merge<M: Merging>(
    alloc: Global,
    by: &mut M,
    store: &mut Store,
    a: u32,
    b: u32,
) -> Result<u32, Memory>
    requires sound { M.sound by.old }
    requires ordered { AreOrderedFrom 0 store.old }
    requires a { a < length store.old }
    requires b { b < length store.old }
    ensures sound { OnOk result (M.sound by.new) }
    ensures later { M.later by.old by.new }
    ensures ordered { AreOrderedFrom 0 store.new }
    ensures extends { Extends store.old store.new }
    ensures inside { IfOk result (λ r. r < length store.new) }
    ensures merged { IfOk result (λ r. IsMerged (M.gives by.new) store.old store.new a b r) }
{
    let skips = Skips {
        masks: &[],
        wanted: 0,
        stay: None,
    };
    merge_where(alloc, by, skips, store, a, b)
}

/// The two cells merged, but for what is skipped: there the first one stays.
pub(crate) fn merge_where<M: Merging>(
    alloc: Global,
    by: &mut M,
    skips: Skips<'_>,
    store: &mut Store,
    a: u32,
    b: u32,
) -> Result<u32, Memory>
    requires sound { M.sound by.old }
    requires skips { CanSkip (M.gives by.old) store.old skips.masks.now skips.wanted }
    requires stays { CanStay (M.gives by.old) store.old skips.stay }
    requires ordered { AreOrderedFrom 0 store.old }
    requires a { a < length store.old }
    requires b { b < length store.old }
    ensures sound { OnOk result (M.sound by.new) }
    ensures later { M.later by.old by.new }
    ensures ordered { AreOrderedFrom 0 store.new }
    ensures extends { Extends store.old store.new }
    ensures inside { IfOk result (λ r. r < length store.new) }
    ensures merged { IfOk result (λ r. IsMerged (M.gives by.new) store.old store.new a b r) }
{
    let mut memo = Memo::new(alloc);
    merge_known(alloc, by, skips, store, &mut memo, a, b)
}
