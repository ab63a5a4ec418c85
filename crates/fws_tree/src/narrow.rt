//! Two cells together at a field, where most of the first one stays.

ghost use Rattle.std.specs.Prelude.{◌≡◌, ◌⊎◌, ℕ, ◌+◌, ◌<◌, ◌≤◌, ◌++◌, [], drop, map, length, slice_get, slice_index_or, slice_range, nat_le, if◌then◌else◌, IfOk, OnOk, All};
ghost use Rattle.std.specs.List.{flat_map};
ghost use Rattle.fws_tree.specs.declared.store.Cell.{Cell};
ghost use Rattle.fws_tree.specs.declared.store.Step.{Step};
ghost use Rattle.fws_tree.specs.Held.{AreOrderedFrom, child_at, field_of, pick};
ghost use Rattle.fws_tree.specs.Merged.{left_at, right_at};
ghost use Rattle.fws_tree.specs.Parts.{Stays, own_steps, both_with, part_steps, IsPart, AreParted};

use crate::merge::Skips;
use crate::store::{Step, Store, add_step};
use crate::together::view;
use fws_num::Memory;
use std::alloc::Global;

/// A run of the first cell's steps that stay, and a step behind it that is asked for.
#[derive(Clone, Copy)]
pub(crate) struct Part {
    /// The place at which the run begins.
    pub(crate) from: usize,
    /// The place behind it.
    pub(crate) to: usize,
    /// The greatest value of the step behind the run.
    pub(crate) hi: u32,
    /// The first cell there.
    pub(crate) left: u32,
    /// The second cell, there and along the run.
    pub(crate) right: u32,
}

/// Two cells together at a field.
#[derive(Drop)]
pub(crate) struct Asked {
    /// The parts, one behind the other.
    pub(crate) parts: Vec<Part>,
    /// The place at which the last run begins.
    pub(crate) from: usize,
    /// The place behind it, and behind all steps of the first cell.
    pub(crate) to: usize,
    /// The first cell past the steps.
    pub(crate) left: u32,
    /// The second cell past the steps.
    pub(crate) right: u32,
}

// The first place from `from` on whose step reaches the value, or the place behind all.
fn reach(steps: &[Step], from: usize, value: u32) -> usize
    requires { from ≤ length steps.now }
    ensures order { (from ≤ result) × (result ≤ length steps.now) }
    ensures below { All (λ s. s.hi < value) (slice_range steps.now from result) }
    ensures reaches { (d : Step) → result < length steps.now → value ≤ (slice_index_or steps.now result d).hi }
{
    let mut at = from;
    while at < steps.len() && steps[at].hi < value {
        at += 1;
    }
    at
}

/// Where a range ends in the first cell, and where that one goes on.
#[derive(Clone, Copy)]
struct End {
    node: u32,
    next: usize,
}

// The cell of the step at the place, which reaches the value, and where it goes on past the value.
fn end_at(steps: &[Step], last: u32, at: usize, value: u32) -> End
    requires place { at ≤ length steps.now }
    requires reaches { (d : Step) → at < length steps.now → value ≤ (slice_index_or steps.now at d).hi }
    ensures next { result.next ≤ length steps.now }
    ensures same { (x : ℕ) → child_at (drop at steps.now) last x ≡ (if nat_le x value then result.node else child_at (drop result.next steps.now) last x) }
    ensures below { (n : ℕ) → All (λ s. s.node < n) steps.now → last < n → result.node < n }
{
    if at < steps.len() {
        let step = steps[at];
        if step.hi == value {
            return End {
                node: step.node,
                next: at + 1,
            };
        }
        return End {
            node: step.node,
            next: at,
        };
    }
    End {
        node: last,
        next: at,
    }
}

// Adds a part unless the step at the place stays. Gives where the run goes on.
fn ask(
    parts: &mut Vec<Part>,
    skips: Skips<'_>,
    steps: &[Step],
    begin: usize,
    at: usize,
    right: u32,
) -> Result<usize, Memory>
    requires order { begin ≤ at }
    requires inside { at < length steps.now }
    requires run { All (λ s. Stays skips.masks.now skips.wanted skips.stay s.node right) (slice_range steps.now begin at) }
    ensures order { IfOk result (λ b. (begin ≤ b) × (b ≤ at + 1)) }
    ensures run { IfOk result (λ b. All (λ s. Stays skips.entry.masks.now skips.entry.wanted skips.entry.stay s.node right) (slice_range steps.now b (at + 1))) }
    ensures steps { IfOk result (λ b. flat_map (part_steps steps.now) parts.new.items ++ map (both_with right) (slice_range steps.now b (at + 1)) ≡ flat_map (part_steps steps.now) parts.old.items ++ map (both_with right) (slice_range steps.now begin (at + 1))) }
    ensures parts { OnOk result ((n m : ℕ) → All (λ s. s.node < n) steps.now → right < m → All (λ p. IsPart skips.entry.masks.now skips.entry.wanted skips.entry.stay steps.now n m p) parts.old.items → All (λ p. IsPart skips.entry.masks.now skips.entry.wanted skips.entry.stay steps.now n m p) parts.new.items) }
{
    let step = steps[at];
    if skips.has(step.node) {
        return Ok(begin);
    }
    parts.push(Part {
        from: begin,
        to: at,
        hi: step.hi,
        left: step.node,
        right,
    })?;
    Ok(at + 1)
}

// Adds parts for the steps from one place to another, which meet the second cell. Gives where the last run begins.
fn ask_all(
    parts: &mut Vec<Part>,
    skips: Skips<'_>,
    steps: &[Step],
    from: usize,
    to: usize,
    right: u32,
) -> Result<usize, Memory>
    requires order { from ≤ to }
    requires inside { to ≤ length steps.now }
    ensures order { IfOk result (λ b. (from ≤ b) × (b ≤ to)) }
    ensures run { IfOk result (λ b. All (λ s. Stays skips.entry.masks.now skips.entry.wanted skips.entry.stay s.node right) (slice_range steps.now b to)) }
    ensures steps { IfOk result (λ b. flat_map (part_steps steps.now) parts.new.items ++ map (both_with right) (slice_range steps.now b to) ≡ flat_map (part_steps steps.now) parts.old.items ++ map (both_with right) (slice_range steps.now from to)) }
    ensures parts { OnOk result ((n m : ℕ) → All (λ s. s.node < n) steps.now → right < m → All (λ p. IsPart skips.entry.masks.now skips.entry.wanted skips.entry.stay steps.now n m p) parts.old.items → All (λ p. IsPart skips.entry.masks.now skips.entry.wanted skips.entry.stay steps.now n m p) parts.new.items) }
{
    if skips.keeps(right) {
        return Ok(from);
    }
    let mut begin = from;
    for at in from..to {
        begin = ask(parts, skips, steps, begin, at, right)?;
    }
    Ok(begin)
}

// Adds parts for the values up to `hi`, which meet the second cell. Gives where the first one goes on.
fn ask_range(
    parts: &mut Vec<Part>,
    skips: Skips<'_>,
    steps: &[Step],
    last: u32,
    from: usize,
    hi: u32,
    right: u32,
) -> Result<usize, Memory>
    requires { from ≤ length steps.now }
    ensures order { IfOk result (λ next. next ≤ length steps.now) }
    ensures left { IfOk result (λ next. (x : ℕ) → left_at (flat_map (part_steps steps.now) parts.new.items) (child_at (drop next steps.now) last x) x ≡ left_at (flat_map (part_steps steps.now) parts.old.items) (child_at (drop from steps.now) last x) x) }
    ensures right { OnOk result ((z x : ℕ) → right_at (flat_map (part_steps steps.now) parts.new.items) z x ≡ right_at (flat_map (part_steps steps.now) parts.old.items) (if nat_le x hi then right else z) x) }
    ensures parts { OnOk result ((n m : ℕ) → All (λ s. s.node < n) steps.now → last < n → right < m → All (λ p. IsPart skips.entry.masks.now skips.entry.wanted skips.entry.stay steps.now n m p) parts.old.items → All (λ p. IsPart skips.entry.masks.now skips.entry.wanted skips.entry.stay steps.now n m p) parts.new.items) }
{
    let to = reach(steps, from, hi);
    let begin = ask_all(parts, skips, steps, from, to, right)?;
    let end = end_at(steps, last, to, hi);
    parts.push(Part {
        from: begin,
        to,
        hi,
        left: end.node,
        right,
    })?;
    Ok(end.next)
}

// Adds parts for all steps of the second cell. Gives where the first one goes on.
fn ask_ranges(
    parts: &mut Vec<Part>,
    skips: Skips<'_>,
    steps: &[Step],
    last: u32,
    others: &[Step],
) -> Result<usize, Memory>
    requires { parts.old.items ≡ [] }
    ensures order { IfOk result (λ next. next ≤ length steps.now) }
    ensures left { IfOk result (λ next. (x : ℕ) → left_at (flat_map (part_steps steps.now) parts.new.items) (child_at (drop next steps.now) last x) x ≡ child_at steps.now last x) }
    ensures right { OnOk result ((z x : ℕ) → right_at (flat_map (part_steps steps.now) parts.new.items) z x ≡ child_at others.now z x) }
    ensures parts { OnOk result ((n m : ℕ) → All (λ s. s.node < n) steps.now → last < n → All (λ s. s.node < m) others.now → All (λ p. IsPart skips.entry.masks.now skips.entry.wanted skips.entry.stay steps.now n m p) parts.new.items) }
{
    let mut from = 0;
    for other in others {
        from = ask_range(parts, skips, steps, last, from, other.hi, other.node)?;
    }
    Ok(from)
}

/// The two cells together at a field that one of them cuts.
pub(crate) fn parted(
    alloc: Global,
    store: &Store,
    skips: Skips<'_>,
    a: u32,
    b: u32,
    field: u8,
) -> Result<Asked, Memory>
    requires ordered { AreOrderedFrom 0 store.now }
    requires a { a < length store.now }
    requires b { b < length store.now }
    requires cut { (c d : Cell) → slice_get store.now a ≡ Some c → slice_get store.now b ≡ Some d → (field_of c ≡ Some field) ⊎ (field_of d ≡ Some field) }
    ensures { IfOk result (λ m. AreParted store.now skips.entry.masks.now skips.entry.wanted skips.entry.stay a b field (own_steps field (slice_get store.now a)) m.parts.items m.from m.to m.left m.right) }
{
    let (steps, left) = view(store, a, field);
    let (others, right) = view(store, b, field);
    let mut parts = Vec::new(alloc);
    let from = ask_ranges(&mut parts, skips, steps, left, others)?;
    let to = steps.len();
    let from = ask_all(&mut parts, skips, steps, from, to, right)?;
    Ok(Asked {
        parts,
        from,
        to,
        left,
        right,
    })
}

/// How many steps there are at most, of both cells together. Nothing hangs on it but time.
pub(crate) fn room_for(asked: &Asked) -> usize {
    let mut room = asked.to.saturating_sub(asked.from);
    for part in &asked.parts {
        let run = part.to.saturating_sub(part.from);
        room = room.saturating_add(run).saturating_add(1);
    }
    room
}

// Adds a run of steps behind the others: the last of these grows where the run begins with the same cell.
fn add_all(steps: &mut Vec<Step>, run: &[Step]) -> Result<(), Memory>
    ensures same { OnOk result ((v : ℕ → ℕ) (z x : ℕ) → pick v steps.new.items z x ≡ pick v (steps.old.items ++ run.now) z x) }
    ensures below { OnOk result ((n : ℕ) → All (λ s. s.node < n) steps.old.items → All (λ s. s.node < n) run.now → All (λ s. s.node < n) steps.new.items) }
{
    let count = run.len();
    if count == 0 {
        return Ok(());
    }
    let first = run[0];
    add_step(steps, first.hi, first.node)?;
    steps.extend_from_slice(&run[1..])?;
    Ok(())
}

/// Adds the steps of cell `a` at a field, from one place to another, behind the others.
pub(crate) fn add_run(
    steps: &mut Vec<Step>,
    store: &Store,
    a: u32,
    field: u8,
    from: usize,
    to: usize,
) -> Result<(), Memory>
    requires ordered { AreOrderedFrom 0 store.now }
    requires a { a < length store.now }
    requires order { from ≤ to }
    requires inside { to ≤ length (own_steps field (slice_get store.now a)) }
    ensures same { OnOk result ((v : ℕ → ℕ) (z x : ℕ) → pick v steps.new.items z x ≡ pick v (steps.old.items ++ slice_range (own_steps field (slice_get store.now a)) from to) z x) }
    ensures below { OnOk result ((n : ℕ) → All (λ s. s.node < n) steps.old.items → All (λ s. s.node < n) (own_steps field (slice_get store.now a)) → All (λ s. s.node < n) steps.new.items) }
{
    let (all, _last) = view(store, a, field);
    add_all(steps, &all[from..to])
}
