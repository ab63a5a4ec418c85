//! Which labels occur at points that have some of the values.

ghost use Rattle.std.specs.Prelude.{◌≡◌, ◌≢◌, ◌<◌, ◌++◌, ◌∷◌, [], ℕ, List, true, nat_eq, Some, map, length, slice_get, IfOk, IfSome, OnOk, All, bit_and};
ghost use Rattle.std.specs.HashSet.{contains};
ghost use Rattle.fws_box.specs.Sides.{IsWithin};
ghost use Rattle.fws_tree.specs.Bits.{AreMasks, bits_in};
ghost use Rattle.fws_tree.specs.Building.{Extends};
ghost use Rattle.fws_tree.specs.Held.{AreOrderedFrom, held_at};
ghost use Rattle.fws_tree.specs.Marks.{mark_at};
ghost use Rattle.fws_tree.specs.Painted.{tops_of, value_at, values_of};
ghost use Rattle.fws_tree.specs.Rising.{AreRising};
ghost use Rattle.fws_tree.specs.Touched.{is_called, IsTold, IsTouch, AreAllTold, IsAmong, IsMet};

use crate::arena::place_of;
use crate::called::{bits_of, called_of, have_bits};
use crate::canvas::Canvas;
use crate::halves::marked_cell;
use crate::held::{Rising, held};
use crate::mark::Mark;
use crate::masks::catch_up;
use crate::merge::Skips;
use crate::moves::Moves;
use crate::points::{Fresh, points_of};
use crate::recolour::recoloured;
use crate::store::Store;
use crate::touch::Touch;
use crate::values::Values;
use fws_num::Memory;
use indexmap::IndexSet;
use std::alloc::Global;
use std::collections::HashSet;

/// Where a called value meets a label, it becomes a value that stands for the label. All others stay.
#[derive(Drop)]
struct Noting<'a> {
    // The called values.
    called: &'a HashSet<u32>,
    // The labels that were met.
    labels: IndexSet<u32>,
    // The value that stands for the first of them. Those of the others follow.
    first: u32,
}

// The number at the place, where that of the first place is given. Fails at a number past 2^32 - 1.
fn numbered(first: u32, place: usize) -> Result<u32, Memory> {
    let Ok(place) = u32::try_from(place) else {
        return Err(Memory);
    };
    match first.checked_add(place) {
        Some(number) => Ok(number),
        None => Err(Memory),
    }
}

impl Moves for Noting<'_> {
    ghost use Rattle.std.specs.Prelude.{◌≡◌, true, nat_eq};
    ghost use Rattle.std.specs.HashSet.{contains};
    ghost use Rattle.std.proofs.Common.{refl, ◌∙◌};
    ghost use Rattle.fws_tree.specs.Building.{Extends};
    ghost use Rattle.fws_tree.specs.RecolouringLaws.{extends-same, extends-then};
    ghost use Rattle.fws_tree.specs.Touched.{IsAmong};

    ghost moves = { λ s x l z. contains nat_eq s.called.now x ≡ true → IsAmong s.labels.keys l };

    ghost later = { λ s t. (s.called.now ≡ t.called.now) × Extends s.labels.keys t.labels.keys };

    fn moved(&mut self, _values: &mut Values, value: u32, label: u32) -> Result<u32, Memory> {
        if !self.called.contains(&value) {
            return Ok(value);
        }
        let (place, _) = place_of(&mut self.labels, label)?;
        numbered(self.first, place)
    }

    ghost same = { λ s. (refl, extends-same s.labels.keys) };

    ghost then = { λ s t u e f. (e.0 ∙ f.0, extends-then s.labels.keys t.labels.keys u.labels.keys e.1 f.1) };
}

// Whether the point lies within the tops.
fn lies_within(tops: &[u32; 12], p: &[u32; 12]) -> bool
    ensures { result ≡ true → IsWithin tops.now p.now }
{
    for k in 0..12 {
        if p[k] > tops[k] {
            return false;
        }
    }
    true
}

// Whether the touch is one: whether the cell `root` holds a called value at its point, and the cell `marked` its label.
fn is_met(
    store: &Store,
    rising: &mut Rising,
    tops: &[u32; 12],
    root: u32,
    marked: u32,
    called: &HashSet<u32>,
    touch: &Touch,
) -> Result<bool, Memory>
    requires ordered { AreOrderedFrom 0 store.now }
    requires root { root < length store.now }
    requires marked { marked < length store.now }
    requires rising { AreRising store.now rising.old }
    ensures rising { OnOk result (AreRising store.now rising.new) }
    ensures met { IfOk result (λ yes. yes ≡ true → IsMet tops.now store.now root marked called.now touch.now) }
{
    if touch.label == 0 {
        return Ok(false);
    }
    if !lies_within(tops, &touch.point) {
        return Ok(false);
    }
    let value = held(store, rising, root, &touch.point)?;
    if !called.contains(&value) {
        return Ok(false);
    }
    let label = held(store, rising, marked, &touch.point)?;
    Ok(label == touch.label)
}

// The label at the place with its point, if both are there.
fn touch_at(labels: &IndexSet<u32>, points: &[[u32; 12]], place: usize) -> Option<Touch>
    ensures { IfSome result (λ t. slice_get labels.now.keys place ≡ Some t.label) }
{
    let Some(label) = labels.get_index(place) else {
        return None;
    };
    let Some(point) = points.get(place) else {
        return None;
    };
    Some(Touch {
        label: *label,
        point: *point,
    })
}

// Adds the label at the place with its point, which is looked at. An error is also a point that isn't right.
fn add_touch(
    store: &Store,
    rising: &mut Rising,
    tops: &[u32; 12],
    root: u32,
    marked: u32,
    called: &HashSet<u32>,
    touch: Option<Touch>,
    touches: &mut Vec<Touch>,
) -> Result<(), Memory>
    requires ordered { AreOrderedFrom 0 store.now }
    requires root { root < length store.now }
    requires marked { marked < length store.now }
    requires rising { AreRising store.now rising.old }
    ensures rising { OnOk result (AreRising store.now rising.new) }
    ensures added { OnOk result ((t : Touch) × (touch ≡ Some t) × IsMet tops.now store.now root marked called.now t × (touches.new.items ≡ touches.old.items ++ t ∷ [])) }
{
    let Some(touch) = touch else {
        return Err(Memory);
    };
    if !is_met(store, rising, tops, root, marked, called, &touch)? {
        return Err(Memory);
    }
    touches.push(touch)?;
    Ok(())
}

// Up to how many steps of a cell are looked through one by one, for so many touches: all for a few of them, since to see that
// steps don't fall takes as long.
fn few_steps(touches: usize) -> usize {
    if touches <= 2 { usize::MAX } else { 16 }
}

// The labels with their points. An error is also that a label has no point that is right.
fn touches_at(
    alloc: Global,
    store: &Store,
    tops: &[u32; 12],
    root: u32,
    marked: u32,
    called: &HashSet<u32>,
    labels: &IndexSet<u32>,
    points: &[[u32; 12]],
) -> Result<Vec<Touch>, Memory>
    requires ordered { AreOrderedFrom 0 store.now }
    requires root { root < length store.now }
    requires marked { marked < length store.now }
    ensures labels { IfOk result (λ ts. map (λ t. t.label) ts.items ≡ labels.now.keys) }
    ensures met { IfOk result (λ ts. All (λ t. IsMet tops.now store.now root marked called.now t) ts.items) }
{
    let mut rising = Rising::new(alloc, few_steps(labels.len()));
    let mut touches = Vec::with_capacity(alloc, labels.len())?;
    for place in 0..labels.len() {
        let touch = touch_at(labels, points, place);
        add_touch(
            store,
            &mut rising,
            tops,
            root,
            marked,
            called,
            touch,
            &mut touches,
        )?;
    }
    Ok(touches)
}

// The touches of the labels of cell `marked` at the called values that cell `root` holds. Cells are added.
fn touches_of(
    alloc: Global,
    store: &mut Store,
    values: &mut Values,
    skips: Skips<'_>,
    tops: &[u32; 12],
    root: u32,
    marked: u32,
    called: &HashSet<u32>,
) -> Result<Vec<Touch>, Memory>
    requires ordered { AreOrderedFrom 0 store.old }
    requires root { root < length store.old }
    requires marked { marked < length store.old }
    requires masks { AreMasks values.old store.old skips.masks.now }
    requires wanted { (n : ℕ) → contains nat_eq called.now n ≡ true → bit_and (bits_in values.old n) skips.wanted ≢ 0 }
    ensures extends { Extends store.old store.new }
    ensures values { Extends values.old values.new }
    ensures told { IfOk result (λ ts. (p : List ℕ) → contains nat_eq called.now (held_at store.old root p) ≡ true → held_at store.old marked p ≢ 0 → IsTold (held_at store.old marked p) ts.items) }
    ensures met { IfOk result (λ ts. All (λ t. IsMet tops.now store.old root marked called.now t) ts.items) }
{
    let first = store.unused()?;
    let from = store.len();
    let mut noting = Noting {
        called,
        labels: IndexSet::new(alloc),
        first,
    };
    let painted = recoloured(alloc, store, values, skips, root, marked, &mut noting)?;
    let fresh = Fresh {
        store,
        tops,
        from,
        first,
    };
    let points = points_of(alloc, fresh, painted, noting.labels.len())?;
    touches_at(
        alloc,
        store,
        tops,
        root,
        marked,
        called,
        &noting.labels,
        points.as_slice(),
    )
}

// The touches of the marks' labels at the called values that cell `root` holds. Cells are added.
fn touches(
    alloc: Global,
    store: &mut Store,
    values: &mut Values,
    masks: &[u64],
    tops: &[u32; 12],
    root: u32,
    called: &[u32],
    marks: &[Mark<'_>],
) -> Result<Vec<Touch>, Memory>
    requires ordered { AreOrderedFrom 0 store.old }
    requires root { root < length store.old }
    requires masks { AreMasks values.old store.old masks.now }
    requires tops { length tops.now ≡ 12 }
    ensures extends { Extends store.old store.new }
    ensures values { Extends values.old values.new }
    ensures told { IfOk result (λ ts. (p : List ℕ) → IsWithin tops.now p → is_called called.now (held_at store.old root p) ≡ true → mark_at marks.now 0 p ≢ 0 → IsTold (mark_at marks.now 0 p) ts.items) }
    ensures found { IfOk result (λ ts. All (λ t. IsWithin tops.now t.point × (is_called called.now (held_at store.old root t.point) ≡ true) × (mark_at marks.now 0 t.point ≡ t.label) × (t.label ≢ 0)) ts.items) }
{
    let wanted = bits_of(values, called);
    if !have_bits(values, called, wanted) {
        return Err(Memory);
    }
    let marked = marked_cell(alloc, store, tops, marks, 0)?;
    let set = called_of(alloc, called)?;
    let skips = Skips {
        masks,
        wanted,
        stay: None,
    };
    touches_of(alloc, store, values, skips, tops, root, marked, &set)
}

impl Canvas {
    /// Which labels of the marks occur at points that have one of these values, each with such a point: the label of a point
    /// is that of the first mark that has it, and a point in none has none. The canvas stays as it is.
    ///
    /// The time is that of a recolouring with these marks. Fails if memory runs out, and so is a value that is called and has no
    /// bits.
    pub fn touched(
        &mut self,
        alloc: Global,
        called: &[u32],
        marks: &[Mark<'_>],
    ) -> Result<Vec<Touch>, Memory>
        ensures told { IfOk result (λ ts. AreAllTold self.old called.now marks.now ts.items) }
        ensures found { IfOk result (λ ts. All (λ t. IsTouch self.old called.now marks.now t) ts.items) }
        ensures tops { tops_of self.new ≡ tops_of self.old }
        ensures values { values_of self.new ≡ values_of self.old }
        ensures value { (p : List ℕ) → value_at self.new p ≡ value_at self.old p }
    {
        catch_up(&mut self.masks, &self.store, &self.values)?;
        let extent = self.store.extent();
        let count = self.values.len();
        let outcome = touches(
            alloc,
            &mut self.store,
            &mut self.values,
            self.masks.as_slice(),
            &self.tops,
            self.root,
            called,
            marks,
        );
        self.store.cut_back(extent);
        self.values.keep_first(count);
        outcome
    }
}
