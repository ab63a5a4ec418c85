//! Hulls of classes, by number: bounds of their points.

ghost use Rattle.std.specs.Prelude.{◌≡◌, ◌<◌, ◌∷◌, [], ℕ, List, true, length, IfOk, OnOk};
ghost use Rattle.fws_exec.specs.Hulls.{is_noted, AreSettled, HasAt, HasPoint, HullsGrow, NotesStay};
ghost use Rattle.fws_exec.specs.Sheets.{among};

use crate::hull::Hull;
use fws_num::Memory;
use std::alloc::Global;

/// The hull of the only class.
pub(crate) fn only(alloc: Global, hull: Hull) -> Result<Vec<Hull>, Memory>
    ensures { IfOk result (λ hulls. hulls.items ≡ hull ∷ []) }
{
    let mut hulls = Vec::new(alloc);
    hulls.push(hull)?;
    Ok(hulls)
}

/// Puts hulls without points behind the others, until there is one with this number.
fn reach(hulls: &mut Vec<Hull>, number: u32) -> Result<(), Memory>
    ensures grown { OnOk result (HullsGrow hulls.old.items hulls.new.items) }
    ensures reached { OnOk result (number < length hulls.new.items) }
{
    while hulls.len() <= number as usize {
        hulls.push(Hull::none())?;
    }
    Ok(())
}

/// The class with this number has the points of the hull from now on, beside those that it had.
pub(crate) fn widen(hulls: &mut Vec<Hull>, number: u32, hull: &Hull) -> Result<(), Memory>
    ensures grown { OnOk result (HullsGrow hulls.old.items hulls.new.items) }
    ensures has { OnOk result ((p : List ℕ) → HasPoint hull.now p → HasAt hulls.new.items number p) }
{
    reach(hulls, number)?;
    hulls[number as usize] = hulls[number as usize].with(hull);
    Ok(())
}

/// That packets of a class became those of another one.
#[derive(Clone, Copy)]
pub(crate) struct Change {
    /// The number of the class that they were of.
    pub from: u32,
    /// The number of the class that they are of now.
    pub to: u32,
}

/// Notes that packets of a class became those of another one.
pub(crate) fn note_change(changes: &mut Vec<Change>, from: u32, to: u32) -> Result<(), Memory>
    ensures stay { NotesStay changes.old.items changes.new.items }
    ensures noted { OnOk result (is_noted changes.new.items from to ≡ true) }
{
    changes.push(Change { from, to })?;
    Ok(())
}

/// The hull at the place; where there is none, one without points.
pub(crate) fn hull_at(hulls: &[Hull], place: usize) -> Hull
    ensures { (p : List ℕ) → HasAt hulls.now place p → HasPoint result p }
{
    match hulls.get(place) {
        Some(hull) => *hull,
        None => Hull::none(),
    }
}

/// The hull with this number takes in the part in the area of the one with the other number.
fn settle_one(hulls: &mut Vec<Hull>, from: u32, to: u32, area: &Hull) -> Result<(), Memory>
    ensures grown { OnOk result (HullsGrow hulls.old.items hulls.new.items) }
    ensures settled { OnOk result ((p : List ℕ) → HasAt hulls.old.items from p → HasPoint area.now p → HasAt hulls.new.items to p) }
{
    let own = hull_at(hulls.as_slice(), from as usize);
    let moved = own.within(area);
    widen(hulls, to, &moved)?;
    Ok(())
}

/// Hulls of classes to which points of the area changed in these ways.
pub(crate) fn settle(hulls: &mut Vec<Hull>, changes: &[Change], area: &Hull) -> Result<(), Memory>
    ensures grown { OnOk result (HullsGrow hulls.old.items hulls.new.items) }
    ensures settled { OnOk result (AreSettled changes.now area.now hulls.old.items hulls.new.items) }
{
    for change in changes {
        settle_one(hulls, change.from, change.to, area)?;
    }
    Ok(())
}

/// A hull of the points of this one and of the class with this number.
fn with_class(hull: &Hull, hulls: &[Hull], number: u32) -> Hull
    ensures kept { (p : List ℕ) → HasPoint hull.now p → HasPoint result p }
    ensures taken { (p : List ℕ) → HasAt hulls.now number p → HasPoint result p }
{
    match hulls.get(number as usize) {
        Some(own) => hull.with(own),
        None => *hull,
    }
}

/// A hull of the points of the classes with these numbers.
pub(crate) fn hull_of(hulls: &[Hull], numbers: &[u32]) -> Hull
    ensures { (n : ℕ) (p : List ℕ) → among numbers.now n ≡ true → HasAt hulls.now n p → HasPoint result p }
{
    let mut hull = Hull::none();
    for number in numbers {
        hull = with_class(&hull, hulls, *number);
    }
    hull
}
