//! What is kept of boxes.

ghost use Rattle.std.specs.Prelude.{true, IfOk, OnOk};
ghost use Rattle.fws_iv.specs.Ivs.{has};
ghost use Rattle.fws_box.specs.Boxes.{sides_of};
ghost use Rattle.fws_box.specs.Fields.{value_of};
ghost use Rattle.fws_box_conditions.specs.Kept.{Adds, AreThose};
ghost use Rattle.fws_box_conditions.specs.Areas.{AreWhere};

use bumpalo::Bump;
use fws_box::{Field, PBox, narrow};
use fws_iv::Ivs;
use fws_num::Memory;
use std::alloc::Global;

/// Adds the points of the area whose value of the field is in the set.
pub(crate) fn add_narrowed<'b>(
    bump: &'b Bump,
    boxes: &mut Vec<PBox<'b>>,
    area: &PBox<'b>,
    field: Field,
    set: &Ivs,
) -> Result<(), Memory>
    ensures { OnOk result (Adds (sides_of area.now) (λ p. has set.now (value_of p field)) boxes.old.items boxes.new.items) }
{
    if let Some(part) = narrow(bump, area, field, set)? {
        boxes.push(part)?;
    }
    Ok(())
}

/// The area as the only box.
pub(crate) fn all_of<'b>(alloc: Global, area: &PBox<'b>) -> Result<Vec<PBox<'b>>, Memory>
    ensures { IfOk result (λ boxes. AreWhere (sides_of area.now) (λ p. true) boxes.items) }
{
    let mut boxes = Vec::new(alloc);
    boxes.push(*area)?;
    Ok(boxes)
}

/// The points of the boxes whose value of the field is in the set.
pub(crate) fn those_in<'b>(
    alloc: Global,
    bump: &'b Bump,
    boxes: Vec<PBox<'b>>,
    field: Field,
    set: &Ivs,
) -> Result<Vec<PBox<'b>>, Memory>
    ensures { IfOk result (λ kept. AreThose boxes.entry.items (λ p. has set.now (value_of p field)) kept.items) }
{
    let mut kept = Vec::new(alloc);
    for area in boxes {
        add_narrowed(bump, &mut kept, &area, field, set)?;
    }
    Ok(kept)
}

/// All of the boxes, or none.
pub(crate) fn those_if<'b>(alloc: Global, boxes: Vec<PBox<'b>>, all: bool) -> Vec<PBox<'b>>
    ensures { AreThose boxes.entry.items (λ p. all) result.items }
{
    if all { boxes } else { Vec::new(alloc) }
}
