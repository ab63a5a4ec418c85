//! What boxes leave of an area.

ghost use Rattle.std.specs.Prelude.{not, nat_eq, IfOk, OnOk};
ghost use Rattle.fws_box.specs.Boxes.{box_hits, sides_of};
ghost use Rattle.fws_box.specs.Sides.{sides_have};
ghost use Rattle.fws_box_conditions.specs.Kept.{Adds, AreThose};
ghost use Rattle.fws_box_conditions.specs.Areas.{AreWhere};

use crate::kept::all_of;
use bumpalo::Bump;
use fws_box::{PBox, cut};
use fws_num::Memory;
use std::alloc::Global;

/// Adds the points of the area that the box has not.
fn add_cut<'b>(
    alloc: Global,
    bump: &'b Bump,
    pieces: &mut Vec<PBox<'b>>,
    area: &PBox<'b>,
    taken: &PBox<'b>,
) -> Result<(), Memory>
    ensures { OnOk result (Adds (sides_of area.now) (λ p. not (sides_have (sides_of taken.now) p)) pieces.old.items pieces.new.items) }
{
    let mut parts = cut(alloc, bump, area, taken)?;
    pieces.append(&mut parts)?;
    Ok(())
}

/// The points of the pieces that the box has not.
fn cut_all<'b>(
    alloc: Global,
    bump: &'b Bump,
    pieces: &[PBox<'b>],
    taken: &PBox<'b>,
) -> Result<Vec<PBox<'b>>, Memory>
    ensures { IfOk result (λ left. AreThose pieces.now (λ p. not (sides_have (sides_of taken.now) p)) left.items) }
{
    let mut left = Vec::new(alloc);
    for piece in pieces {
        add_cut(alloc, bump, &mut left, piece, taken)?;
    }
    Ok(left)
}

/// The points of the area that are in none of the boxes.
pub(crate) fn outside<'b>(
    alloc: Global,
    bump: &'b Bump,
    area: &PBox<'b>,
    boxes: &[PBox<'b>],
) -> Result<Vec<PBox<'b>>, Memory>
    ensures { IfOk result (λ left. AreWhere (sides_of area.now) (λ p. nat_eq (box_hits boxes.now p) 0) left.items) }
{
    let mut left = all_of(alloc, area)?;
    for taken in boxes {
        left = cut_all(alloc, bump, left.as_slice(), taken)?;
    }
    Ok(left)
}
