//! The points of a box that another has not.

ghost use Rattle.std.specs.Prelude.{◌≡◌, ◌≢◌, ◌&&◌, ◌≤◌, ◌+◌, not, ℕ, List, [], length, IfOk, OnOk, vec_len, if◌then◌else◌};
ghost use Rattle.fws_iv.specs.Ivs.{has, IsRegular};
ghost use Rattle.fws_box.specs.Boxes.{box_hits, sides_of};
ghost use Rattle.fws_box.specs.Fields.{value_of};
ghost use Rattle.fws_box.specs.Sides.{sides_have};

use crate::field::Field;
use crate::pbox::PBox;
use crate::sets::{rest, shared};
use bumpalo::Bump;
use fws_iv::Iv;
use fws_num::Memory;
use std::alloc::Global;

// Adds the box of the points of the area whose value of the field is outside the set, where there are
// some.
fn add_outside<'b>(
    bump: &'b Bump,
    pieces: &mut Vec<PBox<'b>>,
    area: &PBox<'b>,
    field: Field,
    set: &[Iv],
) -> Result<(), Memory>
    requires { IsRegular set.now }
    ensures hits { OnOk result ((p : List ℕ) → length p ≡ 12 → box_hits pieces.new.items p ≡ box_hits pieces.old.items p + (if sides_have (sides_of area.now) p && not (has set.now (value_of p field)) then 1 else 0)) }
    ensures count { OnOk result (vec_len pieces.new ≤ vec_len pieces.old + 1) }
{
    let outside = rest(bump, area.side(field), set)?;
    if let Some(piece) = area.with(field, outside) {
        pieces.push(piece)?;
    }
    Ok(())
}

/// Boxes that share no point, of the points of `a` that `b` has not: at most twelve. Each field has at most two new sides, what the
/// boxes share and what is left of `a`, and the pieces have them in common. Fails if memory runs out.
pub fn cut<'b>(
    alloc: Global,
    bump: &'b Bump,
    a: &PBox<'b>,
    b: &PBox<'b>,
) -> Result<Vec<PBox<'b>>, Memory>
    ensures once { IfOk result (λ boxes. (p : List ℕ) → length p ≡ 12 → box_hits boxes.items p ≡ (if sides_have (sides_of a.now) p && not (sides_have (sides_of b.now) p) then 1 else 0)) }
    ensures count { IfOk result (λ boxes. vec_len boxes ≤ 12) }
{
    let mut pieces = Vec::new(alloc);
    let mut left = *a;
    for k in 0..12 {
        let field = Field::at(k);
        let both = shared(bump, left.side(field), b.side(field))?;
        let Some(next) = left.with(field, both) else {
            pieces.push(left)?;
            return Ok(pieces);
        };
        add_outside(bump, &mut pieces, &left, field, b.side(field))?;
        left = next;
    }
    Ok(pieces)
}
