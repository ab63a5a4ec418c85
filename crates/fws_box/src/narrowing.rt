//! The points that boxes share, and those of a box with values in a set.

ghost use Rattle.std.specs.Prelude.{◌≡◌, ◌&&◌, ℕ, List, length, true, false, IfOk, IfSome, option_map, unwrap_or, [], slice_index_or};
ghost use Rattle.fws_iv.specs.Ivs.{has};
ghost use Rattle.fws_box.specs.Boxes.{sides_of};
ghost use Rattle.fws_box.specs.Fields.{place_of, value_of};
ghost use Rattle.fws_box.specs.Sides.{sides_have};

use crate::field::Field;
use crate::pbox::PBox;
use crate::sets::{common, shared};
use bumpalo::Bump;
use fws_iv::Ivs;
use fws_num::Memory;

/// The points of the area whose value of the field is in the set, or `None` where there are none. Where the set has all of the
/// field's side, the box is the area itself. Fails if memory runs out.
pub fn narrow<'b>(
    bump: &'b Bump,
    area: &PBox<'b>,
    field: Field,
    set: &Ivs,
) -> Result<Option<PBox<'b>>, Memory>
    ensures common { IfOk result (λ o. (p : List ℕ) → length p ≡ 12 → unwrap_or (option_map (λ b. sides_have (sides_of b) p) o) false ≡ (sides_have (sides_of area.now) p && has set.now (value_of p field))) }
    ensures some { IfOk result (λ o. IfSome o (λ b. (p : List ℕ) × (length p ≡ 12) × (sides_have (sides_of b) p ≡ true))) }
{
    let part = common(bump, area.side(field), set.parts())?;
    Ok(area.with(field, part))
}

// The points of the area whose value of the field is also one of the other box.
fn narrow_by<'b>(
    bump: &'b Bump,
    area: &PBox<'b>,
    field: Field,
    other: &PBox<'b>,
) -> Result<Option<PBox<'b>>, Memory>
    ensures { IfOk result (λ o. (p : List ℕ) → length p ≡ 12 → unwrap_or (option_map (λ b. sides_have (sides_of b) p) o) false ≡ (sides_have (sides_of area.now) p && has (slice_index_or (sides_of other.now) (place_of field) []) (value_of p field))) }
{
    let side = shared(bump, area.side(field), other.side(field))?;
    Ok(area.with(field, side))
}

/// The box of the points that both boxes have, or `None` where there are none. Where one box's side of a field lies within the
/// other's, that side itself is kept. Fails if memory runs out.
pub fn meet<'b>(bump: &'b Bump, a: &PBox<'b>, b: &PBox<'b>) -> Result<Option<PBox<'b>>, Memory>
    ensures common { IfOk result (λ o. (p : List ℕ) → length p ≡ 12 → unwrap_or (option_map (λ m. sides_have (sides_of m) p) o) false ≡ (sides_have (sides_of a.now) p && sides_have (sides_of b.now) p)) }
    ensures some { IfOk result (λ o. IfSome o (λ m. (p : List ℕ) × (length p ≡ 12) × (sides_have (sides_of m) p ≡ true))) }
{
    let mut met = *a;
    for k in 0..12 {
        match narrow_by(bump, &met, Field::at(k), b)? {
            Some(part) => met = part,
            None => return Ok(None),
        }
    }
    Ok(Some(met))
}
