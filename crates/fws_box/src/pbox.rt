//! One box.

ghost use Rattle.std.specs.Prelude.{◌≡◌, length, map};
ghost use Rattle.fws_box.specs.Sides.{IsFilled, AreRegular, AreRegular-prop};

use crate::field::Field;
use crate::point::Point;
use crate::sides::no_sides;
use fws_iv::{Iv, Ivs, has_number};
use fws_num::Memory;
use std::alloc::Global;

/// The points of which each value is a member of its side. No side is empty. The sides lie in an arena.
#[derive(Clone, Copy)]
pub struct PBox<'b> {
    /// A set of values for each field, in the order of the fields: its intervals ascend, none is empty and no
    /// two touch.
    pub sides: [&'b [Iv]; 12],
    pub ghost twelve: { length sides ≡ 12 },
    pub ghost filled: { IsFilled (map (λ s. s.now) sides) },
    pub ghost regular: { AreRegular (map (λ s. s.now) sides) } by { AreRegular-prop (map (λ s. s.now) sides) },
}

impl<'b> PBox<'b> {
    ghost use Rattle.std.specs.Prelude.{◌≡◌, ◌≢◌, ℕ, List, [], true, length, IfOk, MatchOption, slice_set, slice_index_or};
    ghost use Rattle.fws_iv.specs.Ivs.{has, IsRegular};
    ghost use Rattle.fws_box.specs.Boxes.{sides_of};
    ghost use Rattle.fws_box.specs.Fields.{place_of, value_of};
    ghost use Rattle.fws_box.specs.Sides.{sides_have};

    /// The set of the field's values: its intervals ascend, none is empty and no two touch.
    pub fn side(&self, field: Field) -> &'b [Iv]
        ensures value { result.now ≡ slice_index_or (sides_of self.now) (place_of field) [] }
        ensures filled { result.now ≢ [] }
        ensures regular { IsRegular result.now }
        ensures has { (p : List ℕ) → length p ≡ 12 → sides_have (sides_of self.now) p ≡ true → has result.now (value_of p field) ≡ true }
    {
        self.sides[field.place()]
    }

    /// The box with this side for the field, or `None` where the side is empty.
    pub(crate) fn with(&self, field: Field, side: &'b [Iv]) -> Option<PBox<'b>>
        requires { IsRegular side.now }
        ensures { MatchOption result (side.now ≡ []) (λ b. sides_of b ≡ slice_set (sides_of self.now) (place_of field) side.now) }
    {
        if side.is_empty() {
            return None;
        }
        let mut sides = self.sides;
        sides[field.place()] = side;
        Some(PBox { sides })
    }

    /// Whether the box has the point. The time is logarithmic in the number of intervals of a side.
    pub fn has(&self, p: &Point) -> bool
        ensures { result ≡ sides_have (sides_of self.now) p.now }
    {
        for k in 0..12 {
            if !has_number(self.side(Field::at(k)), p[k]) {
                return false;
            }
        }
        true
    }

    /// A point of the box: the least value of each side.
    pub fn pick(&self) -> Point
        ensures { sides_have (sides_of self.now) result ≡ true }
    {
        let mut point = [0; 12];
        for k in 0..12 {
            point[k] = self.side(Field::at(k))[0].lo;
        }
        point
    }

    /// The sides as sets of their own, which outlive the arena. Fails if memory runs out.
    pub fn to_sides(&self, alloc: Global) -> Result<[Ivs; 12], Memory>
        ensures { IfOk result (λ sides. sides ≡ sides_of self.now) }
    {
        let mut sides = no_sides(alloc);
        for k in 0..12 {
            sides[k] = Ivs::of_parts(alloc, self.side(Field::at(k)))?;
        }
        Ok(sides)
    }
}
