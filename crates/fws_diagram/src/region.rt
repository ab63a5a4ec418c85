//! Regions: a side for each field.

use crate::fields::FIELDS;
use crate::sides::Side;

/// The points of which each value lies in the side of its field.
#[derive(Clone, Copy, Debug, PartialEq, Eq)]
pub struct Region {
    /// The sides, in the order of the fields.
    pub sides: [Side; 10],
}

impl Region {
    /// The side of a field.
    pub fn side(&self, field: usize) -> Side {
        match self.sides.get(field) {
            Some(side) => *side,
            None => Side::EMPTY,
        }
    }

    /// The region with another side at a field.
    pub fn with(&self, field: usize, side: Side) -> Region {
        let mut sides = self.sides;
        if field < FIELDS {
            sides[field] = side;
        }
        Region { sides }
    }
}
