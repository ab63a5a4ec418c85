//! Marks: labels for the points of boxes.

ghost use Rattle.std.specs.Prelude.{◌≡◌, ◌≤◌, length, All};
ghost use Rattle.std.proofs.Props.{props};
ghost use Rattle.fws_iv.specs.Ivs.{IsRegular};
ghost use Rattle.fws_tree.specs.RegularLists.{regular-prop};

use fws_box::PBox;
use fws_iv::{Iv, Ivs};

/// A label for the points that lie in all of the sides.
#[derive(Clone, Copy)]
pub struct Mark<'a> {
    /// The intervals of each field's set of values, in ascending order, of which no two touch; in the
    /// order of the fields. A set may be empty.
    pub sides: [&'a [Iv]; 12],
    /// The label, at least 1.
    pub label: u32,
    ghost regular: { All (λ s. IsRegular s.now) sides } by { Prim.hlevel (props, regular-prop) },
    ghost twelve: { length sides ≡ 12 },
    ghost labelled: { 1 ≤ label },
}

impl<'a> Mark<'a> {
    ghost use Rattle.fws_box.specs.Boxes.{sides_of as box_sides};
    ghost use Rattle.fws_tree.specs.Marks.{sides_of};

    /// The label for the points of the box.
    pub fn of_box(b: &PBox<'a>, label: u32) -> Mark<'a>
        requires { 1 ≤ label }
        ensures sides { sides_of result ≡ box_sides b.now }
        ensures label { result.label ≡ label }
    {
        Mark {
            sides: b.sides,
            label,
        }
    }

    /// The label for the points that lie in all of these sets.
    pub fn of_sets(sides: &'a [Ivs; 12], label: u32) -> Mark<'a>
        requires { 1 ≤ label }
        ensures sides { sides_of result ≡ sides.now }
        ensures label { result.label ≡ label }
    {
        let all = &sides[..];
        prove_eq!(all.len(), 12);
        let sides = [
            sides[0].parts(),
            sides[1].parts(),
            sides[2].parts(),
            sides[3].parts(),
            sides[4].parts(),
            sides[5].parts(),
            sides[6].parts(),
            sides[7].parts(),
            sides[8].parts(),
            sides[9].parts(),
            sides[10].parts(),
            sides[11].parts(),
        ];
        Mark { sides, label }
    }
}
