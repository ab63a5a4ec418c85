//! Boxes as far as entries can ask for them.

ghost use Rattle.std.specs.Prelude.{◌≡◌, ℕ, Bool, List, Some, true, length, IfOk};
ghost use Rattle.std.specs.List.{list_all};
ghost use Rattle.fws_box.specs.Sides.{IsWithin, sides_have};
ghost use Rattle.fws_tree.specs.Plain.{value};
ghost use Rattle.fws_ios_put_cover.specs.Classes.{IsPart};
ghost use Rattle.fws_ios_put_cover.specs.Inside.{IsInside};

use crate::class::{Class, keeps, protocols};
use fws_box::{Field, whole_sides};
use fws_iv::Ivs;
use fws_num::Memory;
use fws_tree::{Row, Tree};
use std::alloc::Global;

/// The sets of a box as far as they are asked of the packets of a class. Fails if memory runs out.
pub(crate) fn part_of(
    alloc: Global,
    tops: &[u32; 12],
    sides: &[Ivs; 12],
    class: Class,
) -> Result<[Ivs; 12], Memory>
    requires { length sides.now ≡ 12 }
    ensures { IfOk result (IsPart class tops.now sides.now) }
{
    let mut part = whole_sides(alloc, tops)?;
    part[Field::Proto as usize] = sides[Field::Proto as usize].inter(
        alloc,
        &protocols(alloc, class)?,
    )?;
    for f in 2..8 {
        if keeps(class, f) {
            part[f] = sides[f].copy(alloc)?;
        }
    }
    Ok(part)
}

// Whether all rows are true.
fn all_true(rows: &[Row<bool>]) -> bool
    ensures { result ≡ list_all (λ row. row.leaf) rows.now }
{
    rows.iter().all(|row| row.leaf)
}

// Whether the tree is true everywhere.
fn is_true(alloc: Global, tree: &Tree<bool>) -> Result<bool, Memory>
    ensures { IfOk result (λ all. all ≡ true → (y : List ℕ) → IsWithin tree.now.0 y → value tree.now.1 y ≡ Some true) }
{
    if tree.nodes() > 1 {
        return Ok(false);
    }
    let rows = tree.paths(alloc)?;
    Ok(all_true(&rows))
}

/// Whether the set has all points of the box. Fails if memory runs out.
pub(crate) fn lies_inside(
    alloc: Global,
    within: &Tree<bool>,
    sides: &[Ivs; 12],
) -> Result<bool, Memory>
    ensures { IfOk result (λ all. all ≡ true → IsInside within.now.0 within.now.1 sides.now) }
{
    let rest = within.restrict(alloc, sides, true)?;
    is_true(alloc, &rest)
}
