//! The first point at which a tree is true.

ghost use Rattle.std.specs.Prelude.{◌≡◌, option_map, IfOk, MatchOption};
ghost use Rattle.fws_place.specs.Found.{IsTrueNowhere, IsTrueAt};
ghost use Rattle.fws_place.specs.Sides.{least_of, leasts};

use fws_box::Point;
use fws_iv::Ivs;
use fws_num::Memory;
use fws_tree::Tree;
use std::alloc::Global;

// The least value of a set, 0 where there is none.
fn least_of(set: &Ivs) -> u32
    ensures { result ≡ least_of set.now }
{
    match set.parts().first() {
        Some(part) => part.lo,
        None => 0,
    }
}

/// The least value of each side.
pub(crate) fn leasts(sides: &[Ivs; 12]) -> Point
    ensures { result ≡ leasts sides.now }
{
    let mut point = [0; 12];
    for k in 0..12 {
        point[k] = least_of(&sides[k]);
    }
    point
}

// The least point of the sides, if there are some.
fn least_point(sides: Option<[Ivs; 12]>) -> Option<Point>
    ensures { result ≡ option_map leasts sides }
{
    match sides {
        Some(sides) => Some(leasts(&sides)),
        None => None,
    }
}

/// The least point of the first path of the tree that is true. Fails if memory runs out.
pub(crate) fn first_true(alloc: Global, tree: &Tree<bool>) -> Result<Option<Point>, Memory>
    ensures { IfOk result (λ found. MatchOption found (IsTrueNowhere tree.now.0 tree.now.1) (IsTrueAt tree.now.0 tree.now.1)) }
{
    let _tops = tree.tops();
    let first = tree.first_true(alloc)?;
    Ok(least_point(first))
}
