//! The sides of a box: a set of values for each field.

ghost use Rattle.std.specs.Prelude.{◌≡◌, ◌&&◌, ℕ, List, [], replicate, IfOk};
ghost use Rattle.fws_box.specs.Sides.{sides_have, whole_sides};

use fws_iv::{Ivs, one};
use fws_num::Memory;
use std::alloc::Global;
use std::array;

/// Twelve sets without a member.
pub fn no_sides(alloc: Global) -> [Ivs; 12]
    ensures { result ≡ replicate 12 [] }
{
    array::from_fn(|_| Ivs::none(alloc))
}

/// The whole range of each field, up to its top. Fails if memory runs out.
pub fn whole_sides(alloc: Global, tops: &[u32; 12]) -> Result<[Ivs; 12], Memory>
    ensures { IfOk result (λ sides. sides ≡ whole_sides tops.now) }
{
    let mut sides = no_sides(alloc);
    for k in 0..12 {
        sides[k] = one(alloc, 0, tops[k])?;
    }
    Ok(sides)
}

/// Equal sides. Fails if memory runs out.
pub fn copy_sides(alloc: Global, sides: &[Ivs; 12]) -> Result<[Ivs; 12], Memory>
    ensures { IfOk result (λ copies. copies ≡ sides.now) }
{
    let mut copies = no_sides(alloc);
    for k in 0..12 {
        copies[k] = sides[k].copy(alloc)?;
    }
    Ok(copies)
}

/// The sides of the points that lie in both. The time is linear in the number of intervals. Fails if memory runs out.
pub fn meet_sides(alloc: Global, a: &[Ivs; 12], b: &[Ivs; 12]) -> Result<[Ivs; 12], Memory>
    ensures { IfOk result (λ m. (p : List ℕ) → sides_have m p ≡ (sides_have a.now p && sides_have b.now p)) }
{
    let mut met = no_sides(alloc);
    for k in 0..12 {
        met[k] = a[k].inter(alloc, &b[k])?;
    }
    Ok(met)
}
