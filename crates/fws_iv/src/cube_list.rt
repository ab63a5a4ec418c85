//! Sets of numbers below 64 as cubes.

ghost use Rattle.std.specs.Prelude.{◌≡◌, ◌<◌, ◌≤◌, ℕ, ◌+◌, ◌%◌, ◌^◌, ◌&&◌, true, false, length, slice_index_or, [], ◌∷◌, ◌++◌, All, IfOk, OnOk, if◌then◌else◌};
ghost use Rattle.fws_iv.specs.Cubes.{cube_has, cubes_with, IsCube, IsEmptyTable, IsTableOf, LeavesOpen, Narrows};
ghost use Rattle.fws_iv.specs.declared.cube.Cube.{Cube};
ghost use Rattle.fws_iv.specs.Ivs.{has};

use crate::cube::Cube;
use crate::ivs::Ivs;
use fws_num::Memory;
use std::alloc::Global;

/// Which of the numbers below 64 are members.
fn members(alloc: Global, set: &Ivs) -> Result<Vec<bool>, Memory>
    ensures count { IfOk result (λ table. length table.items ≡ 64) }
    ensures members { IfOk result (λ table. (v : ℕ) → v < 64 → slice_index_or table.items v false ≡ has set.now v) }
{
    let mut table = Vec::new(alloc);
    for v in 0..64u32 {
        table.push(set.has(v))?;
    }
    Ok(table)
}

/// Appends the cubes within `cube` of the numbers that a table of their lowest `bits` bits has: those
/// of one half of the table where both are alike, else those of each half.
fn put_cubes(out: &mut Vec<Cube>, table: &[bool], bits: u32, cube: Cube) -> Result<(), Memory>
    requires low { bits ≤ 6 }
    requires size { length table.now ≡ 2 ^ bits }
    requires leaves { LeavesOpen bits cube }
    requires sound { All IsCube out.old.items }
    ensures sound { OnOk result (All IsCube out.new.items) }
    ensures once { OnOk result ((v : ℕ) → cubes_with v out.new.items ≡ cubes_with v out.old.items + (if cube_has cube v && slice_index_or table.now (v % 2 ^ bits) false then 1 else 0)) }
    ensures none { OnOk result (IsEmptyTable bits table.now → out.new.items ≡ out.old.items) }
    ensures alone { OnOk result ((c : Cube) → Narrows bits c cube → IsTableOf bits c cube.want table.now → out.new.items ≡ out.old.items ++ c ∷ []) }
{
    if bits == 0 {
        if table[0] {
            out.push(cube)?;
        }
        return Ok(());
    }

    let place = bits - 1;
    let (low, high) = table.split_at(table.len() / 2);
    if low == high {
        put_cubes(out, low, place, cube)?;
        return Ok(());
    }
    put_cubes(out, low, place, cube.half(place, false))?;
    put_cubes(out, high, place, cube.half(place, true))?;
    Ok(())
}

/// Cubes that hold each member of the set once and no other number below 64. A bit that makes no difference isn't tested, so that a
/// set that is one cube gives that cube. The time is that of a few hundred steps. Fails if memory runs out.
pub fn cubes(alloc: Global, set: &Ivs) -> Result<Vec<Cube>, Memory>
    requires { (v : ℕ) → has set.now v ≡ true → v < 64 }
    ensures once { IfOk result (λ cs. (v : ℕ) → v < 64 → cubes_with v cs.items ≡ (if has set.now v then 1 else 0)) }
    ensures alone { IfOk result (λ cs. (c : Cube) → IsCube c → ((v : ℕ) → v < 64 → has set.now v ≡ cube_has c v) → cs.items ≡ c ∷ []) }
    ensures within { IfOk result (λ cs. All IsCube cs.items) }
{
    let table = members(alloc, set)?;
    let mut out = Vec::new(alloc);
    put_cubes(&mut out, table.as_slice(), 6, Cube { mask: 0, want: 0 })?;
    Ok(out)
}
