//! Sets of TCP flags by cubes: some flags are looked at, and some of these have to be set.

use fws_num::Memory;
use std::alloc::Global;

/// The flags of which those of `mask` are just those of `want`.
#[derive(Clone, Copy, Debug, PartialEq, Eq)]
pub struct FlagCube {
    /// The flags that are looked at.
    pub mask: u32,
    /// Those of them that are set.
    pub want: u32,
    /// All such flags, as bits.
    pub set: u64,
}

/// All flags of a cube, as bits.
fn set_of(mask: u32, want: u32) -> u64 {
    let mut set = 0;
    for flags in 0..64u32 {
        if flags & mask == want {
            set |= 1u64 << flags;
        }
    }
    set
}

/// How many of the lowest six bits are set.
fn count_of(mask: u32) -> u32 {
    let mut count: u32 = 0;
    for bit in 0..6u32 {
        count = count.saturating_add((mask >> bit) & 1);
    }
    count
}

/// Puts every cube, large ones first.
pub(crate) fn put_cubes(cubes: &mut Vec<FlagCube>) -> Result<(), Memory> {
    for bits in 0..7u32 {
        for mask in 0..64u32 {
            if count_of(mask) != bits {
                continue;
            }
            for want in 0..64u32 {
                if want & !mask == 0 {
                    cubes.push(FlagCube {
                        mask,
                        want,
                        set: set_of(mask, want),
                    })?;
                }
            }
        }
    }
    Ok(())
}

/// How many bits of a number are set.
fn ones(set: u64) -> u32 {
    let mut count: u32 = 0;
    for bit in 0..64u32 {
        count = count.saturating_add(u32::from((set >> bit) & 1 == 1));
    }
    count
}

/// Cubes that have the flags of the set and no others.
pub(crate) fn cover_flags(
    alloc: Global,
    cubes: &[FlagCube],
    set: u64,
) -> Result<Vec<FlagCube>, Memory> {
    let mut cover = Vec::new(alloc);
    let mut left = set;
    for _ in 0..64 {
        if left == 0 {
            break;
        }
        let mut best: Option<FlagCube> = None;
        let mut most: u32 = 0;
        for cube in cubes {
            if cube.set & !set == 0 {
                let count = ones(cube.set & left);
                if count > most {
                    most = count;
                    best = Some(*cube);
                }
            }
        }
        match best {
            Some(cube) => {
                cover.push(cube)?;
                left &= !cube.set;
            }
            None => break,
        }
    }
    Ok(cover)
}
