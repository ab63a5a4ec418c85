//! Calls on sets of numbers.

ghost use Rattle.std.specs.Prelude.{◌≡◌, ◌<◌, ℕ, true, IfOk};
ghost use Rattle.fws_iv.specs.Ivs.{has};

use crate::calls::Call;
use crate::found::{Found, Spelling};
use crate::numbers::number;
use crate::stop::Stop;
use fws_iv::{Cube, Iv, Ivs, Overlap, cubes, has_number, one, overlap, prefixes};
use fws_num::{Items, Memory, Text, pieces, split_once, value_named};
use std::alloc::Global;

/// How a set is made of ranges.
#[derive(Clone, Copy)]
enum Made {
    Of,
    Extended,
    One,
}

/// What is asked of a set alone.
#[derive(Clone, Copy)]
enum Alone {
    Copy,
    Empty,
    Parts,
    Prefixes,
    Cubes,
}

/// What is asked of a set and a number or a range.
#[derive(Clone, Copy)]
enum Beside {
    Has,
    Overlap,
    With,
}

/// What is asked of two sets.
#[derive(Clone, Copy)]
enum Both {
    Union,
    Inter,
    Minus,
    Equal,
}

/// What a call asks.
#[derive(Clone, Copy)]
enum Asks {
    Made(Made),
    Alone(Alone),
    Beside(Beside),
    Both(Both),
}

/// The names of calls.
const CALLS: [(&[u8], Asks); 15] = [
    (b"of", Asks::Made(Made::Of)),
    (b"extended", Asks::Made(Made::Extended)),
    (b"one", Asks::Made(Made::One)),
    (b"copy", Asks::Alone(Alone::Copy)),
    (b"empty", Asks::Alone(Alone::Empty)),
    (b"parts", Asks::Alone(Alone::Parts)),
    (b"prefixes", Asks::Alone(Alone::Prefixes)),
    (b"cubes", Asks::Alone(Alone::Cubes)),
    (b"has", Asks::Beside(Beside::Has)),
    (b"overlap", Asks::Beside(Beside::Overlap)),
    (b"with", Asks::Beside(Beside::With)),
    (b"union", Asks::Both(Both::Union)),
    (b"inter", Asks::Both(Both::Inter)),
    (b"minus", Asks::Both(Both::Minus)),
    (b"equal", Asks::Both(Both::Equal)),
];

/// The numbers of a range `lo-hi`.
fn range(text: &[u8]) -> Result<Iv, Stop> {
    let Some((lo, hi)) = split_once(text, b'-') else {
        return Err(Stop::Malformed);
    };
    Ok(Iv {
        lo: number(lo)?,
        hi: number(hi)?,
    })
}

/// The ranges of pieces.
fn ranges_of(alloc: Global, pieces: &[Text]) -> Result<Items<Iv>, Stop> {
    let mut ranges = Items::new(alloc);
    for piece in pieces {
        ranges.put(range(piece.as_slice())?)?;
    }
    Ok(ranges)
}

/// The ranges of a text `lo-hi,lo-hi`.
fn ranges(alloc: Global, text: &[u8]) -> Result<Items<Iv>, Stop> {
    if text.is_empty() {
        return Ok(Items::new(alloc));
    }
    let pieces = pieces(alloc, b',', text)?;
    ranges_of(alloc, pieces.as_slice())
}

/// The set and the numbers of a range.
fn with_range(alloc: Global, set: &Ivs, range: &Iv) -> Result<Ivs, Stop> {
    if range.lo > range.hi {
        return Err(Stop::Malformed);
    }
    Ok(set.with_range(alloc, range.lo, range.hi)?)
}

/// The set of ranges.
fn united(alloc: Global, ranges: &[Iv]) -> Result<Ivs, Stop> {
    let mut set = Ivs::none(alloc);
    for range in ranges {
        set = with_range(alloc, &set, range)?;
    }
    Ok(set)
}

/// The set of a text `lo-hi,lo-hi`.
pub fn set_of(alloc: Global, text: &[u8]) -> Result<Ivs, Stop> {
    let ranges = ranges(alloc, text)?;
    united(alloc, ranges.as_slice())
}

/// The set of at most three ranges.
fn set_of_ranges(alloc: Global, ranges: &[Iv]) -> Result<Ivs, Stop> {
    match ranges {
        [] => Ok(Ivs::of_ranges(alloc, &[])?),
        [a, b] if a.lo <= a.hi && b.lo <= b.hi => Ok(Ivs::of_ranges(alloc, &[*a, *b])?),
        [a, b, c] if a.lo <= a.hi && b.lo <= b.hi && c.lo <= c.hi => {
            Ok(Ivs::of_ranges(alloc, &[*a, *b, *c])?)
        }
        _ => Err(Stop::Malformed),
    }
}

/// The set of two ranges, of which the second lies past the first.
fn extended(alloc: Global, ranges: &[Iv]) -> Result<Ivs, Stop> {
    match ranges {
        [a, b] if a.lo <= a.hi && a.hi < b.lo && b.lo <= b.hi => {
            let mut set = Ivs::none(alloc);
            set.extend(a.lo, a.hi)?;
            set.extend(b.lo, b.hi)?;
            Ok(set)
        }
        _ => Err(Stop::Malformed),
    }
}

/// The set of one range.
fn set_of_one(alloc: Global, ranges: &[Iv]) -> Result<Ivs, Stop> {
    match ranges {
        [a] if a.lo <= a.hi => Ok(one(alloc, a.lo, a.hi)?),
        _ => Err(Stop::Malformed),
    }
}

/// Adds how much of a range lies in a set: `none`, `some` or `all`.
fn put_overlap(found: &mut Found, set: &Ivs, range: &Iv) -> Result<(), Stop> {
    if range.lo > range.hi {
        return Err(Stop::Malformed);
    }
    let said: &[u8] = match overlap(set.parts(), range.lo, range.hi) {
        Overlap::Apart => b"none",
        Overlap::Part => b"some",
        Overlap::Whole => b"all",
    };
    Ok(found.put(said)?)
}

/// Adds the prefixes of a set.
fn put_prefixes(found: &mut Found, set: &Ivs) -> Result<(), Memory> {
    for prefix in &prefixes(found.alloc, set)? {
        found.put_prefix(prefix)?;
    }
    Ok(())
}

/// The members below 64.
fn low_members(alloc: Global, set: &Ivs) -> Result<Ivs, Memory>
    ensures { IfOk result (λ s. (v : ℕ) → has s v ≡ true → v < 64) }
{
    let low = one(alloc, 0, 63)?;
    set.inter(alloc, &low)
}

/// The cubes of a set's members below 64.
fn low_cubes(alloc: Global, set: &Ivs) -> Result<Vec<Cube>, Memory> {
    let low = low_members(alloc, set)?;
    cubes(alloc, &low)
}

/// Adds the cubes of a set's members below 64.
fn put_cubes(found: &mut Found, set: &Ivs) -> Result<(), Memory> {
    for cube in &low_cubes(found.alloc, set)? {
        found.put_cube(cube)?;
    }
    Ok(())
}

/// The set that is made of ranges.
fn made_of(alloc: Global, made: Made, ranges: &[Iv]) -> Result<Ivs, Stop> {
    match made {
        Made::Of => set_of_ranges(alloc, ranges),
        Made::Extended => extended(alloc, ranges),
        Made::One => set_of_one(alloc, ranges),
    }
}

/// The set that is made of the ranges of a text.
fn made_of_text(alloc: Global, made: Made, text: &[u8]) -> Result<Ivs, Stop> {
    let ranges = ranges(alloc, text)?;
    made_of(alloc, made, ranges.as_slice())
}

/// Adds the set that is made of the ranges of a text.
fn put_made(found: &mut Found, made: Made, text: &[u8]) -> Result<(), Stop> {
    let set = made_of_text(found.alloc, made, text)?;
    Ok(found.put_parts(Spelling::Decimal, set.parts())?)
}

/// Adds what is asked of a set alone.
fn put_alone(found: &mut Found, asks: Alone, set: &Ivs) -> Result<(), Memory> {
    let alloc = found.alloc;
    match asks {
        Alone::Copy => found.put_set(Spelling::Decimal, set.copy(alloc)),
        Alone::Empty => found.put_answer(set.is_empty()),
        Alone::Parts => found.put_set(Spelling::Decimal, Ivs::of_parts(alloc, set.parts())),
        Alone::Prefixes => put_prefixes(found, set),
        Alone::Cubes => put_cubes(found, set),
    }
}

/// Adds the set and the numbers of a range.
fn put_with(found: &mut Found, set: &Ivs, range: &Iv) -> Result<(), Stop> {
    let set = with_range(found.alloc, set, range)?;
    Ok(found.put_parts(Spelling::Decimal, set.parts())?)
}

/// Adds what is asked of a set and the number or range of a text.
fn put_beside(found: &mut Found, asks: Beside, set: &Ivs, text: &[u8]) -> Result<(), Stop> {
    match asks {
        Beside::Has => {
            let n = number(text)?;
            Ok(found.put_answer(set.has(n) && has_number(set.parts(), n))?)
        }
        Beside::Overlap => put_overlap(found, set, &range(text)?),
        Beside::With => put_with(found, set, &range(text)?),
    }
}

/// Adds what is asked of two sets.
fn put_both(found: &mut Found, asks: Both, a: &Ivs, b: &Ivs) -> Result<(), Memory> {
    let alloc = found.alloc;
    match asks {
        Both::Union => found.put_set(Spelling::Decimal, a.union(alloc, b)),
        Both::Inter => found.put_set(Spelling::Decimal, a.inter(alloc, b)),
        Both::Minus => found.put_set(Spelling::Decimal, a.minus(alloc, b)),
        Both::Equal => found.put_answer(*a == *b),
    }
}

/// Adds what is asked of a set and the set of a text.
fn put_sets(found: &mut Found, asks: Both, a: &Ivs, text: &[u8]) -> Result<(), Stop> {
    let b = set_of(found.alloc, text)?;
    Ok(put_both(found, asks, a, &b)?)
}

/// Adds what a call gives of a set, and of its second text.
fn put_of_set(found: &mut Found, asks: Asks, set: &Ivs, text: &[u8]) -> Result<(), Stop> {
    match asks {
        Asks::Alone(asks) => Ok(put_alone(found, asks, set)?),
        Asks::Beside(asks) => put_beside(found, asks, set, text),
        Asks::Both(asks) => put_sets(found, asks, set, text),
        Asks::Made(_) => Err(Stop::Malformed),
    }
}

/// Adds what a call gives.
pub fn call_sets(found: &mut Found, call: &Call) -> Result<(), Stop> {
    match value_named(&CALLS, call.name) {
        Some(Asks::Made(made)) => put_made(found, made, call.text),
        Some(asks) => {
            let set = set_of(found.alloc, call.text)?;
            put_of_set(found, asks, &set, call.second)
        }
        None => Err(Stop::Malformed),
    }
}
