//! Sets of ports divided into lists that one rule holds.

ghost use Rattle.std.specs.Prelude.{◌≡◌, ℕ, ◌<◌, ◌≤◌, true, length, take, IfOk};
ghost use Rattle.std.specs.List.{list_all};
ghost use Rattle.fws_iv.specs.Ivs.{has, IsRegular};
ghost use Rattle.fws_ipt_print.specs.Printable.{places_of, all_places};
ghost use Rattle.fws_ipt_put_chains.specs.Conds.{ArePortLists};

use fws_iv::{Iv, Ivs};
use fws_num::Memory;
use std::alloc::Global;

// The places that a list of ports has.
const PLACES: usize = 15;

// The places that a range takes in a list: one for a single port, and else two.
fn places(range: Iv) -> usize
    ensures { result ≡ places_of range }
{
    if range.lo == range.hi { 1 } else { 2 }
}

// How many of the first ranges find place in one list: one or more.
fn fitting(ranges: &[Iv]) -> usize
    requires { 0 < length ranges.now }
    ensures some { 0 < result }
    ensures within { result ≤ length ranges.now }
    ensures fits { all_places (take result ranges.now) ≤ 15 }
{
    let mut taken = 0;
    for (i, range) in ranges.iter().enumerate() {
        let more = places(*range);
        if taken + more > PLACES {
            return i;
        }
        taken += more;
    }
    ranges.len()
}

/// Lists of ports that together have the members of the set. Fails if memory runs out.
pub(crate) fn port_lists(alloc: Global, set: &Ivs) -> Result<Vec<Ivs>, Memory>
    requires { (v : ℕ) → has set.now v ≡ true → v ≤ 65535 }
    ensures { IfOk result (λ lists. ArePortLists set.now lists.items) }
{
    let parts = set.parts();
    let mut lists = Vec::new(alloc);
    let mut from = 0;
    while from < parts.len() {
        let end = from + fitting(&parts[from..]);
        lists.push(Ivs::of_parts(alloc, &parts[from..end])?)?;
        from = end;
    }
    Ok(lists)
}
