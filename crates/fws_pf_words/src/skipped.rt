//! The interfaces that are skipped.

ghost use Rattle.std.specs.Prelude.{◌≡◌, ℕ, ◌+◌, ◌^◌, ◌≤◌, Bool, true, Some, IfOk};
ghost use Rattle.fws_iv.specs.Ivs.{with_ranges};
ghost use Rattle.fws_pf.specs.FileText.{skipped_ranges, with_skipped};
ghost use Rattle.fws_pf.specs.Values.{from_below};
ghost use Rattle.fws_pf_words.specs.Defining.{entry_ranges};

use crate::lists::ItemList;
use fws_iv::{Ivs, ranges_add_members, ranges_are_regular, same_members_same_list};
use fws_num::Memory;
use fws_pf::{Item, Part};
use std::alloc::Global;

/// The entry of the interface that a value names; none where it has no set.
fn entry_of(part: &Part) -> Option<u32>
    ensures { (last : ℕ) (negated : Bool) → skipped_ranges last negated part.now ≡ entry_ranges last negated result }
{
    match part {
        Part::Every => None,
        Part::Set(set) => match set.parts() {
            [] => None,
            [x, ..] => Some(x.lo),
        },
        Part::Table(_) => None,
    }
}

/// The set with the numbers from `lo` on that lie below `end`.
fn with_below(alloc: Global, set: &Ivs, lo: u64, end: u64) -> Result<Ivs, Memory>
    requires { end ≤ 2 ^ 32 }
    ensures { IfOk result (λ s. s ≡ with_ranges set.now (from_below lo end)) }
{
    if lo < end {
        set.with_range(alloc, lo as u32, (end - 1) as u32)
    } else {
        set.copy(alloc)
    }
}

/// The set with all entries from 1 to the last one but this.
fn with_others(alloc: Global, last: u32, set: &Ivs, entry: u32) -> Result<Ivs, Memory>
    ensures { IfOk result (λ s. s ≡ with_ranges set.now (entry_ranges last true (Some entry))) }
{
    let entry = u64::from(entry);
    let below = with_below(alloc, set, 1, entry)?;
    with_below(alloc, &below, entry + 1, u64::from(last) + 1)
}

/// The set with the interfaces that a value names.
fn with_item(alloc: Global, last: u32, set: &Ivs, item: &Item) -> Result<Ivs, Memory>
    ensures { IfOk result (λ s. s ≡ with_ranges set.now (skipped_ranges last item.now.negated item.now.part)) }
{
    match entry_of(&item.part) {
        None => set.copy(alloc),
        Some(entry) => if item.negated {
            with_others(alloc, last, set, entry)
        } else {
            set.with_range(alloc, entry, entry)
        },
    }
}

/// The interfaces that are skipped, with those that each of these values names.
fn with_each(alloc: Global, last: u32, skip: &Ivs, items: &[Item]) -> Result<Ivs, Memory>
    ensures { IfOk result (λ s. s ≡ with_skipped last skip.now items.now) }
{
    let mut set = skip.copy(alloc)?;
    for item in items {
        set = with_item(alloc, last, &set, item)?;
    }
    Ok(set)
}

/// The interfaces that are skipped, with those of a further statement, at a site whose last entry has this number. A stretch of the
/// list that comes again adds nothing. Fails if memory runs out.
pub fn with_skipped(alloc: Global, last: u32, skip: &Ivs, items: &ItemList) -> Result<Ivs, Memory>
    ensures { IfOk result (λ s. s ≡ with_skipped last skip.now items.now) }
{
    ranges_are_regular();
    ranges_add_members();
    same_members_same_list();
    skip.parts();
    let set = with_each(alloc, last, skip, items.kept())?;
    Ok(set)
}
