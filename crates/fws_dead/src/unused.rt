//! The rules that no packet uses.

ghost use Rattle.std.specs.Prelude.{◌≡◌, ℕ, ◌<◌, true, false, not, None, length, slice_index_or, All, IfOk, IfErr, List};
ghost use Rattle.std.specs.HashSet.{contains};
ghost use Rattle.std.specs.List.{filter, range_with_len};
ghost use Rattle.fws_flat.specs.Soundness.{flat_ok};
ghost use Rattle.fws_flat.specs.Uses.{used_places as flat_used};
ghost use Rattle.fws_ifcl.specs.Refusals.{refusal_of};
ghost use Rattle.fws_ifcl.specs.Soundness.{ifcl_ok};
ghost use Rattle.fws_ifcl.specs.Spots.{are_spots_of, told};
ghost use Rattle.fws_net.specs.declared.connection.Kind.{Kind};
ghost use Rattle.fws_net.specs.declared.packet.Packet.{Packet};
ghost use Rattle.fws_net.specs.Routes.{IsSound};
ghost use Rattle.fws_unfold.specs.Refused.{Refuses};
ghost use Rattle.fws_unfold.specs.Told.{told as stood_for};
ghost use Rattle.fws_dead.specs.Unused.{used_at, AreUnused, UseAlike};
ghost use Rattle.fws_dead.specs.Used.{has_spot, key_eq, key_of};

use crate::used::{PlaceKey, key_of, used_places};
use fws_flat::Flat;
use fws_ifcl::{Ifcl, Place, Spot};
use fws_net::Site;
use fws_num::Memory;
use fws_unfold::{UnfoldAnswer, unfold_from};
use std::alloc::Global;
use std::collections::HashSet;

/// For each of so many rules, whether one of its spots is at one of the places. Fails if memory runs out.
fn used_rules(
    alloc: Global,
    rules: u32,
    spots: &[Spot],
    used: &HashSet<PlaceKey>,
) -> Result<Vec<bool>, Memory>
    requires { All (λ spot. spot.rule < rules) spots.now }
    ensures entries { IfOk result (λ marks. length marks.items ≡ rules) }
    ensures marks { IfOk result (λ marks. (n : ℕ) → n < rules → slice_index_or marks.items n false ≡ has_spot (λ at. contains key_eq used.now (key_of at)) spots.now n) }
{
    let mut marks = vec![in alloc; false; rules as usize]?;
    for spot in spots {
        if used.contains(&key_of(spot.at)) {
            marks[spot.rule as usize] = true;
        }
    }
    Ok(marks)
}

/// The numbers of the rules that aren't marked, ascending. Fails if memory runs out.
fn unmarked(alloc: Global, rules: u32, marks: &[bool]) -> Result<Vec<u32>, Memory>
    requires { length marks.now ≡ rules }
    ensures { IfOk result (λ numbers. numbers.items ≡ filter (λ n. not (slice_index_or marks.now n false)) (range_with_len 0 rules)) }
{
    let mut numbers = Vec::new(alloc);
    for n in 0..rules {
        if !marks[n as usize] {
            numbers.push(n)?;
        }
    }
    Ok(numbers)
}

/// The numbers of the rules, ascending, that no packet of the site uses, where the instructions of the code stand for rules at
/// these places. Fails if memory runs out.
fn unused_by(
    alloc: Global,
    f: &Flat,
    places: &[Option<Place>],
    rules: u32,
    spots: &[Spot],
    site: &Site,
) -> Result<Vec<u32>, Memory>
    requires sound { IsSound site.now }
    requires ok { flat_ok f.now ≡ true }
    requires entries { length places.now ≡ length f.now.code }
    requires spots { All (λ spot. spot.rule < rules) spots.now }
    ensures { IfOk result (λ numbers. AreUnused (λ p k. told spots.now (stood_for places.now (flat_used f.now site.now p k))) site.now rules numbers.items) }
{
    let used = used_places(alloc, f, places, site)?;
    let marks = used_rules(alloc, rules, spots, &used)?;
    let numbers = unmarked(alloc, rules, marks.as_slice())?;
    Ok(numbers)
}

/// The numbers of the rules, ascending, that no packet of the site uses, new or established: those below `rules` of which no spot
/// is used. A rule without spots is one of them. A diagram that can't be unfolded is refused exactly as `unfold` refuses it.
///
/// The time is that of finding which instructions of the unfolded diagram packets use, once for new packets and once for
/// established ones, and beside it linear in the instructions, the spots and the rules.
pub fn dead(
    alloc: Global,
    f: &Ifcl,
    rules: u32,
    spots: &[Spot],
    site: &Site,
) -> Result<Vec<u32>, UnfoldAnswer>
    requires ok { ifcl_ok f.now ≡ true }
    requires spots { are_spots_of f.now rules spots.now ≡ true }
    requires sound { IsSound site.now }
    ensures unrefused { IfOk result (λ numbers. refusal_of f.now ≡ None) }
    ensures unused { IfOk result (λ numbers. AreUnused (used_at f.now site.now spots.now) site.now rules numbers.items) }
    ensures alike { (used : Packet → Kind → List ℕ) → UseAlike site.now (used_at f.now site.now spots.now) used → IfOk result (λ numbers. AreUnused used site.now rules numbers.items) }
    ensures refused { IfErr result (λ e. Refuses e (refusal_of f.now)) }
{
    let (flat, places) = unfold_from(alloc, f)?;
    let numbers = unused_by(alloc, &flat, places.as_slice(), rules, spots, site)?;
    Ok(numbers)
}
