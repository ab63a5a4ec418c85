//! The kid that needs no test.

ghost use Rattle.std.specs.Prelude.{◌≡◌, ◌<◌, length, Some, All, IfOk};
ghost use Rattle.fws_ipfw_put_rules.specs.Pieces.{IsProper};
ghost use Rattle.fws_tree_seen.specs.declared.field.PacketField.{PacketField};

use fws_iv::{Ivs, cubes, prefixes};
use fws_num::Memory;
use fws_tree::Kid;
use fws_tree_seen::PacketField;
use std::alloc::Global;

// How many numbers a set has.
fn count(set: &Ivs) -> usize {
    let mut sum: usize = 0;
    for part in set.parts() {
        sum = sum.saturating_add(part.hi.saturating_sub(part.lo) as usize + 1);
    }
    sum
}

// How much it takes to test for the members of a set one by one. A set with a number that ipfw(8) can't name has the
// highest price, so that it goes without a test.
fn price_without(set: &Ivs, unnamed: u32) -> usize {
    if set.has(unnamed) {
        return usize::MAX;
    }
    count(set)
}

// How much it takes to test for a set of a field. Protocol 0 is every one to ipfw, and ICMP types have numbers up to 31.
fn price(alloc: Global, field: PacketField, set: &Ivs) -> Result<usize, Memory>
    requires { IsProper field set.now }
{
    match field {
        PacketField::Proto => Ok(price_without(set, 0)),
        PacketField::Icmp => Ok(price_without(set, 255)),
        PacketField::Flags => Ok(cubes(alloc, set)?.len()),
        PacketField::Src => Ok(prefixes(alloc, set)?.len()),
        PacketField::Dst => Ok(prefixes(alloc, set)?.len()),
        _ => Ok(set.parts().len()),
    }
}

// The place of the first kid of those whose test takes most.
fn dearest(alloc: Global, field: PacketField, kids: &[Kid]) -> Result<usize, Memory>
    requires some { 0 < length kids.now }
    requires proper { All (λ kid. IsProper field kid.set) kids.now }
    ensures { IfOk result (λ at. at < length kids.now) }
{
    let mut best = 0;
    let mut most = 0;
    for (i, kid) in kids.iter().enumerate() {
        let count = price(alloc, field, &kid.set)?;
        if count > most {
            best = i;
            most = count;
        }
    }
    Ok(best)
}

/// The place of the kid to which all goes for which no test of the others holds: the one whose test would take most, and the first
/// one where no field is seen. Fails if memory runs out.
pub(crate) fn default_kid(
    alloc: Global,
    field: Option<PacketField>,
    kids: &[Kid],
) -> Result<usize, Memory>
    requires some { 0 < length kids.now }
    requires proper { (f : PacketField) → field ≡ Some f → All (λ kid. IsProper f kid.set) kids.now }
    ensures { IfOk result (λ at. at < length kids.now) }
{
    match field {
        Some(f) => dearest(alloc, f, kids),
        None => Ok(0),
    }
}
