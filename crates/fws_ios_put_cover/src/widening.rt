//! Fields that needn't be asked.

ghost use Rattle.std.specs.Prelude.{◌≡◌, ◌<◌, Bool, IfOk};
ghost use Rattle.fws_ios_put_cover.specs.Inside.{asks_details, IsWidened, Widens};

use crate::asking::is_whole;
use crate::boxes::lies_inside;
use fws_box::{Field, copy_sides};
use fws_iv::{Ivs, one};
use fws_num::Memory;
use fws_tree::Tree;
use std::alloc::Global;

// The box without a field, where it stays in the set.
fn widened(
    alloc: Global,
    within: &Tree<bool>,
    tops: &[u32; 12],
    sides: [Ivs; 12],
    f: usize,
) -> Result<[Ivs; 12], Memory>
    requires low { f < 12 }
    requires tops { within.now.0 ≡ tops.now }
    ensures { IfOk result (IsWidened tops.now within.now.1 f sides) }
{
    if is_whole(&sides[f], tops[f]) {
        return Ok(sides);
    }
    let mut wider = copy_sides(alloc, &sides)?;
    wider[f] = one(alloc, 0, tops[f])?;
    if lies_inside(alloc, within, &wider)? {
        return Ok(wider);
    }
    Ok(sides)
}

// The box without ports and types, where it stays in the set.
fn without_details(
    alloc: Global,
    within: &Tree<bool>,
    tops: &[u32; 12],
    sides: [Ivs; 12],
) -> Result<[Ivs; 12], Memory>
    requires { within.now.0 ≡ tops.now }
    ensures { IfOk result (λ new. (established : Bool) → Widens established tops.now within.now.1 sides new) }
{
    let sides = widened(alloc, within, tops, sides, Field::Dport as usize)?;
    let sides = widened(alloc, within, tops, sides, Field::Sport as usize)?;
    let sides = widened(alloc, within, tops, sides, Field::Icmp as usize)?;
    Ok(sides)
}

// Whether a port or a type is asked.
fn asks_details(sides: &[Ivs; 12]) -> bool
    ensures { result ≡ asks_details sides.now }
{
    !is_whole(&sides[Field::Dport as usize], 65535)
        || !is_whole(&sides[Field::Sport as usize], 65535)
        || !is_whole(&sides[Field::Icmp as usize], 255)
}

// The box without the protocol, where nothing stands on it and the box stays in the set.
fn without_proto(
    alloc: Global,
    within: &Tree<bool>,
    tops: &[u32; 12],
    sides: [Ivs; 12],
    established: bool,
) -> Result<[Ivs; 12], Memory>
    requires { within.now.0 ≡ tops.now }
    ensures { IfOk result (Widens established tops.now within.now.1 sides) }
{
    if established {
        return Ok(sides);
    }
    if asks_details(&sides) {
        return Ok(sides);
    }
    widened(alloc, within, tops, sides, Field::Proto as usize)
}

// The box without addresses, where it stays in the set.
fn without_addresses(
    alloc: Global,
    within: &Tree<bool>,
    tops: &[u32; 12],
    sides: [Ivs; 12],
) -> Result<[Ivs; 12], Memory>
    requires { within.now.0 ≡ tops.now }
    ensures { IfOk result (λ new. (established : Bool) → Widens established tops.now within.now.1 sides new) }
{
    let sides = widened(alloc, within, tops, sides, Field::Dst as usize)?;
    let sides = widened(alloc, within, tops, sides, Field::Src as usize)?;
    Ok(sides)
}

/// The box without the fields of which nothing need be asked: without them it stays in the set. The protocol of `established` is
/// asked. Fails if memory runs out.
pub(crate) fn widest(
    alloc: Global,
    within: &Tree<bool>,
    tops: &[u32; 12],
    sides: [Ivs; 12],
    established: bool,
) -> Result<[Ivs; 12], Memory>
    requires { within.now.0 ≡ tops.now }
    ensures { IfOk result (Widens established tops.now within.now.1 sides) }
{
    let sides = without_details(alloc, within, tops, sides)?;
    let sides = without_proto(alloc, within, tops, sides, established)?;
    let sides = without_addresses(alloc, within, tops, sides)?;
    Ok(sides)
}
