//! What becomes of all that no test of a cut takes.

ghost use Rattle.std.specs.Prelude.{◌≡◌, ◌<◌, IsTrue, length, All, IfSome};
ghost use Rattle.fws_pf_put_nat.specs.Scenes.{IsRootNode};
ghost use Rattle.fws_pf_put_nat.specs.Turns.{passes_root, IsKidNode, IsLast, IsLeft};
ghost use Rattle.fws_pf_put_nat.specs.Ends.{IsRoot};
ghost use Rattle.fws_pf_put_nat.specs.Sheets.{scene_of};

use crate::ends::Ends;
use crate::sheet::Sheet;
use crate::side::Side;
use crate::turn::Last;
use crate::writings::side_written;
use fws_iv::{Iv, Ivs};
use fws_tree::Kid;

// Whether packets get no end.
pub(crate) fn is_root(ends: Ends) -> bool
    ensures { IsTrue result → IsRoot ends }
{
    match ends {
        Ends::Nothing => true,
        Ends::One(None) => true,
        _ => false,
    }
}

/// Whether a node is left to what becomes of all others.
pub(crate) fn is_left(sheet: &Sheet<'_>, last: Last, node: u32) -> bool
    requires { node < length sheet.now.ends.now }
    ensures { IsTrue result → IsLeft (scene_of sheet.now) last node }
{
    match last {
        Last::Root(_) => is_root(sheet.ends[node as usize]),
        Last::Kept(kept) => kept == node,
        Last::Nothing => false,
    }
}

/// Whether packets that get no end pass the tests.
pub(crate) fn passes(last: Last) -> bool
    ensures { result ≡ passes_root last }
{
    match last {
        Last::Root(_) => true,
        Last::Kept(_) => false,
        Last::Nothing => false,
    }
}

// Whether a set has another number than 0.
fn has_other(parts: &[Iv]) -> bool {
    parts.iter().any(|part| 0 < part.hi)
}

// Whether a set of a field has values of packets that arrive.
fn is_met(side: Side, set: &Ivs) -> bool {
    match side {
        Side::Entry => has_other(set.parts()),
        _ => true,
    }
}

// The node of the first kid whose packets get no end.
fn root_kid(sheet: &Sheet<'_>, side: Side, kids: &[Kid]) -> Option<u32>
    requires { All (λ kid. kid.node < length sheet.now.ends.now) kids.now }
    ensures root { IfSome result (IsRootNode (scene_of sheet.now)) }
    ensures kid { IfSome result (IsKidNode kids.now) }
{
    for kid in kids {
        if is_met(side, &kid.set) && is_root(sheet.ends[kid.node as usize]) {
            return Some(kid.node);
        }
    }
    None
}

// How many numbers a set has.
fn count(set: &Ivs) -> usize {
    let mut sum: usize = 0;
    for part in set.parts() {
        sum = sum.saturating_add(part.hi.saturating_sub(part.lo) as usize + 1);
    }
    sum
}

// How much it takes to test for a set of a field. Of protocols the set with one that has neither ports, flags nor types has
// the highest price: so a condition without a protocol is one of packets for which none of these is tested.
fn price(side: Side, set: &Ivs) -> usize {
    match side {
        Side::Entry => count(set).saturating_sub(usize::from(set.has(0))),
        Side::Proto => usize::from(set.has(255)),
        _ => set.parts().len(),
    }
}

// The node of the first kid of those whose test takes most.
fn dearest(side: Side, kids: &[Kid]) -> u32
    requires { 0 < length kids.now }
    ensures { IsKidNode kids.now result }
{
    let mut best = 0;
    let mut most = 0;
    for (i, kid) in kids.iter().enumerate() {
        let own = price(side, &kid.set);
        if own > most {
            best = i;
            most = own;
        }
    }
    kids[best].node
}

/// What becomes of all that no test takes: a kid's packets that get no end, if there is one; none where the field is
/// written over, so that each end knows the addresses that it is written over; else those of the kid whose tests would
/// take most.
pub(crate) fn last_of(sheet: &Sheet<'_>, side: Side, kids: &[Kid]) -> Last
    requires known { All (λ kid. kid.node < length sheet.now.ends.now) kids.now }
    requires some { 0 < length kids.now }
    ensures { IsLast (scene_of sheet.now) side kids.now result }
{
    if let Some(node) = root_kid(sheet, side, kids) {
        return Last::Root(node);
    }
    if side == side_written(sheet.outward) {
        return Last::Nothing;
    }
    Last::Kept(dearest(side, kids))
}
