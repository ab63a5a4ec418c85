//! The kid that needs no test.

ghost use Rattle.std.specs.Prelude.{◌≡◌, ℕ, ◌<◌, ◌≤◌, true, length, slice_get, Some, option_and_then, All, IfOk};
ghost use Rattle.std.specs.List.{list_any};
ghost use Rattle.fws_iv.specs.Ivs.{has};
ghost use Rattle.fws_tree.specs.declared.node.Kid.{Kid};
ghost use Rattle.fws_tree_seen.specs.declared.field.PacketField.{PacketField};
ghost use Rattle.fws_tree_seen.specs.Fields.{top_of};
ghost use Rattle.fws_ipt_put_chains.specs.Pieces.{unspelled};
ghost use Rattle.fws_ipt_put_chains.specs.Plans.{HoldsUnspelled};

use crate::port_lists::port_lists;
use fws_iv::{Ivs, cubes};
use fws_num::Memory;
use fws_tree::Kid;
use fws_tree_seen::PacketField;
use std::alloc::Global;

// The value that no rule can test alone.
fn unspelled_value(field: Option<PacketField>) -> Option<u32>
    ensures { result ≡ option_and_then unspelled field }
{
    match field {
        Some(PacketField::Proto) => Some(0),
        Some(PacketField::Icmp) => Some(255),
        _ => None,
    }
}

// The place of the first kid that has the value, and 0 where none has it.
fn kid_with(kids: &[Kid], v: u32) -> usize
    requires { 0 < length kids.now }
    ensures within { result < length kids.now }
    ensures holds { list_any (λ kid. has kid.set v) kids.now ≡ true → (kid : Kid) → slice_get kids.now result ≡ Some kid → has kid.set v ≡ true }
{
    for (i, kid) in kids.iter().enumerate() {
        if kid.set.has(v) {
            return i;
        }
    }
    0
}

// How many pieces a set of a field has.
fn price(alloc: Global, field: PacketField, set: &Ivs) -> Result<usize, Memory>
    requires { (v : ℕ) → has set.now v ≡ true → v ≤ top_of field }
{
    match field {
        PacketField::Flags => Ok(cubes(alloc, set)?.len()),
        PacketField::Dport => Ok(port_lists(alloc, set)?.len()),
        PacketField::Sport => Ok(port_lists(alloc, set)?.len()),
        _ => Ok(set.parts().len()),
    }
}

// The place of the first kid of those with most pieces.
fn dearest(alloc: Global, field: PacketField, kids: &[Kid]) -> Result<usize, Memory>
    requires some { 0 < length kids.now }
    requires below { All (λ kid. (v : ℕ) → has kid.set v ≡ true → v ≤ top_of field) kids.now }
    ensures { IfOk result (λ at. at < length kids.now) }
{
    let mut best = 0;
    let mut most = 0;
    for (i, kid) in kids.iter().enumerate() {
        let count = price(alloc, field, &kid.set)?;
        if count > most {
            best = i;
            most = count;
        }
    }
    Ok(best)
}

/// The place of the kid to which all goes that no test of the others takes: the one that has the value that no rule can test alone,
/// where there is such a value, and else the one with most pieces. Fails if memory runs out.
pub(crate) fn default_kid(
    alloc: Global,
    field: Option<PacketField>,
    kids: &[Kid],
) -> Result<usize, Memory>
    requires some { 0 < length kids.now }
    requires below { (f : PacketField) → field ≡ Some f → All (λ kid. (v : ℕ) → has kid.set v ≡ true → v ≤ top_of f) kids.now }
    ensures within { IfOk result (λ at. at < length kids.now) }
    ensures holds { IfOk result (HoldsUnspelled field kids.now) }
{
    match (unspelled_value(field), field) {
        (Some(v), _) => Ok(kid_with(kids, v)),
        (None, Some(f)) => dearest(alloc, f, kids),
        (None, None) => Ok(0),
    }
}
