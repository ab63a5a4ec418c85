//! What a list permits and denies, told by as few fields as can be.
//!
//! A translation list is given two sets: packets that it has to permit, since its source is written over them, and packets that
//! it has to deny, since a later source is, or none. Packets in neither may go either way: they don't cross, or an earlier list
//! has taken them. So the two sets are made wider as long as they stay apart, and the wider they are, the fewer fields the list
//! has to ask for.
//!
//! A field goes by projecting it away in both sets (`exists`): then neither tells packets apart by it. If both are still apart,
//! the wider sets take the place of the old ones; if not, the old ones stay. Fields go one after another, those first that cost
//! entries most: the type, the ports, the protocol with all of these, and last the addresses. The order decides only how short
//! a list becomes, never what it does.
//!
//! What holds at each step: the permitted set has at least what had to be permitted, the denied one at least what had to be
//! denied, and no packet is in both.
//!
//! The cost: six times two projections and one meeting of the trees, for each source.

ghost use Rattle.std.specs.Prelude.{◌≡◌, true, Some, None, if◌then◌else◌, IfOk, IfSome};
ghost use Rattle.std.specs.List.{list_any};
ghost use Rattle.fws_ios_put_sources.specs.Crossing.{AreTold};
ghost use Rattle.fws_ios_put_sources.specs.Parting.{keeps_look, AreApart, AreWider, IsParted, IsPartedAt};

use crate::parted::Parted;
use crate::picking::picked;
use fws_net::Outcome;
use fws_num::Memory;
use fws_tree::Tree;
use fws_truth::both;
use fws_truth::fields::{DPORT, DST, ICMP, PROTO, SPORT, SRC};
use indexmap::IndexSet;
use std::alloc::Global;

// The protocol is left out with all fields that only some protocols have.
const PROTO_WITH_DETAILS: u16 = PROTO | DPORT | SPORT | ICMP;

// Whether one of the leaves is true.
fn has_true(leaves: &[bool]) -> bool
    ensures { result ≡ list_any (λ leaf. leaf) leaves.now }
{
    leaves.iter().any(|leaf| *leaf)
}

// Whether no packet is in both sets. Fails if memory runs out.
fn are_apart(alloc: Global, first: &Tree<bool>, second: &Tree<bool>) -> Result<bool, Memory>
    requires { second.now.0 ≡ first.now.0 }
    ensures { IfOk result (λ apart. apart ≡ true → AreApart first.now.0 first.now.1 second.now.1) }
{
    let both = both(alloc, first, second)?;
    Ok(!has_true(both.shared().leaves))
}

// Sets that aren't wanted any more.
fn dismiss(_sets: Parted) {}

// The sets without a test of the fields, which may not stay apart. Fails if memory runs out.
fn projected(alloc: Global, sets: &Parted, fields: u16) -> Result<Parted, Memory>
    requires look { keeps_look fields ≡ true }
    requires parted { IsParted sets.now }
    ensures tops { IfOk result (λ new. new.denied.0 ≡ new.permitted.0) }
    ensures parted { IfOk result (λ new. AreApart new.permitted.0 new.permitted.1 new.denied.1 → IsParted new) }
    ensures wider { IfOk result (AreWider sets.now) }
{
    let permitted = sets.permitted.exists(alloc, fields)?;
    let denied = sets.denied.exists(alloc, fields)?;
    Ok(Parted { permitted, denied })
}

// The sets, if they stay apart.
fn kept_if(apart: bool, sets: Parted) -> Option<Parted>
    ensures { result ≡ (if apart then Some sets else None) }
{
    if apart {
        return Some(sets);
    }
    None
}

// The sets without a test of the fields, if they stay apart. Fails if memory runs out.
fn parted_without(alloc: Global, sets: &Parted, fields: u16) -> Result<Option<Parted>, Memory>
    requires look { keeps_look fields ≡ true }
    requires parted { IsParted sets.now }
    ensures parted { IfOk result (λ found. IfSome found IsParted) }
    ensures wider { IfOk result (λ found. IfSome found (AreWider sets.now)) }
{
    let new = projected(alloc, sets, fields)?;
    match are_apart(alloc, &new.permitted, &new.denied) {
        Ok(apart) => Ok(kept_if(apart, new)),
        Err(fault) => {
            dismiss(new);
            Err(fault)
        }
    }
}

// The sets without a test of the fields, where they stay apart; else as they are. Fails if memory runs out.
fn left_out(alloc: Global, sets: Parted, fields: u16) -> Result<Parted, Memory>
    requires look { keeps_look fields ≡ true }
    requires parted { IsParted sets }
    ensures parted { IfOk result IsParted }
    ensures wider { IfOk result (AreWider sets) }
{
    match parted_without(alloc, &sets, fields) {
        Ok(Some(new)) => {
            dismiss(sets);
            Ok(new)
        }
        Ok(None) => Ok(sets),
        Err(fault) => {
            dismiss(sets);
            Err(fault)
        }
    }
}

// The sets without tests of fields that needn't be tested. Fields are left out one after another, each where what is permitted
// stays apart from what is denied: the type of ICMP, the ports of the source and of the destination, the protocol with all of
// these, and the addresses. Fails if memory runs out.
fn freed(alloc: Global, sets: Parted) -> Result<Parted, Memory>
    requires { IsParted sets }
    ensures parted { IfOk result IsParted }
    ensures wider { IfOk result (AreWider sets) }
{
    let sets = left_out(alloc, sets, ICMP)?;
    let sets = left_out(alloc, sets, SPORT)?;
    let sets = left_out(alloc, sets, DPORT)?;
    let sets = left_out(alloc, sets, PROTO_WITH_DETAILS)?;
    let sets = left_out(alloc, sets, DST)?;
    let sets = left_out(alloc, sets, SRC)?;
    Ok(sets)
}

// The packets that get the source of the list at a place, and those that get that of a later one or none. Fails if memory runs out.
fn picked_at(
    alloc: Global,
    crossing: &Tree<Outcome>,
    addrs: &IndexSet<u32>,
    place: usize,
) -> Result<Parted, Memory>
    requires { AreTold crossing.now.0 crossing.now.1 }
    ensures { IfOk result (IsPartedAt crossing.now.0 crossing.now.1 addrs.now.keys place) }
{
    let permitted = picked(alloc, crossing, addrs, place, false)?;
    let denied = picked(alloc, crossing, addrs, place, true)?;
    Ok(Parted { permitted, denied })
}

/// What the list at a place permits and denies: it permits the packets to which it gives a source, and denies those that get that
/// of a later one or none. Fails if memory runs out.
pub(crate) fn parted_at(
    alloc: Global,
    crossing: &Tree<Outcome>,
    addrs: &IndexSet<u32>,
    place: usize,
) -> Result<Parted, Memory>
    requires { AreTold crossing.now.0 crossing.now.1 }
    ensures { IfOk result (IsPartedAt crossing.now.0 crossing.now.1 addrs.now.keys place) }
{
    let sets = picked_at(alloc, crossing, addrs, place)?;
    freed(alloc, sets)
}
