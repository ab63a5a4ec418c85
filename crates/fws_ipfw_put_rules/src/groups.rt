//! Sets divided into groups of which one literal tests each.

ghost use Rattle.std.specs.Prelude.{◌≡◌, ℕ, ◌<◌, ◌≤◌, ◌^◌, true, IfOk, OnOk};
ghost use Rattle.fws_iv.specs.Ivs.{has};
ghost use Rattle.fws_ipfw_put_rules.specs.Groups.{are_addresses, are_ports, AreGroups, AddsGroup};

use fws_iv::{Ivs, one, prefixes};
use fws_num::Memory;
use std::alloc::Global;

// The most networks that one list holds.
const NETWORKS: usize = 31;

// The most ranges that one list of ports holds.
const RANGES: usize = 30;

// The members before a number.
fn head_of(alloc: Global, set: &Ivs, end: u32) -> Result<Ivs, Memory>
    ensures { IfOk result (λ head. (v : ℕ) → has head v ≡ true → has set.now v ≡ true) }
{
    if end == 0 {
        return Ok(Ivs::none(alloc));
    }
    set.inter(alloc, &one(alloc, 0, end - 1)?)
}

// Appends the set, if it has a member.
fn put_group(groups: &mut Vec<Ivs>, set: Ivs) -> Result<(), Memory>
    ensures { OnOk result (AddsGroup groups.old.items groups.new.items set) }
{
    let _parts = set.parts();
    if !set.is_empty() {
        groups.push(set)?;
    }
    Ok(())
}

/// Groups of addresses that together have the members of the set: those of at most thirty-one networks each. Fails if memory runs
/// out.
pub(crate) fn address_groups(alloc: Global, set: &Ivs) -> Result<Vec<Ivs>, Memory>
    requires { (v : ℕ) → has set.now v ≡ true → v < 2 ^ 32 }
    ensures { IfOk result (λ groups. AreGroups are_addresses set.now groups.items) }
{
    let networks = prefixes(alloc, set)?;
    let mut groups = Vec::new(alloc);
    let mut rest = set.copy(alloc)?;
    let mut k = NETWORKS;
    while k < networks.len() {
        let head = head_of(alloc, &rest, networks[k].addr)?;
        rest = rest.minus(alloc, &head)?;
        put_group(&mut groups, head)?;
        k += NETWORKS;
    }
    put_group(&mut groups, rest)?;
    Ok(groups)
}

/// Groups of at most thirty ranges of ports that together have the members of the set. Fails if memory runs out.
pub(crate) fn port_groups(alloc: Global, set: &Ivs) -> Result<Vec<Ivs>, Memory>
    requires { (v : ℕ) → has set.now v ≡ true → v ≤ 65535 }
    ensures { IfOk result (λ groups. AreGroups are_ports set.now groups.items) }
{
    let parts = set.parts();
    let mut groups = Vec::new(alloc);
    let mut from = 0;
    while from < parts.len() {
        let end = from + RANGES.min(parts.len() - from);
        groups.push(Ivs::of_parts(alloc, &parts[from..end])?)?;
        from = end;
    }
    Ok(groups)
}
