//! Where the rules of a configuration stand in the diagram that has a place for each.

ghost use Rattle.std.specs.Prelude.{◌≡◌, ◌+◌, ◌++◌, Bool, length, IfOk, OnOk};
ghost use Rattle.fws_ifcl_rules.specs.UsedPlaces.{chain_spots, spots_from};
ghost use Rattle.fws_ipt.specs.Refusals.{head_width, width_of};
ghost use Rattle.fws_ipt_ifcl.specs.Placed.{chain_told, chains_told, rules_told, spots_of};

use crate::numbers::OWN_CHAINS;
use fws_ifcl::Spot;
use fws_ifcl_rules::{put_spot, sum, uses_are_told_by_places};
use fws_ipt::{IptChain, IptConfig, IptGo, IptRule, IptTable};
use fws_net::Site;
use fws_num::Memory;
use std::alloc::Global;

/// How many rules a rule is unfolded to, on a site with so many interfaces. Fails if memory or numbers run out.
fn width_of(faces: usize, go: IptGo) -> Result<usize, Memory>
    ensures { IfOk result (λ n. n ≡ width_of faces go) }
{
    match go {
        IptGo::Source(_) | IptGo::Dest(_) | IptGo::Netmap(_) => Ok(4),
        IptGo::Masquerade => sum(faces, 4),
        IptGo::Redirect(_) => sum(faces, 5),
        _ => Ok(1),
    }
}

/// How many rules stand ahead of the first rule of a chain.
fn head_width(table: IptTable, policy: Option<bool>) -> usize
    ensures { result ≡ head_width table policy }
{
    match (table, policy) {
        (IptTable::Nat, Some(_)) => 1,
        _ => 0,
    }
}

/// Puts the spots of rules behind the others, of which the first has this number and this place. Fails if memory or numbers for
/// rules run out.
fn put_rule_spots(
    spots: &mut Vec<Spot>,
    site: &Site,
    chain: u32,
    first: usize,
    number: usize,
    rules: &[IptRule],
) -> Result<(), Memory>
    ensures { OnOk result ((on_source : Bool) → spots.new.items ≡ spots.old.items ++ spots_from chain first (rules_told site.now on_source first number rules.now)) }
{
    uses_are_told_by_places();
    let mut at = first;
    let mut n = number;
    for rule in rules {
        let behind = sum(at, width_of(site.faces.len(), rule.go)?)?;
        put_spot(spots, n, chain, at, behind)?;
        at = behind;
        n = sum(n, 1)?;
    }
    Ok(())
}

/// Puts the spots of a chain's rules behind the others, of which the first has this number. Fails if memory or numbers for rules
/// run out.
fn put_chain_spots(
    spots: &mut Vec<Spot>,
    site: &Site,
    at: u32,
    number: usize,
    chain: &IptChain,
) -> Result<(), Memory>
    ensures { OnOk result (spots.new.items ≡ spots.old.items ++ spots_from at 0 (chain_told site.now number chain.now)) }
{
    uses_are_told_by_places();
    let first = head_width(chain.table, chain.policy);
    put_rule_spots(spots, site, at, first, number, chain.rules.as_slice())?;
    Ok(())
}

/// Where the rules stand. Fails if memory or numbers for chains and rules run out.
pub(crate) fn spots_of(alloc: Global, c: &IptConfig, site: &Site) -> Result<Vec<Spot>, Memory>
    ensures { IfOk result (λ spots. spots.items ≡ spots_of site.now c.now) }
{
    let mut spots = Vec::new(alloc);
    let mut at = OWN_CHAINS;
    let mut number = 0;
    for chain in c.chains.as_slice() {
        let there = u32::try_from(at).map_err(|_| Memory)?;
        put_chain_spots(&mut spots, site, there, number, chain)?;
        number = sum(number, chain.rules.len())?;
        at = sum(at, 1)?;
    }
    Ok(spots)
}
