//! Where the rules of a configuration stand in the diagram that has the filter's in their order.

ghost use Rattle.std.specs.Prelude.{◌≡◌, ℕ, ◌++◌, length, Bool, IfOk, OnOk};
ghost use Rattle.fws_ifcl_rules.specs.UsedPlaces.{spots_from};
ghost use Rattle.fws_pf.specs.Uses.{first_filter_rule, first_translation};
ghost use Rattle.fws_pf_ifcl.specs.Blocks.{filter_rule, met_rule};
ghost use Rattle.fws_pf_ifcl.specs.Placed.{filter_told, pass_told, spots_of, translations_told};

use crate::diagram::{filter_place, translations, translations_place};
use crate::tail::is_met;
use crate::translating::translation_width;
use fws_ifcl::Spot;
use fws_ifcl_rules::{put_spot, sum, uses_are_told_by_places};
use fws_num::Memory;
use fws_pf::{PfConfig, PfNat, PfRule};
use std::alloc::Global;

/// How many rules a filter rule is unfolded to where it is met.
fn filter_width(rule: &PfRule) -> usize
    ensures { (at : ℕ) → result ≡ length (filter_rule at rule.now) }
{
    if rule.tag.is_none() {
        return 1;
    }
    if !rule.quick {
        return 2;
    }
    if rule.pass { 4 } else { 1 }
}

/// How many rules a filter rule is unfolded to on a pass.
fn met_width(outward: bool, rule: &PfRule) -> usize
    ensures { (at : ℕ) → result ≡ length (met_rule outward at rule.now) }
{
    if is_met(rule.way, outward) {
        return filter_width(rule);
    }
    0
}

/// Puts the spots of translations behind the others, of which the first has this number and the first place. Fails if memory or
/// numbers for rules run out.
fn put_translation_spots(
    spots: &mut Vec<Spot>,
    chain: u32,
    first: usize,
    number: usize,
    nats: &[PfNat],
) -> Result<(), Memory>
    ensures { OnOk result ((outward : Bool) (filter : ℕ) → spots.new.items ≡ spots.old.items ++ spots_from chain first (translations_told outward filter first number nats.now)) }
{
    uses_are_told_by_places();
    let mut at = first;
    let mut n = number;
    for nat in nats {
        let behind = sum(at, translation_width(nat))?;
        put_spot(spots, n, chain, at, behind)?;
        at = behind;
        n = sum(n, 1)?;
    }
    Ok(())
}

/// Puts the spots of filter rules on a pass behind the others, of which the first has this number and the first place. Fails if
/// memory or numbers for rules run out.
fn put_filter_spots(
    spots: &mut Vec<Spot>,
    chain: u32,
    outward: bool,
    first: usize,
    number: usize,
    filter: &[PfRule],
) -> Result<(), Memory>
    ensures { OnOk result (spots.new.items ≡ spots.old.items ++ spots_from chain first (filter_told outward first number filter.now)) }
{
    uses_are_told_by_places();
    let mut at = first;
    let mut n = number;
    for rule in filter {
        let behind = sum(at, met_width(outward, rule))?;
        put_spot(spots, n, chain, at, behind)?;
        at = behind;
        n = sum(n, 1)?;
    }
    Ok(())
}

/// The number of the first translation of a pass.
fn first_translation(outward: bool, c: &PfConfig) -> usize
    ensures { result ≡ first_translation c.now outward }
{
    if outward { c.rdr.len() } else { 0 }
}

/// The number of the first filter rule. Fails if memory or numbers run out.
fn first_filter_rule(c: &PfConfig) -> Result<usize, Memory>
    ensures { IfOk result (λ n. n ≡ first_filter_rule c.now) }
{
    sum(c.rdr.len(), c.nat.len())
}

/// Puts the spots of the rules of a pass behind the others. Fails if memory or numbers for rules run out.
fn put_pass_spots(
    spots: &mut Vec<Spot>,
    chain: u32,
    outward: bool,
    c: &PfConfig,
) -> Result<(), Memory>
    ensures { OnOk result (spots.new.items ≡ spots.old.items ++ spots_from chain 0 (pass_told outward c.now)) }
{
    uses_are_told_by_places();
    let first = translations_place(outward);
    let filter = filter_place(outward, c)?;
    let number = first_translation(outward, c);
    put_translation_spots(spots, chain, first, number, translations(c, outward))?;
    let later = first_filter_rule(c)?;
    put_filter_spots(spots, chain, outward, filter, later, c.filter.as_slice())?;
    Ok(())
}

/// Where the rules stand. Fails if memory or numbers for rules run out.
pub(crate) fn spots_of(alloc: Global, c: &PfConfig) -> Result<Vec<Spot>, Memory>
    ensures { IfOk result (λ spots. spots.items ≡ spots_of c.now) }
{
    let mut spots = Vec::new(alloc);
    put_pass_spots(&mut spots, 0, false, c)?;
    put_pass_spots(&mut spots, 1, true, c)?;
    Ok(spots)
}
