//! Where the rules of a configuration stand in the diagram that tells which of them are used.

ghost use Rattle.std.specs.Prelude.{◌≡◌, ◌++◌, true, IfOk, OnOk};
ghost use Rattle.fws_ifcl_rules.specs.UsedPlaces.{spots_from};
ghost use Rattle.fws_ipfw.specs.Soundness.{are_apart};
ghost use Rattle.fws_ipfw_ifcl.specs.Diagram.{goes_on};
ghost use Rattle.fws_ipfw_ifcl.specs.Placed.{half_told, placed_width, second_told, spots_of, with_counts};

use crate::counts::looks_up;
use crate::diagram::laid_out;
use crate::instances::Instances;
use crate::widths::width;
use fws_ifcl::Spot;
use fws_ifcl_rules::{put_spot, sum, uses_are_told_by_places};
use fws_ipfw::{IpfwConfig, IpfwNat, IpfwRule};
use fws_net::Site;
use fws_num::Memory;
use std::alloc::Global;

/// How many rules a rule is unfolded to in a half, with the one ahead of it. Fails if memory runs out.
fn placed_width(
    instances: &Instances,
    nats: &[IpfwNat],
    translated: bool,
    rule: &IpfwRule,
) -> Result<usize, Memory>
    requires { are_apart nats.now ≡ true }
    ensures { IfOk result (λ n. n ≡ placed_width nats.now translated rule.now) }
{
    let wide = width(instances, nats, translated, rule)?;
    if looks_up(rule) {
        sum(wide, 1)
    } else {
        Ok(wide)
    }
}

/// Puts the spots of the rules of a half behind the others, of which the first has the place. Fails if memory or numbers for rules
/// run out.
fn put_half_spots(
    spots: &mut Vec<Spot>,
    instances: &Instances,
    nats: &[IpfwNat],
    translated: bool,
    first: usize,
    rules: &[IpfwRule],
) -> Result<(), Memory>
    requires { are_apart nats.now ≡ true }
    ensures { OnOk result (spots.new.items ≡ spots.old.items ++ spots_from 0 first (half_told nats.now translated 0 rules.now)) }
{
    uses_are_told_by_places();
    let mut at = first;
    let mut n = 0;
    for rule in rules {
        let behind = sum(at, placed_width(instances, nats, translated, rule)?)?;
        put_spot(spots, n, 0, at, behind)?;
        at = behind;
        n = sum(n, 1)?;
    }
    Ok(())
}

/// Puts the spots of the rules of the second half behind the others, where some packet may go on behind a translation. Fails if
/// memory or numbers for rules run out.
fn put_second_spots(
    spots: &mut Vec<Spot>,
    instances: &Instances,
    c: &IpfwConfig,
    site: &Site,
    is_there: bool,
    begin: usize,
) -> Result<(), Memory>
    requires apart { are_apart c.now.nats ≡ true }
    requires is_there { is_there ≡ goes_on site.now (with_counts c.now) }
    ensures { OnOk result (spots.new.items ≡ spots.old.items ++ spots_from 0 begin (second_told site.now c.now)) }
{
    if is_there {
        let nats = c.nats.as_slice();
        put_half_spots(spots, instances, nats, true, begin, c.rules.as_slice())?;
        return Ok(());
    }
    Ok(())
}

/// Where the rules of a configuration stand, in the diagram of the one that has rules that count. Fails if memory or numbers for
/// rules run out.
pub(crate) fn spots_of(
    alloc: Global,
    c: &IpfwConfig,
    drawn: &IpfwConfig,
    site: &Site,
) -> Result<Vec<Spot>, Memory>
    requires apart { are_apart c.now.nats ≡ true }
    requires drawn { drawn.now ≡ with_counts c.now }
    ensures { IfOk result (λ spots. spots.items ≡ spots_of site.now c.now) }
{
    uses_are_told_by_places();
    let nats = c.nats.as_slice();
    let instances = Instances::of(alloc, nats)?;
    let layout = laid_out(alloc, &instances, drawn, site)?;
    let mut spots = Vec::new(alloc);
    put_half_spots(&mut spots, &instances, nats, false, 0, c.rules.as_slice())?;
    put_second_spots(
        &mut spots,
        &instances,
        c,
        site,
        layout.goes_on,
        layout.begin,
    )?;
    Ok(spots)
}
