//! One instance for all that is translated: hosts to which whole addresses are redirected leave with these, and all others with one
//! address more. So all packets of a connection meet the same instance, whichever way they go.

use crate::diagrams::colour_of;
use crate::instances::{Home, Instances, addresses_of, redirects_of_first};
use crate::script::Script;
use crate::sending::put_source;
use fws_net::Site;
use fws_suggest::{DST, Diagram, ENTRY, Policy, Rule, SRC, Side, Stop};

/// What one instance writes.
#[derive(Clone, Copy)]
pub(crate) struct Single {
    /// The place of the source that is written over all but those of the hosts to which is redirected.
    base: usize,
    /// What it writes over sources, by their places.
    pub(crate) map: Diagram,
    /// The outer addresses.
    outer: Side,
    /// The interfaces where packets come in that are redirected.
    entries: Side,
}

/// The place of a source with this address and no port.
fn source_place(policy: &Policy, addr: u32) -> Option<usize> {
    policy.sources.iter().position(|source| match source {
        Some(end) => end.addr == addr && end.len == 32 && end.port.is_none(),
        None => false,
    })
}

/// Lets the instance write over the source of a host what is redirected to it. It gives up where that isn't one address that is written.
fn put_home(policy: &mut Policy, single: &mut Single, home: &Home) -> Result<(), Stop> {
    let Some(Some(end)) = policy.destinations.get(home.place).copied() else {
        return Err(Stop::Late);
    };
    let outer = addresses_of(policy, home)?;
    let parts = policy.space.parts(DST, outer)?;
    let addr = match parts.as_slice() {
        [part] => part.lo,
        _ => return Err(Stop::Late),
    };
    let Some(place) = source_place(policy, addr) else {
        return Err(Stop::Late);
    };
    if policy.space.count_values(DST, outer) != 1 || end.port.is_some() {
        return Err(Stop::Late);
    }
    let side = policy.space.range(SRC, end.addr, end.addr)?;
    let region = policy.everything().with(SRC, side);
    let mask = policy.space.only(colour_of(place))?;
    single.map = policy.space.put(single.map, &region, mask)?;
    single.outer = policy.space.either(single.outer, outer)?;
    single.entries = policy.space.either(single.entries, home.entries)?;
    Ok(())
}

/// The instance that writes the source at a place where no redirect says otherwise.
fn with_base(policy: &mut Policy, found: &Instances, base: usize) -> Result<Single, Stop> {
    let Some(Some(end)) = policy.sources.get(base).copied() else {
        return Err(Stop::Late);
    };
    let mask = policy.space.only(colour_of(base))?;
    let mut single = Single {
        base,
        map: policy.space.leaf(mask)?,
        outer: policy.space.range(DST, end.addr, end.addr)?,
        entries: Side::EMPTY,
    };
    for home in &found.homes {
        put_home(policy, &mut single, home)?;
    }
    Ok(single)
}

/// Whether a source is the outer address of a redirect.
fn is_redirected(policy: &mut Policy, found: &Instances, place: usize) -> Result<bool, Stop> {
    let Some(Some(end)) = policy.sources.get(place).copied() else {
        return Ok(true);
    };
    let side = policy.space.range(DST, end.addr, end.addr)?;
    for home in &found.homes {
        let outer = addresses_of(policy, home)?;
        if policy.space.meets(outer, side)? {
            return Ok(true);
        }
    }
    Ok(false)
}

/// What one instance writes for all. It gives up where one isn't enough: where ports are redirected, a host has several outer addresses,
/// or more than one source is written that no redirect has.
pub(crate) fn single_of(policy: &mut Policy, found: &Instances) -> Result<Single, Stop> {
    if found.maps.len() != 1 {
        return Err(Stop::Late);
    }
    let mut base: Option<usize> = None;
    for place in 1..policy.sources.len() {
        if !is_redirected(policy, found, place)? {
            if base.is_some() {
                return Err(Stop::Late);
            }
            base = Some(place);
        }
    }
    let Some(base) = base else {
        return Err(Stop::Late);
    };
    with_base(policy, found, base)
}

impl Single {
    /// The rule by which packets that come in are translated.
    pub(crate) fn inward(&self, policy: &Policy) -> Rule {
        Rule {
            region: policy
                .everything()
                .with(ENTRY, self.entries)
                .with(DST, self.outer),
            colour: 1,
        }
    }

    /// Whether these rules translate only what leaves where packets are redirected as they come in.
    pub(crate) fn meets_all(&self, policy: &mut Policy, rules: &[Rule]) -> Result<bool, Stop> {
        for place in 0..policy.exits.len() {
            let Some(exit) = policy.exits.get(place).copied() else {
                break;
            };
            let entry = policy.space.range(ENTRY, exit.entry, exit.entry)?;
            if exit.entry < 2 || policy.space.is_within(entry, self.entries)? {
                continue;
            }
            for rule in rules {
                if rule.colour == 1 && policy.space.meets(rule.region.side(DST), exit.side)? {
                    return Ok(false);
                }
            }
        }
        Ok(true)
    }

    /// Appends the line of the instance.
    pub(crate) fn put(
        &self,
        script: &mut Script,
        policy: &mut Policy,
        site: &Site,
        found: &Instances,
    ) -> Result<(), Stop> {
        let redirects = redirects_of_first(policy, found)?;
        let Some(Some(end)) = policy.sources.get(self.base).copied() else {
            return Err(Stop::Late);
        };
        put_source(&mut script.instances, site, 1, end, redirects.as_slice())?;
        script.numbers = found.homes.len().saturating_add(1);
        Ok(())
    }
}
