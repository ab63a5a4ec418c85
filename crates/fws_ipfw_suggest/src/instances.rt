//! Instances with redirects.

use crate::diagrams::{colour_of, only_where, parted};
use crate::ends::place_of;
use crate::redirects::{Redirects, put_redirects, totalled};
use fws_net::End;
use fws_num::{Memory, Text, put_dec};
use fws_suggest::{
    DPORT, DST, Diagram, ENTRY, FLAGS, ICMP, Mask, Meeting, PROTO, Policy, SPORT, SRC, Side, Stop,
};

/// Instances with redirects. Their numbers begin at 1.
#[derive(Drop)]
pub(crate) struct Instances {
    /// Where each redirects, and to which destination: a colour is its place, 0 for none.
    pub(crate) maps: Vec<Diagram>,
    /// The places of destinations that have redirects, and the instances of these.
    pub(crate) homes: Vec<Home>,
    /// How each is configured, behind `config `.
    pub(crate) configs: Vec<Text>,
}

/// A destination in its instance.
#[derive(Clone, Copy)]
pub(crate) struct Home {
    /// The place of the destination.
    pub(crate) place: usize,
    /// The place of its instance.
    pub(crate) instance: usize,
    /// The destinations that are redirected there.
    publics: Diagram,
    /// The interfaces where packets come in that are redirected there.
    pub(crate) entries: Side,
    /// Their protocols.
    pub(crate) protocols: Side,
}

/// New packets that go to a destination: its place, and no colour elsewhere.
fn going_to(policy: &mut Policy, place: usize) -> Result<Diagram, Stop> {
    let there = policy.space.only(colour_of(place))?;
    let mut masks = Vec::new(policy.alloc);
    for outcome in 0..policy.outcomes.len() {
        let is_there = place_of(policy, outcome) == Some(place);
        masks.push(if is_there { there } else { Mask::NONE })?;
    }
    let fresh = policy.fresh;
    let going = policy.translated(fresh, &masks)?;
    policy.replaced(going, Mask::ALL, Mask::NONE)
}

/// The destinations that are redirected to an end, by what a redirect asks.
fn publics_of(policy: &mut Policy, there: Diagram, end: End) -> Result<Diagram, Stop> {
    let mut wide = there;
    for field in [ENTRY, SRC, SPORT, FLAGS, ICMP] {
        wide = policy.space.project(wide, field, Meeting::Either)?;
    }
    if end.port.is_none() {
        wide = policy.space.project(wide, PROTO, Meeting::Either)?;
        wide = policy.space.project(wide, DPORT, Meeting::Either)?;
    }
    Ok(wide)
}

/// Whether no colour is allowed anywhere.
fn is_empty(policy: &mut Policy, diagram: Diagram) -> Result<bool, Stop> {
    let leaves = policy.space.leaves(diagram)?;
    Ok(leaves.iter().all(|mask| *mask == Mask::NONE))
}

/// Whether an instance redirects to ends of a kind with this one: with a port, or without.
fn agrees(policy: &Policy, found: &Instances, instance: usize, end: End) -> bool {
    for home in &found.homes {
        if home.instance != instance {
            continue;
        }
        if let Some(Some(other)) = policy.destinations.get(home.place).copied() {
            if other.port.is_none() != end.port.is_none() {
                return false;
            }
        }
    }
    true
}

/// Whether the redirects of an end may be added to an instance: it redirects none of these packets yet, and to ends of its kind.
fn takes(
    policy: &mut Policy,
    found: &Instances,
    instance: usize,
    publics: Diagram,
    end: End,
) -> Result<bool, Stop> {
    let Some(map) = found.maps.get(instance).copied() else {
        return Ok(false);
    };
    if !agrees(policy, found, instance, end) {
        return Ok(false);
    }
    let count = policy.destinations.len();
    let taken = parted(policy, map, Mask::NONE, Mask::ALL, count)?;
    let both = policy.space.meet(taken, publics)?;
    is_empty(policy, both)
}

/// The instance to which the redirects of an end may be added, or behind the last one.
fn home_of(
    policy: &mut Policy,
    found: &Instances,
    publics: Diagram,
    end: End,
) -> Result<usize, Stop> {
    for instance in 0..found.maps.len() {
        if takes(policy, found, instance, publics, end)? {
            return Ok(instance);
        }
    }
    Ok(found.maps.len())
}

/// The map of an instance that redirects nothing.
fn nowhere(policy: &mut Policy) -> Result<Diagram, Stop> {
    let none = policy.space.only(0)?;
    Ok(policy.space.leaf(none)?)
}

/// The map with the redirects of one more end.
fn widened(policy: &mut Policy, map: Diagram, publics: Diagram) -> Result<Diagram, Stop> {
    let none = policy.space.only(0)?;
    let bare = policy.replaced(map, none, Mask::NONE)?;
    let both = policy.space.met(bare, publics, Meeting::Either)?;
    totalled(policy, both)
}

/// Adds the redirects of one more end to an instance.
fn widen(
    policy: &mut Policy,
    found: &mut Instances,
    instance: usize,
    publics: Diagram,
) -> Result<(), Stop> {
    if instance >= found.maps.len() {
        let map = nowhere(policy)?;
        found.maps.push(map)?;
    }
    let Some(map) = found.maps.get(instance).copied() else {
        return Ok(());
    };
    let wider = widened(policy, map, publics)?;
    if let Some(slot) = found.maps.get_mut(instance) {
        *slot = wider;
    }
    Ok(())
}

/// The destination at a place in its instance, where these packets go there.
fn home_at(
    policy: &mut Policy,
    place: usize,
    instance: usize,
    there: Diagram,
    publics: Diagram,
) -> Result<Home, Stop> {
    let whole = totalled(policy, there)?;
    let here = policy.where_it_is(whole, colour_of(place))?;
    let everywhere = policy.everything();
    let entries = policy.space.asked(here, &everywhere, ENTRY)?;
    let protocols = policy.space.asked(here, &everywhere, PROTO)?;
    Ok(Home {
        place,
        instance,
        publics,
        entries,
        protocols,
    })
}

/// Finds an instance for the destination at a place. It gives up where that is a network.
fn put_home(policy: &mut Policy, found: &mut Instances, place: usize) -> Result<(), Stop> {
    let Some(Some(end)) = policy.destinations.get(place).copied() else {
        return Err(Stop::Late);
    };
    if end.len < 32 {
        return Err(Stop::Late);
    }
    let there = going_to(policy, place)?;
    let publics = publics_of(policy, there, end)?;
    let instance = home_of(policy, found, publics, end)?;
    widen(policy, found, instance, publics)?;
    let home = home_at(policy, place, instance, there, publics)?;
    found.homes.push(home)?;
    Ok(())
}

/// Appends all redirects of an instance.
fn put_redirects_of(
    policy: &mut Policy,
    out: &mut Redirects,
    homes: &[Home],
    instance: usize,
) -> Result<(), Stop> {
    for home in homes {
        if home.instance != instance {
            continue;
        }
        if let Some(Some(end)) = policy.destinations.get(home.place).copied() {
            put_redirects(policy, out, home.publics, home.place, end)?;
        }
    }
    Ok(())
}

/// How an instance is configured, behind `config `.
fn config_of(policy: &mut Policy, homes: &[Home], instance: usize) -> Result<Text, Stop> {
    let mut redirects = Redirects::new(policy.alloc);
    put_redirects_of(policy, &mut redirects, homes, instance)?;
    let config = redirects.config(policy.alloc)?;
    Ok(config)
}

/// Finds the instances of all destinations, and how they are configured.
fn put_all(policy: &mut Policy, found: &mut Instances) -> Result<(), Stop> {
    for place in 1..policy.destinations.len() {
        put_home(policy, found, place)?;
    }
    for instance in 0..found.maps.len() {
        let config = config_of(policy, &found.homes, instance)?;
        found.configs.push(config)?;
    }
    Ok(())
}

/// The instances with redirects to all destinations that are written. It gives up where these are too many.
pub(crate) fn instances_of(policy: &mut Policy) -> Result<Instances, Stop> {
    let alloc = policy.alloc;
    let mut found = Instances {
        maps: Vec::new(alloc),
        homes: Vec::new(alloc),
        configs: Vec::new(alloc),
    };
    put_all(policy, &mut found)?;
    Ok(found)
}

impl Instances {
    /// The protocols, destinations and ports that an instance redirects, by its number.
    pub(crate) fn reach(&self, policy: &mut Policy, number: u32) -> Result<[Side; 3], Stop> {
        let Some(map) = self.maps.get((number as usize).saturating_sub(1)).copied() else {
            return Ok([Side::EMPTY, Side::EMPTY, Side::EMPTY]);
        };
        let count = policy.destinations.len();
        let here = parted(policy, map, Mask::ALL, Mask::NONE, count)?;
        let everywhere = policy.everything();
        let protocols = policy.space.asked(here, &everywhere, PROTO)?;
        let destinations = policy.space.asked(here, &everywhere, DST)?;
        let ports = policy.space.asked(here, &everywhere, DPORT)?;
        Ok([protocols, destinations, ports])
    }
}

/// A diagram with one mask wherever some colour is allowed.
pub(crate) fn relabelled(
    policy: &mut Policy,
    diagram: Diagram,
    mask: Mask,
) -> Result<Diagram, Stop> {
    let old = policy.space.leaves(diagram)?;
    let mut new = Vec::new(policy.alloc);
    for leaf in &old {
        new.push(if *leaf == Mask::NONE {
            Mask::NONE
        } else {
            mask
        })?;
    }
    policy.space.relabel(diagram, &old, &new)
}

/// Which instances may translate packets to which these destinations may be written: a colour is the place of an instance and
/// a number more.
pub(crate) fn by_instances(
    policy: &mut Policy,
    found: &Instances,
    allowed: Diagram,
    more: u32,
) -> Result<Diagram, Stop> {
    let mut whole = policy.space.leaf(Mask::NONE)?;
    let mut colour = more;
    for map in &found.maps {
        let fit = policy.space.meet(allowed, *map)?;
        let mask = policy.space.only(colour)?;
        let seen = relabelled(policy, fit, mask)?;
        whole = policy.space.met(whole, seen, Meeting::Either)?;
        colour = colour.saturating_add(1);
    }
    Ok(whole)
}

/// What the first rule of a list that holds writes over destinations: a colour of its rules is the place of an instance and one
/// more, 0 for none.
pub(crate) fn written_by(
    policy: &mut Policy,
    found: &Instances,
    list: Diagram,
) -> Result<Diagram, Stop> {
    let count = found.maps.len().saturating_add(1);
    let none = policy.space.only(0)?;
    let mut whole = parted(policy, list, none, Mask::NONE, count)?;
    let mut number = 1usize;
    for map in &found.maps {
        let here = only_where(policy, list, number, count)?;
        let part = policy.space.meet(here, *map)?;
        whole = policy.space.met(whole, part, Meeting::Either)?;
        number = number.saturating_add(1);
    }
    Ok(whole)
}

/// The addresses that are redirected to a destination.
pub(crate) fn addresses_of(policy: &mut Policy, home: &Home) -> Result<Side, Stop> {
    let whole = totalled(policy, home.publics)?;
    let here = policy.where_it_is(whole, colour_of(home.place))?;
    let everywhere = policy.everything();
    policy.space.asked(here, &everywhere, DST)
}

/// The redirects of the first instance, with a blank ahead of each.
pub(crate) fn redirects_of_first(policy: &mut Policy, found: &Instances) -> Result<Text, Stop> {
    let mut redirects = Redirects::new(policy.alloc);
    put_redirects_of(policy, &mut redirects, &found.homes, 0)?;
    let text = redirects.text(policy.alloc)?;
    Ok(text)
}

/// Appends the lines of instances with redirects.
pub(crate) fn put_instances(out: &mut Text, found: &Instances) -> Result<(), Memory> {
    let mut number = 1u64;
    for config in &found.configs {
        out.put(b"nat ")?;
        put_dec(out, number)?;
        out.put(b" config ")?;
        out.put(config.as_slice())?;
        out.put(b"\n")?;
        number = number.saturating_add(1);
    }
    Ok(())
}
