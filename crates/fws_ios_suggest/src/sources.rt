//! Lists by which sources are translated.

use crate::entries::body;
use fws_net::{End, Iface, Lang, Site, face_addr};
use fws_num::{Memory, Text, put_dec, put_quad};
use fws_suggest::{
    DST, Diagram, ENTRY, FLAGS, List, Meeting, Policy, Rule, Side, Stop, Style, end_colours,
    interface_name, solved, task_for,
};

/// Translations of sources as they are written.
#[derive(Drop)]
pub(crate) struct Sources {
    /// The lists.
    pub(crate) lists: Text,
    /// The translations by them.
    pub(crate) uses: Text,
}

/// The interfaces inside, and the destinations that leave by those outside.
#[derive(Clone, Copy)]
struct Sides {
    inside: Side,
    outside: Side,
}

/// Adds the destinations that leave by an interface.
fn with_exits(policy: &mut Policy, outside: Side, entry: u32) -> Result<Side, Stop> {
    let mut wider = outside;
    for place in 0..policy.exits.len() {
        let Some(exit) = policy.exits.get(place).copied() else {
            continue;
        };
        if exit.entry == entry {
            wider = policy.space.either(wider, exit.side)?;
        }
    }
    Ok(wider)
}

/// Adds an interface to its side.
fn with_face(policy: &mut Policy, sides: Sides, face: &Iface, entry: u32) -> Result<Sides, Stop> {
    let mut inside = sides.inside;
    let mut outside = sides.outside;
    if face.side == fws_net::Side::Inside {
        let one = policy.space.range(ENTRY, entry, entry)?;
        inside = policy.space.either(inside, one)?;
    }
    if face.side == fws_net::Side::Outside {
        outside = with_exits(policy, outside, entry)?;
    }
    Ok(Sides { inside, outside })
}

/// The interfaces inside, and the destinations that leave by those outside.
fn sides_of(policy: &mut Policy, site: &Site) -> Result<Sides, Stop> {
    let mut sides = Sides {
        inside: Side::EMPTY,
        outside: Side::EMPTY,
    };
    let mut entry = 2u32;
    for face in site.faces.as_slice() {
        sides = with_face(policy, sides, face, entry)?;
        entry = entry.saturating_add(1);
    }
    Ok(sides)
}

/// What may be written over sources. It gives up where that depends on more than lists can ask.
fn sendings(policy: &mut Policy, site: &Site) -> Result<Diagram, Stop> {
    let direct = policy.direct()?;
    let all = policy.sendings(direct)?;
    let sides = sides_of(policy, site)?;
    let region = policy
        .everything()
        .with(ENTRY, sides.inside)
        .with(DST, sides.outside);
    let mut seen = policy.space.keep(all, &region)?;
    for field in [ENTRY, FLAGS] {
        seen = policy.space.project(seen, field, Meeting::Both)?;
    }
    if policy.fails(seen)? {
        return Err(Stop::Late);
    }
    Ok(seen)
}

/// Which sources are written, the first rule that holds.
fn sent(policy: &mut Policy, style: &mut Style, site: &Site) -> Result<List, Stop> {
    let diagram = sendings(policy, site)?;
    let colours = end_colours(policy.alloc, &policy.sources)?;
    let task = task_for(policy.alloc, diagram, colours, &[0])?;
    solved(policy, style, &task)
}

/// The interface of which an address is the first.
fn face_of(site: &Site, end: End) -> Option<u32> {
    let mut entry = 2u8;
    for _face in site.faces.as_slice() {
        if face_addr(site, entry) == end.addr {
            return Some(u32::from(entry));
        }
        entry = entry.saturating_add(1);
    }
    None
}

/// Appends the name of a list, with its number where there are more.
fn put_name(out: &mut Text, number: u64, is_alone: bool) -> Result<(), Memory> {
    out.put(b"NAT")?;
    if !is_alone {
        put_dec(out, number)?;
    }
    Ok(())
}

/// Appends how the packets of a list are translated to an address that is an interface's first.
fn put_interface(
    out: &mut Text,
    site: &Site,
    number: u64,
    is_alone: bool,
    entry: u32,
) -> Result<(), Memory> {
    out.put(b"ip nat inside source list ")?;
    put_name(out, number, is_alone)?;
    out.put(b" interface ")?;
    out.put(interface_name(site, Lang::Ios, entry))?;
    out.put(b" overload\n")
}

/// Appends how the packets of a list are translated to another address.
fn put_pool(out: &mut Text, number: u64, is_alone: bool, end: End) -> Result<(), Memory> {
    out.put(b"ip nat pool P")?;
    put_dec(out, number)?;
    out.put(b" ")?;
    put_quad(out, end.addr)?;
    out.put(b" ")?;
    put_quad(out, end.addr)?;
    out.put(b" prefix-length 24\nip nat inside source list ")?;
    put_name(out, number, is_alone)?;
    out.put(b" pool P")?;
    put_dec(out, number)?;
    out.put(b" overload\n")
}

/// Appends how the packets of a list are translated.
fn put_use(
    out: &mut Text,
    site: &Site,
    number: u64,
    is_alone: bool,
    end: End,
) -> Result<(), Memory> {
    match face_of(site, end) {
        Some(entry) => put_interface(out, site, number, is_alone, entry),
        None => put_pool(out, number, is_alone, end),
    }
}

/// How many rules there are up to the last of a colour.
fn count_of(rules: &[Rule], colour: u32) -> usize {
    let mut count = 0usize;
    let mut place = 0usize;
    for rule in rules {
        place = place.saturating_add(1);
        if rule.colour == colour {
            count = place;
        }
    }
    count
}

/// Appends the entries of a rule.
fn put_rule(
    out: &mut Text,
    policy: &mut Policy,
    style: &mut Style,
    rule: &Rule,
    colour: u32,
) -> Result<(), Stop> {
    let entries = body(policy, style, &rule.region)?;
    for line in entries.lines() {
        out.put(if rule.colour == colour {
            b" permit "
        } else {
            b" deny "
        })?;
        out.put(line.as_slice())?;
        out.put(b"\n")?;
    }
    Ok(())
}

/// Appends the list of the packets whose source is written by an end. It gives up where a port is written.
fn put_source(
    out: &mut Sources,
    policy: &mut Policy,
    style: &mut Style,
    site: &Site,
    rules: &[Rule],
    place: usize,
    end: End,
) -> Result<(), Stop> {
    if end.port.is_some() || end.len < 32 {
        return Err(Stop::Late);
    }
    let colour = u32::try_from(place).unwrap_or(u32::MAX);
    let count = count_of(rules, colour);
    if count == 0 {
        return Ok(());
    }
    let number = place as u64;
    let is_alone = policy.sources.len() <= 2;
    out.lists.put(b"ip access-list extended ")?;
    put_name(&mut out.lists, number, is_alone)?;
    out.lists.put(b"\n")?;
    for rule in rules.iter().take(count) {
        put_rule(&mut out.lists, policy, style, rule, colour)?;
    }
    put_use(&mut out.uses, site, number, is_alone, end)?;
    Ok(())
}

/// Appends the lists of all sources that are written.
fn put_sources(
    out: &mut Sources,
    policy: &mut Policy,
    style: &mut Style,
    site: &Site,
) -> Result<(), Stop> {
    let list = sent(policy, style, site)?;
    for place in 1..policy.sources.len() {
        let Some(Some(end)) = policy.sources.get(place).copied() else {
            continue;
        };
        put_source(out, policy, style, site, &list.rules, place, end)?;
    }
    Ok(())
}

/// The lists by which sources are translated. It gives up where there are none.
pub(crate) fn source_lists(
    policy: &mut Policy,
    style: &mut Style,
    site: &Site,
) -> Result<Sources, Stop> {
    let mut out = Sources {
        lists: Text::new(policy.alloc),
        uses: Text::new(policy.alloc),
    };
    if policy.sources.len() > 1 {
        put_sources(&mut out, policy, style, site)?;
    }
    Ok(out)
}
