//! What packets are behind the translation of destinations, and which sources are written.

use crate::problem_cuts::host_bits;
use crate::problems::{ACCEPT, DROP, Exit, Policy, colour_of};
use crate::rules::Rule;
use fws_diagram::{
    DPORT, DST, Diagram, ENTRY, FIELDS, Mask, Meeting, Region, SRC, STATE, Side, Stop, TAG,
};
use fws_iv::Iv;
use fws_net::{End, Site, face_addr};
use fws_num::Memory;

/// How many pieces of networks may be mapped one by one.
const MOST_MAPPED: u32 = 2000;

/// How many destinations a list may write.
const MOST_ENDS: usize = 5000;

/// The region at a place, if there is one.
fn hull_at(hulls: &[Option<Region>], place: usize) -> Option<Region> {
    match hulls.get(place) {
        Some(hull) => *hull,
        None => None,
    }
}

/// Whether one of the ends maps a network.
fn has_network(ends: &[Option<End>]) -> bool {
    for end in ends {
        if let Some(end) = end {
            if end.len < 32 {
                return true;
            }
        }
    }
    false
}

/// Whether an end is this address, with any port.
fn is_address(end: &Option<End>, addr: u32) -> bool {
    match end {
        Some(end) => end.addr == addr && end.len == 32 && end.port.is_none(),
        None => false,
    }
}

/// The place of a diagram among those that were seen, if it is there.
fn place_seen(seen: &[Diagram], sight: Diagram) -> Option<usize> {
    let mut place: usize = 0;
    for other in seen {
        if *other == sight {
            return Some(place);
        }
        place = place.saturating_add(1);
    }
    None
}

impl Policy {
    /// The source at a place, if one is written there.
    fn source_at(&self, place: usize) -> Option<End> {
        match self.sources.get(place) {
            Some(end) => *end,
            None => None,
        }
    }

    /// The destination at a place, if one is written there.
    pub(crate) fn destination_at(&self, place: usize) -> Option<End> {
        match self.destinations.get(place) {
            Some(end) => *end,
            None => None,
        }
    }

    /// The least region that has both regions.
    pub(crate) fn joined(&mut self, one: &Region, other: &Region) -> Result<Region, Memory> {
        let mut both = *one;
        for field in 0..FIELDS {
            let side = self.space.either(one.side(field), other.side(field))?;
            both = both.with(field, side);
        }
        Ok(both)
    }

    /// The least region that has all rules of a colour, for each of so many colours.
    fn hulls_of(&mut self, rules: &[Rule], count: usize) -> Result<Vec<Option<Region>>, Memory> {
        let mut hulls = Vec::new(self.alloc);
        for _ in 0..count {
            hulls.push(None)?;
        }
        for rule in rules {
            let place = rule.colour as usize;
            let all = self.hull(hull_at(&hulls, place), Some(rule.region))?;
            if let Some(slot) = hulls.get_mut(place) {
                *slot = all;
            }
        }
        Ok(hulls)
    }

    /// The least region that has both of two, if they are there.
    pub(crate) fn hull(
        &mut self,
        one: Option<Region>,
        other: Option<Region>,
    ) -> Result<Option<Region>, Memory> {
        let Some(first) = one else {
            return Ok(other);
        };
        match other {
            Some(second) => Ok(Some(self.joined(&first, &second)?)),
            None => Ok(one),
        }
    }

    /// What all of some diagrams allow. Those beside one another are met first, so that few are large.
    fn met_all(&mut self, diagrams: Vec<Diagram>) -> Result<Diagram, Stop> {
        let mut left = diagrams;
        for _ in 0..64 {
            if left.len() <= 1 {
                break;
            }
            left = self.met_in_pairs(&left)?;
        }
        match left.first() {
            Some(all) => Ok(*all),
            None => Ok(Diagram::ANYTHING),
        }
    }

    /// What each two diagrams beside one another allow both.
    fn met_in_pairs(&mut self, diagrams: &[Diagram]) -> Result<Vec<Diagram>, Stop> {
        let mut all = Vec::new(self.alloc);
        let mut before: Option<Diagram> = None;
        for diagram in diagrams {
            before = match before {
                Some(first) => {
                    all.push(self.space.meet(first, *diagram)?)?;
                    None
                }
                None => Some(*diagram),
            };
        }
        if let Some(last) = before {
            all.push(last)?;
        }
        Ok(all)
    }

    /// The diagram of the colours that rules give, the first that holds; the default where none does.
    pub fn painted(&mut self, rules: &[Rule], default: u32) -> Result<Diagram, Stop> {
        let none = self.space.only(default)?;
        let mut diagram = self.space.leaf(none)?;
        for rule in rules.iter().rev() {
            let mask = self.space.only(rule.colour)?;
            diagram = self.space.put(diagram, &rule.region, mask)?;
        }
        Ok(diagram)
    }

    /// For a diagram: nothing allowed where it has the colour alone, and everything elsewhere.
    pub fn where_it_is(&mut self, diagram: Diagram, colour: u32) -> Result<Diagram, Stop> {
        let only = self.space.only(colour)?;
        let old = self.space.leaves(diagram)?;
        let mut new = Vec::new(self.alloc);
        for mask in &old {
            new.push(if *mask == only || *mask == Mask::NONE {
                Mask::NONE
            } else {
                Mask::ALL
            })?;
        }
        self.space.relabel(diagram, &old, &new)
    }

    /// The region of the packets that an end has written, as far as it writes.
    fn image(&mut self, end: End, is_tagged: bool) -> Result<Region, Memory> {
        let mut region = self.everything();
        let side = self.space.range(DST, end.addr, end.addr)?;
        region = region.with(DST, side);
        if let Some(port) = end.port {
            let side = self.space.range(DPORT, u32::from(port), u32::from(port))?;
            region = region.with(DPORT, side);
        }
        if is_tagged {
            let side = self.space.range(TAG, 1, 1)?;
            region = region.with(TAG, side);
        }
        Ok(region)
    }

    /// New packets behind the translation of destinations by these rules, whose colours are the places of destinations: what
    /// `direct` gives for where they came from. Where that is asked, packets with a written destination have the tag, and others
    /// haven't. There is none where two packets that must fare differently have become one.
    pub fn behind(&mut self, rules: &[Rule], is_tagged: bool) -> Result<Option<Diagram>, Stop> {
        let whole = self.behind_all(rules, is_tagged)?;
        if self.fails(whole)? {
            Ok(None)
        } else {
            Ok(Some(whole))
        }
    }

    /// As `behind`, with nothing allowed where two packets that must fare differently have become one.
    pub fn behind_all(&mut self, rules: &[Rule], is_tagged: bool) -> Result<Diagram, Stop> {
        let count = self.destinations.len();
        if count > MOST_ENDS {
            return Err(Stop::Late);
        }
        let direct = self.direct()?;
        let ends = self.painted(rules, 0)?;
        let kept = self.where_it_is(ends, 0)?;
        let mut staying = self.space.met(direct, kept, Meeting::Either)?;
        if is_tagged {
            let side = self.space.range(TAG, 0, 0)?;
            let plain = self.everything().with(TAG, side);
            staying = self.space.keep(staying, &plain)?;
        }
        let mut pieces = Vec::new(self.alloc);
        pieces.push(staying)?;
        let hulls = self.hulls_of(rules, count)?;
        for place in 1..count {
            let Some(end) = self.destination_at(place) else {
                continue;
            };
            let Some(hull) = hull_at(&hulls, place) else {
                continue;
            };
            let here = self.space.keep(direct, &hull)?;
            let sent = self.space.keep(ends, &hull)?;
            let away = self.where_it_is(sent, colour_of(place))?;
            let before = self.space.met(here, away, Meeting::Either)?;
            pieces.push(self.placed(before, end, is_tagged)?)?;
        }
        self.met_all(pieces)
    }

    /// What a diagram says of packets, said of them once an end is written over their destinations.
    fn placed(&mut self, before: Diagram, end: End, is_tagged: bool) -> Result<Diagram, Stop> {
        if end.len < 32 {
            let image = self.mapped(before, DST, end)?;
            if !is_tagged {
                return Ok(image);
            }
            let side = self.space.range(TAG, 1, 1)?;
            let tagged = self.everything().with(TAG, side);
            return self.space.keep(image, &tagged);
        }
        let mut image = self.space.project(before, DST, Meeting::Both)?;
        if end.port.is_some() {
            image = self.space.project(image, DPORT, Meeting::Both)?;
        }
        let region = self.image(end, is_tagged)?;
        self.space.keep(image, &region)
    }

    /// A diagram whose addresses at a field are mapped into the network that an end writes. Where nothing is asked of an address
    /// nothing is asked of its image.
    pub fn mapped(&mut self, diagram: Diagram, field: usize, end: End) -> Result<Diagram, Stop> {
        let everywhere = self.everything();
        let asked = self.space.asked(diagram, &everywhere, field)?;
        let parts = self.space.parts(field, asked)?;
        self.mapped_parts(diagram, field, end, &parts)
    }

    /// A diagram that asks for addresses in these parts alone, mapped into the network that an end writes.
    fn mapped_parts(
        &mut self,
        diagram: Diagram,
        field: usize,
        end: End,
        parts: &[Iv],
    ) -> Result<Diagram, Stop> {
        let mut whole = self.space.anything()?;
        let mut atoms = 0u32;
        for part in parts {
            let first = self.space.atom(field, part.lo);
            let past = self.space.atom(field, part.hi).saturating_add(1);
            for atom in first..past {
                atoms = atoms.saturating_add(1);
                if atoms > MOST_MAPPED {
                    return Err(Stop::Late);
                }
                let placed = self.mapped_atom(diagram, field, end, atom)?;
                whole = self.space.meet(whole, placed)?;
            }
        }
        Ok(whole)
    }

    /// What a diagram says of the addresses of an atom, said of those into which an end maps them.
    fn mapped_atom(
        &mut self,
        diagram: Diagram,
        field: usize,
        end: End,
        atom: u32,
    ) -> Result<Diagram, Stop> {
        let everywhere = self.everything();
        let host = host_bits(end.len);
        let side = self.space.atoms_between(atom, atom.saturating_add(1))?;
        let region = everywhere.with(field, side);
        let kept = self.space.keep(diagram, &region)?;
        let seen = self.space.project(kept, field, Meeting::Both)?;
        let low = end.addr | (self.space.least(field, atom) & host);
        let high = end.addr | (self.space.greatest(field, atom) & host);
        let image = self.space.range(field, low, high)?;
        let region = everywhere.with(field, image);
        self.space.keep(seen, &region)
    }

    /// The blocks of the size of the network that an end writes, of the addresses at a field where a diagram of so many colours
    /// has the one at this place.
    pub(crate) fn mapped_blocks(
        &mut self,
        diagram: Diagram,
        place: usize,
        field: usize,
        end: End,
    ) -> Result<Side, Stop> {
        let here = self.where_it_is(diagram, colour_of(place))?;
        let everywhere = self.everything();
        let asked = self.space.asked(here, &everywhere, field)?;
        let parts = self.space.parts(field, asked)?;
        self.blocks_of(&parts, field, host_bits(end.len))
    }

    /// The blocks in which the parts lie, of addresses that differ in these bits alone.
    fn blocks_of(&mut self, parts: &[Iv], field: usize, host: u32) -> Result<Side, Stop> {
        let mut blocks = Side::EMPTY;
        for part in parts {
            let low = part.lo & !host;
            let high = part.hi | host;
            let block = self.space.range(field, low, high)?;
            blocks = self.space.either(blocks, block)?;
        }
        Ok(blocks)
    }

    /// Whether networks are mapped.
    pub fn maps_networks(&self) -> bool {
        has_network(&self.sources) || has_network(&self.destinations)
    }

    /// Where networks are mapped: packets of which anything may be written over the source keep to what is mapped elsewhere.
    fn within_mapped(&mut self, sendings: Diagram) -> Result<Diagram, Stop> {
        let mut whole = sendings;
        let count = self.sources.len();
        for place in 1..count {
            let Some(end) = self.source_at(place) else {
                continue;
            };
            if end.len == 32 {
                continue;
            }
            let blocks = self.mapped_blocks(sendings, place, SRC, end)?;
            // the colour behind all sources stands for the address of the interface
            let mask = self.all_but(place, count.saturating_add(1))?;
            let outside = self.space.others(SRC, blocks)?;
            let region = self.everything().with(SRC, outside);
            whole = self.space.limit(whole, &region, mask)?;
        }
        Ok(whole)
    }

    /// The mask of so many colours without the one of a place.
    fn all_but(&mut self, place: usize, count: usize) -> Result<Mask, Memory> {
        let mut others = Vec::new(self.alloc);
        for other in 0..count {
            if other != place {
                others.push(colour_of(other))?;
            }
        }
        self.space.mask(&others)
    }

    /// Of what `direct` or `behind` gave: whether packets are dropped or accepted.
    pub fn verdict(&mut self, behind: Diagram) -> Result<Diagram, Stop> {
        let drop = self.space.only(DROP)?;
        let accept = self.space.only(ACCEPT)?;
        let mut table = Vec::new(self.alloc);
        table.push(drop)?;
        for _source in 0..self.sources.len() {
            table.push(accept)?;
        }
        self.translated(behind, &table)
    }

    /// Of what `direct` or `behind` gave: which sources may be written, by their places. Of what is dropped any may.
    pub fn sendings(&mut self, behind: Diagram) -> Result<Diagram, Stop> {
        let mut table = Vec::new(self.alloc);
        table.push(Mask::ALL)?;
        for place in 0..self.sources.len() {
            let mask = self.space.only(colour_of(place))?;
            table.push(mask)?;
        }
        let sendings = self.translated(behind, &table)?;
        self.within_mapped(sendings)
    }

    /// Where the source that is written is the first address of the interface where packets leave, the colour behind all sources
    /// is allowed besides.
    pub fn with_leaving_address(
        &mut self,
        sendings: Diagram,
        site: &Site,
    ) -> Result<Diagram, Stop> {
        let mut whole = sendings;
        for place in 0..self.exits.len() {
            let Some(exit) = self.exits.get(place).copied() else {
                continue;
            };
            let Some(source) = self.own_source(site, exit) else {
                continue;
            };
            let wider = self.with_colour_behind(whole, source)?;
            let here = self.everything().with(DST, exit.side);
            let others = self.space.others(DST, exit.side)?;
            let there = self.everything().with(DST, others);
            let inner = self.space.keep(wider, &here)?;
            let outer = self.space.keep(whole, &there)?;
            whole = self.space.meet(inner, outer)?;
        }
        Ok(whole)
    }

    /// The diagram in which the colour behind all sources is allowed besides where a source is.
    fn with_colour_behind(&mut self, diagram: Diagram, source: u32) -> Result<Diagram, Stop> {
        let mut table = Vec::new(self.alloc);
        self.put_with_behind(source, &mut table)?;
        self.translated(diagram, &table)
    }

    /// Puts the mask of each source, and for one of them that with the colour behind all sources besides.
    fn put_with_behind(&mut self, source: u32, table: &mut Vec<Mask>) -> Result<(), Memory> {
        let count = self.sources.len();
        let colour = colour_of(count);
        for other in 0..count {
            let mask = self.behind_mask(colour_of(other), source, colour)?;
            table.push(mask)?;
        }
        // a leaf may have the colour from here on
        let mask = self.space.only(colour)?;
        table.push(mask)?;
        Ok(())
    }

    /// The mask of a source, with a colour besides where it is this one.
    fn behind_mask(&mut self, other: u32, source: u32, colour: u32) -> Result<Mask, Memory> {
        if other == source {
            self.space.mask(&[source, colour])
        } else {
            self.space.only(other)
        }
    }

    /// The place among the sources of the first address of the interface where packets leave.
    fn own_source(&self, site: &Site, exit: Exit) -> Option<u32> {
        let Ok(entry) = u8::try_from(exit.entry) else {
            return None;
        };
        let addr = face_addr(site, entry);
        let mut place: usize = 0;
        for source in &self.sources {
            if is_address(source, addr) {
                return Some(colour_of(place));
            }
            place = place.saturating_add(1);
        }
        None
    }

    /// The rules for these entries alone.
    pub fn narrowed(&mut self, rules: &[Rule], entries: Side) -> Result<Vec<Rule>, Memory> {
        let mut narrow = Vec::new(self.alloc);
        for rule in rules {
            let side = self.space.both(rule.region.side(ENTRY), entries)?;
            let region = rule.region.with(ENTRY, side);
            narrow.push(Rule {
                region,
                colour: rule.colour,
            })?;
        }
        Ok(narrow)
    }

    /// A diagram of both classes: of new packets, and of established ones.
    pub fn by_state(&mut self, fresh: Diagram, established: Diagram) -> Result<Diagram, Stop> {
        let new = self.space.range(STATE, 0, 0)?;
        let est = self.space.range(STATE, 1, 1)?;
        self.space.cut(STATE, &[(new, fresh), (est, established)])
    }

    /// What a diagram says of new packets alone.
    pub fn of_new(&mut self, diagram: Diagram) -> Result<Diagram, Stop> {
        let new = self.space.range(STATE, 0, 0)?;
        let region = self.everything().with(STATE, new);
        let kept = self.space.keep(diagram, &region)?;
        self.space.project(kept, STATE, Meeting::Both)
    }

    /// Of what `behind_all` gave with tags: what must be dropped ahead of the translation of destinations, since a packet that
    /// is redirected passes and looks the same. There only dropping is allowed, and elsewhere everything.
    pub fn clashes(&mut self, tagged: Diagram) -> Result<Diagram, Stop> {
        let count = self.sources.len().saturating_add(1);
        let plain = self.with_tag(tagged, 0)?;
        let sent = self.with_tag(tagged, 1)?;
        let dropped = self.where_it_is(plain, DROP)?;
        let passing = self.passing(sent, count)?;
        let free = self.space.met(dropped, passing, Meeting::Either)?;
        let drop = self.space.only(DROP)?;
        self.replaced(free, Mask::NONE, drop)
    }

    /// For a diagram of so many colours: everything allowed where it may have the first, and nothing elsewhere.
    fn passing(&mut self, diagram: Diagram, count: usize) -> Result<Diagram, Stop> {
        let mut table = Vec::new(self.alloc);
        for place in 0..count {
            table.push(if place == 0 { Mask::ALL } else { Mask::NONE })?;
        }
        self.translated(diagram, &table)
    }

    /// What a diagram says of packets with a tag, or of those without.
    fn with_tag(&mut self, diagram: Diagram, tag: u32) -> Result<Diagram, Stop> {
        let side = self.space.range(TAG, tag, tag)?;
        let region = self.everything().with(TAG, side);
        let kept = self.space.keep(diagram, &region)?;
        self.space.project(kept, TAG, Meeting::Both)
    }

    /// The entries in classes of which all see the same of a diagram, that of the host first.
    pub fn entry_classes(&mut self, diagram: Diagram) -> Result<Vec<Side>, Stop> {
        let mut seen: Vec<Diagram> = Vec::new(self.alloc);
        let mut classes: Vec<Side> = Vec::new(self.alloc);
        self.put_classes(diagram, &mut seen, &mut classes)?;
        Ok(classes)
    }

    /// Puts the classes of entries beside what each sees of a diagram.
    fn put_classes(
        &mut self,
        diagram: Diagram,
        seen: &mut Vec<Diagram>,
        classes: &mut Vec<Side>,
    ) -> Result<(), Stop> {
        for entry in 0..self.entries {
            let side = self.space.range(ENTRY, entry, entry)?;
            let region = self.everything().with(ENTRY, side);
            let kept = self.space.keep(diagram, &region)?;
            let sight = self.space.project(kept, ENTRY, Meeting::Both)?;
            match place_seen(seen, sight) {
                Some(place) => self.put_beside(classes, place, side)?,
                None => {
                    seen.push(sight)?;
                    classes.push(side)?;
                }
            }
        }
        Ok(())
    }

    /// Puts an entry into the class at a place.
    fn put_beside(
        &mut self,
        classes: &mut Vec<Side>,
        place: usize,
        entry: Side,
    ) -> Result<(), Memory> {
        if let Some(class) = classes.get(place).copied() {
            let wider = self.space.either(class, entry)?;
            if let Some(slot) = classes.get_mut(place) {
                *slot = wider;
            }
        }
        Ok(())
    }
}
