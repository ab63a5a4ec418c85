//! The tables of a policy as diagrams of what is allowed.

ghost use Rattle.fws_net.specs.Routes.{IsSound};

use crate::problem_cuts::{Seams, field_of};
use crate::rules::Rule;
use crate::settings::Settings;
use crate::style::Style;
use fws_diagram::{
    Cuts, DPORT, DST, Diagram, ENTRY, FLAGS, ICMP, Mask, Meeting, PROTO, Region, SPORT, SRC, Side,
    Space, Stop,
};
use fws_iv::{Iv, Ivs};
use fws_net::{End, Outcome, Site, local_set, route_set};
use fws_num::Memory;
use fws_tree::{Kid, Node, Row, Tables, Tree};
use std::alloc::Global;

/// The colour of what is dropped, where nothing but that is asked.
pub const DROP: u32 = 0;

/// The colour of what is accepted, where nothing but that is asked.
pub const ACCEPT: u32 = 1;

/// How many rows a table of established packets may have.
const MOST_ROWS: u64 = 4000;

/// The destinations that go out by an interface.
#[derive(Clone, Copy)]
pub struct Exit {
    /// The entry number of the interface: 1 for the host's own addresses.
    pub entry: u32,
    /// The destinations.
    pub side: Side,
}

/// Where packets that are dropped may be sent ahead of that.
#[derive(Clone, Copy, Debug, PartialEq, Eq)]
pub enum Reach {
    /// Nowhere.
    Strict,
    /// Where an accepted packet with the same protocol, destination and port goes.
    Near,
    /// And where one with the same destination goes, unless a port is written there.
    Wide,
}

/// The tables of a policy at a site, as diagrams.
pub struct Policy {
    /// Where diagrams are made.
    pub space: Space,
    /// Where lists are made.
    pub alloc: Global,
    /// Whether packets for other hosts are forwarded.
    pub forwarding: bool,
    /// How many entry numbers there are: the host's own, loopback's and those of the interfaces.
    pub entries: u32,
    /// What becomes of new packets: a colour is the place of an outcome.
    pub fresh: Diagram,
    /// The outcomes of new packets.
    pub outcomes: Vec<Outcome>,
    /// The sources that are written; the first is none.
    pub sources: Vec<Option<End>>,
    /// The destinations that are written; the first is none.
    pub destinations: Vec<Option<End>>,
    /// The host's own addresses, as destinations.
    pub local: Side,
    /// The host's own addresses, as sources.
    pub source_local: Side,
    /// Where destinations leave.
    pub exits: Vec<Exit>,
    /// The entry of the host alone.
    pub host: Side,
    /// All other entries.
    pub arriving: Side,
    /// The host's own addresses.
    own: Ivs,
    /// The networks that the site or the tables name.
    networks: Vec<Iv>,
    /// How many steps all searches may take.
    pub(crate) steps: u64,
    /// The source's rules for new packets that come in, as `note_hints` notes them.
    pub(crate) coming: Vec<Rule>,
    /// The source's rules for new packets of the host's own.
    pub(crate) sending: Vec<Rule>,
    /// Whether lists begin with the source's own rules, where there are such, and no other lists are sought.
    pub follows_source: bool,
    /// Whether what lines have counts little beside how many there are.
    pub counts_lines: bool,
}

impl Drop for Policy {
    fn drop(self) {
        let Policy {
            space,
            alloc: _,
            forwarding: _,
            entries: _,
            fresh: _,
            outcomes,
            sources,
            destinations,
            local: _,
            source_local: _,
            exits,
            host: _,
            arriving: _,
            own,
            networks,
            steps: _,
            coming,
            sending,
            follows_source: _,
            counts_lines: _,
        } = self;
        drop(space);
        drop(outcomes);
        drop(sources);
        drop(destinations);
        drop(exits);
        drop(own);
        drop(networks);
        drop(coming);
        drop(sending);
    }
}

/// Puts an end behind a list of them where it is new.
fn place_of(ends: &mut Vec<Option<End>>, end: Option<End>) -> Result<(), Memory> {
    if !ends.contains(&end) {
        ends.push(end)?;
    }
    Ok(())
}

/// Puts none, and the sources that outcomes write.
fn put_sources(sources: &mut Vec<Option<End>>, outcomes: &[Outcome]) -> Result<(), Memory> {
    sources.push(None)?;
    for outcome in outcomes {
        if let Outcome::Accept(rewrite) = outcome {
            place_of(sources, rewrite.src)?;
        }
    }
    Ok(())
}

/// Puts none, and the destinations that outcomes write.
fn put_destinations(
    destinations: &mut Vec<Option<End>>,
    outcomes: &[Outcome],
) -> Result<(), Memory> {
    destinations.push(None)?;
    for outcome in outcomes {
        if let Outcome::Accept(rewrite) = outcome {
            place_of(destinations, rewrite.dst)?;
        }
    }
    Ok(())
}

/// The place of an end in a list of them; 0 where it isn't there.
fn place_among(ends: &[Option<End>], end: Option<End>) -> usize {
    ends.iter().position(|other| *other == end).unwrap_or(0)
}

/// The greatest values of the fields of a space.
fn tops_of(entries: u32) -> [u32; 10] {
    let last = entries.saturating_sub(1);
    [1, last, 255, u32::MAX, 65535, u32::MAX, 65535, 63, 255, 1]
}

/// A place as a colour.
pub(crate) fn colour_of(place: usize) -> u32 {
    u32::try_from(place).unwrap_or(u32::MAX)
}

/// The kids of a node of a table as sides and diagrams of nodes that were met.
fn kids_of(
    space: &mut Space,
    alloc: Global,
    field: usize,
    kids: &[Kid],
    met: &[Diagram],
) -> Result<Vec<(Side, Diagram)>, Stop> {
    let mut all = Vec::new(alloc);
    for kid in kids {
        let side = space.side(field, &kid.set)?;
        let Some(below) = met.get(kid.node as usize) else {
            return Err(Stop::Late);
        };
        all.push((side, *below))?;
    }
    Ok(all)
}

/// A node of the table of new packets as a diagram, where those of earlier nodes were met. It gives up where the ends of a
/// connection are asked.
fn node_of(
    space: &mut Space,
    alloc: Global,
    node: &Node,
    met: &[Diagram],
) -> Result<Diagram, Stop> {
    match node {
        Node::Leaf(place) => {
            let mask = space.only(*place)?;
            let leaf = space.leaf(mask)?;
            Ok(leaf)
        }
        Node::Cut(place, kids) => {
            if *place > 7 {
                return Err(Stop::Late);
            }
            let field = field_of(*place);
            let kids = kids_of(space, alloc, field, kids.as_slice(), met)?;
            let cut = space.cut(field, &kids)?;
            Ok(cut)
        }
    }
}

/// The table of new packets as a diagram in which a colour is the place of an outcome. It gives up where the ends of a
/// connection are asked.
fn fresh_of(space: &mut Space, alloc: Global, nodes: &[Node]) -> Result<Diagram, Stop> {
    let mut met: Vec<Diagram> = Vec::new(alloc);
    for node in nodes {
        let diagram = node_of(space, alloc, node, &met)?;
        met.push(diagram)?;
    }
    match met.last() {
        Some(whole) => Ok(*whole),
        None => Err(Stop::Late),
    }
}

/// Whether a set has all values up to the top.
fn is_whole(set: &Ivs, top: u32) -> bool {
    match set.parts() {
        [part] => part.lo == 0 && part.hi >= top,
        _ => false,
    }
}

/// Where the tables and the site cut the fields. It gives up where mapped networks make too many cuts.
fn seams_of(alloc: Global, tables: &Tables, site: &Site, entries: u32) -> Result<Seams, Stop> {
    let cuts = Cuts::new(alloc, tops_of(entries))?;
    let mut seams = Seams {
        cuts,
        networks: Vec::new(alloc),
    };
    seams.cut_all(alloc, tables, site, entries)?;
    Ok(seams)
}

impl Policy {
    /// The diagrams of tables at a site. It gives up where new packets are asked for the ends of a connection.
    pub fn new(alloc: Global, tables: &Tables, site: &Site) -> Result<Policy, Stop>
        requires { IsSound site.now }
    {
        let entries = colour_of(site.faces.len().saturating_add(2));
        let seams = seams_of(alloc, tables, site, entries)?;
        let mut policy = Policy::over(alloc, seams, site.forwarding, entries)?;
        policy.note(tables, site)?;
        Ok(policy)
    }

    /// Fills in what the tables and the site say.
    fn note(&mut self, tables: &Tables, site: &Site) -> Result<(), Stop>
        requires { IsSound site.now }
    {
        let fresh = tables.fresh.shared();
        self.limit_steps(tables);
        self.fill(fresh.leaves, fresh.nodes)?;
        self.note_site(site)?;
        Ok(())
    }

    /// A space with these cuts, and nothing else so far.
    fn over(alloc: Global, seams: Seams, forwarding: bool, entries: u32) -> Result<Policy, Memory> {
        let Seams { cuts, networks } = seams;
        let space = Space::new(alloc, cuts)?;
        Ok(Policy {
            space,
            alloc,
            forwarding,
            entries,
            fresh: Diagram::ANYTHING,
            outcomes: Vec::new(alloc),
            sources: Vec::new(alloc),
            destinations: Vec::new(alloc),
            local: Side::EMPTY,
            source_local: Side::EMPTY,
            exits: Vec::new(alloc),
            host: Side::EMPTY,
            arriving: Side::EMPTY,
            own: Ivs::none(alloc),
            networks,
            steps: u64::MAX,
            coming: Vec::new(alloc),
            sending: Vec::new(alloc),
            follows_source: false,
            counts_lines: false,
        })
    }

    /// Fills in what the table of new packets says.
    fn fill(&mut self, outcomes: &[Outcome], nodes: &[Node]) -> Result<(), Stop> {
        for outcome in outcomes {
            self.outcomes.push(*outcome)?;
        }
        put_sources(&mut self.sources, outcomes)?;
        put_destinations(&mut self.destinations, outcomes)?;
        let alloc = self.alloc;
        self.fresh = fresh_of(&mut self.space, alloc, nodes)?;
        Ok(())
    }

    /// Fills in what the site says.
    fn note_site(&mut self, site: &Site) -> Result<(), Memory>
        requires { IsSound site.now }
    {
        self.networks.sort_unstable();
        self.own = local_set(self.alloc, site)?;
        self.local = self.space.side(DST, &self.own)?;
        self.source_local = self.space.side(SRC, &self.own)?;
        self.host = self.space.range(ENTRY, 0, 0)?;
        self.arriving = self.space.others(ENTRY, self.host)?;
        self.put_exits(site)
    }

    /// Notes where destinations leave.
    fn put_exits(&mut self, site: &Site) -> Result<(), Memory>
        requires { IsSound site.now }
    {
        self.exits.push(Exit {
            entry: 1,
            side: self.local,
        })?;
        let mut entry = 2u8;
        for _face in site.faces.as_slice() {
            let routed = route_set(self.alloc, site, entry)?;
            self.put_exit(u32::from(entry), &routed)?;
            entry = entry.saturating_add(1);
        }
        Ok(())
    }

    /// Notes which destinations leave by an entry: those that are routed there and aren't the host's own.
    fn put_exit(&mut self, entry: u32, routed: &Ivs) -> Result<(), Memory> {
        let all = self.space.side(DST, routed)?;
        let side = self.space.minus(all, self.local)?;
        if !side.is_empty() {
            self.exits.push(Exit { entry, side })?;
        }
        Ok(())
    }

    /// How a system with these settings writes sides, where its list meets these destinations.
    pub fn style(&self, settings: Settings, universe: Side) -> Result<Style, Memory> {
        let mut style = Style::new(self.alloc, &self.space, settings)?;
        style.universe = universe;
        style.follows_source = self.follows_source;
        style.counts_lines = self.counts_lines;
        self.tell(&mut style)?;
        Ok(style)
    }

    /// Tells a style what the site and the tables name.
    fn tell(&self, style: &mut Style) -> Result<(), Memory> {
        style.set_local(self.local, self.source_local, self.own.parts())?;
        for exit in &self.exits {
            style.add_exit(exit.entry, exit.side)?;
        }
        for network in &self.networks {
            style.add_network(network.lo, network.hi)?;
        }
        Ok(())
    }

    /// All points.
    pub fn everything(&self) -> Region {
        self.space.everything()
    }

    /// The points of arriving packets.
    pub fn arrivals(&self) -> Region {
        self.everything().with(ENTRY, self.arriving)
    }

    /// The points of the host's own packets.
    pub fn departures(&self) -> Region {
        self.everything().with(ENTRY, self.host)
    }

    /// The destinations that aren't the host's own.
    pub fn foreign(&mut self) -> Result<Side, Memory> {
        self.space.others(DST, self.local)
    }

    /// A diagram with other colours: of each colour those of the mask at its place. What allows anything goes on doing so.
    pub fn translated(&mut self, diagram: Diagram, table: &[Mask]) -> Result<Diagram, Stop> {
        let old = self.space.leaves(diagram)?;
        let new = self.translated_masks(&old, table)?;
        self.space.relabel(diagram, &old, &new)
    }

    /// Masks with other colours.
    fn translated_masks(&mut self, old: &[Mask], table: &[Mask]) -> Result<Vec<Mask>, Memory> {
        let mut new = Vec::new(self.alloc);
        for mask in old {
            let to = self.translated_mask(*mask, table)?;
            new.push(to)?;
        }
        Ok(new)
    }

    /// A mask with other colours.
    fn translated_mask(&mut self, mask: Mask, table: &[Mask]) -> Result<Mask, Memory> {
        if mask == Mask::ALL {
            return Ok(mask);
        }
        let colours = Vec::from_slice(self.alloc, self.space.colours(mask))?;
        let mut all = Mask::NONE;
        for colour in &colours {
            if let Some(to) = table.get(*colour as usize) {
                all = self.space.either_mask(all, *to)?;
            }
        }
        Ok(all)
    }

    /// The diagram with one mask in place of another one.
    pub fn replaced(&mut self, diagram: Diagram, old: Mask, new: Mask) -> Result<Diagram, Stop> {
        self.space.relabel(diagram, &[old], &[new])
    }

    /// Whether at some point of a diagram nothing is allowed.
    pub fn fails(&mut self, diagram: Diagram) -> Result<bool, Stop> {
        let leaves = self.space.leaves(diagram)?;
        Ok(leaves.contains(&Mask::NONE))
    }

    /// A mask for each outcome of new packets, by what it writes: `dropped` where it drops, and else that of the end at its
    /// place among the sources, or among the destinations.
    fn masks_by_end(&mut self, dropped: Mask, by_source: bool) -> Result<Vec<Mask>, Memory> {
        let mut masks = Vec::new(self.alloc);
        for place in 0..self.outcomes.len() {
            let Some(outcome) = self.outcomes.get(place).copied() else {
                break;
            };
            let mask = match self.end_place(outcome, by_source) {
                Some(end) => self.space.only(colour_of(end))?,
                None => dropped,
            };
            masks.push(mask)?;
        }
        Ok(masks)
    }

    /// The place of what an outcome writes, as in `masks_by_end`; none where it drops.
    fn end_place(&self, outcome: Outcome, by_source: bool) -> Option<usize> {
        match outcome {
            Outcome::Drop => None,
            Outcome::Accept(rewrite) => Some(if by_source {
                place_among(&self.sources, rewrite.src).saturating_add(1)
            } else {
                place_among(&self.destinations, rewrite.dst)
            }),
        }
    }

    /// New packets by where they come from, with the colours behind the translation of destinations: 0 where they are dropped,
    /// and else one more than the place of the source that is written.
    pub fn direct(&mut self) -> Result<Diagram, Stop> {
        let fresh = self.fresh;
        let dropped = self.space.only(DROP)?;
        let masks = self.masks_by_end(dropped, true)?;
        self.translated(fresh, &masks)
    }

    /// Which destinations may be written over those of packets from these entries: a colour is the place of a destination. What
    /// is dropped may be left as it is, or may go as far as the reach allows.
    pub fn redirections(&mut self, entries: Side, reach: Reach) -> Result<Diagram, Stop> {
        let kept = self.space.only(0)?;
        let sent = self.sent()?;
        let region = self.everything().with(ENTRY, entries);
        if reach == Reach::Strict {
            let whole = self.replaced(sent, Mask::NONE, kept)?;
            return self.space.keep(whole, &region);
        }
        let near = self.near(sent, entries, kept, reach)?;
        // Where packets are accepted nothing of this is added.
        let drops = self.dropping()?;
        let more = self.space.meet(near, drops)?;
        let whole = self.space.met(sent, more, Meeting::Either)?;
        self.space.keep(whole, &region)
    }

    /// New packets by the destination that is written: nothing is allowed where they are dropped.
    fn sent(&mut self) -> Result<Diagram, Stop> {
        let fresh = self.fresh;
        let masks = self.masks_by_end(Mask::NONE, false)?;
        self.translated(fresh, &masks)
    }

    /// Everything allowed where new packets are dropped, and nothing elsewhere.
    fn dropping(&mut self) -> Result<Diagram, Stop> {
        let fresh = self.fresh;
        let mut table = Vec::new(self.alloc);
        for outcome in &self.outcomes {
            let drops = match outcome {
                Outcome::Drop => true,
                Outcome::Accept(_) => false,
            };
            table.push(if drops { Mask::ALL } else { Mask::NONE })?;
        }
        self.translated(fresh, &table)
    }

    /// Where packets from these entries may go as one with the same protocol, destination and port does, or as far as the reach allows.
    fn near(
        &mut self,
        sent: Diagram,
        entries: Side,
        kept: Mask,
        reach: Reach,
    ) -> Result<Diagram, Stop> {
        let others = self.space.others(ENTRY, entries)?;
        let outside = self.everything().with(ENTRY, others);
        let within = self.space.put(sent, &outside, Mask::NONE)?;
        let mut near = self.replaced(within, Mask::ALL, Mask::NONE)?;
        for field in [ENTRY, SRC, SPORT, FLAGS, ICMP] {
            near = self.space.project(near, field, Meeting::Either)?;
        }
        if reach == Reach::Wide {
            near = self.with_addresses(near)?;
        }
        let wide = self.with_blocks(near, sent)?;
        let stays = self.space.leaf(kept)?;
        self.space.met(wide, stays, Meeting::Either)
    }

    /// A diagram of destinations in which one that has no port is allowed besides for all packets with the address of some that go there.
    fn with_addresses(&mut self, near: Diagram) -> Result<Diagram, Stop> {
        let mut masks = Vec::new(self.alloc);
        for place in 0..self.destinations.len() {
            let has_port = match self.destination_at(place) {
                Some(end) => end.port.is_some(),
                None => true,
            };
            masks.push(if has_port {
                Mask::NONE
            } else {
                self.space.only(colour_of(place))?
            })?;
        }
        let mut wide = self.translated(near, &masks)?;
        wide = self.space.project(wide, PROTO, Meeting::Either)?;
        wide = self.space.project(wide, DPORT, Meeting::Either)?;
        self.space.met(near, wide, Meeting::Either)
    }

    /// A diagram of destinations in which a mapped network is allowed besides for all of a block of which some packet goes there.
    fn with_blocks(&mut self, near: Diagram, sent: Diagram) -> Result<Diagram, Stop> {
        let count = self.destinations.len();
        let mut wide = near;
        for place in 1..count {
            let Some(end) = self.destination_at(place) else {
                continue;
            };
            if end.len == 32 {
                continue;
            }
            let blocks = self.mapped_blocks(sent, place, DST, end)?;
            let region = self.everything().with(DST, blocks);
            let mask = self.space.only(colour_of(place))?;
            let nothing = self.space.leaf(Mask::NONE)?;
            let more = self.space.put(nothing, &region, mask)?;
            wide = self.space.met(wide, more, Meeting::Either)?;
        }
        Ok(wide)
    }

    /// The part of the space that a row of a table of established packets is about: by the packet as it arrives, or as it is
    /// behind the translation of destinations.
    fn row_region(&mut self, row: &Row<Outcome>, is_behind: bool) -> Result<Region, Memory> {
        let mut region = self.everything();
        for (place, set) in row.sides.iter().enumerate() {
            let at = u8::try_from(place).unwrap_or(11);
            let field = field_of(at);
            let is_sent = at >= 8;
            let is_end = field == DST || field == DPORT;
            let counts = if is_behind && is_end {
                is_sent
            } else {
                !is_sent
            };
            if counts && !is_whole(set, self.space.top(field)) {
                let side = self.space.side(field, set)?;
                region = region.with(field, side);
            }
        }
        Ok(region)
    }

    /// Whether the row asks for nothing of the fields of a table from one up to another one.
    fn asks_nothing(&self, row: &Row<Outcome>, from: usize, until: usize) -> bool {
        for place in from..until {
            if let Some(set) = row.sides.get(place) {
                let field = field_of(u8::try_from(place).unwrap_or(11));
                if !is_whole(set, self.space.top(field)) {
                    return false;
                }
            }
        }
        true
    }
}

/// What becomes of established packets.
#[derive(Clone, Copy)]
pub struct Established {
    /// What is decided by the packet as it arrives, if something is dropped by that.
    pub ahead: Option<Diagram>,
    /// What is decided behind the translation of destinations, if something is dropped by that.
    pub behind: Option<Diagram>,
}

/// The two parts while rows are met: where packets are dropped, and where they are accepted.
#[derive(Drop)]
struct Parts {
    ahead_drops: Vec<Region>,
    ahead_passes: Vec<Region>,
    behind_drops: Vec<Region>,
    behind_passes: Vec<Region>,
}

impl Policy {
    /// Sorts a row that drops.
    fn put_drop(
        &mut self,
        parts: &mut Parts,
        row: &Row<Outcome>,
        all_ahead: bool,
    ) -> Result<(), Stop> {
        let ahead = self.row_region(row, false)?;
        let behind = self.row_region(row, true)?;
        let asks_sent = !self.asks_nothing(row, 8, 12);
        let asks_sender = !self.asks_nothing(row, 10, 12);
        let asks_end = !self.asks_nothing(row, 2, 4);
        let mine = self.space.both(ahead.side(ENTRY), self.host)?;
        if !mine.is_empty() {
            if asks_end || asks_sender {
                return Err(Stop::Late);
            }
            parts.behind_drops.push(behind.with(ENTRY, mine))?;
        }
        let others = self.space.both(ahead.side(ENTRY), self.arriving)?;
        if others.is_empty() {
            return Ok(());
        }
        if !asks_sent && (all_ahead || asks_end) {
            parts.ahead_drops.push(ahead.with(ENTRY, others))?;
        } else if asks_sender {
            return Err(Stop::Late);
        } else {
            parts.behind_drops.push(behind.with(ENTRY, others))?;
        }
        Ok(())
    }

    /// The diagram of what drops and what passes by regions.
    fn verdicts(&mut self, drops: &[Region], passes: &[Region]) -> Result<Diagram, Stop> {
        let drop = self.space.only(DROP)?;
        let accept = self.space.only(ACCEPT)?;
        let mut dropped = self.space.anything()?;
        for region in drops {
            dropped = self.space.put(dropped, region, drop)?;
        }
        let mut passed = self.space.anything()?;
        for region in passes {
            passed = self.space.put(passed, region, accept)?;
        }
        self.space.meet(dropped, passed)
    }

    /// What becomes of established packets, in two parts: none where all of them are accepted. Where that is asked all that can
    /// be decided ahead of the translation of destinations is. It gives up where neither part can tell.
    pub fn established(
        &mut self,
        table: &Tree<Outcome>,
        all_ahead: bool,
    ) -> Result<Established, Stop> {
        if table.row_count(self.alloc)? > MOST_ROWS {
            return Err(Stop::Late);
        }
        let mut parts = Parts {
            ahead_drops: Vec::new(self.alloc),
            ahead_passes: Vec::new(self.alloc),
            behind_drops: Vec::new(self.alloc),
            behind_passes: Vec::new(self.alloc),
        };
        self.put_table(&mut parts, table, all_ahead)?;
        self.established_by(&parts)
    }

    /// Sorts the rows of a table.
    fn put_table(
        &mut self,
        parts: &mut Parts,
        table: &Tree<Outcome>,
        all_ahead: bool,
    ) -> Result<(), Stop> {
        let rows = table.paths(self.alloc)?;
        self.put_rows(parts, &rows, all_ahead)
    }

    /// Sorts rows.
    fn put_rows(
        &mut self,
        parts: &mut Parts,
        rows: &[Row<Outcome>],
        all_ahead: bool,
    ) -> Result<(), Stop> {
        for row in rows {
            match &row.leaf {
                Outcome::Drop => self.put_drop(parts, row, all_ahead)?,
                Outcome::Accept(_) => self.put_pass(parts, row)?,
            }
        }
        Ok(())
    }

    /// Sorts a row that accepts.
    fn put_pass(&mut self, parts: &mut Parts, row: &Row<Outcome>) -> Result<(), Memory> {
        let ahead = self.row_region(row, false)?;
        let behind = self.row_region(row, true)?;
        parts.ahead_passes.push(ahead)?;
        parts.behind_passes.push(behind)?;
        Ok(())
    }

    /// What becomes of established packets by both parts.
    fn established_by(&mut self, parts: &Parts) -> Result<Established, Stop> {
        let ahead = if parts.ahead_drops.is_empty() {
            None
        } else {
            Some(self.verdicts(&parts.ahead_drops, &parts.ahead_passes)?)
        };
        let behind = if parts.behind_drops.is_empty() {
            None
        } else {
            self.verdicts_behind(parts)?
        };
        Ok(Established { ahead, behind })
    }

    /// What is decided behind the translation of destinations; none where all is accepted.
    fn verdicts_behind(&mut self, parts: &Parts) -> Result<Option<Diagram>, Stop> {
        let mut behind = self.verdicts(&parts.behind_drops, &parts.behind_passes)?;
        if !self.forwarding {
            let foreign = self.foreign()?;
            let lost = self.arrivals().with(DST, foreign);
            behind = self.space.paint(behind, &lost)?;
        }
        let least = self.space.least_mask(behind);
        Ok(if self.space.has(least, ACCEPT) {
            None
        } else {
            Some(behind)
        })
    }
}
