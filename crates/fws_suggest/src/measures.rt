//! What sides cost, and which of them a target chooses.

use crate::cubes::{FlagCube, cover_flags};
use crate::forms::{Measure, Sought};
use crate::prefixes::network_of;
use crate::settings::System;
use crate::style::{AddressForm, Style};
use fws_diagram::{
    DPORT, DST, ENTRY, FLAGS, ICMP, PROTO, SPORT, SRC, STATE, Side, Space, Stop, TAG, word_at,
};
use fws_iv::Iv;
use fws_num::Memory;

/// A measure of so many lines and words.
fn measured(lines: u64, words: u64) -> Measure {
    Measure { lines, words }
}

/// The flags without which a packet is the first of a connection, as bits of sets: those of which ACK or RST is set.
fn established_flags() -> u64 {
    let mut set = 0;
    for flags in 0..64u32 {
        if flags & 20 != 0 {
            set |= 1u64 << flags;
        }
    }
    set
}

/// The ports from the least one of a side up to the greatest.
fn hull_of_ports(space: &mut Space, side: Side) -> Result<Side, Memory> {
    let bounds = space.bounds(side);
    let first = word_at(bounds, 0);
    let last = word_at(bounds, bounds.len().saturating_sub(1));
    space.atoms_between(first, last)
}

/// Puts each atom of a side.
fn put_atoms(space: &mut Space, side: Side, pieces: &mut Vec<Side>) -> Result<(), Memory> {
    for run in 0..space.runs(side) {
        let (from, until) = space.run(side, run);
        for atom in from..until {
            let piece = space.atoms_between(atom, atom.saturating_add(1))?;
            pieces.push(piece)?;
        }
    }
    Ok(())
}

/// Puts each range of atoms of a side.
fn put_runs(space: &mut Space, side: Side, pieces: &mut Vec<Side>) -> Result<(), Memory> {
    for run in 0..space.runs(side) {
        let (from, until) = space.run(side, run);
        let piece = space.atoms_between(from, until)?;
        pieces.push(piece)?;
    }
    Ok(())
}

/// The ports of a side as they are written.
#[derive(Drop)]
pub struct Ports {
    /// Whether all ports but these are meant.
    pub is_negated: bool,
    /// The ranges of ports.
    pub ranges: Vec<Iv>,
}

/// The TCP flags of a side as they are written.
#[derive(Drop)]
pub struct Flags {
    /// Whether all flags but these are meant.
    pub is_negated: bool,
    /// The cubes of flags.
    pub cubes: Vec<FlagCube>,
}

impl Style {
    /// What writing a side of a field takes.
    pub fn measure(
        &mut self,
        space: &mut Space,
        field: usize,
        side: Side,
    ) -> Result<Measure, Stop> {
        let row = (field % 16) as u32;
        if let Some(place) = self.measure_places.get(row, side.number()) {
            if let Some(known) = self.measures.get(place as usize) {
                return Ok(*known);
            }
        }
        let measure = self.new_measure(space, field, side)?;
        if let Ok(place) = u32::try_from(self.measures.len()) {
            self.measure_places
                .set(self.alloc, row, side.number(), place)?;
            self.measures.push(measure)?;
        }
        Ok(measure)
    }

    /// What a side takes that the system can hardly write, if it is one.
    fn unwritable(
        &self,
        space: &mut Space,
        field: usize,
        side: Side,
    ) -> Result<Option<Measure>, Stop> {
        let full = space.full(field);
        let system = self.settings.system;
        if side == full {
            return Ok(None);
        }
        if system == System::Iptables && field == ICMP {
            let last = space.atoms(field).saturating_sub(1);
            let rest = space.others(field, side)?;
            if space.hits(side, last, last.saturating_add(1)) {
                if space.count_values(field, rest) != 1 {
                    return Ok(Some(measured(50, 1000)));
                }
            } else if space.count_values(field, side) == 255 {
                return Ok(Some(measured(50, 1000)));
            }
        }
        if system == System::Iptables && field == PROTO && space.hits(side, 0, 1) {
            let rest = space.others(field, side)?;
            if space.count_values(field, rest) != 1 {
                return Ok(Some(measured(60, 1000)));
            }
        }
        if system == System::Ios && field == FLAGS {
            return Ok(Some(if self.flag_set(space, side) == established_flags() {
                measured(1, 100)
            } else {
                measured(50, 1000)
            }));
        }
        if system == System::Ipfw && field == ENTRY && self.settings.is_outward {
            return Ok(Some(self.outward_entries(space, side)?));
        }
        Ok(None)
    }

    /// What the entries of packets that go out take in ipfw.
    fn outward_entries(&self, space: &mut Space, side: Side) -> Result<Measure, Stop> {
        let host = space.atoms_between(0, 1)?;
        let rest = space.others(ENTRY, side)?;
        if side == host || rest == host {
            return Ok(measured(1, 250));
        }
        if space.meets(side, host)? {
            let lines = if space.count_atoms(rest) == 1 { 1 } else { 40 };
            return Ok(measured(lines, 200));
        }
        Ok(measured(u64::from(space.count_atoms(side)), 100))
    }

    fn new_measure(
        &mut self,
        space: &mut Space,
        field: usize,
        side: Side,
    ) -> Result<Measure, Stop> {
        if let Some(measure) = self.unwritable(space, field, side)? {
            return Ok(measure);
        }
        if side == space.full(field) {
            return Ok(measured(1, 0));
        }
        match field {
            STATE => Ok(measured(1, 100)),
            TAG => Ok(measured(1, 300)),
            ENTRY => {
                let lists = self.settings.lists_entries;
                let negates = self.settings.negates_entries;
                self.few_measure(space, field, side, lists, negates)
            }
            PROTO => {
                let lists = self.settings.lists_protocols;
                let negates = self.settings.negates_protocols;
                self.few_measure(space, field, side, lists, negates)
            }
            SRC => {
                let address = self.source(space, side)?;
                Ok(self.address_measure(&address))
            }
            DST => self.destination_measure(space, side),
            DPORT => self.ports_measure(space, field, side),
            SPORT => self.ports_measure(space, field, side),
            ICMP => self.types_measure(space, side),
            FLAGS => self.flags_measure(space, side),
            _ => Ok(measured(1, 0)),
        }
    }

    fn flags_measure(&self, space: &Space, side: Side) -> Result<Measure, Stop> {
        let flags = self.flags(space, side)?;
        let lines = if flags.is_negated {
            1
        } else {
            flags.cubes.len() as u64
        };
        Ok(measured(lines, 150))
    }

    /// What a side takes that is written value by value.
    fn few_measure(
        &self,
        space: &mut Space,
        field: usize,
        side: Side,
        lists: bool,
        negates: bool,
    ) -> Result<Measure, Stop> {
        let count = space.count_values(field, side);
        let rest = space.others(field, side)?;
        let lacking = space.count_values(field, rest);
        if count == 1 {
            return Ok(measured(1, 100));
        }
        if negates && lacking == 1 {
            return Ok(measured(1, 130));
        }
        if lists {
            let long = if count > 6 { 300 } else { 0 };
            let words = count.saturating_sub(1).saturating_mul(40);
            return Ok(measured(1, words.saturating_add(100).saturating_add(long)));
        }
        Ok(measured(count, 100))
    }

    fn destination_measure(&mut self, space: &mut Space, side: Side) -> Result<Measure, Stop> {
        let destination = self.destination(space, side)?;
        let measure = self.address_measure(&destination.address);
        let Some(exits) = destination.exits else {
            return Ok(measure);
        };
        let count = self.count(exits);
        let all = self.count_exits(space)?;
        let more = (count as u64).saturating_sub(1).saturating_mul(30);
        Ok(measured(
            measure.lines.saturating_mul(self.exit_lines(count, all)),
            measure.words.saturating_add(100).saturating_add(more),
        ))
    }

    fn ports_measure(&self, space: &mut Space, field: usize, side: Side) -> Result<Measure, Stop> {
        let ports = self.ports(space, field, side)?;
        let count = ports.ranges.len() as u64;
        let lines = self.lines_of_ports(&ports.ranges);
        let negated = if ports.is_negated { 30 } else { 0 };
        let more = count.saturating_sub(1).saturating_mul(30);
        Ok(measured(lines, more.saturating_add(100).saturating_add(negated)))
    }

    /// How many lines ranges of ports take.
    fn lines_of_ports(&self, ranges: &[Iv]) -> u64 {
        let mut slots: u64 = 0;
        for range in ranges {
            slots = slots.saturating_add(if range.lo == range.hi { 1 } else { 2 });
        }
        let width = u64::from(self.settings.ports);
        if width == 0 {
            ranges.len() as u64
        } else {
            slots.saturating_add(width - 1) / width
        }
    }

    fn types_measure(&self, space: &mut Space, side: Side) -> Result<Measure, Stop> {
        let count = space.count_values(ICMP, side);
        let rest = space.others(ICMP, side)?;
        let lacking = space.count_values(ICMP, rest);
        if self.settings.lists_types {
            let items = if self.settings.negates_types {
                count.min(lacking)
            } else {
                count
            };
            let more = items.saturating_sub(1).saturating_mul(40);
            return Ok(measured(1, more.saturating_add(100)));
        }
        if self.settings.negates_types && lacking == 1 {
            return Ok(measured(1, 130));
        }
        Ok(measured(count, 100))
    }

    /// How the ports of a side are written.
    pub fn ports(&self, space: &mut Space, field: usize, side: Side) -> Result<Ports, Memory> {
        let rest = space.others(field, side)?;
        let count = space.runs(side);
        let lacking = space.runs(rest);
        let is_negated = if self.settings.system == System::Ios {
            count > 1 && lacking == 1 && space.count_values(field, rest) == 1
        } else {
            self.settings.negates_ports
                && lacking < count
                && self.lines_of_ports(&space.parts(field, rest)?) <= 1
        };
        let ranges = space.parts(field, if is_negated { rest } else { side })?;
        Ok(Ports { is_negated, ranges })
    }

    /// The TCP flags of a side, as bits.
    pub(crate) fn flag_set(&self, space: &Space, side: Side) -> u64 {
        let mut set = 0;
        for flags in 0..64u32 {
            let atom = space.atom(FLAGS, flags);
            if space.hits(side, atom, atom.saturating_add(1)) {
                set |= 1u64 << flags;
            }
        }
        set
    }

    /// How the TCP flags of a side are written.
    pub fn flags(&self, space: &Space, side: Side) -> Result<Flags, Memory> {
        let set = self.flag_set(space, side);
        let cubes = cover_flags(self.alloc, &self.cubes, set)?;
        if self.settings.negates_flags && cubes.len() > 1 {
            let others = cover_flags(self.alloc, &self.cubes, !set)?;
            if others.len() == 1 {
                return Ok(Flags {
                    is_negated: true,
                    cubes: others,
                });
            }
        }
        Ok(Flags {
            is_negated: false,
            cubes,
        })
    }

    /// A side that is cheap to write, has all that is least and nothing that isn't in the greatest side, and goes by what is
    /// wanted. It may be sought as wide as all but a little.
    pub(crate) fn chosen(&mut self, space: &mut Space, sought: Sought) -> Result<Side, Stop> {
        let field = sought.field;
        let full = space.full(field);
        if sought.most == full {
            return Ok(full);
        }
        let system = self.settings.system;
        match field {
            ENTRY => {
                if system == System::Ipfw && self.settings.is_outward {
                    return self.chosen_outward(space, sought);
                }
                let lists = self.settings.lists_entries;
                let negates = self.settings.negates_entries;
                self.chosen_few(space, sought, lists, negates)
            }
            PROTO => {
                let lists = self.settings.lists_protocols;
                let negates = self.settings.negates_protocols;
                self.chosen_few(space, sought, lists, negates)
            }
            SRC => self.chosen_source(space, sought),
            DST => self.chosen_destination(space, sought),
            DPORT => self.chosen_ports(space, sought),
            SPORT => self.chosen_ports(space, sought),
            ICMP => {
                if self.settings.lists_types {
                    let wanted = space.both(sought.wanted, sought.most)?;
                    return Ok(space.either(wanted, sought.least)?);
                }
                Ok(sought.least)
            }
            FLAGS => self.chosen_flags(space, sought),
            _ => Ok(sought.least),
        }
    }

    fn chosen_flags(&mut self, space: &mut Space, sought: Sought) -> Result<Side, Stop> {
        if self.settings.system == System::Ios {
            let established = self.established_side(space)?;
            let fits = space.is_within(sought.least, established)?
                && space.is_within(established, sought.most)?;
            return Ok(if fits { established } else { sought.least });
        }
        let most = self.measure(space, FLAGS, sought.most)?;
        let least = self.measure(space, FLAGS, sought.least)?;
        let is_cheaper = most.lines < least.lines
            || (most.lines == least.lines && most.words <= least.words);
        Ok(if is_cheaper {
            sought.most
        } else {
            sought.least
        })
    }

    /// The flags of packets that aren't the first of a connection.
    pub(crate) fn established_side(&self, space: &mut Space) -> Result<Side, Stop> {
        let place = space.begin_side();
        for atom in 0..space.atoms(FLAGS) {
            if space.least(FLAGS, atom) & 20 != 0 {
                space.put_atoms(place, atom, atom.saturating_add(1))?;
            }
        }
        let side = space.end_side(place)?;
        Ok(side)
    }

    fn chosen_outward(&mut self, space: &mut Space, sought: Sought) -> Result<Side, Stop> {
        let host = space.atoms_between(0, 1)?;
        let others = space.others(ENTRY, host)?;
        let rest = space.others(ENTRY, sought.most)?;
        let most_has_host = space.meets(sought.most, host)?;
        if most_has_host && space.meets(sought.least, host)? {
            return Ok(if space.count_atoms(rest) == 1 {
                sought.most
            } else {
                host
            });
        }
        let many = space.count_atoms(sought.least) > 1;
        if sought.least == others || (!most_has_host && sought.most == others && many) {
            return Ok(others);
        }
        Ok(sought.least)
    }

    fn chosen_few(
        &mut self,
        space: &mut Space,
        sought: Sought,
        lists: bool,
        negates: bool,
    ) -> Result<Side, Stop> {
        let field = sought.field;
        if lists {
            let side = space.both(sought.wanted, sought.most)?;
            let is_long = field == PROTO && space.count_values(field, side) > 6;
            return Ok(if is_long { sought.least } else { side });
        }
        let rest = space.others(field, sought.most)?;
        let lacks_one = space.count_values(field, rest) == 1;
        let many = space.count_values(field, sought.least) > 1;
        Ok(if negates && lacks_one && (many || sought.wide) {
            sought.most
        } else {
            sought.least
        })
    }

    fn chosen_source(&mut self, space: &mut Space, sought: Sought) -> Result<Side, Stop> {
        let wanted = space.both(sought.wanted, sought.most)?;
        if sought.wide {
            let address = self.address_for(
                space,
                Sought {
                    field: SRC,
                    least: wanted,
                    most: sought.most,
                    wanted,
                    wide: false,
                },
            )?;
            if address.form == AddressForm::Negated {
                let side = self.atoms_of(space, SRC, &address)?;
                return Ok(space.both(sought.most, side)?);
            }
        }
        let least = if self.settings.lists_addresses {
            wanted
        } else {
            sought.least
        };
        let address = self.address_for(
            space,
            Sought {
                field: SRC,
                least,
                most: sought.most,
                wanted,
                wide: false,
            },
        )?;
        let side = self.atoms_of(space, SRC, &address)?;
        let inside = space.both(side, sought.most)?;
        Ok(space.either(inside, sought.least)?)
    }

    fn chosen_destination(&mut self, space: &mut Space, sought: Sought) -> Result<Side, Stop> {
        let wanted = space.both(sought.wanted, sought.most)?;
        if sought.wide {
            if let Some(side) = self.wide_destination(space, sought, wanted)? {
                return Ok(side);
            }
        }
        let least = if self.settings.lists_addresses {
            wanted
        } else {
            sought.least
        };
        let destination = self.destination_for(
            space,
            Sought {
                field: DST,
                least,
                most: sought.most,
                wanted,
                wide: false,
            },
        )?;
        let mut side = self.atoms_of(space, DST, &destination.address)?;
        if let Some(exits) = destination.exits {
            let leaving = self.leaving_by(space, exits)?;
            side = space.both(side, leaving)?;
        }
        let inside = space.both(side, sought.most)?;
        let seen = space.either(inside, sought.least)?;
        let free = space.minus(sought.most, self.universe)?;
        Ok(space.either(seen, free)?)
    }

    /// The destinations of all exits but one, or all but some addresses, if these are allowed.
    fn wide_destination(
        &mut self,
        space: &mut Space,
        sought: Sought,
        wanted: Side,
    ) -> Result<Option<Side>, Stop> {
        let universe = self.universe;
        if self.settings.names_exits {
            let all = self.count_exits(space)?;
            let mut good: usize = 0;
            let mut leaving = Side::EMPTY;
            for place in 0..self.exits.len() {
                if let Some(exit) = self.exits.get(place) {
                    let exit = *exit;
                    let met = space.both(exit.side, universe)?;
                    if !met.is_empty() && space.is_within(met, sought.most)? {
                        good = good.saturating_add(1);
                        leaving = space.either(leaving, exit.side)?;
                    }
                }
            }
            let least = space.both(sought.least, universe)?;
            if good.saturating_add(1) == all && all > 2 && space.is_within(least, leaving)? {
                let free = space.minus(sought.most, universe)?;
                return Ok(Some(space.either(leaving, free)?));
            }
        }
        let mut within = space.both(wanted, universe)?;
        if within.is_empty() {
            within = sought.least;
        }
        let outside = space.others(DST, universe)?;
        let most = space.either(sought.most, outside)?;
        let address = self.address_for(
            space,
            Sought {
                field: DST,
                least: within,
                most,
                wanted: within,
                wide: false,
            },
        )?;
        if address.form != AddressForm::Negated {
            return Ok(None);
        }
        let side = self.atoms_of(space, DST, &address)?;
        let inside = space.both(sought.most, side)?;
        Ok(Some(space.either(inside, sought.least)?))
    }

    /// The ranges of allowed ports that hold what is wanted, each as short as that lets it be.
    fn chosen_ports(&mut self, space: &mut Space, sought: Sought) -> Result<Side, Stop> {
        let wanted = space.both(sought.wanted, sought.most)?;
        let place = space.begin_side();
        let mut at: usize = 0;
        let mut next: u32 = 0;
        for run in 0..space.runs(sought.most) {
            let (first, until) = space.run(sought.most, run);
            let mut low: Option<u32> = None;
            let mut high = next;
            for _ in at..space.runs(wanted) {
                let (from, end) = space.run(wanted, at);
                if from >= until {
                    break;
                }
                if low.is_none() {
                    low = Some(from.max(first));
                }
                high = end;
                at = at.saturating_add(1);
            }
            if let Some(from) = low {
                space.put_atoms(place, from, high)?;
                next = high;
            }
        }
        let chosen = space.end_side(place)?;
        Ok(space.either(chosen, sought.least)?)
    }

    /// Wider sides in place of one that is dear to write: all atoms first.
    pub(crate) fn hulls_of(
        &mut self,
        space: &mut Space,
        field: usize,
        side: Side,
    ) -> Result<Vec<Side>, Stop> {
        let mut hulls = Vec::new(self.alloc);
        self.put_hulls(space, field, side, &mut hulls)?;
        Ok(hulls)
    }

    /// Puts wider sides in place of one that is dear to write.
    fn put_hulls(
        &mut self,
        space: &mut Space,
        field: usize,
        side: Side,
        hulls: &mut Vec<Side>,
    ) -> Result<(), Stop> {
        let full = space.full(field);
        hulls.push(full)?;
        if field == DPORT || field == SPORT {
            let hull = hull_of_ports(space, side)?;
            if hull != side && hull != full {
                hulls.push(hull)?;
            }
            return Ok(());
        }
        if field == SRC {
            return self.put_known(space, field, side, side, hulls);
        }
        if field == DST {
            let met = space.both(side, self.universe)?;
            let seen = if met.is_empty() { side } else { met };
            self.put_known(space, field, side, seen, hulls)?;
            if self.settings.names_exits {
                self.put_leaving(space, side, seen, hulls)?;
            }
        }
        Ok(())
    }

    /// Puts the network of what is seen of a side, where the site or the policy names it.
    fn put_known(
        &mut self,
        space: &mut Space,
        field: usize,
        side: Side,
        seen: Side,
        hulls: &mut Vec<Side>,
    ) -> Result<(), Stop> {
        let low = space.lowest(field, seen);
        let high = space.highest(field, seen);
        let network = network_of(low, high);
        if !self.is_known(network) {
            return Ok(());
        }
        let ranges = self.ranges_of(&[network])?;
        let atoms = self.atoms_within(space, field, ranges, 0)?;
        let hull = space.either(atoms, side)?;
        if hull != side {
            hulls.push(hull)?;
        }
        Ok(())
    }

    /// Puts the destinations of the exits by which what is seen of a side goes out.
    fn put_leaving(
        &mut self,
        space: &mut Space,
        side: Side,
        seen: Side,
        hulls: &mut Vec<Side>,
    ) -> Result<(), Stop> {
        let universe = self.universe;
        let mut leaving = Side::EMPTY;
        for exit in &self.exits {
            if space.meets(exit.side, seen)? {
                leaving = space.either(leaving, exit.side)?;
            }
        }
        let met = space.both(leaving, universe)?;
        if leaving != side && met != universe {
            let hull = space.either(leaving, side)?;
            hulls.push(hull)?;
        }
        Ok(())
    }

    /// The parts of a side that are written one by one.
    pub(crate) fn pieces_of(
        &mut self,
        space: &mut Space,
        field: usize,
        side: Side,
    ) -> Result<Vec<Side>, Stop> {
        let mut pieces = Vec::new(self.alloc);
        self.put_pieces(space, field, side, &mut pieces)?;
        Ok(pieces)
    }

    fn put_pieces(
        &mut self,
        space: &mut Space,
        field: usize,
        side: Side,
        pieces: &mut Vec<Side>,
    ) -> Result<(), Stop> {
        match field {
            ENTRY => {
                put_atoms(space, side, pieces)?;
                Ok(())
            }
            DPORT | SPORT | ICMP | PROTO => {
                put_runs(space, side, pieces)?;
                Ok(())
            }
            SRC | DST => self.put_address_pieces(space, field, side, pieces),
            _ => Ok(()),
        }
    }

    fn put_address_pieces(
        &mut self,
        space: &mut Space,
        field: usize,
        side: Side,
        pieces: &mut Vec<Side>,
    ) -> Result<(), Stop> {
        let address = if field == SRC {
            self.source(space, side)?
        } else {
            self.destination(space, side)?.address
        };
        if address.form != AddressForm::Positive {
            return Ok(());
        }
        for place in 0..self.count(address.ranges) {
            let range = self.range(address.ranges, place);
            let ranges = self.ranges_of(&[range])?;
            let atoms = self.atoms_within(space, field, ranges, 0)?;
            let piece = space.both(atoms, side)?;
            if !piece.is_empty() {
                pieces.push(piece)?;
            }
        }
        Ok(())
    }
}
