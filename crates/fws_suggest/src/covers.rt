//! Addresses and destinations as a target writes them.

use crate::forms::{Measure, Sought};
use crate::prefixes::{is_network, network_of};
use crate::style::{Address, AddressForm, Destination, Ranges, Style};
use fws_diagram::{DST, SRC, Side, Space, Stop};
use fws_iv::Iv;
use fws_num::Memory;

/// Makes room for what a number has: nothing so far.
fn make_room<T: Drop>(list: &mut Vec<Option<T>>, number: u32) -> Result<(), Memory> {
    let count = (number as usize).saturating_add(1);
    for _ in list.len()..count {
        list.push(None)?;
    }
    Ok(())
}

/// What a number has, if it has something.
fn known_at<T: Copy>(list: &[Option<T>], number: u32) -> Option<T> {
    match list.get(number as usize) {
        Some(known) => *known,
        None => None,
    }
}

/// A number of which the last so many bits are set.
fn low_bits(count: u32) -> u32 {
    if count == 0 {
        0
    } else if count < 32 {
        u32::MAX >> (32 - count)
    } else {
        u32::MAX
    }
}

/// How many atoms of a field begin below a value or at it.
fn begun(space: &Space, field: usize, value: u32) -> u32 {
    space.atom(field, value).saturating_add(1)
}

impl Style {
    /// The atoms that lie wholly within ranges, which rise, from the one at a place on.
    pub(crate) fn atoms_within(
        &self,
        space: &mut Space,
        field: usize,
        ranges: Ranges,
        first: usize,
    ) -> Result<Side, Memory> {
        let side = space.begin_side();
        let mut next = 0;
        for place in first..self.count(ranges) {
            let (from, until) = space.atoms_inside(field, self.range(ranges, place));
            space.put_atoms(side, from.max(next), until)?;
            next = until.max(next);
        }
        space.end_side(side)
    }

    /// The ranges of the least number that was found which have all that is least, and none of what isn't in the greatest side.
    pub(crate) fn cover(&mut self, space: &mut Space, sought: Sought) -> Result<Ranges, Stop> {
        let key = self.cover_keys.begin();
        self.cover_keys.put((sought.field % 16) as u32)?;
        self.cover_keys.put(sought.least.number())?;
        self.cover_keys.put(sought.most.number())?;
        self.cover_keys.put(sought.wanted.number())?;
        let number = self.cover_keys.end(self.alloc, key)?;
        if let Some(known) = known_at(&self.covers, number) {
            return Ok(known);
        }
        let from = self.ranges.begin();
        self.cover_blocks(space, &sought, 0, 32)?;
        let found = self.ranges.end(self.alloc, from)?;
        let mut ranges = Ranges(found);
        if self.settings.has_ranges && self.count(ranges) > 1 {
            let shorter = self.cover_by_ranges(space, &sought, self.count(ranges))?;
            if let Some(shorter) = shorter {
                ranges = shorter;
            }
        }
        make_room(&mut self.covers, number)?;
        if let Some(slot) = self.covers.get_mut(number as usize) {
            *slot = Some(ranges);
        }
        Ok(ranges)
    }

    /// Puts the networks that are written for an aligned block of addresses.
    fn cover_blocks(
        &mut self,
        space: &mut Space,
        sought: &Sought,
        low: u32,
        bits: u32,
    ) -> Result<(), Stop> {
        space.visit()?;
        let high = low | low_bits(bits);
        let from = space.atom(sought.field, low);
        let until = begun(space, sought.field, high);
        if !space.hits(sought.least, from, until) {
            return Ok(());
        }
        let block = Iv { lo: low, hi: high };
        if bits == 0 {
            return self.put_block(space, sought, block, (from, until));
        }
        if space.covers(sought.most, from, until) {
            return self.put_block(space, sought, block, (from, until));
        }
        let half = bits - 1;
        let middle = low_bits(half) ^ low_bits(bits);
        self.cover_blocks(space, sought, low, half)?;
        self.cover_blocks(space, sought, low | middle, half)
    }

    /// Puts what is written for a block of which every address may be written.
    fn put_block(
        &mut self,
        space: &mut Space,
        sought: &Sought,
        block: Iv,
        atoms: (u32, u32),
    ) -> Result<(), Stop> {
        let field = sought.field;
        let needed = space.part_between(sought.wanted, atoms.0, atoms.1)?;
        if needed.is_empty() {
            self.ranges.put(block.lo)?;
            self.ranges.put(block.hi)?;
            return Ok(());
        }
        let low = space.lowest(field, needed).max(block.lo);
        let high = space.highest(field, needed).min(block.hi);
        let network = network_of(low, high);
        let first = space.atom(field, network.lo);
        let last = begun(space, field, network.hi);
        let is_whole = self.is_known(network) || space.covers(sought.wanted, first, last);
        let runs = space.runs(needed);
        if !is_whole && runs > 1 && runs <= 3 && self.put_apart(space, field, needed, block)? {
            return Ok(());
        }
        self.ranges.put(network.lo)?;
        self.ranges.put(network.hi)?;
        Ok(())
    }

    /// Puts a network for each of the ranges of atoms that are needed in a block, if no two of these meet.
    fn put_apart(
        &mut self,
        space: &mut Space,
        field: usize,
        needed: Side,
        block: Iv,
    ) -> Result<bool, Stop> {
        let from = self.ranges.begin();
        for place in 0..space.runs(needed) {
            let (first, until) = space.run(needed, place);
            let low = space.least(field, first).max(block.lo);
            let high = space.greatest(field, until.saturating_sub(1)).min(block.hi);
            let network = network_of(low, high);
            if place > 0 {
                if let Some(before) = self.ranges.last(from) {
                    if before >= network.lo {
                        self.ranges.drop_draft(from);
                        return Ok(false);
                    }
                }
            }
            self.ranges.put(network.lo)?;
            self.ranges.put(network.hi)?;
        }
        Ok(true)
    }

    /// Fewer ranges than so many that have all that is least, if there are such ones without more than what is wanted.
    fn cover_by_ranges(
        &mut self,
        space: &mut Space,
        sought: &Sought,
        fewer: usize,
    ) -> Result<Option<Ranges>, Stop> {
        let field = sought.field;
        let from = self.ranges.begin();
        let mut count: usize = 0;
        for place in 0..space.runs(sought.most) {
            let (first, until) = space.run(sought.most, place);
            if !space.hits(sought.least, first, until) {
                continue;
            }
            let needed = space.part_between(sought.wanted, first, until)?;
            let low = space.lowest(field, needed);
            let high = space.highest(field, needed);
            let network = network_of(low, high);
            let is_inside = network.lo >= space.least(field, first)
                && network.hi <= space.greatest(field, until.saturating_sub(1));
            let lowest = space.atom(field, low);
            let behind = begun(space, field, high);
            count = count.saturating_add(1);
            if !space.covers(sought.wanted, lowest, behind) || count >= fewer {
                self.ranges.drop_draft(from);
                return Ok(None);
            }
            self.ranges.put(if is_inside { network.lo } else { low })?;
            self.ranges.put(if is_inside { network.hi } else { high })?;
        }
        let number = self.ranges.end(self.alloc, from)?;
        Ok(Some(Ranges(number)))
    }

    /// The atoms of an address as it is written.
    pub(crate) fn atoms_of(
        &mut self,
        space: &mut Space,
        field: usize,
        address: &Address,
    ) -> Result<Side, Stop> {
        match address.form {
            AddressForm::Any => Ok(space.full(field)),
            AddressForm::Positive => Ok(self.atoms_within(space, field, address.ranges, 0)?),
            AddressForm::Negated => {
                let side = self.atoms_within(space, field, address.ranges, 0)?;
                Ok(space.others(field, side)?)
            }
            AddressForm::WithLocal => {
                let side = self.atoms_within(space, field, address.ranges, 0)?;
                let local = self.local_of(field);
                Ok(space.either(side, local)?)
            }
            AddressForm::Mixed => {
                let inner = self.atoms_within(space, field, address.ranges, 1)?;
                let range = self.range(address.ranges, 0);
                let first = self.ranges_of(&[range])?;
                let outer = self.atoms_within(space, field, first, 0)?;
                let others = space.others(field, outer)?;
                Ok(space.either(inner, others)?)
            }
        }
    }

    /// The host's own addresses.
    pub(crate) fn local_of(&self, field: usize) -> Side {
        if field == DST {
            self.local
        } else {
            self.source_local
        }
    }

    /// An address without ranges.
    fn any(&self) -> Address {
        Address {
            form: AddressForm::Any,
            ranges: Ranges(0),
            is_local: false,
        }
    }

    /// How a set of addresses is written that has all that is least, and nothing that isn't in the greatest side.
    pub(crate) fn address_for(
        &mut self,
        space: &mut Space,
        sought: Sought,
    ) -> Result<Address, Stop> {
        let full = space.full(sought.field);
        if sought.most == full {
            return Ok(self.any());
        }
        let local = self.local_of(sought.field);
        if self.settings.names_local && !local.is_empty() {
            if space.is_within(sought.least, local)? && space.is_within(local, sought.most)? {
                return Ok(Address {
                    form: AddressForm::Positive,
                    ranges: self.own,
                    is_local: true,
                });
            }
            if self.settings.negates_addresses && !space.meets(sought.least, local)? {
                let others = space.minus(full, local)?;
                if space.is_within(others, sought.most)? {
                    return Ok(Address {
                        form: AddressForm::Negated,
                        ranges: self.own,
                        is_local: true,
                    });
                }
            }
        }
        let positive = self.positive_for(space, sought, local)?;
        let count = self.lines_of(&positive);
        if !self.settings.negates_addresses || count <= 1 {
            return Ok(positive);
        }
        match self.negative_for(space, sought, count)? {
            Some(negative) => Ok(negative),
            None => Ok(positive),
        }
    }

    /// How many ranges an address has, the host's own ones as one.
    fn lines_of(&self, address: &Address) -> usize {
        let count = self.count(address.ranges);
        if address.form == AddressForm::WithLocal {
            count.saturating_add(1)
        } else {
            count
        }
    }

    /// An address by what it has.
    fn positive_for(
        &mut self,
        space: &mut Space,
        sought: Sought,
        local: Side,
    ) -> Result<Address, Stop> {
        let ranges = self.cover(space, sought)?;
        let plain = Address {
            form: AddressForm::Positive,
            ranges,
            is_local: false,
        };
        let count = self.count(ranges);
        let may_join = self.settings.names_local && self.settings.joins_local && count > 2;
        if !may_join
            || local.is_empty()
            || !space.is_within(local, sought.most)?
            || !space.meets(sought.least, local)?
        {
            return Ok(plain);
        }
        let rest = space.minus(sought.least, local)?;
        let more = if rest.is_empty() {
            Ranges(0)
        } else {
            self.cover(
                space,
                Sought {
                    field: sought.field,
                    least: rest,
                    most: sought.most,
                    wanted: rest,
                    wide: false,
                },
            )?
        };
        if self.count(more).saturating_add(1) < count {
            return Ok(Address {
                form: AddressForm::WithLocal,
                ranges: more,
                is_local: false,
            });
        }
        Ok(plain)
    }

    /// An address by what it lacks, if that is shorter than so many lines.
    fn negative_for(
        &mut self,
        space: &mut Space,
        sought: Sought,
        count: usize,
    ) -> Result<Option<Address>, Stop> {
        let field = sought.field;
        let lacking = space.others(field, sought.most)?;
        let may_lack = space.others(field, sought.least)?;
        let ranges = self.cover(
            space,
            Sought {
                field,
                least: lacking,
                most: may_lack,
                wanted: lacking,
                wide: false,
            },
        )?;
        let lists = self.settings.lists_addresses;
        let negated = self.count(ranges);
        if (!lists && negated == 1) || (lists && negated < count) {
            return Ok(Some(Address {
                form: AddressForm::Negated,
                ranges,
                is_local: false,
            }));
        }
        if lists || count <= 2 || lacking.is_empty() {
            return Ok(None);
        }
        self.mixed_for(space, sought, lacking, count)
    }

    /// An address by all but a network and by what it has in it, if that is shorter than so many lines.
    fn mixed_for(
        &mut self,
        space: &mut Space,
        sought: Sought,
        lacking: Side,
        count: usize,
    ) -> Result<Option<Address>, Stop> {
        let field = sought.field;
        let low = space.lowest(field, lacking);
        let high = space.highest(field, lacking);
        let network = network_of(low, high);
        if network.lo == 0 && network.hi == u32::MAX {
            return Ok(None);
        }
        let first = space.atom(field, network.lo);
        let last = space.atom(field, network.hi);
        if space.least(field, first) != network.lo || space.greatest(field, last) != network.hi {
            return Ok(None);
        }
        let hull = space.atoms_between(first, last.saturating_add(1))?;
        if !space.is_within(lacking, hull)? || space.is_within(sought.least, hull)? {
            return Ok(None);
        }
        let within = space.both(sought.least, hull)?;
        let inner = if within.is_empty() {
            Ranges(0)
        } else {
            self.cover(
                space,
                Sought {
                    field,
                    least: within,
                    most: sought.most,
                    wanted: within,
                    wide: false,
                },
            )?
        };
        if self.count(inner).saturating_add(1) >= count {
            return Ok(None);
        }
        let from = self.ranges.begin();
        self.ranges.put(network.lo)?;
        self.ranges.put(network.hi)?;
        for place in 0..self.count(inner) {
            let range = self.range(inner, place);
            self.ranges.put(range.lo)?;
            self.ranges.put(range.hi)?;
        }
        let number = self.ranges.end(self.alloc, from)?;
        Ok(Some(Address {
            form: AddressForm::Mixed,
            ranges: Ranges(number),
            is_local: false,
        }))
    }

    /// What writing an address takes.
    pub(crate) fn address_measure(&self, address: &Address) -> Measure {
        let settings = &self.settings;
        if address.form == AddressForm::Any {
            return Measure { lines: 1, words: 0 };
        }
        if address.is_local && settings.names_local {
            let words = if address.form == AddressForm::Positive {
                100
            } else {
                settings.negation
            };
            return Measure { lines: 1, words };
        }
        let count = self.count(address.ranges) as u64;
        let more = count.saturating_sub(1);
        let mut odd: u64 = 0;
        for place in 0..self.count(address.ranges) {
            if !is_network(self.range(address.ranges, place)) {
                odd = odd.saturating_add(settings.range);
            }
        }
        match address.form {
            AddressForm::Mixed => Measure {
                lines: count,
                words: odd
                    .saturating_add(settings.negation / 2)
                    .saturating_add(100),
            },
            AddressForm::WithLocal => Measure {
                lines: count.saturating_add(1),
                words: odd.saturating_add(100),
            },
            AddressForm::Negated => Measure {
                lines: 1,
                words: odd
                    .saturating_add(settings.negation)
                    .saturating_add(more.saturating_mul(50)),
            },
            _ => {
                if settings.lists_addresses {
                    Measure {
                        lines: 1,
                        words: odd
                            .saturating_add(100)
                            .saturating_add(more.saturating_mul(60)),
                    }
                } else {
                    Measure {
                        lines: count,
                        words: odd.saturating_add(100),
                    }
                }
            }
        }
    }

    /// How the sources of a side are written.
    pub fn source(&mut self, space: &mut Space, side: Side) -> Result<Address, Stop> {
        self.address_for(
            space,
            Sought {
                field: SRC,
                least: side,
                most: side,
                wanted: side,
                wide: false,
            },
        )
    }

    /// How the destinations of a side are written.
    pub fn destination(&mut self, space: &mut Space, side: Side) -> Result<Destination, Stop> {
        self.destination_for(
            space,
            Sought {
                field: DST,
                least: side,
                most: side,
                wanted: side,
                wide: false,
            },
        )
    }

    /// The destinations that go out by the interfaces.
    pub(crate) fn leaving_by(&mut self, space: &mut Space, exits: Ranges) -> Result<Side, Stop> {
        let mut all = Side::EMPTY;
        for place in 0..self.exits.len() {
            if let Some(leaving) = self.exits.get(place) {
                let leaving = *leaving;
                if self.has_entry(exits, leaving.entry) {
                    all = space.either(all, leaving.side)?;
                }
            }
        }
        Ok(all)
    }

    /// Whether an entry is among the exits.
    fn has_entry(&self, exits: Ranges, entry: u32) -> bool {
        for place in 0..self.count(exits) {
            if self.range(exits, place).lo == entry {
                return true;
            }
        }
        false
    }

    /// How many exits the list meets.
    pub(crate) fn count_exits(&self, space: &mut Space) -> Result<usize, Stop> {
        let mut count: usize = 0;
        for leaving in &self.exits {
            if space.meets(leaving.side, self.universe)? {
                count = count.saturating_add(1);
            }
        }
        Ok(count)
    }

    /// How many lines so many exits take of those that the list meets.
    pub(crate) fn exit_lines(&self, count: usize, all: usize) -> u64 {
        let settings = &self.settings;
        if settings.lists_entries
            || count == 1
            || (settings.negates_entries && count.saturating_add(1) == all)
        {
            1
        } else {
            count as u64
        }
    }

    /// How a set of destinations is written that has all that is least, and nothing that isn't in the greatest side.
    pub(crate) fn destination_for(
        &mut self,
        space: &mut Space,
        sought: Sought,
    ) -> Result<Destination, Stop> {
        let key = self.destination_keys.begin();
        self.destination_keys.put(sought.least.number())?;
        self.destination_keys.put(sought.most.number())?;
        self.destination_keys.put(sought.wanted.number())?;
        self.destination_keys.put(self.universe.number())?;
        let number = self.destination_keys.end(self.alloc, key)?;
        if let Some(known) = known_at(&self.destinations, number) {
            return Ok(known);
        }
        let destination = self.new_destination(space, sought)?;
        make_room(&mut self.destinations, number)?;
        if let Some(slot) = self.destinations.get_mut(number as usize) {
            *slot = Some(destination);
        }
        Ok(destination)
    }

    fn new_destination(&mut self, space: &mut Space, sought: Sought) -> Result<Destination, Stop> {
        let universe = self.universe;
        if space.is_within(universe, sought.most)? {
            return Ok(Destination {
                exits: None,
                address: self.any(),
            });
        }
        let outside = space.others(DST, universe)?;
        let mut least = space.both(sought.least, universe)?;
        let mut wanted = space.both(sought.wanted, universe)?;
        if least.is_empty() {
            least = sought.least;
            wanted = sought.wanted;
        }
        let most = space.either(sought.most, outside)?;
        let address = self.address_for(
            space,
            Sought {
                field: DST,
                least,
                most,
                wanted,
                wide: false,
            },
        )?;
        let plain = Destination {
            exits: None,
            address,
        };
        if !self.settings.names_exits {
            return Ok(plain);
        }
        self.by_exits(space, least, most, wanted, plain)
    }

    /// A destination by the interfaces by which its packets go out, if that is cheaper.
    fn by_exits(
        &mut self,
        space: &mut Space,
        least: Side,
        most: Side,
        wanted: Side,
        plain: Destination,
    ) -> Result<Destination, Stop> {
        let all = self.count_exits(space)?;
        let from = self.ranges.begin();
        let mut count: usize = 0;
        let mut leaving_all = Side::EMPTY;
        for place in 0..self.exits.len() {
            if let Some(leaving) = self.exits.get(place) {
                let leaving = *leaving;
                let met = space.both(leaving.side, least)?;
                if space.meets(met, self.universe)? {
                    count = count.saturating_add(1);
                    leaving_all = space.either(leaving_all, leaving.side)?;
                    self.ranges.put(leaving.entry)?;
                    self.ranges.put(leaving.entry)?;
                }
            }
        }
        let exits = Ranges(self.ranges.end(self.alloc, from)?);
        if count >= all {
            return Ok(plain);
        }
        let elsewhere = space.minus(self.universe, leaving_all)?;
        let free = space.either(most, elsewhere)?;
        let address = self.address_for(
            space,
            Sought {
                field: DST,
                least,
                most: free,
                wanted,
                wide: false,
            },
        )?;
        let before = self.address_measure(&plain.address);
        let after = self.address_measure(&address);
        let plain_cost = before
            .lines
            .saturating_mul(1000)
            .saturating_add(before.words);
        let cost = after
            .lines
            .saturating_mul(self.exit_lines(count, all))
            .saturating_mul(1000)
            .saturating_add(after.words)
            .saturating_add(100);
        let bonus = if address.form == AddressForm::Any {
            40
        } else {
            0
        };
        if cost < plain_cost.saturating_add(bonus) {
            return Ok(Destination {
                exits: Some(exits),
                address,
            });
        }
        Ok(plain)
    }
}
