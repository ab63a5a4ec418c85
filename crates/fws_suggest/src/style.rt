//! How the texts of the four systems write sides.

use crate::cubes::{FlagCube, put_cubes};
use crate::forms::Measure;
use crate::settings::Settings;
use fws_diagram::{
    DPORT, DST, FLAGS, ICMP, Lists, PROTO, Pairs, Region, SPORT, Side, Space, word_at,
};
use fws_iv::Iv;
use fws_num::Memory;
use std::alloc::Global;

/// Ranges of addresses, by their number among those of a target.
#[derive(Clone, Copy)]
pub struct Ranges(pub(crate) u32);

/// How a set of addresses is written.
#[derive(Clone, Copy, PartialEq, Eq)]
pub enum AddressForm {
    /// Any address.
    Any,
    /// Those of the ranges.
    Positive,
    /// All but those of the ranges.
    Negated,
    /// All but those of the first range, and those of the others.
    Mixed,
    /// The host's own ones, and those of the ranges.
    WithLocal,
}

/// A set of addresses as it is written.
#[derive(Clone, Copy)]
pub struct Address {
    /// How it is written.
    pub form: AddressForm,
    /// The ranges.
    pub ranges: Ranges,
    /// Whether the ranges are the host's own addresses, by their name.
    pub is_local: bool,
}

/// A set of destinations as it is written.
#[derive(Clone, Copy)]
pub struct Destination {
    /// The interfaces by which its packets go out, as ranges of one entry number each, if they are written.
    pub exits: Option<Ranges>,
    /// The addresses.
    pub address: Address,
}

/// The destinations that go out by an interface.
#[derive(Clone, Copy)]
pub struct Leaving {
    /// The entry number of the interface.
    pub entry: u32,
    /// The destinations.
    pub side: Side,
}

/// How the texts of a system write sides, and what that costs, by settings.
pub struct Style {
    pub(crate) alloc: Global,
    /// What a line can say.
    pub settings: Settings,
    /// The destinations that the list meets: all others are free. What is told of a list is told before anything is asked.
    pub universe: Side,
    /// The host's own addresses, as destinations.
    pub local: Side,
    /// The host's own addresses, as sources.
    pub source_local: Side,
    /// Whether lists begin with the source's own rules, where there are such, and no other lists are sought.
    pub follows_source: bool,
    /// Whether what lines have counts little beside how many there are.
    pub counts_lines: bool,
    // The destinations that go out by each interface.
    pub(crate) exits: Vec<Leaving>,
    // The networks that the site or the policy names, rising.
    pub(crate) networks: Vec<Iv>,
    // The host's own addresses.
    pub(crate) own: Ranges,
    // Lists of ranges: the least and the greatest value of each.
    pub(crate) ranges: Lists,
    // Which ranges are written for (field, least side, greatest side, wanted side).
    pub(crate) cover_keys: Lists,
    pub(crate) covers: Vec<Option<Ranges>>,
    pub(crate) destination_keys: Lists,
    pub(crate) destinations: Vec<Option<Destination>>,
    pub(crate) measure_places: Pairs,
    pub(crate) measures: Vec<Measure>,
    pub(crate) cubes: Vec<FlagCube>,
}

impl Drop for Style {
    fn drop(self) {
        let Style {
            alloc: _,
            settings: _,
            universe: _,
            local: _,
            source_local: _,
            follows_source: _,
            counts_lines: _,
            exits,
            networks,
            own: _,
            ranges,
            cover_keys,
            covers,
            destination_keys,
            destinations,
            measure_places,
            measures,
            cubes,
        } = self;
        drop(exits);
        drop(networks);
        drop(ranges);
        drop(cover_keys);
        drop(covers);
        drop(destination_keys);
        drop(destinations);
        drop(measure_places);
        drop(measures);
        drop(cubes);
    }
}

/// Less than or equal, of ranges by their first values and then by their last.
fn is_ahead(one: Iv, other: Iv) -> bool {
    one.lo < other.lo || (one.lo == other.lo && one.hi < other.hi)
}

impl Style {
    /// How a target with these settings writes sides, where every destination is met, and none is the host's.
    pub fn new(alloc: Global, space: &Space, settings: Settings) -> Result<Style, Memory> {
        let mut style = Style {
            alloc,
            settings,
            universe: space.full(DST),
            local: Side::EMPTY,
            source_local: Side::EMPTY,
            follows_source: false,
            counts_lines: false,
            exits: Vec::new(alloc),
            networks: Vec::new(alloc),
            own: Ranges(0),
            ranges: Lists::new(alloc),
            cover_keys: Lists::new(alloc),
            covers: Vec::new(alloc),
            destination_keys: Lists::new(alloc),
            destinations: Vec::new(alloc),
            measure_places: Pairs::new(alloc),
            measures: Vec::new(alloc),
            cubes: Vec::new(alloc),
        };
        style.prepare()?;
        Ok(style)
    }

    /// Makes what every style has.
    fn prepare(&mut self) -> Result<(), Memory> {
        self.own = self.ranges_of(&[])?;
        put_cubes(&mut self.cubes)
    }

    /// Tells the host's own addresses.
    pub fn set_local(
        &mut self,
        destinations: Side,
        sources: Side,
        own: &[Iv],
    ) -> Result<(), Memory> {
        self.local = destinations;
        self.source_local = sources;
        self.own = self.ranges_of(own)?;
        Ok(())
    }

    /// Tells which destinations go out by an interface.
    pub fn add_exit(&mut self, entry: u32, side: Side) -> Result<(), Memory> {
        self.exits.push(Leaving { entry, side })?;
        Ok(())
    }

    /// Tells a network that the site or the policy names.
    pub fn add_network(&mut self, low: u32, high: u32) -> Result<(), Memory> {
        let network = Iv { lo: low, hi: high };
        let mut at = self.networks.len();
        for _ in 0..self.networks.len() {
            match self.networks.get(at.saturating_sub(1)) {
                Some(before) => {
                    if *before == network {
                        return Ok(());
                    }
                    if !is_ahead(network, *before) {
                        break;
                    }
                }
                None => break,
            }
            at = at.saturating_sub(1);
        }
        if at <= self.networks.len() {
            self.networks.insert(at, network)?;
        }
        Ok(())
    }

    /// Whether the site or the policy names the network.
    pub fn is_known(&self, network: Iv) -> bool {
        let mut low = 0;
        let mut high = self.networks.len();
        for _ in 0..64 {
            if low >= high {
                break;
            }
            let middle = low.wrapping_add(high) / 2;
            match self.networks.get(middle) {
                Some(known) => {
                    if *known == network {
                        return true;
                    }
                    if is_ahead(*known, network) {
                        low = middle.saturating_add(1);
                    } else {
                        high = middle;
                    }
                }
                None => return false,
            }
        }
        false
    }

    /// The number of a list of ranges.
    pub(crate) fn ranges_of(&mut self, parts: &[Iv]) -> Result<Ranges, Memory> {
        let from = self.ranges.begin();
        for part in parts {
            self.ranges.put(part.lo)?;
            self.ranges.put(part.hi)?;
        }
        let number = self.ranges.end(self.alloc, from)?;
        Ok(Ranges(number))
    }

    /// How many ranges there are.
    pub fn count(&self, ranges: Ranges) -> usize {
        self.ranges.len(ranges.0) / 2
    }

    /// The range at a place of ranges.
    pub fn range(&self, ranges: Ranges, place: usize) -> Iv {
        let words = self.ranges.list(ranges.0);
        let at = place.wrapping_mul(2);
        Iv {
            lo: word_at(words, at),
            hi: word_at(words, at.wrapping_add(1)),
        }
    }

    /// The protocols that a region has to be within, for what else it asks for.
    pub(crate) fn protocols_for(
        &self,
        space: &mut Space,
        region: &Region,
    ) -> Result<Option<Side>, Memory> {
        if region.side(FLAGS) != space.full(FLAGS) {
            return Ok(Some(space.range(PROTO, 6, 6)?));
        }
        if region.side(ICMP) != space.full(ICMP) {
            return Ok(Some(space.range(PROTO, 1, 1)?));
        }
        if region.side(DPORT) != space.full(DPORT) || region.side(SPORT) != space.full(SPORT) {
            return Ok(Some(self.with_ports(space)?));
        }
        Ok(None)
    }

    /// The protocols that have ports.
    pub(crate) fn with_ports(&self, space: &mut Space) -> Result<Side, Memory> {
        let tcp = space.range(PROTO, 6, 6)?;
        let udp = space.range(PROTO, 17, 17)?;
        space.either(tcp, udp)
    }
}
