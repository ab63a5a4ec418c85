//! The lines of a rule.

use crate::options::{
    address_option, face_option, local_option, protocol_option, put_flags, put_mark, put_ports,
    without_own, words,
};
use fws_iv::Iv;
use fws_net::{Lang, Site};
use fws_num::{Memory, Text, put_dec};
use fws_suggest::{
    Address, AddressForm, DPORT, DST, ENTRY, FLAGS, FlagCube, ICMP, Marked, PROTO, Phrases, Policy,
    Ports, Ranges, Region, SPORT, SRC, STATE, Side, Space, Stop, Style, TAG, interface_name,
};
use std::alloc::Global;
use std::mem;

/// The mark of packets whose destination was written.
pub(crate) const REDIRECTED: u32 = 0x100;

/// What is written of a region.
#[derive(Clone, Copy)]
pub(crate) struct Writer<'a> {
    pub(crate) alloc: Global,
    pub(crate) site: &'a Site,
    pub(crate) entries: u32,
    /// Marks that stand for entries, where these can't be asked.
    pub(crate) marks: &'a [Marked],
    /// Whether packets that are delivered are met, too, which leave by no interface: the host's own addresses are asked by their
    /// kind then.
    pub(crate) asks_local: bool,
}

/// The protocols that a rule names.
#[derive(Drop)]
struct Named {
    /// Whether all others are meant.
    not: bool,
    /// Their numbers.
    values: Vec<u32>,
}

/// The values of a side, as many as a rule may name.
pub(crate) fn values_of(
    alloc: Global,
    space: &Space,
    field: usize,
    side: Side,
) -> Result<Vec<u32>, Memory> {
    let mut values = Vec::new(alloc);
    for part in &space.parts(field, side)? {
        for value in part.lo..=part.hi.min(part.lo.saturating_add(255)) {
            values.push(value)?;
        }
    }
    Ok(values)
}

/// The one value up to the top that isn't among the values.
fn missing(values: &[u32], top: u32) -> Option<u32> {
    if values.len() != top as usize {
        return None;
    }
    for value in 0..=top.min(255) {
        if !values.contains(&value) {
            return Some(value);
        }
    }
    None
}

/// How many places a range takes in a list of ports.
fn places_of(range: Iv) -> u32 {
    if range.lo == range.hi { 1 } else { 2 }
}

/// The words ahead of ports in a list.
fn list_words(alloc: Global, not: bool, option: &[u8]) -> Result<Text, Memory> {
    let mut text = words(alloc, b"-m multiport ")?;
    text.put(if not { b"! " } else { b"" })?;
    text.put(option)?;
    text.put(b"s ")?;
    Ok(text)
}

/// Tests of ports in lists of at most fifteen places.
fn port_lists(alloc: Global, not: bool, option: &[u8], ranges: &[Iv]) -> Result<Vec<Text>, Memory> {
    let mut lists = Vec::new(alloc);
    let mut list = list_words(alloc, not, option)?;
    let mut places = 0u32;
    for range in ranges {
        let more = places_of(*range);
        if places.saturating_add(more) > 15 {
            lists.push(mem::replace(&mut list, list_words(alloc, not, option)?))?;
            places = 0;
        }
        if places > 0 {
            list.put(b",")?;
        }
        put_ports(&mut list, *range)?;
        places = places.saturating_add(more);
    }
    lists.push(list)?;
    Ok(lists)
}

/// How many of the entries aren't meant.
fn count_others(meant: &[u32], all: &[u32]) -> usize {
    all.iter().filter(|entry| !meant.contains(*entry)).count()
}

/// The first of the entries that isn't meant.
fn first_other(meant: &[u32], all: &[u32]) -> Option<u32> {
    all.iter().find(|entry| !meant.contains(*entry)).copied()
}

impl Writer<'_> {
    /// Interfaces as choices of an option: nothing where all are meant, or none; all but one where that is shorter.
    fn put_interfaces(
        &self,
        out: &mut Phrases,
        option: &[u8],
        meant: &[u32],
        all: &[u32],
    ) -> Result<(), Stop> {
        let Some(other) = first_other(meant, all) else {
            return Ok(());
        };
        if meant.is_empty() {
            return Ok(());
        }
        if meant.len() > 1 && count_others(meant, all) == 1 {
            let text = self.interface(true, option, other)?;
            return Ok(out.put(text.as_slice())?);
        }
        let mut choices = Vec::new(self.alloc);
        for entry in meant {
            choices.push(self.interface(false, option, *entry)?)?;
        }
        out.choose(&choices)
    }

    /// The same for chains that packets meet that are delivered, too.
    pub(crate) fn for_delivered(&self) -> Writer<'_> {
        Writer {
            alloc: self.alloc,
            site: self.site,
            entries: self.entries,
            marks: self.marks,
            asks_local: true,
        }
    }

    /// An option with the name of an interface.
    fn interface(&self, not: bool, option: &[u8], entry: u32) -> Result<Text, Memory> {
        if self.asks_local && entry == 1 && option == b"-o".as_slice() {
            return local_option(self.alloc, false, not);
        }
        let mut text = words(self.alloc, if not { b"! " } else { b"" })?;
        text.put(option)?;
        text.put(b" ")?;
        text.put(interface_name(self.site, Lang::Iptables, entry))?;
        Ok(text)
    }

    /// The mark that stands for entries, where there is one.
    fn mark_of(&self, side: Side) -> Option<u32> {
        for class in self.marks {
            if class.entries == side {
                return Some(class.mark);
            }
        }
        None
    }

    /// The mark that stands for the interfaces where packets come in.
    fn put_entry_mark(&self, out: &mut Phrases, side: Side) -> Result<(), Stop> {
        let Some(mark) = self.mark_of(side) else {
            return Err(Stop::Late);
        };
        let mut text = words(self.alloc, b"-m mark --mark ")?;
        put_mark(&mut text, mark)?;
        Ok(out.put(text.as_slice())?)
    }

    /// The interfaces where packets come in, or the mark that stands for them.
    fn put_entry(&self, out: &mut Phrases, space: &Space, side: Side) -> Result<(), Stop> {
        if side == space.full(ENTRY) {
            return Ok(());
        }
        if !self.marks.is_empty() {
            return self.put_entry_mark(out, side);
        }
        let mut meant = Vec::new(self.alloc);
        for entry in &values_of(self.alloc, space, ENTRY, side)? {
            if *entry > 0 {
                meant.push(*entry)?;
            }
        }
        let mut all = Vec::new(self.alloc);
        for entry in 1..self.entries {
            all.push(entry)?;
        }
        self.put_interfaces(out, b"-i", &meant, &all)
    }

    /// Addresses in the ways in which they are written, each in a test of its own.
    fn address_choices(
        &self,
        style: &Style,
        is_source: bool,
        address: &Address,
    ) -> Result<Vec<Text>, Stop> {
        let negated = address.form == AddressForm::Negated;
        let positive = address.form == AddressForm::Positive;
        let mixed = address.form == AddressForm::Mixed;
        let count = style.count(address.ranges);
        let mut choices = Vec::new(self.alloc);
        if address.is_local && (negated || positive) {
            choices.push(local_option(self.alloc, is_source, negated)?)?;
            return Ok(choices);
        }
        if negated && count != 1 {
            return Err(Stop::Late);
        }
        if address.form == AddressForm::WithLocal {
            choices.push(local_option(self.alloc, is_source, false)?)?;
        }
        let mut ranges = Vec::new(self.alloc);
        for place in 0..count {
            ranges.push(style.range(address.ranges, place))?;
        }
        if positive {
            if let Some(others) = without_own(self.alloc, self.site, &ranges)? {
                choices.push(face_option(self.alloc, is_source)?)?;
                ranges = others;
            }
        }
        self.put_ranges(&mut choices, is_source, negated, mixed, &ranges)?;
        Ok(choices)
    }

    /// Puts a test for each range of addresses, of which all are negated or the first alone.
    fn put_ranges(
        &self,
        choices: &mut Vec<Text>,
        is_source: bool,
        negated: bool,
        first_negated: bool,
        ranges: &[Iv],
    ) -> Result<(), Memory> {
        for range in ranges {
            let not = negated || (first_negated && choices.is_empty());
            choices.push(address_option(self.alloc, is_source, not, *range)?)?;
        }
        Ok(())
    }

    /// Addresses as they are written.
    fn put_addresses(
        &self,
        out: &mut Phrases,
        style: &Style,
        is_source: bool,
        address: &Address,
    ) -> Result<(), Stop> {
        if address.form == AddressForm::Any {
            return Ok(());
        }
        let choices = self.address_choices(style, is_source, address)?;
        out.choose(&choices)
    }

    /// The interfaces where packets leave.
    fn put_exits(
        &self,
        out: &mut Phrases,
        policy: &mut Policy,
        style: &Style,
        exits: Ranges,
    ) -> Result<(), Stop> {
        let mut meant = Vec::new(self.alloc);
        for place in 0..style.count(exits) {
            meant.push(style.range(exits, place).lo)?;
        }
        let mut all = Vec::new(self.alloc);
        for exit in &policy.exits {
            if policy.space.meets(exit.side, style.universe)? {
                all.push(exit.entry)?;
            }
        }
        self.put_interfaces(out, b"-o", &meant, &all)
    }

    /// One range of ports, in the words of a module, which is named where it hasn't been.
    fn port_option(
        &self,
        not: bool,
        option: &[u8],
        range: Iv,
        module: &[u8],
    ) -> Result<Text, Memory> {
        let mut text = Text::new(self.alloc);
        if !module.is_empty() {
            text.put(b"-m ")?;
            text.put(module)?;
            text.put(b" ")?;
        }
        text.put(if not { b"! " } else { b"" })?;
        text.put(option)?;
        text.put(b" ")?;
        put_ports(&mut text, range)?;
        Ok(text)
    }

    /// Ports as they are written, in the words of a module for one range, or in lists; whether that module was used.
    fn put_ports(
        &self,
        out: &mut Phrases,
        ports: &Ports,
        option: &[u8],
        module: &[u8],
    ) -> Result<bool, Stop> {
        let not = ports.is_negated;
        if let [range] = ports.ranges.as_slice() {
            let text = self.port_option(not, option, *range, module)?;
            out.put(text.as_slice())?;
            return Ok(true);
        }
        let lists = port_lists(self.alloc, not, option, &ports.ranges)?;
        if not && lists.len() != 1 {
            return Err(Stop::Late);
        }
        out.choose(&lists)?;
        Ok(false)
    }

    /// The test of a field of ports, where some are asked; whether the module was used.
    fn put_port_test(
        &self,
        out: &mut Phrases,
        policy: &mut Policy,
        style: &Style,
        field: usize,
        side: Side,
        module: &[u8],
    ) -> Result<bool, Stop> {
        if side == policy.space.full(field) {
            return Ok(false);
        }
        let ports = style.ports(&mut policy.space, field, side)?;
        let option: &[u8] = if field == SPORT {
            b"--sport"
        } else {
            b"--dport"
        };
        self.put_ports(out, &ports, option, module)
    }

    /// A test of flags.
    fn flag_option(&self, module: &[u8], not: bool, cube: FlagCube) -> Result<Text, Memory> {
        let mut text = words(self.alloc, module)?;
        text.put(if not { b"! " } else { b"" })?;
        text.put(b"--tcp-flags ")?;
        put_flags(&mut text, cube.mask)?;
        text.put(b" ")?;
        put_flags(&mut text, cube.want)?;
        Ok(text)
    }

    /// Flags.
    fn put_flag_test(
        &self,
        out: &mut Phrases,
        space: &Space,
        style: &Style,
        side: Side,
        is_named: bool,
    ) -> Result<(), Stop> {
        if side == space.full(FLAGS) {
            return Ok(());
        }
        let module: &[u8] = if is_named { b"" } else { b"-m tcp " };
        let flags = style.flags(space, side)?;
        let mut choices = Vec::new(self.alloc);
        for cube in &flags.cubes {
            choices.push(self.flag_option(module, flags.is_negated, *cube)?)?;
        }
        out.choose(&choices)
    }

    /// A test of an ICMP type. It gives up at the type that can't be named.
    fn type_option(&self, not: bool, number: u32) -> Result<Text, Stop> {
        if number == 255 {
            return Err(Stop::Late);
        }
        let mut text = words(self.alloc, b"-m icmp ")?;
        text.put(if not { b"! " } else { b"" })?;
        text.put(b"--icmp-type ")?;
        put_dec(&mut text, u64::from(number))?;
        Ok(text)
    }

    /// ICMP types.
    fn put_types(&self, out: &mut Phrases, space: &Space, side: Side) -> Result<(), Stop> {
        if side == space.full(ICMP) {
            return Ok(());
        }
        let values = values_of(self.alloc, space, ICMP, side)?;
        if let Some(other) = missing(&values, 255) {
            let text = self.type_option(true, other)?;
            return Ok(out.put(text.as_slice())?);
        }
        let mut choices = Vec::new(self.alloc);
        for value in &values {
            choices.push(self.type_option(false, *value)?)?;
        }
        out.choose(&choices)
    }

    /// The state of the connection.
    fn put_state(&self, out: &mut Phrases, space: &Space, side: Side) -> Result<(), Memory> {
        if side == space.full(STATE) {
            return Ok(());
        }
        let is_new = space.values(STATE, side)?.has(0);
        out.put(if is_new {
            b"-m conntrack ! --ctstate RELATED,ESTABLISHED"
        } else {
            b"-m conntrack --ctstate RELATED,ESTABLISHED"
        })
    }

    /// The mark of packets whose destination was written.
    fn put_tag(&self, out: &mut Phrases, space: &Space, side: Side) -> Result<(), Memory> {
        if side == space.full(TAG) {
            return Ok(());
        }
        let is_tagged = space.values(TAG, side)?.has(1);
        out.put(if is_tagged {
            b"-m mark --mark 0x100"
        } else {
            b"-m mark ! --mark 0x100"
        })
    }

    /// What is asked behind the protocol.
    fn put_details(
        &self,
        out: &mut Phrases,
        policy: &mut Policy,
        style: &Style,
        region: &Region,
        module: &[u8],
    ) -> Result<(), Stop> {
        let sport = region.side(SPORT);
        let dport = region.side(DPORT);
        let by_source = self.put_port_test(out, policy, style, SPORT, sport, module)?;
        let left: &[u8] = if by_source { b"" } else { module };
        let by_destination = self.put_port_test(out, policy, style, DPORT, dport, left)?;
        let is_named = by_source || by_destination;
        let space = &policy.space;
        self.put_flag_test(out, space, style, region.side(FLAGS), is_named)?;
        self.put_types(out, space, region.side(ICMP))?;
        Ok(self.put_state(out, space, region.side(STATE))?)
    }

    /// The protocols that a rule names, one a line; none where it names none.
    fn protocols(&self, space: &Space, side: Side) -> Result<Option<Named>, Stop> {
        if side == space.full(PROTO) {
            return Ok(None);
        }
        let values = values_of(self.alloc, space, PROTO, side)?;
        if let Some(other) = missing(&values, 255) {
            if other == 0 {
                return Err(Stop::Late);
            }
            let mut values = Vec::new(self.alloc);
            values.push(other)?;
            return Ok(Some(Named { not: true, values }));
        }
        if values.contains(&0) {
            return Err(Stop::Late);
        }
        Ok(Some(Named { not: false, values }))
    }

    /// What is asked ahead of the protocol.
    fn put_ends(
        &self,
        out: &mut Phrases,
        policy: &mut Policy,
        style: &mut Style,
        region: &Region,
    ) -> Result<(), Stop> {
        let source = style.source(&mut policy.space, region.side(SRC))?;
        self.put_addresses(out, style, true, &source)?;
        let destination = style.destination(&mut policy.space, region.side(DST))?;
        self.put_addresses(out, style, false, &destination.address)?;
        self.put_entry(out, &policy.space, region.side(ENTRY))?;
        if let Some(exits) = destination.exits {
            self.put_exits(out, policy, style, exits)?;
        }
        Ok(self.put_tag(out, &policy.space, region.side(TAG))?)
    }

    /// Appends the lines for one protocol to those of other ones.
    fn put_protocol(
        &self,
        all: &mut Phrases,
        ahead: &Phrases,
        policy: &mut Policy,
        style: &Style,
        region: &Region,
        not: bool,
        number: u32,
    ) -> Result<(), Stop> {
        let mut lines = ahead.copy()?;
        let option = protocol_option(self.alloc, not, number)?;
        lines.put(option.as_slice())?;
        let module: &[u8] = if number == 17 { b"udp" } else { b"tcp" };
        self.put_details(&mut lines, policy, style, region, module)?;
        all.append(&lines)
    }

    /// The lines for protocols, each of which has lines of its own.
    fn with_protocols(
        &self,
        ahead: &Phrases,
        policy: &mut Policy,
        style: &Style,
        region: &Region,
        named: &Named,
    ) -> Result<Phrases, Stop> {
        let mut all = Phrases::none(self.alloc);
        for number in &named.values {
            self.put_protocol(&mut all, ahead, policy, style, region, named.not, *number)?;
        }
        Ok(all)
    }

    /// The lines of the tests of a region.
    pub(crate) fn tests(
        &self,
        policy: &mut Policy,
        style: &mut Style,
        region: &Region,
    ) -> Result<Phrases, Stop> {
        let mut out = Phrases::new(self.alloc)?;
        self.put_ends(&mut out, policy, style, region)?;
        let named = self.protocols(&policy.space, region.side(PROTO))?;
        if let Some(named) = &named {
            return self.with_protocols(&out, policy, style, region, named);
        }
        self.put_details(&mut out, policy, style, region, b"tcp")?;
        Ok(out)
    }
}
