//! What lines say of single fields.

use crate::words::{put_flags, put_protocol};
use fws_iv::Iv;
use fws_net::{Lang, Site};
use fws_num::{Memory, Text, put_dec};
use fws_suggest::{
    ENTRY, FLAGS, FlagCube, Flags, ICMP, PROTO, Phrases, Policy, Ranges, Side, Space, Stop, Style,
    interface_name,
};
use std::alloc::Global;

/// How many protocols a rule may name, each in a line of its own.
const MOST_PROTOCOLS: usize = 40;

/// The passes that a rule is for.
#[derive(Clone, Copy, PartialEq, Eq)]
pub(crate) enum Way {
    /// Both passes.
    Both,
    /// Packets that come in.
    Coming,
    /// Packets that leave.
    Leaving,
}

/// What is written of regions.
#[derive(Clone, Copy)]
pub(crate) struct Writer<'a> {
    pub(crate) alloc: Global,
    pub(crate) site: &'a Site,
    entries: u32,
}

/// The last value of a range that a rule may name.
fn last_of(range: Iv) -> u32 {
    range.hi.min(range.lo.saturating_add(255))
}

/// The values of a side, as many as a rule may name.
fn values_of(alloc: Global, space: &Space, field: usize, side: Side) -> Result<Vec<u32>, Memory> {
    let parts = space.parts(field, side)?;
    let mut values = Vec::new(alloc);
    for part in &parts {
        for value in part.lo..=last_of(*part) {
            values.push(value)?;
        }
    }
    Ok(values)
}

/// Those of some entry numbers that aren't the host's own.
fn arriving_of(alloc: Global, entries: &[u32]) -> Result<Vec<u32>, Memory> {
    let mut arriving = Vec::new(alloc);
    for entry in entries {
        if *entry > 0 {
            arriving.push(*entry)?;
        }
    }
    Ok(arriving)
}

/// How many of all aren't among some, and the last of these.
fn others_of(some: &[u32], all: &[u32]) -> (usize, u32) {
    let mut count = 0usize;
    let mut last = 0u32;
    for entry in all {
        if !some.contains(entry) {
            count = count.saturating_add(1);
            last = *entry;
        }
    }
    (count, last)
}

/// Whether flags are those that `established` asks for: of which ACK or RST is set.
fn are_later(space: &Space, side: Side) -> Result<bool, Memory> {
    let values = space.values(FLAGS, side)?;
    for flags in 0..64u32 {
        if values.has(flags) != (flags & 20 != 0) {
            return Ok(false);
        }
    }
    Ok(true)
}

/// The interfaces that ranges of one entry number each name.
fn named(alloc: Global, style: &Style, ranges: Ranges) -> Result<Vec<u32>, Memory> {
    let mut entries = Vec::new(alloc);
    for place in 0..style.count(ranges) {
        entries.push(style.range(ranges, place).lo)?;
    }
    Ok(entries)
}

/// The interfaces by which the destinations that a list meets go out.
fn exits_of(policy: &mut Policy, style: &Style) -> Result<Vec<u32>, Memory> {
    let mut entries = Vec::new(policy.alloc);
    for place in 0..policy.exits.len() {
        if let Some(exit) = policy.exits.get(place).copied() {
            if policy.space.meets(exit.side, style.universe)? {
                entries.push(exit.entry)?;
            }
        }
    }
    Ok(entries)
}

/// A protocol by its name or its number.
fn protocol_word(alloc: Global, number: u32) -> Result<Text, Memory> {
    let mut text = Text::new(alloc);
    put_protocol(&mut text, number)?;
    Ok(text)
}

/// The test of a cube of flags.
fn flags_word(alloc: Global, cube: FlagCube, is_negated: bool) -> Result<Text, Memory> {
    let mut text = Text::new(alloc);
    put_flags(&mut text, cube, is_negated)?;
    Ok(text)
}

/// A word, and numbers with commas between.
fn numbers_behind(alloc: Global, word: &[u8], numbers: &[u32]) -> Result<Text, Memory> {
    let mut text = Text::of(alloc, word)?;
    let mut is_first = true;
    for number in numbers {
        if !is_first {
            text.put(b",")?;
        }
        is_first = false;
        put_dec(&mut text, u64::from(*number))?;
    }
    Ok(text)
}

impl<'a> Writer<'a> {
    /// What writes the rules of a policy.
    pub(crate) fn new(policy: &Policy, site: &'a Site) -> Writer<'a> {
        Writer {
            alloc: policy.alloc,
            site,
            entries: policy.entries,
        }
    }
}

impl Writer<'_> {
    /// Appends an option with the name of an interface to a text.
    pub(crate) fn put_option(
        &self,
        out: &mut Text,
        option: &[u8],
        entry: u32,
    ) -> Result<(), Memory> {
        out.put(option)?;
        out.put(b" ")?;
        out.put(interface_name(self.site, Lang::Ipfw, entry))
    }

    /// An option with the name of an interface.
    fn interface(&self, option: &[u8], entry: u32) -> Result<Text, Memory> {
        let mut text = Text::new(self.alloc);
        self.put_option(&mut text, option, entry)?;
        Ok(text)
    }

    /// Appends an option with the name of an interface.
    fn put_interface(&self, out: &mut Phrases, option: &[u8], entry: u32) -> Result<(), Memory> {
        let text = self.interface(option, entry)?;
        out.put(text.as_slice())
    }

    /// Appends interfaces as choices of an option.
    fn choose_interfaces(
        &self,
        out: &mut Phrases,
        option: &[u8],
        entries: &[u32],
    ) -> Result<(), Stop> {
        let mut choices = Vec::new(self.alloc);
        for entry in entries {
            choices.push(self.interface(option, *entry)?)?;
        }
        out.choose(&choices)
    }

    /// Appends interfaces as choices of an option: none where all are meant, and all but one where that is shorter.
    fn put_interfaces(
        &self,
        out: &mut Phrases,
        option: &[u8],
        negated: &[u8],
        meant: &[u32],
        all: &[u32],
    ) -> Result<(), Stop> {
        let (others, other) = others_of(meant, all);
        if others == 0 || meant.is_empty() {
            return Ok(());
        }
        if others == 1 && meant.len() > 1 {
            self.put_interface(out, negated, other)?;
            return Ok(());
        }
        self.choose_interfaces(out, option, meant)
    }

    /// The entry numbers of loopback and of all interfaces.
    fn all_arriving(&self) -> Result<Vec<u32>, Memory> {
        let mut all = Vec::new(self.alloc);
        for entry in 1..self.entries {
            all.push(entry)?;
        }
        Ok(all)
    }

    /// Appends where packets that leave have come in: all but one interface, and the host itself.
    fn put_all_but_one(&self, out: &mut Phrases, meant: &[u32], all: &[u32]) -> Result<(), Stop> {
        let (others, other) = others_of(meant, all);
        if others != 1 {
            return Err(Stop::Late);
        }
        self.put_interface(out, b"not recv", other)?;
        Ok(())
    }

    /// Appends where packets have come in, of all interfaces.
    fn put_meant(
        &self,
        out: &mut Phrases,
        meant: &[u32],
        all: &[u32],
        has_host: bool,
        way: Way,
    ) -> Result<(), Stop> {
        if way != Way::Leaving {
            return self.put_interfaces(out, b"recv", b"not recv", meant, all);
        }
        if meant.is_empty() {
            out.put(b"not tagged 1")?;
            return Ok(());
        }
        if meant.len() == all.len() {
            out.put(b"tagged 1")?;
            return Ok(());
        }
        if has_host {
            self.put_all_but_one(out, meant, all)
        } else {
            self.choose_interfaces(out, b"recv", meant)
        }
    }

    /// Appends where packets have come in, by entry numbers.
    fn put_entry_numbers(&self, out: &mut Phrases, entries: &[u32], way: Way) -> Result<(), Stop> {
        let meant = arriving_of(self.alloc, entries)?;
        let all = self.all_arriving()?;
        self.put_meant(out, &meant, &all, entries.contains(&0), way)
    }

    /// Appends where packets have come in.
    pub(crate) fn put_entries(
        &self,
        out: &mut Phrases,
        space: &Space,
        side: Side,
        way: Way,
    ) -> Result<(), Stop> {
        if side == space.full(ENTRY) {
            return Ok(());
        }
        let entries = values_of(self.alloc, space, ENTRY, side)?;
        self.put_entry_numbers(out, &entries, way)
    }

    /// Appends the interfaces where packets leave, of all where they may.
    fn put_exit_numbers(
        &self,
        out: &mut Phrases,
        policy: &mut Policy,
        style: &Style,
        exits: Ranges,
    ) -> Result<(), Stop> {
        let meant = named(self.alloc, style, exits)?;
        let all = exits_of(policy, style)?;
        self.put_interfaces(out, b"xmit", b"not xmit", &meant, &all)
    }

    /// Appends the interfaces where packets leave.
    pub(crate) fn put_exits(
        &self,
        out: &mut Phrases,
        policy: &mut Policy,
        style: &mut Style,
        side: Side,
    ) -> Result<(), Stop> {
        let destination = style.destination(&mut policy.space, side)?;
        match destination.exits {
            Some(exits) => self.put_exit_numbers(out, policy, style, exits),
            None => Ok(()),
        }
    }

    /// Appends protocols as choices.
    fn choose_protocols(&self, out: &mut Phrases, numbers: &[u32]) -> Result<(), Stop> {
        if numbers.len() > MOST_PROTOCOLS {
            return Err(Stop::Late);
        }
        let mut choices = Vec::new(self.alloc);
        for number in numbers {
            choices.push(protocol_word(self.alloc, *number)?)?;
        }
        out.choose(&choices)
    }

    /// Appends the protocols, and says whether that is `ip`, as where ports are asked of both that have them.
    pub(crate) fn put_protocols(
        &self,
        out: &mut Phrases,
        space: &Space,
        side: Side,
        has_ports: bool,
    ) -> Result<bool, Stop> {
        if side == space.full(PROTO) {
            out.put(b"ip")?;
            return Ok(true);
        }
        let numbers = values_of(self.alloc, space, PROTO, side)?;
        let are_both = numbers.as_slice() == [6u32, 17].as_slice();
        if has_ports && are_both {
            out.put(b"ip")?;
            return Ok(true);
        }
        self.choose_protocols(out, &numbers)?;
        Ok(false)
    }

    /// Appends tests of flags as choices.
    fn choose_flags(&self, out: &mut Phrases, flags: &Flags) -> Result<(), Stop> {
        let mut choices = Vec::new(self.alloc);
        for cube in &flags.cubes {
            choices.push(flags_word(self.alloc, *cube, flags.is_negated)?)?;
        }
        out.choose(&choices)
    }

    /// Appends the tests of flags.
    pub(crate) fn put_flags(
        &self,
        out: &mut Phrases,
        space: &Space,
        style: &Style,
        side: Side,
    ) -> Result<(), Stop> {
        if side == space.full(FLAGS) {
            return Ok(());
        }
        if are_later(space, side)? {
            out.put(b"established")?;
            return Ok(());
        }
        let flags = style.flags(space, side)?;
        self.choose_flags(out, &flags)
    }

    /// The test of ICMP types.
    fn types(&self, space: &mut Space, side: Side) -> Result<Text, Memory> {
        let rest = space.others(ICMP, side)?;
        let is_negated = space.count_values(ICMP, rest) < space.count_values(ICMP, side);
        if is_negated {
            let types = values_of(self.alloc, space, ICMP, rest)?;
            return numbers_behind(self.alloc, b"not icmptypes ", &types);
        }
        let types = values_of(self.alloc, space, ICMP, side)?;
        numbers_behind(self.alloc, b"icmptypes ", &types)
    }

    /// Appends the test of ICMP types.
    pub(crate) fn put_types(
        &self,
        out: &mut Phrases,
        space: &mut Space,
        side: Side,
    ) -> Result<(), Stop> {
        if side == space.full(ICMP) {
            return Ok(());
        }
        let text = self.types(space, side)?;
        out.put(text.as_slice())?;
        Ok(())
    }
}
