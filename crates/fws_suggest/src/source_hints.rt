//! Rules of the source as regions, for searches to begin with.

use crate::problems::{ACCEPT, DROP, Policy};
use crate::rules::Rule;
use fws_diagram::{DPORT, DST, ENTRY, FLAGS, ICMP, PROTO, Region, SPORT, SRC, STATE, Side};
use fws_flat::{Flat, FlatAct, Ins, Part};
use fws_iv::Ivs;
use fws_net::{Cond, Lit, Test};
use fws_num::Memory;

/// How many rules of a source are looked at.
const MOST_HINTS: usize = 20000;

/// How many instructions of a part are read for them.
const MOST_READ: u32 = 60000;

/// Whether a region has no points.
fn is_empty(region: &Region) -> bool {
    for side in &region.sides {
        if side.is_empty() {
            return true;
        }
    }
    false
}

/// Which rules of a source are wanted.
#[derive(Clone, Copy)]
struct Wanted {
    /// The points of which they are to speak.
    within: Region,
    /// Whether those for new packets are wanted alone, which don't ask for the class then.
    only_new: bool,
    /// Whether packets leave where they are asked.
    outward: bool,
}

/// How far a part was read.
#[derive(Drop)]
struct Reading {
    /// What comes to the next instruction from the one ahead of it, if something does.
    now: Option<Region>,
    /// The rules that hold a verdict.
    held: Vec<Rule>,
    /// By place: what comes there by jumps.
    comings: Vec<Option<Region>>,
}

/// The region that comes to a place, if there is one.
fn coming_at(comings: &[Option<Region>], place: usize) -> Option<Region> {
    match comings.get(place) {
        Some(coming) => *coming,
        None => None,
    }
}

impl Policy {
    /// The side of a field that a set has, or of all that it hasn't.
    fn hint_side(&mut self, field: usize, set: &Ivs, not: bool) -> Result<Side, Memory> {
        let side = self.space.side(field, set)?;
        if not {
            self.space.others(field, side)
        } else {
            Ok(side)
        }
    }

    /// The region with less at a field.
    fn cut_to(&mut self, region: &Region, field: usize, side: Side) -> Result<Region, Memory> {
        let both = self.space.both(region.side(field), side)?;
        Ok(region.with(field, both))
    }

    /// The region within one or two protocols.
    fn within_protocols(
        &mut self,
        region: &Region,
        first: u32,
        second: u32,
    ) -> Result<Region, Memory> {
        let one = self.space.range(PROTO, first, first)?;
        let two = self.space.range(PROTO, second, second)?;
        let both = self.space.either(one, two)?;
        self.cut_to(region, PROTO, both)
    }

    /// The flags of which those of a mask are just those that are wanted, or of which one of the mask is set.
    fn flag_side(&mut self, mask: u8, want: Option<u8>, not: bool) -> Result<Side, Memory> {
        let mut side = Side::EMPTY;
        for flags in 0..64u8 {
            let holds = match want {
                Some(want) => flags & mask == want,
                None => flags & mask != 0,
            };
            if holds != not {
                let one = self.space.range(FLAGS, u32::from(flags), u32::from(flags))?;
                side = self.space.either(side, one)?;
            }
        }
        Ok(side)
    }

    /// The destinations that leave by the interfaces of a set.
    fn leaving_side(&mut self, set: &Ivs, not: bool) -> Result<Side, Memory> {
        let mut side = Side::EMPTY;
        for place in 0..self.exits.len() {
            if let Some(exit) = self.exits.get(place).copied() {
                if set.has(exit.entry) != not {
                    side = self.space.either(side, exit.side)?;
                }
            }
        }
        Ok(side)
    }

    /// The region of the packets of a region of which a literal holds, as nearly as a region can tell; none where it can't.
    fn hint_within(
        &mut self,
        region: &Region,
        lit: &Lit,
        outward: bool,
    ) -> Result<Option<Region>, Memory> {
        let not = lit.not;
        let (field, side) = match &lit.test {
            Test::Src(set) => (SRC, self.hint_side(SRC, set, not)?),
            Test::Dst(set) => (DST, self.hint_side(DST, set, not)?),
            Test::Sport(set) => (SPORT, self.hint_side(SPORT, set, not)?),
            Test::Dport(set) => (DPORT, self.hint_side(DPORT, set, not)?),
            Test::Proto(set) => (PROTO, self.hint_side(PROTO, set, not)?),
            Test::Icmp(set) => (ICMP, self.hint_side(ICMP, set, not)?),
            Test::Flags { mask, want } => (FLAGS, self.flag_side(*mask, Some(*want), not)?),
            Test::AnyFlag(mask) => (FLAGS, self.flag_side(*mask, None, not)?),
            Test::Recv(set) => (ENTRY, self.hint_side(ENTRY, set, not)?),
            Test::Xmit(set) => (DST, self.leaving_side(set, not)?),
            Test::Est => {
                let state = u32::from(!not);
                (STATE, self.space.range(STATE, state, state)?)
            }
            Test::Outward => return Ok(if outward == not { None } else { Some(*region) }),
            Test::Via(_) | Test::Tag(_) | Test::Never => return Ok(None),
        };
        let narrow = self.cut_to(region, field, side)?;
        Ok(Some(match field {
            FLAGS => self.within_protocols(&narrow, 6, 6)?,
            ICMP => self.within_protocols(&narrow, 1, 1)?,
            SPORT | DPORT => self.within_protocols(&narrow, 6, 17)?,
            _ => narrow,
        }))
    }

    /// The region of the packets of a region for which a condition holds, as nearly as a region can tell: none where it can't, or
    /// where there are none.
    fn hint_region(
        &mut self,
        within: &Region,
        cond: &Cond,
        outward: bool,
    ) -> Result<Option<Region>, Memory> {
        let mut region = *within;
        for lit in cond.lits() {
            match self.hint_within(&region, lit, outward)? {
                Some(narrow) => region = narrow,
                None => return Ok(None),
            }
        }
        Ok(if is_empty(&region) {
            None
        } else {
            Some(region)
        })
    }

    /// The region whatever the class is, where it has new packets.
    fn of_new_packets(&mut self, region: Region) -> Result<Option<Region>, Memory> {
        let new = self.space.range(STATE, 0, 0)?;
        if self.space.meets(region.side(STATE), new)? {
            let full = self.space.full(STATE);
            Ok(Some(region.with(STATE, full)))
        } else {
            Ok(None)
        }
    }

    /// Notes that a region comes to a place.
    fn put_coming(
        &mut self,
        comings: &mut Vec<Option<Region>>,
        place: usize,
        region: Region,
    ) -> Result<(), Memory> {
        let all = self.hull(coming_at(comings, place), Some(region))?;
        if let Some(slot) = comings.get_mut(place) {
            *slot = all;
        }
        Ok(())
    }

    /// Appends the rules of parts of a source that accept or drop: where that is asked those for new packets alone, which don't
    /// ask for the class then.
    pub fn put_hints(
        &mut self,
        hints: &mut Vec<Rule>,
        flat: &Flat,
        parts: &[Part],
        only_new: bool,
    ) -> Result<(), Memory> {
        let within = self.everything();
        self.put_hints_within(hints, flat, parts, only_new, &within)
    }

    /// As `put_hints`, of rules that speak of points of a region.
    fn put_hints_within(
        &mut self,
        hints: &mut Vec<Rule>,
        flat: &Flat,
        parts: &[Part],
        only_new: bool,
        within: &Region,
    ) -> Result<(), Memory> {
        for part in parts {
            let wanted = Wanted {
                within: *within,
                only_new,
                outward: part.outward,
            };
            self.put_part(hints, flat.code.as_slice(), *part, &wanted)?;
        }
        Ok(())
    }

    /// Appends the rules of a part: those that decide at once, in their order, and behind them those that hold a verdict, of which
    /// the last one counts.
    fn put_part(
        &mut self,
        hints: &mut Vec<Rule>,
        code: &[Ins],
        part: Part,
        wanted: &Wanted,
    ) -> Result<(), Memory> {
        let mut reading = Reading {
            now: Some(wanted.within),
            held: Vec::new(self.alloc),
            comings: Vec::new(self.alloc),
        };
        let past = part.past.min(part.first.saturating_add(MOST_READ));
        for _ in part.first..past {
            reading.comings.push(None)?;
        }
        for at in part.first..past {
            if let Some(instruction) = code.get(at as usize) {
                let place = at.saturating_sub(part.first) as usize;
                reading.now = self.hull(reading.now, coming_at(&reading.comings, place))?;
                self.put_instruction(hints, &mut reading, instruction, part.first, wanted)?;
            }
        }
        let Reading {
            now: _,
            held,
            comings,
        } = reading;
        drop(comings);
        for rule in held.iter().rev() {
            hints.push(*rule)?;
        }
        Ok(())
    }

    /// Appends what an instruction says of the packets that come to it, where the part has its first one at `first`.
    fn put_instruction(
        &mut self,
        hints: &mut Vec<Rule>,
        reading: &mut Reading,
        instruction: &Ins,
        first: u32,
        wanted: &Wanted,
    ) -> Result<(), Memory> {
        let Some(within) = reading.now else {
            return Ok(());
        };
        let cond = &instruction.cond;
        let Some(region) = self.hint_region(&within, cond, wanted.outward)? else {
            return Ok(());
        };
        match instruction.act {
            FlatAct::Accept => self.put_hint(hints, region, ACCEPT, wanted)?,
            FlatAct::Drop => self.put_hint(hints, region, DROP, wanted)?,
            FlatAct::Hold(passes) => {
                let colour = if passes { ACCEPT } else { DROP };
                return self.put_hint(&mut reading.held, region, colour, wanted);
            }
            FlatAct::Jump(to) => {
                let place = to.saturating_sub(first) as usize;
                self.put_coming(&mut reading.comings, place, region)?;
            }
            _ => return Ok(()),
        }
        if cond.lits().is_empty() {
            reading.now = None;
        }
        Ok(())
    }

    /// Appends a rule, if it is wanted and there aren't too many.
    fn put_hint(
        &mut self,
        hints: &mut Vec<Rule>,
        region: Region,
        colour: u32,
        wanted: &Wanted,
    ) -> Result<(), Memory> {
        if hints.len() >= MOST_HINTS {
            return Ok(());
        }
        if !wanted.only_new {
            hints.push(Rule { region, colour })?;
            return Ok(());
        }
        if let Some(region) = self.of_new_packets(region)? {
            hints.push(Rule { region, colour })?;
        }
        Ok(())
    }

    /// Notes the source's rules for new packets: searches begin with them.
    pub fn note_hints(&mut self, flat: &Flat) -> Result<(), Memory> {
        let mut coming = Vec::new(self.alloc);
        self.put_hints(&mut coming, flat, flat.arrive.as_slice(), true)?;
        let delivered = self.everything().with(DST, self.local);
        self.put_hints_within(&mut coming, flat, flat.deliver.as_slice(), true, &delivered)?;
        let foreign = self.foreign()?;
        let forwarded = self.everything().with(DST, foreign);
        self.put_hints_within(&mut coming, flat, flat.forward.as_slice(), true, &forwarded)?;
        self.coming = coming;
        let mut sending = Vec::new(self.alloc);
        self.put_hints(&mut sending, flat, flat.send.as_slice(), true)?;
        self.sending = sending;
        Ok(())
    }

    /// The source's rules for new packets that come in.
    pub fn coming_hints(&self) -> Result<Vec<Rule>, Memory> {
        Ok(Vec::from_slice(self.alloc, &self.coming)?)
    }

    /// The source's rules for new packets of the host's own.
    pub fn sending_hints(&self) -> Result<Vec<Rule>, Memory> {
        Ok(Vec::from_slice(self.alloc, &self.sending)?)
    }

    /// The source's rules for new packets that come in from some entries, which aren't asked then.
    pub fn hints_from(&mut self, entries: Side) -> Result<Vec<Rule>, Memory> {
        let mut hints = Vec::new(self.alloc);
        let full = self.space.full(ENTRY);
        for place in 0..self.coming.len() {
            let Some(rule) = self.coming.get(place).copied() else {
                break;
            };
            if self.space.meets(rule.region.side(ENTRY), entries)? {
                hints.push(Rule {
                    region: rule.region.with(ENTRY, full),
                    colour: rule.colour,
                })?;
            }
        }
        Ok(hints)
    }
}
