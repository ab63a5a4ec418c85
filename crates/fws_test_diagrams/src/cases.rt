//! Cases: the packets that go through them, what their lines say of walks, and what was found.

use crate::stop::Stop;
use crate::words::{kind_of, outcome_of, packet_of};
use fws_net::{Kind, Outcome, Packet, Site};
use fws_num::{Items, Line, Memory, Text, Word, put_dec};
use std::alloc::Global;

/// A packet with a name.
#[derive(Drop)]
pub struct Named {
    /// Its name.
    pub name: Text,
    /// Its fields.
    pub packet: Packet,
}

/// Where packets walk, and those that do.
#[derive(Clone, Copy)]
pub struct Scene<'a> {
    /// The site.
    pub site: &'a Site,
    /// The packets.
    pub packets: &'a [Named],
}

/// What a line says of a walk.
#[derive(Clone, Copy)]
pub struct Walk<'a> {
    /// The packet.
    pub packet: Packet,
    /// Its class.
    pub kind: Kind,
    /// What becomes of it.
    pub outcome: Outcome,
    /// Words for the rules that it uses, where the line names them.
    pub places: Option<&'a [Word]>,
}

/// What was tried, and what differs.
#[derive(Drop)]
pub struct Tally {
    /// How many cases.
    pub cases: u64,
    /// How many of their lines.
    pub lines: u64,
    /// How many rows.
    pub rows: u64,
    /// How many points of these.
    pub points: u64,
    /// How many of the lines and rows differ.
    pub differences: u64,
    /// A line for each of these.
    pub differing: Text,
}

/// Adds the packet of a line `packet NAME` and eight fields; another line adds none.
fn put_packet(
    alloc: Global,
    site: &Site,
    packets: &mut Items<Named>,
    line: &Line,
) -> Result<(), Stop> {
    match line.words.as_slice() {
        [kind, name, fields @ ..] if kind.is(b"packet") => {
            let packet = packet_of(site, fields)?;
            packets.put(Named {
                name: name.text.copy(alloc)?,
                packet,
            })?;
            Ok(())
        }
        _ => Ok(()),
    }
}

/// The packets of the lines.
pub fn packets_of(alloc: Global, site: &Site, lines: &[Line]) -> Result<Items<Named>, Stop> {
    let mut packets = Items::new(alloc);
    for line in lines {
        put_packet(alloc, site, &mut packets, line)?;
    }
    Ok(packets)
}

/// The packet with this name.
fn packet_named(packets: &[Named], name: &Word) -> Result<Packet, Stop> {
    for named in packets {
        if named.name == name.text {
            return Ok(named.packet);
        }
    }
    Err(Stop::Malformed)
}

impl Scene<'_> {
    /// What the words `PACKET CLASS : OUTCOME` say, or `PACKET CLASS : OUTCOME : PLACE ..`.
    pub fn walk_of<'w>(&self, words: &'w [Word]) -> Result<Walk<'w>, Stop> {
        let mut parts = words.split(|word: &Word| word.is(b":"));
        let (Some([name, class @ ..]), Some(outcome)) = (parts.next(), parts.next()) else {
            return Err(Stop::Malformed);
        };
        Ok(Walk {
            packet: packet_named(self.packets, name)?,
            kind: kind_of(self.site, class)?,
            outcome: outcome_of(outcome)?,
            places: parts.next(),
        })
    }
}

/// Adds the words of a case's first line.
fn put_name(out: &mut Text, head: &Line) -> Result<(), Memory> {
    for word in head.words.as_slice() {
        out.put(b" ")?;
        out.put(word.text.as_slice())?;
    }
    out.put(b"\n")
}

impl Tally {
    /// Nothing was tried yet.
    pub fn new(alloc: Global) -> Tally {
        Tally {
            cases: 0,
            lines: 0,
            rows: 0,
            points: 0,
            differences: 0,
            differing: Text::new(alloc),
        }
    }

    /// Counts a line of the case with this first line; one that doesn't agree is named by its number and its case.
    pub fn count_line(&mut self, agrees: bool, head: &Line, line: &Line) -> Result<(), Memory> {
        self.lines = self.lines.saturating_add(1);
        if agrees {
            return Ok(());
        }
        self.differences = self.differences.saturating_add(1);
        self.differing.put(b"line ")?;
        put_dec(&mut self.differing, u64::from(line.number))?;
        self.differing.put(b" differs in")?;
        put_name(&mut self.differing, head)
    }

    /// Counts a row and its points; one with points that have another outcome is named by its state, its place among the
    /// rows of this state, the first such point and its case.
    pub fn count_row(
        &mut self,
        compared: &Compared,
        state: &[u8],
        head: &Line,
    ) -> Result<(), Memory> {
        self.rows = self.rows.saturating_add(1);
        self.points = self.points.saturating_add(compared.points);
        if compared.differing == 0 {
            return Ok(());
        }
        self.differences = self.differences.saturating_add(1);
        put_compared(&mut self.differing, compared, state)?;
        put_name(&mut self.differing, head)
    }
}

/// How many points of a row were walked, how many of them have another outcome than the row says, and the first of these.
#[derive(Clone, Copy)]
pub struct Compared {
    /// The place of the row, counted from 1.
    pub row: u64,
    /// How many points were walked.
    pub points: u64,
    /// How many of them differ.
    pub differing: u64,
    /// The first of those that differ.
    pub first: [u32; 12],
}

/// Names the row and its first point with another outcome.
fn put_compared(out: &mut Text, compared: &Compared, state: &[u8]) -> Result<(), Memory> {
    out.put(state)?;
    out.put(b" row ")?;
    put_dec(out, compared.row)?;
    out.put(b" differs at ")?;
    put_dec(out, compared.differing)?;
    out.put(b" points, first at")?;
    for value in &compared.first {
        out.put(b" ")?;
        put_dec(out, u64::from(*value))?;
    }
    out.put(b" in")
}
